//! The bytes of a word, which are taken at once.

ghost use Rattle.std.specs.Prelude.{◌≡◌, ◌≤◌, true, length, take};
ghost use Rattle.std.specs.List.{list_all};
ghost use Rattle.fab_tokens.specs.Literals.{is_word_byte};

// Whether a byte is a letter, a digit or `_`.
fn is_word_byte(byte: u8) -> bool
    ensures { result ≡ is_word_byte byte }
{
    (b'A' <= byte && byte <= b'Z')
        || (b'a' <= byte && byte <= b'z')
        || (b'0' <= byte && byte <= b'9')
        || byte == b'_'
}

/// How many bytes at the front are letters, digits or `_`.
pub(crate) fn word_len(bytes: &[u8]) -> usize
    ensures within { result ≤ length bytes.now }
    ensures word { list_all is_word_byte (take result bytes.now) ≡ true }
{
    for (place, byte) in bytes.iter().enumerate() {
        if !is_word_byte(*byte) {
            return place;
        }
    }
    bytes.len()
}
