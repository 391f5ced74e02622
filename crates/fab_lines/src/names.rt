//! Which words are names.

ghost use Rattle.std.specs.Prelude.{◌≡◌};
ghost use Rattle.std.specs.List.{list_all, list_any};
ghost use Rattle.fab_lines.specs.Names.{begins_name, is_identifier, is_name, is_of_name, is_reserved, is_upper, is_wire_name};

/// The most bytes of a name.
const MAX_NAME_BYTES: usize = 64;

fn is_upper(byte: u8) -> bool
    ensures { result ≡ is_upper byte }
{
    b'A' <= byte && byte <= b'Z'
}

fn begins_name(byte: u8) -> bool
    ensures { result ≡ begins_name byte }
{
    b'a' <= byte && byte <= b'z' || is_upper(byte) || byte == b'_'
}

fn is_of_name(byte: u8) -> bool
    ensures { result ≡ is_of_name byte }
{
    begins_name(byte) || b'0' <= byte && byte <= b'9'
}

fn is_all_of_name(word: &[u8]) -> bool
    ensures { result ≡ list_all is_of_name word.now }
{
    word.iter().all(|byte| is_of_name(*byte))
}

fn has_upper(word: &[u8]) -> bool
    ensures { result ≡ list_any is_upper word.now }
{
    word.iter().any(|byte| is_upper(*byte))
}

/// Whether the word has the form of a name, of any length: a letter or `_`, then letters, digits and `_`.
pub fn is_identifier(word: &[u8]) -> bool
    ensures { result ≡ is_identifier word.now }
{
    if word.is_empty() {
        return false;
    }
    begins_name(word[0]) && is_all_of_name(word)
}

/// Whether the generator takes the word for itself: it begins with `fab_` or is `ConfigBits`.
pub fn is_reserved(word: &[u8]) -> bool
    ensures { result ≡ is_reserved word.now }
{
    word.starts_with(b"fab_") || word == b"ConfigBits".as_slice()
}

/// Whether the word is a name: a letter or `_`, then letters, digits and `_`, of at most 64 bytes.
pub fn is_name(word: &[u8]) -> bool
    ensures { result ≡ is_name word.now }
{
    is_identifier(word) && word.len() <= MAX_NAME_BYTES
}

/// Whether the word names a wire or a matrix pin: of the form of a name, of any length, with an upper-case letter, and
/// not one that the generator takes for itself.
pub fn is_wire_name(word: &[u8]) -> bool
    ensures { result ≡ is_wire_name word.now }
{
    is_identifier(word) && has_upper(word) && !is_reserved(word)
}
