//! How lines of words are printed.

ghost use Rattle.std.specs.Prelude.{◌≡◌, ◌++◌, OnOk, map};
ghost use Rattle.fab_texts.specs.Printed.{spaced, row_text};

use fab_base::Memory;

/// Adds the words with a blank between two.
fn put_words(out: &mut Vec<u8>, words: &[&[u8]]) -> Result<(), Memory>
    ensures { OnOk result (out.new.items ≡ out.old.items ++ spaced (map (λ w. w.now) words.now)) }
{
    for (place, word) in words.iter().enumerate() {
        if 0 < place {
            out.push(b' ')?;
        }
        out.extend_from_slice(word)?;
    }
    Ok(())
}

/// Adds a line of these words, with a blank between two and a line feed at its end.
pub fn put_row(out: &mut Vec<u8>, words: &[&[u8]]) -> Result<(), Memory>
    ensures { OnOk result (out.new.items ≡ out.old.items ++ row_text (map (λ w. w.now) words.now)) }
{
    put_words(out, words)?;
    out.push(b'\n')?;
    Ok(())
}
