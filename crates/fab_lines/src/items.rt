//! Items of a list by their place.

ghost use Rattle.std.specs.Prelude.{◌≡◌, map};
ghost use Rattle.fab_lines.specs.Items.{word_at};

/// Of the words of a line the one at a place; it is empty past the end.
pub fn word_at<'a>(words: &[&'a [u8]], place: usize) -> &'a [u8]
    ensures { result.now ≡ word_at (map (λ w. w.now) words.now) place }
{
    if place < words.len() {
        words[place]
    } else {
        b""
    }
}
