//! How lines are added to a text.

ghost use Rattle.std.specs.Prelude.{◌≡◌, ◌++◌, [], ◌∷◌, OnOk, map};
ghost use Rattle.fab_sample.specs.Lines.{text};

use fab_base::Memory;

/// Adds bytes, which may be a part of a line.
pub fn put(out: &mut Vec<u8>, bytes: &[u8]) -> Result<(), Memory>
    ensures { OnOk result (out.new.items ≡ out.old.items ++ bytes.now) }
{
    out.extend_from_slice(bytes)?;
    Ok(())
}

/// Adds a line.
pub fn put_line(out: &mut Vec<u8>, line: &[u8]) -> Result<(), Memory>
    ensures { OnOk result (out.new.items ≡ out.old.items ++ text (line.now ∷ [])) }
{
    put(out, line)?;
    put(out, b"\n")
}

/// Adds lines.
pub fn put_lines(out: &mut Vec<u8>, lines: &[&[u8]]) -> Result<(), Memory>
    ensures { OnOk result (out.new.items ≡ out.old.items ++ text (map (λ line. line.now) lines.now)) }
{
    for line in lines {
        put_line(out, line)?;
    }
    Ok(())
}
