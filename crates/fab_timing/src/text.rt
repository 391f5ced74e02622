//! How a path is printed.

ghost use Rattle.std.specs.Prelude.{◌≡◌, ◌++◌, ◌∷◌, ◌<◌, [], All, IfOk, OnOk, codes, map};
ghost use Rattle.fab_fabric.specs.Fabric.{wire_count};
ghost use Rattle.fab_texts.specs.Printed.{row_text, rows_text};
ghost use Rattle.fab_impl.specs.Names.{wire_text};
ghost use Rattle.fab_timing.specs.Text.{stop_line, timing_text};

use crate::timing::Path;
use fab_base::{Memory, Name};
use fab_fabric::{Fabric, Wire};
use fab_texts::put_row;
use itoa::Buffer;
use std::alloc::Global;

fn put_delay(out: &mut Vec<u8>, delay: &[u8]) -> Result<(), Memory>
    ensures { OnOk result (out.new.items ≡ out.old.items ++ row_text (codes "delay" ∷ delay.now ∷ [])) }
{
    put_row(out, &[b"delay", delay])
}

fn put_stop(out: &mut Vec<u8>, sum: &[u8], wire: &[u8]) -> Result<(), Memory>
    ensures { OnOk result (out.new.items ≡ out.old.items ++ row_text (codes "at" ∷ sum.now ∷ wire.now ∷ [])) }
{
    put_row(out, &[b"at", sum, wire])
}

fn wire_text(alloc: Global, fabric: &Fabric, wire: Wire) -> Result<Name, Memory>
    requires { wire.0 < wire_count fabric.now }
    ensures { IfOk result (λ name. name ≡ wire_text fabric.now wire) }
{
    fabric.wire_name(alloc, wire)
}

fn put_stops(
    out: &mut Vec<u8>,
    alloc: Global,
    fabric: &Fabric,
    stops: &[(Wire, u64)],
) -> Result<(), Memory>
    requires { All (λ stop. stop.0.0 < wire_count fabric.now) stops.now }
    ensures { OnOk result (out.new.items ≡ out.old.items ++ rows_text (map (stop_line fabric.now) stops.now)) }
{
    for (wire, sum) in stops {
        let wire = wire_text(alloc, fabric, *wire)?;
        put_stop(out, Buffer::new().format(*sum).as_bytes(), wire.bytes())?;
    }
    Ok(())
}

/// The text of a path: its delay, then its stops in order, each with the sum of units up to it and the name of its wire.
pub fn print_timing(alloc: Global, fabric: &Fabric, path: &Path) -> Result<Vec<u8>, Memory>
    requires { All (λ stop. stop.0.0 < wire_count fabric.now) path.now.stops }
    ensures { IfOk result (λ text. text.items ≡ timing_text fabric.now path.now) }
{
    let mut out = Vec::new(alloc);
    put_row(&mut out, &[b"fabulous-timing", b"1"])?;
    put_delay(&mut out, Buffer::new().format(path.delay).as_bytes())?;
    put_stops(&mut out, alloc, fabric, &path.stops)?;
    put_row(&mut out, &[b"end"])?;
    Ok(out)
}
