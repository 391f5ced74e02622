//! What basic elements show, and what their flip-flops hold next.

use crate::bits::bits_of;
use fab_desk::{Desk, Sink};
use fab_examples::{Stop, fetch};
use fab_kinds::Kind;
use std::alloc::{AllocError, Global};
use std::str;

/// Prints how many inputs, outputs and configuration bits a kind has, and the names of its pins.
pub fn put_pins<S: Sink>(alloc: Global, out: &mut S, kind: Kind) -> Result<(), Stop> {
    let inputs = kind.inputs();
    let outputs = kind.outputs();
    let bits = kind.bits();
    let mut text = format!(in alloc; "{inputs} inputs, {outputs} outputs, {bits} bits:")?;
    for pin in 0..inputs + outputs {
        text.push(' ')?;
        text.push_str(kind.pin_name(pin))?;
    }
    text.push('\n')?;
    out.put(text.as_bytes())?;
    Ok(())
}

/// The values of an element in one moment.
#[derive(Drop)]
struct Moment {
    pins: Vec<bool>,
    held: bool,
    top: bool,
    config: Vec<bool>,
}

// The moment of a line: the input pins, what the flip-flop holds, what comes from the outside, and the configuration bits, the first
// of each in front.
fn moment_of(alloc: Global, line: &str) -> Result<Moment, AllocError> {
    let mut words = line.split(' ');
    let pins = bits_of(alloc, words.next().unwrap_or(""))?;
    let held = words.next().unwrap_or("") == "1";
    let top = words.next().unwrap_or("") == "1";
    let config = bits_of(alloc, words.next().unwrap_or(""))?;
    Ok(Moment {
        pins,
        held,
        top,
        config,
    })
}

// Adds a name and its bit.
fn put_bit(text: &mut String, name: &str, bit: bool) -> Result<(), AllocError> {
    text.push(' ')?;
    text.push_str(name)?;
    text.push(if bit { '1' } else { '0' })
}

// The outputs of an element in a moment, and what its flip-flop holds next.
fn shown(alloc: Global, kind: Kind, moment: &Moment) -> Result<String, Stop> {
    let Moment {
        pins,
        held,
        top,
        config,
    } = moment;
    let inputs = kind.inputs();
    if pins.len() != inputs as usize || config.len() != kind.bits() as usize {
        return Err(Stop::Data);
    }
    let mut text = String::new(alloc);
    for pin in inputs..inputs + kind.outputs() {
        let bit = kind.output(pin, pins, config, *held, *top);
        put_bit(&mut text, kind.pin_name(pin), bit)?;
    }
    if kind.has_flip_flop() {
        put_bit(&mut text, "next", kind.next(pins, config, *held, *top))?;
    }
    Ok(text)
}

// Prints this for each line of a file.
fn put_moments<D: Desk, S: Sink>(
    alloc: Global,
    desk: &mut D,
    out: &mut S,
    kind: Kind,
    file: &str,
) -> Result<(), Stop> {
    let bytes = fetch(alloc, desk, file)?;
    for line in str::from_utf8(&bytes)?.lines() {
        let moment = moment_of(alloc, line)?;
        let shown = shown(alloc, kind, &moment)?;
        out.put(format!(in alloc; "{line}:{shown}\n")?.as_bytes())?;
    }
    Ok(())
}

/// Prints what elements of each kind show in some moments.
pub fn put_kinds<D: Desk, S: Sink>(alloc: Global, desk: &mut D, out: &mut S) -> Result<(), Stop> {
    put_moments(alloc, desk, out, Kind::Lut4c, "lut.lines")?;
    put_moments(alloc, desk, out, Kind::Io, "pad.lines")?;
    put_moments(alloc, desk, out, Kind::Mux8, "mux.lines")
}
