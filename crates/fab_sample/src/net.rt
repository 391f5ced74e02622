//! The nets of a sample's design.

ghost use Rattle.std.specs.Prelude.{◌≡◌, ◌++◌, ◌≤◌, ◌∷◌, IfOk, OnOk, decimal, map};
ghost use Rattle.std.specs.List.{flat_map};
ghost use Rattle.fab_sample.specs.Drawn.{net_at};
ghost use Rattle.fab_sample.specs.Netlists.{inputs, net_name, names, outputs};

use fab_base::Memory;
use itoa::Buffer;
use std::alloc::Global;

/// A net, by what drives it and its number.
#[derive(Clone, Copy)]
pub enum Net {
    /// An input port.
    Input(usize),
    /// A latch.
    Latch(usize),
    /// A cover.
    Cover(usize),
    /// The buffer of an output port.
    Output(usize),
}

/// The net at a place, where the inputs come first, then the latches, then the covers.
pub fn net_at(size: usize, place: usize) -> Net
    requires { size ≤ 16 }
    ensures { result ≡ net_at size place }
{
    if place < size {
        Net::Input(place)
    } else if place < 2 * size {
        Net::Latch(place - size)
    } else {
        Net::Cover(place - 2 * size)
    }
}

/// The nets of the input ports.
pub fn inputs(alloc: Global, size: usize) -> Result<Vec<Net>, Memory>
    ensures { IfOk result (λ nets. nets.items ≡ inputs size) }
{
    let mut nets = Vec::new(alloc);
    for number in 0..size {
        nets.push(Net::Input(number))?;
    }
    Ok(nets)
}

/// The nets of the output ports.
pub fn outputs(alloc: Global, size: usize) -> Result<Vec<Net>, Memory>
    ensures { IfOk result (λ nets. nets.items ≡ outputs size) }
{
    let mut nets = Vec::new(alloc);
    for number in 0..size {
        nets.push(Net::Output(number))?;
    }
    Ok(nets)
}

/// Adds a letter and a number.
fn put_lettered(out: &mut Vec<u8>, letter: &[u8], number: usize) -> Result<(), Memory>
    ensures { OnOk result (out.new.items ≡ out.old.items ++ (letter.now ++ decimal number)) }
{
    out.extend_from_slice(letter)?;
    out.extend_from_slice(Buffer::new().format(number).as_bytes())?;
    Ok(())
}

/// Adds the name of a net.
fn put_net(out: &mut Vec<u8>, net: Net) -> Result<(), Memory>
    ensures { OnOk result (out.new.items ≡ out.old.items ++ net_name net) }
{
    match net {
        Net::Input(number) => put_lettered(out, b"i", number),
        Net::Latch(number) => put_lettered(out, b"q", number),
        Net::Cover(number) => put_lettered(out, b"n", number),
        Net::Output(number) => put_lettered(out, b"o", number),
    }
}

/// Adds the names of nets with a blank in front of each.
fn put_further_names(out: &mut Vec<u8>, nets: &[Net]) -> Result<(), Memory>
    ensures { OnOk result (out.new.items ≡ out.old.items ++ flat_map (λ part. 32 ∷ part) (map net_name nets.now)) }
{
    for net in nets {
        out.push(b' ')?;
        put_net(out, *net)?;
    }
    Ok(())
}

/// Adds the names of nets with a blank between two.
pub fn put_names(out: &mut Vec<u8>, nets: &[Net]) -> Result<(), Memory>
    ensures { OnOk result (out.new.items ≡ out.old.items ++ names nets.now) }
{
    match nets {
        [] => Ok(()),
        [first, rest @ ..] => {
            put_net(out, *first)?;
            put_further_names(out, rest)
        }
    }
}
