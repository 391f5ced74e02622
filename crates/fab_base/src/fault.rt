//! What ends a command before its work is done: the fault, its number and its report.

ghost use Rattle.std.specs.Prelude.{◌≡◌, ◌++◌, OnOk, IfOk, codes, decimal};
ghost use Rattle.fab_base.specs.declared.fault.Fault.TheVariants as faults;
ghost use Rattle.fab_base.specs.Report.{number_of, report, spaced, place_text, kind_text, line_end};

use crate::memory::Memory;
use crate::name::Name;
use crate::words::{Quantity, Reason};
use itoa::Buffer;
use std::alloc::{AllocError, AllocFailed, Global};

/// A line of a file. Lines are counted from 1; 0 stands for the file as a whole.
#[derive(Debug, Drop)]
pub struct Place {
    pub file: Name,
    pub line: u32,
}

/// The two kinds of sites that a design is bound to.
#[derive(Clone, Copy, Debug, PartialEq, Eq)]
pub enum SiteKind {
    /// A LUT4c, which takes a cell.
    Lut,
    /// An IO pad, which takes a port.
    Pad,
}

/// Why a command ended before its work was done.
#[derive(Debug, Drop)]
pub enum Fault {
    /// The words are no form of a command.
    Usage,
    /// A file is absent.
    Missing(Name),
    /// A file is longer than a desk hands out.
    TooLong(Name),
    /// A line is malformed.
    Malformed(Place, Reason),
    /// A line holds a construct that fab does not support.
    Unsupported(Place, Name),
    /// A quantity, here with its value, is above its bound.
    Limit(Place, Quantity, u64, u64),
    /// The design needs more sites of a kind than the fabric has: need and supply.
    Short(SiteKind, u32, u32),
    /// A net does not reach a wire: net, wire, and the placement as an implementation text.
    NoPath(Name, Name, Name),
    /// Two nets share a wire: wire, nets, and placement and trees as an implementation text.
    Overused(Name, Name, Name, Name),
    /// An implementation breaks a rule at an item.
    Illegal(u8, Name),
    /// The device failed to read a file.
    ReadFault(Name),
    /// The device failed to write a file.
    WriteFault(Name),
    /// An allocation was refused.
    Memory,
}

/// The number with which a command ends: 0, or that of its fault.
#[derive(Clone, Copy, Debug, PartialEq, Eq)]
pub struct Status(pub u8);

impl From<Memory> for Fault {
    ghost from_gives = { λ _ fault. fault ≡ faults.Memory };

    fn from(_: Memory) -> Fault {
        Fault::Memory
    }
}

impl From<AllocError> for Fault {
    ghost from_gives = { λ _ fault. fault ≡ faults.Memory };

    fn from(_: AllocError) -> Fault {
        Fault::Memory
    }
}

impl<T: Drop> From<AllocFailed<T>> for Fault {
    ghost from_gives = { λ _ fault. fault ≡ faults.Memory };

    fn from(_: AllocFailed<T>) -> Fault {
        Fault::Memory
    }
}

impl SiteKind {
    /// The name that reports print.
    pub fn text(self) -> &'static [u8]
        ensures { result.now ≡ kind_text self }
    {
        match self {
            SiteKind::Lut => b"LUT4c",
            SiteKind::Pad => b"IO",
        }
    }
}

fn put(out: &mut Vec<u8>, text: &[u8]) -> Result<(), Memory>
    ensures { OnOk result (out.new.items ≡ out.old.items ++ text.now) }
{
    out.extend_from_slice(text)?;
    Ok(())
}

fn put_word(out: &mut Vec<u8>, word: &[u8]) -> Result<(), Memory>
    ensures { OnOk result (out.new.items ≡ out.old.items ++ spaced word.now) }
{
    out.push(b' ')?;
    out.extend_from_slice(word)?;
    Ok(())
}

fn put_number(out: &mut Vec<u8>, number: u64) -> Result<(), Memory>
    ensures { OnOk result (out.new.items ≡ out.old.items ++ spaced (decimal number)) }
{
    put_word(out, Buffer::new().format(number).as_bytes())
}

fn put_place(out: &mut Vec<u8>, place: &Place) -> Result<(), Memory>
    ensures { OnOk result (out.new.items ≡ out.old.items ++ spaced (place_text place.now)) }
{
    put_word(out, place.file.bytes())?;
    out.push(b':')?;
    put(out, Buffer::new().format(place.line).as_bytes())
}

fn put_of_file(out: &mut Vec<u8>, head: &[u8], file: &Name) -> Result<(), Memory>
    ensures { OnOk result (out.new.items ≡ out.old.items ++ (head.now ++ spaced file.now ++ line_end)) }
{
    put(out, head)?;
    put_word(out, file.bytes())?;
    put(out, b"\n")
}

fn put_of_line(out: &mut Vec<u8>, head: &[u8], place: &Place, words: &[u8]) -> Result<(), Memory>
    ensures { OnOk result (out.new.items ≡ out.old.items ++ (head.now ++ spaced (place_text place.now) ++ spaced words.now)) }
{
    put(out, head)?;
    put_place(out, place)?;
    put_word(out, words)
}

fn put_of_two(out: &mut Vec<u8>, head: &[u8], first: &Name, second: &Name) -> Result<(), Memory>
    ensures { OnOk result (out.new.items ≡ out.old.items ++ (head.now ++ spaced first.now ++ spaced second.now)) }
{
    put(out, head)?;
    put_word(out, first.bytes())?;
    put_word(out, second.bytes())
}

fn put_short(out: &mut Vec<u8>, kind: SiteKind, need: u32, have: u32) -> Result<(), Memory>
    ensures { OnOk result (out.new.items ≡ out.old.items ++ (codes "short" ++ spaced (kind_text kind) ++ spaced (decimal need) ++ spaced (decimal have) ++ line_end)) }
{
    put(out, b"short")?;
    put_word(out, kind.text())?;
    put_number(out, u64::from(need))?;
    put_number(out, u64::from(have))?;
    put(out, b"\n")
}

fn put_illegal(out: &mut Vec<u8>, rule: u8, item: &Name) -> Result<(), Memory>
    ensures { OnOk result (out.new.items ≡ out.old.items ++ (codes "illegal" ++ spaced (decimal rule) ++ spaced item.now ++ line_end)) }
{
    put(out, b"illegal")?;
    put_number(out, u64::from(rule))?;
    put_word(out, item.bytes())?;
    put(out, b"\n")
}

impl Fault {
    /// The number of the fault, 1 to 13 in the order of the variants.
    pub fn status(&self) -> Status
        ensures { result ≡ number_of self.now }
    {
        match self {
            Fault::Usage => Status(1),
            Fault::Missing(_) => Status(2),
            Fault::TooLong(_) => Status(3),
            Fault::Malformed(_, _) => Status(4),
            Fault::Unsupported(_, _) => Status(5),
            Fault::Limit(_, _, _, _) => Status(6),
            Fault::Short(_, _, _) => Status(7),
            Fault::NoPath(_, _, _) => Status(8),
            Fault::Overused(_, _, _, _) => Status(9),
            Fault::Illegal(_, _) => Status(10),
            Fault::ReadFault(_) => Status(11),
            Fault::WriteFault(_) => Status(12),
            Fault::Memory => Status(13),
        }
    }

    /// The report: its line with the line feed, and after `no path` and `overused` the implementation text. Want of
    /// memory has no report, and the name is empty.
    pub fn text(&self, alloc: Global) -> Result<Name, Memory>
        ensures { IfOk result (λ name. name ≡ report self.now) }
    {
        let mut out = Vec::new(alloc);
        self.put_report(&mut out)?;
        Ok(Name::from(out))
    }

    fn put_report(&self, out: &mut Vec<u8>) -> Result<(), Memory>
        ensures { OnOk result (out.new.items ≡ out.old.items ++ report self.now) }
    {
        match self {
            Fault::Usage => put(out, b"usage\n"),
            Fault::Missing(file) => put_of_file(out, b"missing", file),
            Fault::TooLong(file) => put_of_file(out, b"too long", file),
            Fault::Malformed(place, reason) => {
                put_of_line(out, b"malformed", place, reason.words())?;
                put(out, b"\n")
            }
            Fault::Unsupported(place, construct) => {
                put_of_line(out, b"unsupported", place, construct.bytes())?;
                put(out, b"\n")
            }
            Fault::Limit(place, quantity, value, bound) => {
                put_of_line(out, b"limit", place, quantity.words())?;
                put_number(out, *value)?;
                put_number(out, *bound)?;
                put(out, b"\n")
            }
            Fault::Short(kind, need, have) => put_short(out, *kind, *need, *have),
            Fault::NoPath(net, wire, placement) => {
                put_of_two(out, b"no path", net, wire)?;
                put(out, b"\n")?;
                put(out, placement.bytes())
            }
            Fault::Overused(wire, first, second, placement) => {
                put_of_two(out, b"overused", wire, first)?;
                put_word(out, second.bytes())?;
                put(out, b"\n")?;
                put(out, placement.bytes())
            }
            Fault::Illegal(rule, item) => put_illegal(out, *rule, item),
            Fault::ReadFault(file) => put_of_file(out, b"read fault", file),
            Fault::WriteFault(file) => put_of_file(out, b"write fault", file),
            Fault::Memory => Ok(()),
        }
    }
}
