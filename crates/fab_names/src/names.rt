//! The names of a tile so far.

ghost use Rattle.std.specs.Prelude.{◌≡◌, ◌++◌, ◌||◌, [], IfOk, OnOk};
ghost use Rattle.std.specs.List.{list_any};
ghost use Rattle.std.specs.Str.{bytes_eq};
ghost use Rattle.fab_names.specs.Names.{all_names, come_twice, has_bit, names_of, sides_of, with_pins, with_sides};
ghost use Rattle.fab_lines.specs.Items.{is_among};
ghost use Rattle.fab_names.specs.inner.Sides.{opt_meets, sides_meet};

use crate::family::Family;
use crate::family_set::Families;
use fab_base::{Memory, Name};
use std::alloc::Global;
use std::marker::Model;

/// The names of a tile so far: families, and the names of pins.
#[derive(Debug, Drop)]
pub struct Names {
    families: Families,
    pins: Vec<Name>,
}

impl Model for Names {
    ghost use Rattle.fab_names.specs.Names.{PlainNames};

    ghost Value = { PlainNames };

    ghost view = { λ n. record { families = n.families; pins = n.pins.items } };
}

fn is_pin(pins: &[Name], name: &[u8]) -> bool
    ensures { result ≡ list_any (bytes_eq name.now) pins.now }
{
    pins.iter().any(|pin| name == pin.bytes())
}

fn has_pin(pins: &[Name], new: &Family) -> bool
    ensures { result ≡ list_any (has_bit new.now) pins.now }
{
    pins.iter().any(|pin| new.has_bit(pin.bytes()))
}

fn either(one: bool, other: bool) -> bool
    ensures { result ≡ (one || other) }
{
    one || other
}

fn sides_meet(source: &Option<Family>, dest: &Option<Family>) -> bool
    ensures { result ≡ sides_meet source.now dest.now }
{
    match source {
        None => false,
        Some(source) => match dest {
            None => false,
            Some(dest) => source.meets(dest),
        },
    }
}

impl Names {
    /// No names.
    pub fn new(alloc: Global) -> Names
        ensures { result ≡ record { families = []; pins = [] } }
    {
        Names {
            families: Families::new(alloc),
            pins: Vec::new(alloc),
        }
    }

    /// Whether this is a name.
    fn has(&self, name: &[u8]) -> bool
        ensures { result ≡ is_among (all_names self.now) name.now }
    {
        let bit = self.families.has_bit(name);
        let pin = is_pin(&self.pins, name);
        either(bit, pin)
    }

    fn meets_family(&self, new: &Family) -> bool
        ensures { result ≡ list_any (has_bit new.now) (all_names self.now) }
    {
        let family = self.families.meets(new);
        let pin = has_pin(&self.pins, new);
        either(family, pin)
    }

    fn meets_side(&self, side: &Option<Family>) -> bool
        ensures { result ≡ opt_meets self.now side.now }
    {
        match side {
            None => false,
            Some(family) => self.meets_family(family),
        }
    }

    /// Whether a name of these sides of a row is a name already, or stands twice in them.
    pub fn meets(&self, source: &Option<Family>, dest: &Option<Family>) -> bool
        ensures { result ≡ come_twice (all_names self.now) (names_of (sides_of source.now dest.now)) }
    {
        let first = self.meets_side(source);
        let second = self.meets_side(dest);
        let both = sides_meet(source, dest);
        either(first, either(second, both))
    }

    /// Whether one of these is a name already, or stands twice among them.
    pub fn meets_pins(&self, pins: &[Name]) -> bool
        ensures { result ≡ come_twice (all_names self.now) pins.now }
    {
        for place in 0..pins.len() {
            let name = pins[place].bytes();
            let before = self.has(name);
            let (seen, _) = pins.split_at(place);
            let twice = is_pin(seen, name);
            if either(before, twice) {
                return true;
            }
        }
        false
    }

    /// Adds the names of these sides of a row.
    pub fn push(
        &mut self,
        alloc: Global,
        source: Option<Family>,
        dest: Option<Family>,
    ) -> Result<(), Memory>
        ensures { OnOk result (self.new ≡ with_sides self.old source dest) }
    {
        if let Some(family) = source {
            self.families.push(alloc, family)?;
        }
        if let Some(family) = dest {
            self.families.push(alloc, family)?;
        }
        Ok(())
    }

    /// Adds names of pins.
    pub fn push_pins(&mut self, pins: Vec<Name>) -> Result<(), Memory>
        ensures { OnOk result (self.new ≡ with_pins self.old pins.items) }
    {
        for pin in pins {
            self.pins.push(pin)?;
        }
        Ok(())
    }
}
