//! The bits of an instance.

ghost use Rattle.std.specs.Prelude.{◌≡◌, ◌<◌, false, IfOk, slice_set, slice_index_or, replicate};
ghost use Rattle.fab_meaning.specs.Value.{bit_at};
ghost use Rattle.fab_values.specs.Declarations.{bits_of, bits_named, found_in};
ghost use Rattle.fab_values.specs.Evaluation.{IsWhole};

use crate::names::{Local, Names, bits_of_shape};
use fab_base::Memory;
use std::alloc::Global;
use std::marker::Model;

/// The bits of the points of an instance, in the order of its declarations. Contracts see them as the declarations and the
/// list of all bits.
#[derive(Drop)]
pub struct Values<'a> {
    names: &'a Names,
    bits: Vec<bool>,
}

impl<'a> Model for Values<'a> {
    ghost use Rattle.fab_values.specs.Evaluation.{Held, IsWhole};

    ghost Value = { Held };

    ghost view = { λ values. record { declarations = values.names.now; bits = values.bits.items } };

    ghost invariant = { λ values. IsWhole (record { declarations = values.names.now; bits = values.bits.items }) };
}

impl<'a> Values<'a> {
    /// All bits 0, over these names.
    pub fn of(alloc: Global, names: &'a Names) -> Result<Values<'a>, Memory>
        ensures declarations { IfOk result (λ values. values.declarations ≡ names.now) }
        ensures bits { IfOk result (λ values. values.bits ≡ replicate (bits_of names.now) false) }
    {
        let bits = vec![in alloc; false; names.bits() as usize]?;
        Ok(Values { names, bits })
    }

    /// Writes the bit at a place and leaves all others.
    pub fn set(&mut self, place: u32, value: bool)
        requires { place < bits_of self.old.declarations }
        ensures declarations { self.new.declarations ≡ self.old.declarations }
        ensures bits { self.new.bits ≡ slice_set self.old.bits place value }
    {
        self.bits[place as usize] = value;
    }

    /// The bit at a place.
    pub fn get(&self, place: u32) -> bool
        requires { place < bits_of self.now.declarations }
        ensures { result ≡ slice_index_or self.now.bits place false }
    {
        self.bits[place as usize]
    }

    // Whether there is a bit for each bit of each declaration: always.
    pub(crate) fn whole(&self)
        ensures { IsWhole self.now }
    {
        let _ = &self.bits;
    }

    // Where the bits of a name begin, and how it is declared.
    pub(crate) fn local(&self, name: &[u8]) -> Option<Local>
        ensures { result ≡ found_in self.now.declarations name.now }
    {
        self.names.get(name)
    }

    // The bit of a name; 0 past its last one, and where the name is not declared.
    pub(crate) fn bit_of(&self, name: &[u8], bit: u64) -> bool
        ensures { result ≡ bit_at (bits_named self.now.declarations self.now.bits name.now) bit }
    {
        let Some(local) = self.names.get(name) else {
            return false;
        };
        if bit >= u64::from(bits_of_shape(local.shape)) {
            return false;
        }
        self.bits[(u64::from(local.first) + bit) as usize]
    }
}
