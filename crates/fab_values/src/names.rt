//! The declared names of a module, with the places of their bits.

ghost use Rattle.std.specs.Prelude.{◌≡◌, ◌+◌, ◌<◌, ◌++◌, [], ◌∷◌, IfOk, OnOk, OnErr, None};
ghost use Rattle.fab_values.specs.Declarations.{bits_of, found_in, number_of, width};

use fab_base::{Memory, Name};
use fab_syntax::Shape;
use indexmap::IndexMap;
use std::alloc::Global;
use std::marker::Model;

/// What a name of a module is declared as.
#[derive(Clone, Copy, Debug, PartialEq, Eq)]
pub enum Role {
    /// An input port.
    Input,
    /// An output port.
    Output,
    /// A wire.
    Wire,
    /// A register.
    Reg,
}

/// Where the bits of a declared name begin among the bits of all names of its module, and how it is declared.
#[derive(Clone, Copy, Debug, Drop)]
pub struct Local {
    pub first: u32,
    pub shape: Shape,
    pub role: Role,
}

/// The declared names of a module in their order. Contracts see it as the list of the declarations.
#[derive(Drop)]
pub struct Names {
    places: IndexMap<Vec<u8>, Local>,
    bits: u32,
}

impl Model for Names {
    ghost use Rattle.std.specs.Prelude.{◌≡◌, List, map};
    ghost use Rattle.fab_values.specs.Declarations.{Declaration, bits_of};

    ghost Value = { List Declaration };

    ghost use Rattle.fab_values.specs.Places.{declared, AreFrom};

    ghost view = { λ names. map declared names.places.entries };

    ghost invariant = { λ names. AreFrom 0 names.bits names.places.entries };
}

impl Names {
    /// No names.
    pub fn new(alloc: Global) -> Names
        ensures { result ≡ [] }
    {
        Names {
            places: IndexMap::new(alloc),
            bits: 0,
        }
    }

    /// How many bits they have together.
    pub fn bits(&self) -> u32
        ensures { result ≡ bits_of self.now }
    {
        self.bits
    }

    /// Where the bits of a name begin, and how it is declared; none where it is not declared.
    pub fn get(&self, name: &[u8]) -> Option<Local>
        ensures { result ≡ found_in self.now name.now }
    {
        self.places.get(name).copied()
    }

    /// The number of a name among the declarations, from 0; none where it is not declared.
    pub fn number(&self, name: &[u8]) -> Option<usize>
        ensures { result ≡ number_of self.now name.now }
    {
        self.places.get_index_of(name)
    }

    /// Declares one more name. Want of memory is also the answer where the bits are too many for 32 bits.
    pub fn declare(
        &mut self,
        alloc: Global,
        name: &Name,
        shape: Shape,
        role: Role,
    ) -> Result<(), Memory>
        requires { found_in self.old name.now ≡ None }
        ensures { OnOk result (self.new ≡ self.old ++ record { name = name.now; shape = shape; role = role } ∷ []) }
    {
        let first = self.bits;
        let Some(bits) = first.checked_add(bits_of_shape(shape)) else {
            return Err(Memory);
        };
        let key = Vec::from_slice(alloc, name.bytes())?;
        self.places.insert(key, Local { first, shape, role })?;
        self.bits = bits;
        Ok(())
    }
}

/// How many bits a shape has.
pub fn bits_of_shape(shape: Shape) -> u32
    ensures { result ≡ width shape }
{
    match shape {
        Shape::Scalar => 1,
        Shape::Vector(bits) => bits,
    }
}
