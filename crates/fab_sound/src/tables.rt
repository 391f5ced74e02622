//! What modules declare, by name, and counts by name.

ghost use Rattle.std.specs.Prelude.{◌≡◌, ◌+◌, ℕ, List, true, not, is_some, IfOk, OnOk};
ghost use Rattle.fab_syntax.specs.Declarations.{width, width_if_any, one_if_same};
ghost use Rattle.fab_sound.specs.inner.Checks.{found, Gives, count_at, shape_declared, is_scalar_entry, port_declares};

use fab_base::{Memory, Name};
use fab_syntax::{Module, Port, Shape};
use indexmap::IndexMap;

/// How a module declares a name.
#[derive(Clone, Copy, Debug, PartialEq, Eq)]
pub enum Declared {
    Input(Shape),
    Output(Shape),
    /// A wire or a register.
    Inner(Shape),
    Instance,
}

/// A module with what it declares.
#[derive(Drop)]
pub struct Known<'a> {
    pub module: &'a Module,
    pub names: IndexMap<&'a [u8], Declared>,
}

/// The modules of a text, each with its number by its name.
#[derive(Drop)]
pub struct Library<'a> {
    pub numbers: IndexMap<&'a [u8], usize>,
    pub modules: Vec<Known<'a>>,
}

/// Takes a name into what a module declares, and says whether it is new.
pub fn declare<'a>(
    names: &mut IndexMap<&'a [u8], Declared>,
    name: &'a Name,
    declared: Declared,
) -> Result<bool, Memory>
    ensures new { IfOk result (λ new. new ≡ not (is_some (found names.old name.now))) }
    ensures gives { IfOk result (λ new. new ≡ true → Gives names.old names.new name.now declared) }
{
    if names.get(name.bytes()).is_some() {
        return Ok(false);
    }
    names.insert(name.bytes(), declared)?;
    Ok(true)
}

/// Takes the name of a module into its numbers, and says whether it is new.
pub fn enter<'a>(
    numbers: &mut IndexMap<&'a [u8], usize>,
    name: &'a Name,
    number: usize,
) -> Result<bool, Memory>
    ensures new { IfOk result (λ new. new ≡ not (is_some (found numbers.old name.now))) }
    ensures gives { IfOk result (λ new. new ≡ true → Gives numbers.old numbers.new name.now number) }
{
    if numbers.get(name.bytes()).is_some() {
        return Ok(false);
    }
    numbers.insert(name.bytes(), number)?;
    Ok(true)
}

/// How a name is declared.
pub fn declaration(names: &IndexMap<&[u8], Declared>, name: &Name) -> Option<Declared>
    ensures { result ≡ found names.now name.now }
{
    names.get(name.bytes()).copied()
}

/// How a port is declared.
pub fn port_declaration(port: &Port) -> Declared
    ensures { result ≡ port_declares port.now }
{
    if port.input {
        Declared::Input(port.shape)
    } else {
        Declared::Output(port.shape)
    }
}

/// The shape of a net.
pub fn shape_of(names: &IndexMap<&[u8], Declared>, name: &Name) -> Option<Shape>
    ensures { result ≡ shape_declared (found names.now name.now) }
{
    match declaration(names, name) {
        Some(Declared::Input(shape)) => Some(shape),
        Some(Declared::Output(shape)) => Some(shape),
        Some(Declared::Inner(shape)) => Some(shape),
        Some(Declared::Instance) => None,
        None => None,
    }
}

/// How many bits a shape has.
pub fn bits_of(shape: Shape) -> u64
    ensures { result ≡ width shape }
{
    match shape {
        Shape::Scalar => 1,
        Shape::Vector(width) => width as u64,
    }
}

/// How many bits a net has; 0 where there is none of the name.
pub fn width_of(names: &IndexMap<&[u8], Declared>, name: &Name) -> u64
    ensures { result ≡ width_if_any (shape_declared (found names.now name.now)) }
{
    match shape_of(names, name) {
        Some(shape) => bits_of(shape),
        None => 0,
    }
}

/// Whether a name is an input of one bit without a range.
pub fn is_scalar_input(names: &IndexMap<&[u8], Declared>, name: &Name) -> bool
    ensures { result ≡ is_scalar_entry (found names.now name.now) }
{
    match declaration(names, name) {
        Some(Declared::Input(Shape::Scalar)) => true,
        _ => false,
    }
}

/// One more of a name.
pub fn count_up<'a>(counts: &mut IndexMap<&'a [u8], u64>, name: &'a Name) -> Result<(), Memory>
    ensures { OnOk result ((other : List ℕ) → count_at counts.new other ≡ one_if_same name.now other + count_at counts.old other) }
{
    let Some(count) = count_of(counts, name).checked_add(1) else {
        return Err(Memory);
    };
    counts.insert(name.bytes(), count)?;
    Ok(())
}

/// How many of a name there are.
pub fn count_of(counts: &IndexMap<&[u8], u64>, name: &Name) -> u64
    ensures { result ≡ count_at counts.now name.now }
{
    match counts.get(name.bytes()) {
        Some(count) => *count,
        None => 0,
    }
}
