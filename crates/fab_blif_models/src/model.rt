//! The models of a BLIF file.

use fab_base::Name;
use fab_netlist::Cube;

/// A model, as its lines spell it.
#[derive(Debug, Drop)]
pub struct Model {
    /// The number of its `.model` line.
    pub line: u32,
    pub name: Name,
    pub statements: Vec<Statement>,
}

/// A line of a model. A joined line has the number of the first line that it is joined of.
#[derive(Debug, Drop)]
pub struct Statement {
    pub line: u32,
    pub body: Body,
}

/// What a line of a model says.
#[derive(Debug, Drop)]
pub enum Body {
    /// Input ports.
    Inputs(Vec<Name>),
    /// Output ports.
    Outputs(Vec<Name>),
    /// A clock input.
    Clock(Name),
    /// A cover, or a buffer, with its rows in the order of the file. Where `on` is true the output is 1 exactly where some
    /// row matches the inputs, and else 0 exactly there.
    Cover {
        inputs: Vec<Name>,
        output: Name,
        on: bool,
        rows: Vec<Cube>,
    },
    /// A latch of initial value 0 to 3; a control `NIL` is none.
    Latch {
        input: Name,
        output: Name,
        control: Option<Name>,
        initial: u8,
    },
    /// An instance of the model of this name, and its words `formal=actual` as they are written.
    Instance(Name, Vec<Name>),
}
