//! The words of reports: why a line is malformed, and which quantity is above its bound.

ghost use Rattle.std.specs.Prelude.{◌≡◌};
ghost use Rattle.fab_base.specs.Words.{reason_words, quantity_words};

/// Why a line, or a whole file, is malformed.
#[derive(Clone, Copy, Debug, PartialEq, Eq)]
pub enum Reason {
    /// An unknown first cell or word, a wrong number of cells or words, or a line out of its order.
    Row,
    /// No number where one has to stand, or one out of its range.
    Number,
    /// No name where one has to stand.
    Name,
    /// The file ends where more has to follow.
    EndOfFile,
    /// Something follows the last line of a text.
    AfterEnd,
    /// A name that stood before.
    NameTwice,
    /// A block that begins or ends out of place, or a second one.
    Block,
    /// The grid is absent, empty or ragged.
    Grid,
    /// A name in the grid without a tile.
    Tile,
    /// The offsets of a wire row do not fit its direction.
    Direction,
    /// `NULL` where a wire needs an end.
    Null,
    /// A BEL without a prefix that needs one.
    Prefix,
    /// Brackets or braces that do not match.
    Bracket,
    /// The two cells of a list line expand to different numbers of names.
    CountsDiffer,
    /// A name that nothing declares.
    UnknownName,
    /// A name that is both an output and an input.
    BothSides,
    /// No digit where one has to stand.
    Digit,
    /// The first row of a configuration table.
    Header,
    /// The frame of a configuration row.
    Frame,
    /// The mask of a configuration row.
    Mask,
    /// The ranges of a configuration row.
    Range,
    /// A configuration bit that is repeated, absent or outside.
    Bit,
    /// A netlist without a model, or a line before the first one.
    NoModel,
    /// A row of a cover.
    CoverRow,
    /// A net or a wire that is not driven exactly once.
    Drivers,
    /// A net that is read and has no driver.
    Undriven,
    /// A formal port of an instance.
    Formal,
    /// No feature where one has to stand.
    Feature,
    /// The address of a feature.
    Address,
    /// The value of a feature.
    Value,
    /// The annotation of a feature.
    Annotation,
    /// A bitstream that ends within a word.
    Word,
    /// A word that no stream of the fabric has there.
    Stream,
    /// A set bit that no configuration bit has.
    SpareBit,
    /// A wire that the fabric does not have.
    Wire,
    /// A site that the fabric does not have.
    Site,
    /// A port that the design does not have.
    Port,
    /// A token that cannot stand there.
    Token,
    /// A select outside a vector, or of a scalar.
    Select,
    /// Operands or sides of unlike widths.
    Width,
    /// An instance that does not fit its module.
    Instance,
    /// A clock that is no input of the top.
    Clock,
    /// A port of the state that the text does not have.
    NoPort,
    /// A register of the state that the text does not have.
    NoRegister,
}

/// What is counted against a bound.
#[derive(Clone, Copy, Debug, PartialEq, Eq)]
pub enum Quantity {
    /// The columns of a grid.
    Columns,
    /// The rows of a grid.
    Rows,
    /// The tile types of a fabric.
    TileTypes,
    /// The BELs of a tile.
    Bels,
    /// The matrix names of a tile.
    MatrixNames,
    /// The inputs of one output of a switch matrix.
    InputsOfAnOutput,
    /// The configuration bits of a tile.
    ConfigurationBits,
    /// The wires of a fabric.
    Wires,
    /// The files that are included in one another.
    IncludeDepth,
    /// The names to which a cell expands.
    ExpandedNames,
    /// The bytes of a name.
    NameBytes,
    /// The nets of a flattened netlist.
    Nets,
    /// The instances of a flattened netlist.
    Instances,
    /// The bytes of the emitted Verilog.
    TextBytes,
    /// The points and instances of a Verilog text.
    Points,
    /// The open parentheses, braces and brackets of an expression.
    ExpressionDepth,
    /// The bits of a literal.
    LiteralBits,
}

impl Reason {
    /// The words that a report prints.
    pub fn words(self) -> &'static [u8]
        ensures { result.now ≡ reason_words self }
    {
        match self {
            Reason::Row => b"row",
            Reason::Number => b"number",
            Reason::Name => b"name",
            Reason::EndOfFile => b"end of file",
            Reason::AfterEnd => b"after end",
            Reason::NameTwice => b"name twice",
            Reason::Block => b"block",
            Reason::Grid => b"grid",
            Reason::Tile => b"tile",
            Reason::Direction => b"direction",
            Reason::Null => b"null",
            Reason::Prefix => b"prefix",
            Reason::Bracket => b"bracket",
            Reason::CountsDiffer => b"counts differ",
            Reason::UnknownName => b"unknown name",
            Reason::BothSides => b"both sides",
            Reason::Digit => b"digit",
            Reason::Header => b"header",
            Reason::Frame => b"frame",
            Reason::Mask => b"mask",
            Reason::Range => b"range",
            Reason::Bit => b"bit",
            Reason::NoModel => b"no model",
            Reason::CoverRow => b"cover row",
            Reason::Drivers => b"drivers",
            Reason::Undriven => b"undriven",
            Reason::Formal => b"formal",
            Reason::Feature => b"feature",
            Reason::Address => b"address",
            Reason::Value => b"value",
            Reason::Annotation => b"annotation",
            Reason::Word => b"word",
            Reason::Stream => b"stream",
            Reason::SpareBit => b"spare bit",
            Reason::Wire => b"wire",
            Reason::Site => b"site",
            Reason::Port => b"port",
            Reason::Token => b"token",
            Reason::Select => b"select",
            Reason::Width => b"width",
            Reason::Instance => b"instance",
            Reason::Clock => b"clock",
            Reason::NoPort => b"no port",
            Reason::NoRegister => b"no register",
        }
    }
}

impl Quantity {
    /// The words that a report prints.
    pub fn words(self) -> &'static [u8]
        ensures { result.now ≡ quantity_words self }
    {
        match self {
            Quantity::Columns => b"columns",
            Quantity::Rows => b"rows",
            Quantity::TileTypes => b"tile types",
            Quantity::Bels => b"BELs",
            Quantity::MatrixNames => b"matrix names",
            Quantity::InputsOfAnOutput => b"inputs of an output",
            Quantity::ConfigurationBits => b"configuration bits",
            Quantity::Wires => b"wires",
            Quantity::IncludeDepth => b"include depth",
            Quantity::ExpandedNames => b"expanded names",
            Quantity::NameBytes => b"name bytes",
            Quantity::Nets => b"nets",
            Quantity::Instances => b"instances",
            Quantity::TextBytes => b"text bytes",
            Quantity::Points => b"points",
            Quantity::ExpressionDepth => b"expression depth",
            Quantity::LiteralBits => b"literal bits",
        }
    }
}
