//! The forms of a command line.

ghost use Rattle.std.specs.Prelude.{◌≡◌, find, map};
ghost use Rattle.std.specs.Str.{bytes_eq};
ghost use Rattle.fab_words.specs.Forms.{fits, form_of, line, synopsis};
ghost use Rattle.fab_words.specs.inner.Plain.{plain_arguments, plain_synopsis};

use crate::arguments::{Arguments, are_options};

/// Which command a line has, and with it which words.
#[derive(Clone, Copy, Debug)]
pub enum Form {
    Matrix,
    Generate,
    Assemble,
    Map,
    Flow,
    Bits,
    Features,
    Simulate,
    Partial,
    Timing,
    Serial,
    Sample,
}

/// What a manual says of a form: its command, the names of its positional words in their order, and the names of the
/// options that it may have.
#[derive(Clone, Copy, Debug)]
pub struct Synopsis {
    pub command: &'static str,
    pub positionals: &'static [&'static str],
    pub options: &'static [&'static str],
}

/// All forms.
const FORMS: [Form; 12] = [
    Form::Matrix,
    Form::Generate,
    Form::Assemble,
    Form::Map,
    Form::Flow,
    Form::Bits,
    Form::Features,
    Form::Simulate,
    Form::Partial,
    Form::Timing,
    Form::Serial,
    Form::Sample,
];

impl Form {
    /// The form of a command, if there is one.
    pub fn of(command: &str) -> Option<Form>
        ensures { result ≡ form_of command.now }
    {
        form_among(&FORMS, command)
    }

    /// What a manual says of the form.
    pub fn synopsis(self) -> Synopsis
        ensures { plain_synopsis result ≡ synopsis self }
    {
        match self {
            Form::Matrix => line("matrix", &["LIST", "OUT"], &[]),
            Form::Generate => line("generate", &["FABRIC", "OUT"], &[]),
            Form::Assemble => line("assemble", &["FABRIC", "BLIF", "IMPL", "BASE"], &["pcf"]),
            Form::Map => line(
                "map",
                &["FABRIC", "BLIF", "OUT"],
                &["pcf", "seed", "rounds"],
            ),
            Form::Flow => line(
                "flow",
                &["FABRIC", "BLIF", "BASE"],
                &["pcf", "seed", "rounds", "reset"],
            ),
            Form::Bits => line("bits", &["FABRIC", "FASM", "OUT"], &[]),
            Form::Features => line("features", &["FABRIC", "BIT", "OUT"], &[]),
            Form::Simulate => line(
                "simulate",
                &["VERILOG", "BIT", "STATE", "STIM", "TRACE"],
                &["order"],
            ),
            Form::Partial => line(
                "partial",
                &["FABRIC", "IMPL", "FASM", "FIRST", "LAST", "OUT"],
                &[],
            ),
            Form::Timing => line("timing", &["FABRIC", "BLIF", "IMPL", "OUT"], &["pcf"]),
            Form::Serial => line("serial", &["FABRIC", "OUT"], &[]),
            Form::Sample => line("sample", &["N", "SEED"], &[]),
        }
    }
}

/// The first of the forms that has this command.
fn form_among(forms: &[Form], command: &str) -> Option<Form>
    ensures { result ≡ find (λ known. bytes_eq (synopsis known).command command.now) forms.now }
{
    for form in forms {
        if form.synopsis().command == command {
            return Some(*form);
        }
    }
    None
}

fn line(
    command: &'static str,
    positionals: &'static [&'static str],
    options: &'static [&'static str],
) -> Synopsis
    ensures { plain_synopsis result ≡ line command.now (map (λ name. name.now) positionals.now) (map (λ name. name.now) options.now) }
{
    Synopsis {
        command,
        positionals,
        options,
    }
}

impl Synopsis {
    /// Whether the arguments are as many positional words as there are names for them, with options of these names
    /// alone, each at most once.
    pub fn fits(&self, arguments: &Arguments<'_>) -> bool
        ensures { result ≡ fits (plain_synopsis self.now) (plain_arguments arguments.now) }
    {
        arguments.positionals.len() == self.positionals.len()
            && are_options(self.options, &arguments.settings)
    }
}
