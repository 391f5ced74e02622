//! The reader of BLIF files: each line is judged and adds to the models.

ghost use Rattle.std.specs.Prelude.{◌≡◌, ◌≢◌, ◌≤◌, length, IfErr, IfOk, IsErrAnd, IsOkUnless};
ghost use Rattle.std.specs.Str.Lines.{lines};
ghost use Rattle.fab_base.specs.declared.fault.Fault.{Fault as PlainFault};
ghost use Rattle.fab_base.specs.declared.fault.Fault.TheVariants as faults;
ghost use Rattle.fab_base.specs.Reading.{Answers, Gives, IsFaultOr};
ghost use Rattle.fab_lines.specs.Joined.{joined_lines};
ghost use Rattle.fab_lines.specs.Order.{IsFine, IsFirstFault};
ghost use Rattle.fab_blif_models.specs.inner.Following.{State, after_line, read_of};
ghost use Rattle.fab_blif_models.specs.Judge.{judge};
ghost use Rattle.fab_blif_models.specs.Plain.{plain_models};
ghost use Rattle.fab_blif_models.specs.Rules.{AreModels, LinesAscend};
ghost use Rattle.fab_blif_models.specs.Spelled.{spelled};

use crate::context::{Context, beginning};
use crate::judging::judge;
use crate::model::Model;
use crate::words::{kind_of, words_of};
use crate::{bodies, context};
use fab_base::{Fault, MAX_FILE_BYTES, Name, Problem};
use fab_lines::{LineReader, read_joined_lines};
use std::alloc::Global;

/// The models of the lines so far, what the next line depends on, and how many inputs a cover may have.
#[derive(Drop)]
struct Reader {
    most: usize,
    context: Context,
    models: Vec<Model>,
}

impl std::marker::Model for Reader {
    ghost use Rattle.std.specs.Prelude.{◌≤◌};
    ghost use Rattle.fab_blif_models.specs.inner.Following.{State};
    ghost use Rattle.fab_blif_models.specs.Plain.{plain_models};

    ghost Value = { State };

    ghost view = { λ r. record { most = r.most; context = r.context; models = plain_models r.models.items } };

    ghost invariant = { λ r. r.most ≤ 16 };
}

impl Reader {
    fn into_models(self) -> Vec<Model>
        ensures { plain_models result.items ≡ self.models }
    {
        let Reader { models, .. } = self;
        models
    }
}

fn take_text(
    context: &mut Context,
    models: &mut Vec<Model>,
    alloc: Global,
    most: usize,
    number: u32,
    line: &[u8],
) -> Result<(), Problem>
    requires { most ≤ 16 }
    ensures { Answers (λ _. record { most = most; context = context.new; models = plain_models models.new.items }) result
        (after_line (record { most = most; context = context.old; models = plain_models models.old.items }) number line.now) }
{
    let words = words_of(alloc, line)?;
    let kind = kind_of(&words);
    if let Some(problem) = judge(alloc, most, context, line, kind, &words)? {
        return Err(problem);
    }
    context::follow(context, alloc, kind, &words)?;
    bodies::follow(models, alloc, most, number, context.on, kind, &words)?;
    Ok(())
}

impl LineReader for Reader {
    ghost use Rattle.fab_blif_models.specs.inner.Following.{after_line};

    ghost after = { after_line };

    fn take_line(&mut self, alloc: Global, number: u32, line: &[u8]) -> Result<(), Problem> {
        take_text(
            &mut self.context,
            &mut self.models,
            alloc,
            self.most,
            number,
            line,
        )
    }
}

fn read(alloc: Global, file: &Name, bytes: &[u8], most: usize) -> Result<Reader, Fault>
    requires bytes { length bytes.now ≤ MAX_FILE_BYTES }
    requires most { most ≤ 16 }
    ensures { Gives (λ reader. reader) result (read_of most file.now bytes.now) }
{
    let start = Reader {
        most,
        context: beginning(alloc, false),
        models: Vec::new(alloc),
    };
    read_joined_lines(alloc, file, bytes, start)
}

/// The models that a BLIF file spells, in the order of their lines. There may be none.
///
/// No cover of theirs has more than `most` inputs, which is 1 to 16, and its rows look at its inputs alone. No initial
/// value is past 3, and `.inputs` and `.outputs` of a model name no port twice, nor one on both sides. The lines of models
/// and statements ascend, and stand within the file.
///
/// `Malformed` and `Unsupported` come with the least line that is refused. The reasons are, in the order in which they are
/// tried on a line, `row`, `number`, `name`, `after end`, `name twice`, `no model` and `cover row`; the constructs are a
/// word with a leading dot, `wide cover`, `latch type` with the type, and `input and output` with the port.
pub fn read_models(
    alloc: Global,
    file: &Name,
    bytes: &[u8],
    most: usize,
) -> Result<Vec<Model>, Fault>
    requires bytes { length bytes.now ≤ MAX_FILE_BYTES }
    requires most { (1 ≤ most) × (most ≤ 16) }
    ensures fine { IfOk result (λ _. IsFine (judge most) (joined_lines bytes.now)) }
    ensures spelled { IfOk result (λ models. plain_models models.items ≡ spelled (joined_lines bytes.now)) }
    ensures rules { IfOk result (λ models. AreModels most (plain_models models.items)) }
    ensures ascend { IfOk result (λ models. LinesAscend (plain_models models.items) (length (lines bytes.now))) }
    ensures first { IfErr result (λ fault. fault ≢ faults.Memory → IsFirstFault (judge most) file.now (joined_lines bytes.now) fault) }
    ensures reads { IsFine (judge most) (joined_lines bytes.now) → IsOkUnless result faults.Memory }
    ensures refuses { (fault : PlainFault) → IsFirstFault (judge most) file.now (joined_lines bytes.now) fault → IsErrAnd result (λ given. IsFaultOr given fault) }
{
    let reader = read(alloc, file, bytes, most)?;
    Ok(reader.into_models())
}
