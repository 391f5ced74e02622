//! A FASM file is read line by line.

ghost use Rattle.std.specs.Prelude.{◌≡◌, ◌≢◌, ◌≤◌, IfErr, IfOk, IsOkUnless, length, []};
ghost use Rattle.std.specs.Str.Lines.{lines};
ghost use Rattle.fab_base.specs.declared.fault.Fault.TheVariants as faults;
ghost use Rattle.fab_base.specs.Reading.{Answers, Gives};
ghost use Rattle.fab_lines.specs.Order.{IsFine, IsFirstFault, placed, read_from};
ghost use Rattle.fab_fasm.specs.Fasm.{after_line, fasm_judge};
ghost use Rattle.fab_fasm.specs.Spelled.{SpellsFasm};

use crate::feature::Feature;
use crate::line::line_of;
use fab_base::{Fault, MAX_FILE_BYTES, Name, Problem};
use fab_lines::{LineReader, read_lines};
use std::alloc::Global;
use std::marker::Model;

fn push_line(
    features: &mut Vec<Feature>,
    alloc: Global,
    number: u32,
    line: &[u8],
) -> Result<(), Problem>
    ensures { Answers (λ _. features.new.items) result (after_line features.old.items number line.now) }
{
    if let Some(feature) = line_of(alloc, number, line)? {
        features.push(feature)?;
    }
    Ok(())
}

/// The features of the lines so far.
#[derive(Drop)]
struct FeatureLines {
    features: Vec<Feature>,
}

impl Model for FeatureLines {
    ghost use Rattle.std.specs.Prelude.{List};
    ghost use Rattle.fab_fasm.specs.declared.feature.Feature.{Feature as Said};

    ghost Value = { List Said };

    ghost view = { λ lines. lines.features.items };
}

impl LineReader for FeatureLines {
    ghost use Rattle.fab_fasm.specs.Fasm.{after_line};

    ghost after = { after_line };

    fn take_line(&mut self, alloc: Global, number: u32, line: &[u8]) -> Result<(), Problem> {
        push_line(&mut self.features, alloc, number, line)
    }
}

fn read(alloc: Global, file: &Name, bytes: &[u8]) -> Result<Vec<Feature>, Fault>
    requires { length bytes.now ≤ MAX_FILE_BYTES }
    ensures { Gives (λ features. features.items) result (placed file.now (read_from after_line [] 1 (lines bytes.now))) }
{
    let start = FeatureLines {
        features: Vec::new(alloc),
    };
    let FeatureLines { features } = read_lines(alloc, file, bytes, start)?;
    Ok(features)
}

/// The features of a FASM file, in the order of their lines.
///
/// `Malformed` comes with the reasons `feature`, `address`, `value` and `annotation`, and `Limit` with `literal bits`, each with
/// the least line that is refused and in this order.
pub fn read_fasm(alloc: Global, file: &Name, bytes: &[u8]) -> Result<Vec<Feature>, Fault>
    requires { length bytes.now ≤ MAX_FILE_BYTES }
    ensures spelled { IfOk result (λ features. SpellsFasm (lines bytes.now) features.items) }
    ensures reads { IsFine fasm_judge (lines bytes.now) → IsOkUnless result faults.Memory }
    ensures refusal { IfErr result (λ fault. fault ≢ faults.Memory → IsFirstFault fasm_judge file.now (lines bytes.now) fault) }
{
    read(alloc, file, bytes)
}
