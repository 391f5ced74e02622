//! The words of a command line: the job that they spell.

ghost use Rattle.std.specs.Prelude.{◌≡◌, ◌≤◌, is_some, true, map, option_map, option_copied, string_bytes, None, Some, IfOk, IfErr};
ghost use Rattle.std.specs.Option.{ForSome};
ghost use Rattle.std.specs.Str.{IsUtf8};
ghost use Rattle.clap.specs.Words.{found_of, first_value};
ghost use Rattle.fab_words.specs.Arguments.{IsUsage};
ghost use Rattle.fab_words.specs.Forms.{synopsis, values_in};
ghost use Rattle.fab_words.specs.Words.{reset_of, job_of_form, job_in, job_of, IsText};
ghost use Rattle.fab_words.specs.declared.forms.Form.TheVariants as form;

use crate::arguments::{Arguments, is_positional};
use crate::forms::Form;
use crate::job::Job;
use crate::matching::matches_of;
use crate::numbers::{column_of, decimal, order_of, rounds_of, seed_of, size_of};
use clap::ArgMatches;
use fab_base::{Fault, Memory, Name};
use fab_lines::is_name;
use fab_paths::stem;
use std::alloc::Global;

/// The name that a word is.
fn name_of(alloc: Global, word: &str) -> Result<Name, Memory>
    ensures name { IfOk result (λ name. name ≡ word.now) }
    ensures text { IfOk result IsUtf8 }
{
    Name::of(alloc, word.as_bytes())
}

/// The name that the value of an option is, where it is given.
fn name_of_option(alloc: Global, value: Option<&str>) -> Result<Option<Name>, Memory>
    ensures name { IfOk result (λ name. name ≡ option_copied value.entry) }
    ensures text { IfOk result (λ name. ForSome name IsUtf8) }
{
    match value {
        None => Ok(None),
        Some(word) => Ok(Some(name_of(alloc, word)?)),
    }
}

/// `matrix LIST OUT`, where the stem of LIST is a name.
fn matrix(alloc: Global, matches: &ArgMatches<'_>) -> Result<Job, Fault>
    ensures job { IfOk result (λ job. job_of_form form.Matrix (first_value (found_of matches.now)) ≡ Some job) }
    ensures text { IfOk result IsText }
    ensures usage { IfErr result (IsUsage (job_of_form form.Matrix (first_value (found_of matches.now)) ≡ None)) }
{
    let list = matches.get_str("LIST").ok_or(Fault::Usage)?;
    let out = matches.get_str("OUT").ok_or(Fault::Usage)?;
    if !is_name(stem(list.as_bytes())) {
        return Err(Fault::Usage);
    }
    let list = name_of(alloc, list)?;
    let out = name_of(alloc, out)?;
    Ok(Job::Matrix(list, out))
}

/// `generate FABRIC OUT`.
fn generate(alloc: Global, matches: &ArgMatches<'_>) -> Result<Job, Fault>
    ensures job { IfOk result (λ job. job_of_form form.Generate (first_value (found_of matches.now)) ≡ Some job) }
    ensures text { IfOk result IsText }
    ensures usage { IfErr result (IsUsage (job_of_form form.Generate (first_value (found_of matches.now)) ≡ None)) }
{
    let fabric = matches.get_str("FABRIC").ok_or(Fault::Usage)?;
    let out = matches.get_str("OUT").ok_or(Fault::Usage)?;
    let fabric = name_of(alloc, fabric)?;
    let out = name_of(alloc, out)?;
    Ok(Job::Generate(fabric, out))
}

/// `assemble FABRIC BLIF IMPL BASE [--pcf FILE]`.
fn assemble(alloc: Global, matches: &ArgMatches<'_>) -> Result<Job, Fault>
    ensures job { IfOk result (λ job. job_of_form form.Assemble (first_value (found_of matches.now)) ≡ Some job) }
    ensures text { IfOk result IsText }
    ensures usage { IfErr result (IsUsage (job_of_form form.Assemble (first_value (found_of matches.now)) ≡ None)) }
{
    let fabric = matches.get_str("FABRIC").ok_or(Fault::Usage)?;
    let blif = matches.get_str("BLIF").ok_or(Fault::Usage)?;
    let implementation = matches.get_str("IMPL").ok_or(Fault::Usage)?;
    let base = matches.get_str("BASE").ok_or(Fault::Usage)?;
    let fabric = name_of(alloc, fabric)?;
    let blif = name_of(alloc, blif)?;
    let implementation = name_of(alloc, implementation)?;
    let base = name_of(alloc, base)?;
    let pcf = name_of_option(alloc, matches.get_str("pcf"))?;
    Ok(Job::Assemble(fabric, blif, pcf, implementation, base))
}

/// `map FABRIC BLIF OUT [--pcf FILE] [--seed N] [--rounds N]`.
fn mapping(alloc: Global, matches: &ArgMatches<'_>) -> Result<Job, Fault>
    ensures job { IfOk result (λ job. job_of_form form.Map (first_value (found_of matches.now)) ≡ Some job) }
    ensures text { IfOk result IsText }
    ensures usage { IfErr result (IsUsage (job_of_form form.Map (first_value (found_of matches.now)) ≡ None)) }
{
    let fabric = matches.get_str("FABRIC").ok_or(Fault::Usage)?;
    let blif = matches.get_str("BLIF").ok_or(Fault::Usage)?;
    let out = matches.get_str("OUT").ok_or(Fault::Usage)?;
    let seed = seed_of(matches.get_str("seed")).ok_or(Fault::Usage)?;
    let rounds = rounds_of(matches.get_str("rounds")).ok_or(Fault::Usage)?;
    let fabric = name_of(alloc, fabric)?;
    let blif = name_of(alloc, blif)?;
    let out = name_of(alloc, out)?;
    let pcf = name_of_option(alloc, matches.get_str("pcf"))?;
    Ok(Job::Map(fabric, blif, pcf, seed, rounds, out))
}

/// The reset port that the value of its option names, if that is a positional word; without the option there is none.
fn reset_of(value: Option<&str>) -> Option<Option<&str>>
    ensures { option_map (λ port. option_copied port) result ≡ reset_of (option_copied value.entry) }
{
    match value {
        None => Some(None),
        Some(word) if is_positional(word) => Some(Some(word)),
        Some(_) => None,
    }
}

/// `flow FABRIC BLIF BASE [--pcf FILE] [--seed N] [--rounds N] [--reset PORT]`.
fn flow(alloc: Global, matches: &ArgMatches<'_>) -> Result<Job, Fault>
    ensures job { IfOk result (λ job. job_of_form form.Flow (first_value (found_of matches.now)) ≡ Some job) }
    ensures text { IfOk result IsText }
    ensures usage { IfErr result (IsUsage (job_of_form form.Flow (first_value (found_of matches.now)) ≡ None)) }
{
    let fabric = matches.get_str("FABRIC").ok_or(Fault::Usage)?;
    let blif = matches.get_str("BLIF").ok_or(Fault::Usage)?;
    let base = matches.get_str("BASE").ok_or(Fault::Usage)?;
    let reset = reset_of(matches.get_str("reset")).ok_or(Fault::Usage)?;
    let seed = seed_of(matches.get_str("seed")).ok_or(Fault::Usage)?;
    let rounds = rounds_of(matches.get_str("rounds")).ok_or(Fault::Usage)?;
    let fabric = name_of(alloc, fabric)?;
    let blif = name_of(alloc, blif)?;
    let base = name_of(alloc, base)?;
    let pcf = name_of_option(alloc, matches.get_str("pcf"))?;
    let reset = name_of_option(alloc, reset)?;
    Ok(Job::Flow(fabric, blif, pcf, seed, rounds, reset, base))
}

/// `bits FABRIC FASM OUT`.
fn bits(alloc: Global, matches: &ArgMatches<'_>) -> Result<Job, Fault>
    ensures job { IfOk result (λ job. job_of_form form.Bits (first_value (found_of matches.now)) ≡ Some job) }
    ensures text { IfOk result IsText }
    ensures usage { IfErr result (IsUsage (job_of_form form.Bits (first_value (found_of matches.now)) ≡ None)) }
{
    let fabric = matches.get_str("FABRIC").ok_or(Fault::Usage)?;
    let fasm = matches.get_str("FASM").ok_or(Fault::Usage)?;
    let out = matches.get_str("OUT").ok_or(Fault::Usage)?;
    let fabric = name_of(alloc, fabric)?;
    let fasm = name_of(alloc, fasm)?;
    let out = name_of(alloc, out)?;
    Ok(Job::Bits(fabric, fasm, out))
}

/// `features FABRIC BIT OUT`.
fn features(alloc: Global, matches: &ArgMatches<'_>) -> Result<Job, Fault>
    ensures job { IfOk result (λ job. job_of_form form.Features (first_value (found_of matches.now)) ≡ Some job) }
    ensures text { IfOk result IsText }
    ensures usage { IfErr result (IsUsage (job_of_form form.Features (first_value (found_of matches.now)) ≡ None)) }
{
    let fabric = matches.get_str("FABRIC").ok_or(Fault::Usage)?;
    let bit = matches.get_str("BIT").ok_or(Fault::Usage)?;
    let out = matches.get_str("OUT").ok_or(Fault::Usage)?;
    let fabric = name_of(alloc, fabric)?;
    let bit = name_of(alloc, bit)?;
    let out = name_of(alloc, out)?;
    Ok(Job::Features(fabric, bit, out))
}

/// `simulate VERILOG BIT STATE STIM TRACE [--order SEED]`.
fn simulate(alloc: Global, matches: &ArgMatches<'_>) -> Result<Job, Fault>
    ensures job { IfOk result (λ job. job_of_form form.Simulate (first_value (found_of matches.now)) ≡ Some job) }
    ensures text { IfOk result IsText }
    ensures usage { IfErr result (IsUsage (job_of_form form.Simulate (first_value (found_of matches.now)) ≡ None)) }
{
    let verilog = matches.get_str("VERILOG").ok_or(Fault::Usage)?;
    let bit = matches.get_str("BIT").ok_or(Fault::Usage)?;
    let state = matches.get_str("STATE").ok_or(Fault::Usage)?;
    let stimulus = matches.get_str("STIM").ok_or(Fault::Usage)?;
    let trace = matches.get_str("TRACE").ok_or(Fault::Usage)?;
    let order = order_of(matches.get_str("order")).ok_or(Fault::Usage)?;
    let verilog = name_of(alloc, verilog)?;
    let bit = name_of(alloc, bit)?;
    let state = name_of(alloc, state)?;
    let stimulus = name_of(alloc, stimulus)?;
    let trace = name_of(alloc, trace)?;
    Ok(Job::Simulate(verilog, bit, state, stimulus, order, trace))
}

/// `partial FABRIC IMPL FASM FIRST LAST OUT`, where FIRST is not above LAST.
fn partial(alloc: Global, matches: &ArgMatches<'_>) -> Result<Job, Fault>
    ensures job { IfOk result (λ job. job_of_form form.Partial (first_value (found_of matches.now)) ≡ Some job) }
    ensures text { IfOk result IsText }
    ensures usage { IfErr result (IsUsage (job_of_form form.Partial (first_value (found_of matches.now)) ≡ None)) }
{
    let fabric = matches.get_str("FABRIC").ok_or(Fault::Usage)?;
    let implementation = matches.get_str("IMPL").ok_or(Fault::Usage)?;
    let fasm = matches.get_str("FASM").ok_or(Fault::Usage)?;
    let first = matches.get_str("FIRST").ok_or(Fault::Usage)?;
    let last = matches.get_str("LAST").ok_or(Fault::Usage)?;
    let out = matches.get_str("OUT").ok_or(Fault::Usage)?;
    let first = column_of(first).ok_or(Fault::Usage)?;
    let last = column_of(last).ok_or(Fault::Usage)?;
    if first > last {
        return Err(Fault::Usage);
    }
    let fabric = name_of(alloc, fabric)?;
    let implementation = name_of(alloc, implementation)?;
    let fasm = name_of(alloc, fasm)?;
    let out = name_of(alloc, out)?;
    Ok(Job::Partial(fabric, implementation, fasm, first, last, out))
}

/// `timing FABRIC BLIF IMPL OUT [--pcf FILE]`.
fn timing(alloc: Global, matches: &ArgMatches<'_>) -> Result<Job, Fault>
    ensures job { IfOk result (λ job. job_of_form form.Timing (first_value (found_of matches.now)) ≡ Some job) }
    ensures text { IfOk result IsText }
    ensures usage { IfErr result (IsUsage (job_of_form form.Timing (first_value (found_of matches.now)) ≡ None)) }
{
    let fabric = matches.get_str("FABRIC").ok_or(Fault::Usage)?;
    let blif = matches.get_str("BLIF").ok_or(Fault::Usage)?;
    let implementation = matches.get_str("IMPL").ok_or(Fault::Usage)?;
    let out = matches.get_str("OUT").ok_or(Fault::Usage)?;
    let fabric = name_of(alloc, fabric)?;
    let blif = name_of(alloc, blif)?;
    let implementation = name_of(alloc, implementation)?;
    let out = name_of(alloc, out)?;
    let pcf = name_of_option(alloc, matches.get_str("pcf"))?;
    Ok(Job::Timing(fabric, blif, pcf, implementation, out))
}

/// `serial FABRIC OUT`.
fn serial(alloc: Global, matches: &ArgMatches<'_>) -> Result<Job, Fault>
    ensures job { IfOk result (λ job. job_of_form form.Serial (first_value (found_of matches.now)) ≡ Some job) }
    ensures text { IfOk result IsText }
    ensures usage { IfErr result (IsUsage (job_of_form form.Serial (first_value (found_of matches.now)) ≡ None)) }
{
    let fabric = matches.get_str("FABRIC").ok_or(Fault::Usage)?;
    let out = matches.get_str("OUT").ok_or(Fault::Usage)?;
    let fabric = name_of(alloc, fabric)?;
    let out = name_of(alloc, out)?;
    Ok(Job::Serial(fabric, out))
}

/// `sample N SEED`.
fn sample(matches: &ArgMatches<'_>) -> Result<Job, Fault>
    ensures job { IfOk result (λ job. job_of_form form.Sample (first_value (found_of matches.now)) ≡ Some job) }
    ensures text { IfOk result IsText }
    ensures usage { IfErr result (IsUsage (job_of_form form.Sample (first_value (found_of matches.now)) ≡ None)) }
{
    let size = matches.get_str("N").ok_or(Fault::Usage)?;
    let seed = matches.get_str("SEED").ok_or(Fault::Usage)?;
    let size = size_of(size).ok_or(Fault::Usage)?;
    let seed = decimal(seed).ok_or(Fault::Usage)?;
    Ok(Job::Sample(size, seed))
}

/// The job of a form with the values that clap gives to its names.
fn job_of_form(alloc: Global, form: Form, matches: &ArgMatches<'_>) -> Result<Job, Fault>
    ensures job { IfOk result (λ job. job_of_form form (first_value (found_of matches.now)) ≡ Some job) }
    ensures text { IfOk result IsText }
    ensures usage { IfErr result (IsUsage (job_of_form form (first_value (found_of matches.now)) ≡ None)) }
{
    match form {
        Form::Matrix => matrix(alloc, matches),
        Form::Generate => generate(alloc, matches),
        Form::Assemble => assemble(alloc, matches),
        Form::Map => mapping(alloc, matches),
        Form::Flow => flow(alloc, matches),
        Form::Bits => bits(alloc, matches),
        Form::Features => features(alloc, matches),
        Form::Simulate => simulate(alloc, matches),
        Form::Partial => partial(alloc, matches),
        Form::Timing => timing(alloc, matches),
        Form::Serial => serial(alloc, matches),
        Form::Sample => sample(matches),
    }
}

/// The form that the words are, if they are one.
fn form_of(alloc: Global, words: &[String]) -> Result<Form, Fault>
    ensures form { IfOk result (λ known. job_of (map string_bytes words.now) ≡ job_in (map string_bytes words.now) known) }
    ensures values { IfOk result (λ known. is_some (values_in (synopsis known) (map string_bytes words.now)) ≡ true) }
    ensures usage { IfErr result (IsUsage (job_of (map string_bytes words.now) ≡ None)) }
{
    let Some((command, behind)) = words.split_first() else {
        return Err(Fault::Usage);
    };
    let form = Form::of(command.as_str()).ok_or(Fault::Usage)?;
    let arguments = Arguments::of(alloc, behind)?;
    if !form.synopsis().fits(&arguments) {
        return Err(Fault::Usage);
    }
    Ok(form)
}

/// The job that the words spell. `Usage` comes exactly where they spell none.
pub fn parse(alloc: Global, words: &[String]) -> Result<Job, Fault>
    ensures job { IfOk result (λ job. job_of (map string_bytes words.now) ≡ Some job) }
    ensures text { IfOk result IsText }
    ensures usage { IfErr result (IsUsage (job_of (map string_bytes words.now) ≡ None)) }
{
    let form = form_of(alloc, words)?;
    match matches_of(alloc, form, words) {
        Err(_) => Err(Fault::Memory),
        Ok(matches) => job_of_form(alloc, form, &matches),
    }
}
