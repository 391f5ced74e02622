//! Clap: what it is told of a form, and what it gives of the words.

ghost use Rattle.std.specs.Prelude.{◌≡◌, ◌++◌, true, false, is_some, map, string_bytes, OnOk, IfOk, IfErr};
ghost use Rattle.std.specs.List.{All};
ghost use Rattle.std.specs.Option.{ForSome};
ghost use Rattle.clap.specs.Words.{app_of, kind_of, rule_of};
ghost use Rattle.clap.specs.declared.error.kind.ErrorKind.TheVariants.{OutOfMemory};
ghost use Rattle.fab_words.specs.Forms.{synopsis, values_in};
ghost use Rattle.fab_words.specs.inner.Matching.{app, option_rule, positional_rule, rules, Gives};
ghost use Rattle.fab_words.specs.inner.Plain.{plain_synopsis};

use crate::forms::{Form, Synopsis};
use clap::{Arg, ArgMatches, Command, Error};
use std::alloc::{AllocError, Global};

/// Adds the positional words.
fn push_positionals<'a>(
    alloc: Global,
    names: &[&'static str],
    arguments: &mut Vec<Arg<'a>>,
) -> Result<(), AllocError>
    ensures rules { OnOk result (map rule_of arguments.new.items ≡ map rule_of arguments.old.items ++ map (λ name. positional_rule name.now) names.now) }
    ensures local { OnOk result (All (λ argument. argument.global ≡ false) arguments.old.items → All (λ argument. argument.global ≡ false) arguments.new.items) }
{
    for name in names {
        arguments.push(Arg::new(alloc, name).required(true))?;
    }
    Ok(())
}

/// Adds the options.
fn push_options<'a>(
    alloc: Global,
    names: &[&'static str],
    arguments: &mut Vec<Arg<'a>>,
) -> Result<(), AllocError>
    ensures rules { OnOk result (map rule_of arguments.new.items ≡ map rule_of arguments.old.items ++ map (λ name. option_rule name.now) names.now) }
    ensures local { OnOk result (All (λ argument. argument.global ≡ false) arguments.old.items → All (λ argument. argument.global ≡ false) arguments.new.items) }
{
    for name in names {
        arguments.push(Arg::new(alloc, name).long(name))?;
    }
    Ok(())
}

/// What clap is told of the words of a form.
fn arguments_of<'a>(alloc: Global, synopsis: &Synopsis) -> Result<Vec<Arg<'a>>, AllocError>
    ensures rules { IfOk result (λ arguments. map rule_of arguments.items ≡ rules (plain_synopsis synopsis.now)) }
    ensures local { IfOk result (λ arguments. All (λ argument. argument.global ≡ false) arguments.items) }
{
    let mut arguments = Vec::new(alloc);
    push_positionals(alloc, synopsis.positionals, &mut arguments)?;
    push_options(alloc, synopsis.options, &mut arguments)?;
    Ok(arguments)
}

/// The command of a form, with neither help nor version.
fn command_of<'a>(alloc: Global, synopsis: &Synopsis) -> Result<Command<'a>, AllocError>
    ensures { IfOk result (λ command. app_of command ≡ app (plain_synopsis synopsis.now)) }
{
    let arguments = arguments_of(alloc, synopsis)?;
    Command::new(alloc, synopsis.command)
        .disable_help_flag(true)
        .disable_version_flag(true)
        .args(arguments)
}

/// What clap gives of the words of a form, the first of which is the command. It refuses them for want of memory alone.
pub fn matches_of<'a>(
    alloc: Global,
    form: Form,
    words: &'a [String],
) -> Result<ArgMatches<'a>, Error>
    requires { is_some (values_in (synopsis form) (map string_bytes words.now)) ≡ true }
    ensures values { IfOk result (λ matches. ForSome (values_in (synopsis form) (map string_bytes words.entry.now)) (Gives matches)) }
    ensures memory { IfErr result (λ error. kind_of error ≡ OutOfMemory) }
{
    let command = command_of(alloc, &form.synopsis())?;
    command.try_get_matches_from(words)
}
