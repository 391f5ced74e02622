//! What a line depends on in the lines before it.

ghost use Rattle.std.specs.Prelude.{◌≡◌, map, OnOk};
ghost use Rattle.std.specs.Str.{bytes_eq};
ghost use Rattle.indexmap.specs.IndexSet.{insert_all};
ghost use Rattle.fab_blif_models.specs.Context.{width_by};
ghost use Rattle.fab_blif_models.specs.inner.Following.{beginning, context_after};
ghost use Rattle.fab_bits.specs.Keys.{key_names};

use crate::cover::is_on;
use crate::words::{Kind, words_from};
use fab_base::Memory;
use indexmap::IndexSet;
use std::alloc::Global;
use std::marker::Model;

/// What the next line depends on.
#[derive(Drop)]
pub struct Context {
    /// Whether a model has begun, and whether `.end` has come after that.
    pub begun: bool,
    pub ended: bool,
    /// The ports of the model.
    pub inputs: IndexSet<Vec<u8>>,
    pub outputs: IndexSet<Vec<u8>>,
    pub clocks: IndexSet<Vec<u8>>,
    /// How many inputs the cover has that takes rows, and whether its rows so far are of an on-set.
    pub width: Option<usize>,
    pub on: Option<bool>,
}

impl Model for Context {
    ghost use Rattle.fab_blif_models.specs.Context.{Context as PlainContext};
    ghost use Rattle.fab_bits.specs.Keys.{key_names};

    ghost Value = { PlainContext };

    ghost view = { λ c. record {
      begun = c.begun;
      ended = c.ended;
      inputs = key_names c.inputs.keys;
      outputs = key_names c.outputs.keys;
      clocks = key_names c.clocks.keys;
      width = c.width;
      on = c.on;
    } };
}

/// The context in which a text begins, or a model.
pub fn beginning(alloc: Global, begun: bool) -> Context
    ensures { result ≡ beginning begun }
{
    Context {
        begun,
        ended: false,
        inputs: IndexSet::new(alloc),
        outputs: IndexSet::new(alloc),
        clocks: IndexSet::new(alloc),
        width: None,
        on: None,
    }
}

/// Puts each of the names into a set.
fn insert_names(alloc: Global, set: &mut IndexSet<Vec<u8>>, names: &[&[u8]]) -> Result<(), Memory>
    ensures { OnOk result (key_names set.new.keys ≡ insert_all bytes_eq (key_names set.old.keys) (map (λ w. w.now) names.now)) }
{
    for name in names {
        let key = Vec::from_slice(alloc, name)?;
        set.insert(key)?;
    }
    Ok(())
}

/// Follows a line of this kind that is not refused.
pub fn follow(
    context: &mut Context,
    alloc: Global,
    kind: Kind,
    words: &[&[u8]],
) -> Result<(), Memory>
    ensures { OnOk result (context.new ≡ context_after context.old kind (map (λ w. w.now) words.now)) }
{
    match kind {
        Kind::Blank | Kind::Passed => return Ok(()),
        Kind::Row => {
            context.on = Some(context.on.unwrap_or(is_on(words)));
            return Ok(());
        }
        Kind::Model => {
            *context = beginning(alloc, true);
            return Ok(());
        }
        Kind::End => context.ended = true,
        Kind::Inputs => insert_names(alloc, &mut context.inputs, words_from(words, 1))?,
        Kind::Outputs => insert_names(alloc, &mut context.outputs, words_from(words, 1))?,
        Kind::Clock => insert_names(alloc, &mut context.clocks, words_from(words, 1))?,
        Kind::Names | Kind::Latch | Kind::Instance | Kind::Buffer | Kind::Other => {}
    }
    context.width = width_after(kind, words);
    context.on = None;
    Ok(())
}

/// How many inputs the cover has that a line begins, if it begins one.
fn width_after(kind: Kind, words: &[&[u8]]) -> Option<usize>
    ensures { result ≡ width_by kind (map (λ w. w.now) words.now) }
{
    match kind {
        Kind::Names => Some(words.len().saturating_sub(2)),
        _ => None,
    }
}
