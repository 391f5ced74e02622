//! Goes through the flattened text: from line to line of a model, and at an instance into its model.

ghost use Rattle.std.specs.Prelude.{◌≡◌, ◌<◌, ◌+◌, ◌-◌, ◌∷◌, ◌++◌, ◌^◌, [], Some, None, IfOk, IfSome, OnOk, OnSome, MatchOption, length, map, drop, option_map};
ghost use Rattle.fab_blif_models.specs.Plain.{plain_body, plain_models, plain_statement};
ghost use Rattle.fab_blif.specs.Flat.{flat_lines, lines_by, top_copy};
ghost use Rattle.fab_instances.specs.Places.{model_names, place_of_model, statements_of};
ghost use Rattle.fab_blif.specs.inner.Walk.{after_all};
ghost use Rattle.fab_blif.specs.inner.Frames.{advanced, entered, instance_frame, new_frame, plain_frame, with_frames};
ghost use Rattle.fab_bits.specs.Keys.{key_names};

use crate::design::Design;
use crate::model_copy::{Joins, ModelCopy, push_line};
use fab_base::Memory;
use fab_blif_models::{Body, Model, Statement};
use fab_instances::place_of;
use indexmap::{IndexMap, IndexSet};
use std::alloc::Global;

/// A copy of a model that is gone through.
#[derive(Drop)]
struct Frame {
    /// The place of the model in the file.
    model: usize,
    /// The place of the model's next line.
    next: usize,
    /// In how many instances the copy lies.
    depth: usize,
    /// How much of the stack's path stands in front of the names of the copy's inner nets.
    prefix_len: usize,
    joins: Joins,
}

/// The copy that an instance makes, before it is gone through.
#[derive(Drop)]
struct Instance {
    /// The place of its model in the file.
    model: usize,
    /// In how many instances the copy lies.
    depth: usize,
    line: u32,
    joins: Joins,
}

/// Copies of models in one another. What stands in front of the names of a copy's nets is the beginning of what stands there
/// in the copies within it, so the longest of these texts is kept, and of the others how long they are.
#[derive(Drop)]
struct Stack {
    /// The outermost comes first.
    frames: Vec<Frame>,
    /// What stands in front of the names of the innermost copy's nets: the lines of the instances, with `/` behind each.
    path: Vec<u8>,
}

impl std::marker::Model for Stack {
    ghost use Rattle.std.specs.Prelude.{length};
    ghost use Rattle.fab_blif.specs.inner.Frames.{PlainStack, PrefixesGrow, plain_frames};

    ghost Value = { PlainStack };

    ghost view = { λ stack. record { path = stack.path.items; frames = plain_frames stack.path.items stack.frames.items } };

    ghost invariant = { λ stack. PrefixesGrow 0 stack.frames.items (length stack.path.items) };
}

impl Stack {
    /// The first model alone, which is no copy.
    fn new(alloc: Global) -> Result<Stack, Memory>
        ensures { IfOk result (λ stack. stack.frames ≡ new_frame top_copy 0 ∷ []) }
    {
        let mut frames = Vec::new(alloc);
        frames.push(Frame {
            model: 0,
            next: 0,
            depth: 0,
            prefix_len: 0,
            joins: IndexMap::new(alloc),
        })?;
        Ok(Stack {
            frames,
            path: Vec::new(alloc),
        })
    }

    /// The copy of a frame that has the whole path.
    fn copy_of<'a>(&'a self, frame: &'a Frame) -> ModelCopy<'a>
        ensures { result ≡ (plain_frame self.now.path frame.now).copy }
    {
        ModelCopy {
            depth: frame.depth,
            prefix: &self.path,
            joins: &frame.joins,
        }
    }

    /// Takes the innermost frame off, and cuts the path so that this frame has the whole of it.
    fn pop(&mut self) -> Option<Frame>
        ensures frames { MatchOption result (self.old.frames ≡ []) (λ frame. self.old.frames ≡ self.new.frames ++ plain_frame self.new.path frame ∷ []) }
        ensures path { IfSome result (λ frame. frame.prefix_len ≡ length self.new.path) }
    {
        let frame = self.frames.pop()?;
        self.path.truncate(frame.prefix_len);
        Some(frame)
    }

    /// Puts on a frame that has the whole path.
    fn push(&mut self, frame: Frame) -> Result<(), Memory>
        requires { frame.prefix_len ≡ length self.old.path }
        ensures path { self.new.path ≡ self.old.path }
        ensures frames { OnOk result (self.new.frames ≡ self.old.frames ++ plain_frame self.old.path frame ∷ []) }
    {
        self.frames.push(frame)?;
        Ok(())
    }

    /// Puts on the frame of an instance in the copy that has the whole path.
    fn enter(&mut self, inner: Instance) -> Result<(), Memory>
        ensures { OnOk result (self.new.frames ≡ self.old.frames ++ instance_frame self.old.path inner ∷ []) }
    {
        push_line(&mut self.path, inner.line)?;
        self.frames.push(Frame {
            model: inner.model,
            next: 0,
            depth: inner.depth,
            prefix_len: self.path.len(),
            joins: inner.joins,
        })?;
        Ok(())
    }

    /// Puts on a frame that has the whole path, and the one of an instance in its copy, if there is one.
    fn push_frames(&mut self, frame: Frame, inner: Option<Instance>) -> Result<(), Memory>
        requires { frame.prefix_len ≡ length self.old.path }
        ensures { OnOk result (self.new.frames
            ≡ with_frames self.old.frames (plain_frame self.old.path frame) (option_map (instance_frame self.old.path) inner)) }
    {
        self.push(frame)?;
        match inner {
            None => Ok(()),
            Some(inner) => self.enter(inner),
        }
    }
}

/// The next line of a frame's model.
fn next_line<'a>(models: &'a [Model], frame: &Frame) -> Option<&'a Statement>
    ensures line { MatchOption result
        (drop frame.now.next (statements_of (plain_models models.now) frame.now.model) ≡ [])
        (λ line. drop frame.now.next (statements_of (plain_models models.now) frame.now.model)
        ≡ plain_statement line.now ∷ drop (frame.now.next + 1) (statements_of (plain_models models.now) frame.now.model)) }
    ensures room { OnSome result (frame.now.next + 1 < 2 ^ 64) }
{
    match models.get(frame.model) {
        None => None,
        Some(model) => model.statements.get(frame.next),
    }
}

/// The instance that a line of a copy is, if it is one. Instances stand in one another no deeper than there are models;
/// deeper ones, which only recursive models have, are passed over.
fn instance_of(
    alloc: Global,
    models: &[Model],
    places: &IndexSet<Vec<u8>>,
    copy: &ModelCopy,
    line: &Statement,
) -> Result<Option<Instance>, Memory>
    requires places { key_names places.now.keys ≡ model_names (plain_models models.now) }
    ensures { IfOk result (λ inner. option_map (instance_frame copy.now.prefix) inner
        ≡ entered (plain_models models.now) (length models.now - (copy.now.depth + 1)) copy.now line.now.line (plain_body line.now.body)) }
{
    let Body::Instance(name, words) = &line.body else {
        return Ok(None);
    };
    if models.len() <= copy.depth || models.len() - copy.depth == 1 {
        return Ok(None);
    }
    match place_of(places, name) {
        None => Ok(None),
        Some(model) => Ok(Some(Instance {
            model,
            depth: copy.depth + 1,
            line: line.line,
            joins: copy.joins_in(alloc, words)?,
        })),
    }
}

fn advanced(frame: Frame) -> Frame
    requires { frame.next + 1 < 2 ^ 64 }
    ensures { result ≡ record frame { next = frame.next + 1 } }
{
    let Frame {
        model,
        next,
        depth,
        prefix_len,
        joins,
    } = frame;
    Frame {
        model,
        next: next + 1,
        depth,
        prefix_len,
        joins,
    }
}

/// Takes a line of the model of a frame that has the whole path.
fn take_line<'a>(
    alloc: Global,
    models: &[Model],
    places: &IndexSet<Vec<u8>>,
    design: &mut Design<'a>,
    stack: &mut Stack,
    frame: Frame,
    line: &'a Statement,
) -> Result<(), Memory>
    requires places { key_names places.now.keys ≡ model_names (plain_models models.now) }
    requires room { frame.next + 1 < 2 ^ 64 }
    requires path { frame.prefix_len ≡ length stack.old.path }
    ensures design { OnOk result (design.new
        ≡ after_all design.old (lines_by [] (λ _ _. []) (plain_frame stack.old.path frame).copy line.now.line (plain_body line.now.body))) }
    ensures frames { OnOk result (stack.new.frames ≡ with_frames stack.old.frames (advanced (plain_frame stack.old.path frame))
        (entered (plain_models models.now) (length models.now - (frame.depth + 1)) (plain_frame stack.old.path frame).copy
        line.now.line (plain_body line.now.body))) }
{
    let copy = stack.copy_of(&frame);
    design.put(alloc, &copy, line)?;
    let inner = instance_of(alloc, models, places, &copy, line)?;
    stack.push_frames(advanced(frame), inner)
}

/// Takes all lines of the flattened text.
pub(crate) fn take_all<'a>(
    alloc: Global,
    models: &'a [Model],
    places: &IndexSet<Vec<u8>>,
    design: &mut Design<'a>,
) -> Result<(), Memory>
    requires places { key_names places.now.keys ≡ model_names (plain_models models.now) }
    requires some { 0 < length models.now }
    ensures { OnOk result (design.new ≡ after_all design.old (flat_lines (plain_models models.now))) }
{
    let mut stack = Stack::new(alloc)?;
    while let Some(frame) = stack.pop() {
        match next_line(models, &frame) {
            None => {}
            Some(line) => take_line(alloc, models, places, design, &mut stack, frame, line)?,
        }
    }
    Ok(())
}
