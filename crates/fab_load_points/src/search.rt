//! The search for the names that some flip-flops lead to. Each name of an instance goes by the number of its first point.

ghost use Rattle.std.specs.Prelude.{◌≡◌, ◌<◌, ◌≤◌, ℕ, List, [], ◌∷◌, true, false, Some, IfOk, OnOk, MatchOption, length, reverse, slice_get, slice_set};
ghost use Rattle.fab_syntax.specs.Plain.{PlainModule, plain_text};
ghost use Rattle.fab_syntax.specs.Sound.{IsSound};
ghost use Rattle.fab_meaning.specs.Points.{Point};
ghost use Rattle.fab_equations.specs.Instances.{points};
ghost use Rattle.fab_load_points.specs.inner.Causes.{IsStreamOf, StandsFor};
ghost use Rattle.fab_load_points.specs.inner.Known.{AreKnown};
ghost use Rattle.fab_load_points.specs.inner.Search.{Scene, AreBelow, IsSearch, given_up, entered, with_next, new_count, told, Opens};

use crate::causes::{Cause, cause_of};
use crate::known::KnownReads;
use crate::stream::Stream;
use fab_base::Memory;
use fab_equations::{Cursor, Equations};
use std::alloc::Global;

/// What is known of a name.
#[derive(Clone, Copy, Debug)]
pub enum Status {
    /// Nothing yet.
    New,
    /// It waits for names that it reads.
    Waiting,
    /// The flip-flops lead to it.
    Inside,
    /// They do not.
    Outside,
}

/// What is to be done with a name.
#[derive(Clone, Copy, Debug)]
pub enum Visit {
    /// To look whether it is inside.
    Enter(u32),
    /// It waits, and is inside as soon as all visits above have been made.
    Leave(u32),
}

/// What is known of all names, and the visits that are to be made, the next one last. A name is visited only where it is asked for, and each of its
/// expressions is read once.
#[derive(Drop)]
pub struct Search {
    pub statuses: Vec<Status>,
    pub stack: Vec<Visit>,
    /// Where the name stands that was looked up last: most names are read by one of their own instance.
    pub cursor: Cursor,
}

impl Search {
    /// Whether a name is inside. Names that it reads, be it through others, come to be known as well.
    pub fn is_inside(
        &mut self,
        alloc: Global,
        equations: &Equations,
        stream: Stream,
        known: &KnownReads,
        name: u32,
    ) -> Result<bool, Memory>
        requires sound { IsSound (plain_text equations.now) }
        requires stream { IsStreamOf (plain_text equations.now) stream }
        requires known { AreKnown (plain_text equations.now) known.now }
        requires long { length self.old.statuses.items ≡ length (points (plain_text equations.now)) }
        requires rest { self.old.stack.items ≡ [] }
        requires name { name < length (points (plain_text equations.now)) }
        ensures long { OnOk result (length self.new.statuses.items ≡ length self.old.statuses.items) }
        ensures rest { OnOk result (self.new.stack.items ≡ []) }
        ensures told { IfOk result (λ inside. (scene : Scene (plain_text equations.now)) (p : Point) → StandsFor (plain_text equations.now) name p →
            IsSearch (plain_text equations.now) scene self.old.statuses.items [] →
            IsSearch (plain_text equations.now) scene self.new.statuses.items [] × (slice_get self.new.statuses.items name ≡ Some (told inside))) }
    {
        self.look(alloc, equations, stream, known, name)?;
        match self.statuses[name as usize] {
            Status::Inside => Ok(true),
            Status::New | Status::Waiting | Status::Outside => Ok(false),
        }
    }

    // Looks at a name, and at all that it reads, be it through others.
    fn look(
        &mut self,
        alloc: Global,
        equations: &Equations,
        stream: Stream,
        known: &KnownReads,
        name: u32,
    ) -> Result<(), Memory>
        requires sound { IsSound (plain_text equations.now) }
        requires stream { IsStreamOf (plain_text equations.now) stream }
        requires known { AreKnown (plain_text equations.now) known.now }
        requires long { length self.old.statuses.items ≡ length (points (plain_text equations.now)) }
        requires rest { self.old.stack.items ≡ [] }
        requires name { name < length (points (plain_text equations.now)) }
        ensures long { OnOk result (length self.new.statuses.items ≡ length self.old.statuses.items) }
        ensures rest { OnOk result (self.new.stack.items ≡ []) }
        ensures known { OnOk result (slice_get self.new.statuses.items name ≡ Some Status.New → ⊥) }
        ensures search { OnOk result ((scene : Scene (plain_text equations.now)) (p : Point) → StandsFor (plain_text equations.now) name p →
            IsSearch (plain_text equations.now) scene self.old.statuses.items [] → IsSearch (plain_text equations.now) scene self.new.statuses.items []) }
    {
        match self.statuses[name as usize] {
            Status::New => {
                self.open(alloc, equations, stream, known, name)?;
                self.run(alloc, equations, stream, known)
            }
            Status::Waiting | Status::Inside | Status::Outside => Ok(()),
        }
    }

    // Makes all visits.
    fn run(
        &mut self,
        alloc: Global,
        equations: &Equations,
        stream: Stream,
        known: &KnownReads,
    ) -> Result<(), Memory>
        requires sound { IsSound (plain_text equations.now) }
        requires stream { IsStreamOf (plain_text equations.now) stream }
        requires known { AreKnown (plain_text equations.now) known.now }
        requires long { length self.old.statuses.items ≡ length (points (plain_text equations.now)) }
        requires within { AreBelow (length self.old.statuses.items) (reverse self.old.stack.items) }
        ensures long { OnOk result (length self.new.statuses.items ≡ length self.old.statuses.items) }
        ensures rest { OnOk result (self.new.stack.items ≡ []) }
        ensures new { OnOk result ((name : ℕ) → slice_get self.new.statuses.items name ≡ Some Status.New → slice_get self.old.statuses.items name ≡ Some Status.New) }
        ensures search { OnOk result ((scene : Scene (plain_text equations.now)) →
            IsSearch (plain_text equations.now) scene self.old.statuses.items (reverse self.old.stack.items) →
            IsSearch (plain_text equations.now) scene self.new.statuses.items []) }
    {
        while let Some(name) = self.next_new() {
            self.open(alloc, equations, stream, known, name)?;
        }
        Ok(())
    }

    // Makes visits up to a name of which nothing is known; none where no visit is left.
    fn next_new(&mut self) -> Option<u32>
        requires { AreBelow (length self.old.statuses.items) (reverse self.old.stack.items) }
        ensures long { length self.new.statuses.items ≡ length self.old.statuses.items }
        ensures within { AreBelow (length self.new.statuses.items) (reverse self.new.stack.items) }
        ensures count { new_count self.new.statuses.items ≤ new_count self.old.statuses.items }
        ensures new { (name : ℕ) → slice_get self.new.statuses.items name ≡ Some Status.New → slice_get self.old.statuses.items name ≡ Some Status.New }
        ensures found { MatchOption result (self.new.stack.items ≡ []) (λ name. slice_get self.new.statuses.items name ≡ Some Status.New) }
        ensures search { (text : List PlainModule) (scene : Scene text) → IsSearch text scene self.old.statuses.items (reverse self.old.stack.items) →
            IsSearch text scene self.new.statuses.items (with_next result (reverse self.new.stack.items)) }
    {
        while let Some(visit) = self.stack.pop() {
            match visit {
                Visit::Leave(name) => self.statuses[name as usize] = Status::Inside,
                Visit::Enter(name) => match self.statuses[name as usize] {
                    Status::New => return Some(name),
                    Status::Inside => {}
                    // A name that reads itself through others is in no least set.
                    Status::Waiting | Status::Outside => self.give_up(),
                },
            }
        }
        None
    }

    // Looks at a name of which nothing is known.
    fn open(
        &mut self,
        alloc: Global,
        equations: &Equations,
        stream: Stream,
        known: &KnownReads,
        name: u32,
    ) -> Result<(), Memory>
        requires sound { IsSound (plain_text equations.now) }
        requires stream { IsStreamOf (plain_text equations.now) stream }
        requires known { AreKnown (plain_text equations.now) known.now }
        requires long { length self.old.statuses.items ≡ length (points (plain_text equations.now)) }
        requires within { AreBelow (length self.old.statuses.items) (reverse self.old.stack.items) }
        requires new { slice_get self.old.statuses.items name ≡ Some Status.New }
        ensures long { OnOk result (length self.new.statuses.items ≡ length self.old.statuses.items) }
        ensures within { OnOk result (AreBelow (length self.new.statuses.items) (reverse self.new.stack.items)) }
        ensures opens { OnOk result (Opens name self.old.statuses.items self.new.statuses.items) }
        ensures search { OnOk result ((scene : Scene (plain_text equations.now)) →
            IsSearch (plain_text equations.now) scene self.old.statuses.items (Visit.Enter name ∷ reverse self.old.stack.items) →
            IsSearch (plain_text equations.now) scene self.new.statuses.items (reverse self.new.stack.items)) }
    {
        match cause_of(alloc, equations, known, &mut self.cursor, name)? {
            Cause::Input => self.settle(name, stream.has(name)),
            // The flip-flops that are left are inside from the start.
            Cause::Register => self.settle(name, false),
            Cause::Reads(reads) => self.wait(name, &reads)?,
        }
        Ok(())
    }

    // Tells of a name whether it is inside. Where it is not, all that wait are not.
    fn settle(&mut self, name: u32, inside: bool)
        requires within { AreBelow (length self.old.statuses.items) (reverse self.old.stack.items) }
        requires name { name < length self.old.statuses.items }
        ensures inside { inside ≡ true → (self.new.statuses.items ≡ slice_set self.old.statuses.items name Status.Inside) × (self.new.stack.items ≡ self.old.stack.items) }
        ensures outside { inside ≡ false → (self.new.statuses.items ≡ given_up (reverse self.old.stack.items) (slice_set self.old.statuses.items name Status.Outside))
            × (self.new.stack.items ≡ []) }
    {
        if inside {
            self.statuses[name as usize] = Status::Inside;
        } else {
            self.statuses[name as usize] = Status::Outside;
            self.give_up();
        }
    }

    // Lets a name wait for those that it reads.
    fn wait(&mut self, name: u32, reads: &[u32]) -> Result<(), Memory>
        requires { name < length self.old.statuses.items }
        ensures statuses { OnOk result (self.new.statuses.items ≡ slice_set self.old.statuses.items name Status.Waiting) }
        ensures stack { OnOk result (reverse self.new.stack.items ≡ entered reads.now (Visit.Leave name ∷ reverse self.old.stack.items)) }
    {
        self.statuses[name as usize] = Status::Waiting;
        self.stack.push(Visit::Leave(name))?;
        for read in reads {
            self.stack.push(Visit::Enter(*read))?;
        }
        Ok(())
    }

    // Something that all names that wait read, be it through others, is outside, and so are they.
    fn give_up(&mut self)
        requires { AreBelow (length self.old.statuses.items) (reverse self.old.stack.items) }
        ensures statuses { self.new.statuses.items ≡ given_up (reverse self.old.stack.items) self.old.statuses.items }
        ensures stack { self.new.stack.items ≡ [] }
    {
        while let Some(visit) = self.stack.pop() {
            if let Visit::Leave(name) = visit {
                self.statuses[name as usize] = Status::Outside;
            }
        }
    }
}
