//! Copies of models: where they lie in the flattened text, and which nets their lines name.

ghost use Rattle.std.specs.Prelude.{◌≡◌, ◌≤◌, ◌++◌, [], ℕ, Some, None, IfOk, OnOk, IfSome, IfNone, MatchOption, length, map, decimal, drop, filter_map, option_map, option_to_list};
ghost use Rattle.std.specs.Str.{bytes_eq};
ghost use Rattle.indexmap.specs.IndexMap.{insert_all, insert_entry};
ghost use Rattle.fab_blif.specs.Flat.{net_in, join_in, joins_in, line_prefix};
ghost use Rattle.fab_instances.specs.Formals.{sides};
ghost use Rattle.fab_blif.specs.inner.Walk.{plain_net, plain_joins};

use crate::net::{Net, copy_of};
use fab_base::{Memory, Name};
use fab_instances::sides;
use indexmap::IndexMap;
use itoa::Buffer;
use std::alloc::Global;
use std::marker::Model;

/// The nets to which the ports of a copy are joined.
pub(crate) type Joins = IndexMap<Vec<u8>, Net>;

/// A copy of a model, while its lines are gone through.
#[derive(Drop)]
pub(crate) struct ModelCopy<'a> {
    /// In how many instances it lies.
    pub depth: usize,
    /// What stands in front of the names of its inner nets: the lines of these instances, with `/` behind each.
    pub prefix: &'a [u8],
    pub joins: &'a Joins,
}

impl<'a> Model for ModelCopy<'a> {
    ghost use Rattle.fab_blif.specs.Flat.{PlainCopy};
    ghost use Rattle.fab_blif.specs.inner.Walk.{plain_joins};

    ghost Value = { PlainCopy };

    ghost view = { λ copy. record { depth = copy.depth; prefix = copy.prefix.now; joins = plain_joins copy.joins.now.entries } };
}

/// Puts the line of an instance behind the prefix of the copy that it lies in, for the prefix of its own copy.
pub(crate) fn push_line(text: &mut Vec<u8>, line: u32) -> Result<(), Memory>
    ensures line { OnOk result (text.new.items ≡ text.old.items ++ line_prefix line) }
    ensures length { length text.old.items ≤ length text.new.items }
{
    text.extend_from_slice(Buffer::new().format(line).as_bytes())?;
    text.push(b'/')?;
    Ok(())
}

fn insert_join(joins: &mut Joins, formal: Vec<u8>, net: Net) -> Result<(), Memory>
    ensures { OnOk result (plain_joins joins.new.entries ≡ insert_entry bytes_eq (plain_joins joins.old.entries) formal.items (plain_net net)) }
{
    joins.insert(formal, net)?;
    Ok(())
}

impl<'a> ModelCopy<'a> {
    fn inner_net(&self, alloc: Global, name: &[u8]) -> Result<Net, Memory>
        ensures { IfOk result (λ net. plain_net net ≡ record { depth = self.now.depth; name = self.now.prefix ++ name.now }) }
    {
        let mut text = Vec::from_slice(alloc, self.prefix)?;
        text.extend_from_slice(name)?;
        Ok(Net {
            depth: self.depth,
            name: text,
        })
    }

    /// The net of a name in the copy.
    pub(crate) fn net_in(&self, alloc: Global, name: &[u8]) -> Result<Net, Memory>
        ensures { IfOk result (λ net. plain_net net ≡ net_in self.now name.now) }
    {
        match self.joins.get(name) {
            Some(net) => copy_of(alloc, net),
            None => self.inner_net(alloc, name),
        }
    }

    /// Adds what a word of an instance joins.
    fn join(&self, alloc: Global, joins: &mut Joins, word: &[u8]) -> Result<(), Memory>
        ensures { OnOk result (plain_joins joins.new.entries ≡ insert_all bytes_eq (plain_joins joins.old.entries) (option_to_list (join_in self.now word.now))) }
    {
        match sides(word) {
            None => Ok(()),
            Some((formal, actual)) => {
                let net = self.net_in(alloc, actual)?;
                insert_join(joins, Vec::from_slice(alloc, formal)?, net)
            }
        }
    }

    /// What the words of an instance join.
    pub(crate) fn joins_in(&self, alloc: Global, words: &[Name]) -> Result<Joins, Memory>
        ensures { IfOk result (λ joins. plain_joins joins.entries ≡ joins_in self.now words.now) }
    {
        let mut joins = IndexMap::new(alloc);
        for word in words {
            self.join(alloc, &mut joins, word.bytes())?;
        }
        Ok(joins)
    }
}
