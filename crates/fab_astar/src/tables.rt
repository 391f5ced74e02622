//! What is kept of each node: for all nets, for the tree that grows, and for the search at hand.
ghost use Rattle.std.specs.Prelude.{◌≡◌, ◌↔◌, IsTrue, ℕ, ◌+◌, ◌<◌, ◌≤◌, ◌^◌, false, length, map, slice_index, OnOk, IfOk};
ghost use Rattle.fab_astar.specs.declared.tables.Node.{Node};

use crate::queue::Queue;
use fab_base::Memory;
use std::alloc::Global;

/// A node's place in the search at hand, in the tree, and among all nets.
#[derive(Clone, Copy)]
pub(crate) struct Node {
    /// The least price so far of a walk to it.
    pub cost: u64,
    /// What a net pays for it.
    pub price: u64,
    /// Which search last saw it, and whether that has settled it.
    pub stamp: u32,
    /// The node before it on that walk, or itself where the walk begins.
    pub before: u32,
    /// Which tree last took it.
    pub tree: u32,
    /// How many nets have it.
    pub users: u32,
    /// When a signal is there that goes by that walk, or by that of the tree.
    pub arrival: u32,
}

/// The tables of all searches in one graph. They are made once; a new search, and a new tree, costs nothing for each node.
#[derive(Drop)]
pub struct Tables {
    pub(crate) mark: u32,
    pub(crate) tree_mark: u32,
    /// When a signal can be at the goals of the search at hand, at the soonest.
    pub(crate) soonest: u32,
    pub(crate) nodes: Vec<Node>,
    pub(crate) queue: Queue,
}

impl Tables {
    ghost use Rattle.fab_astar.specs.Queue.{IsEmpty, IsPushed, IsQueue, size};
    ghost use Rattle.fab_astar.specs.State.{improves, stamp, cost, before, settled, taken, IsOpen};
    ghost use Rattle.fab_astar.specs.Tables.{state_of, count_of, price_of, users_of, is_held, prices, counts, AreTables, IsKept, IsCharged, IsHeldToo};

    /// Tables for so many nodes, which no net has.
    pub fn new(alloc: Global, nodes: u32) -> Result<Tables, Memory>
        ensures tables { IfOk result AreTables }
        ensures count { IfOk result (λ tables. count_of tables ≡ nodes) }
        ensures unused { IfOk result (λ tables. (node : ℕ) → users_of tables node ≡ 0) }
    {
        let blank = Node {
            cost: 0,
            price: 0,
            stamp: 0,
            before: 0,
            tree: 0,
            users: 0,
            arrival: 0,
        };
        let mut table = Vec::with_capacity(alloc, nodes as usize)?;
        for _ in 0..nodes {
            table.push(blank)?;
        }
        Ok(Tables {
            mark: 1,
            tree_mark: 1,
            soonest: 0,
            nodes: table,
            queue: Queue::new(alloc)?,
        })
    }

    /// How many nets have the node.
    pub fn users(&self, node: u32) -> u32
        requires { node < count_of self.now }
        ensures { result ≡ users_of self.now node }
    {
        self.nodes[node as usize].users
    }

    /// Whether the tree that grows now has the node.
    pub fn is_held(&self, node: u32) -> bool
        requires { node < count_of self.now }
        ensures { result ≡ is_held self.now node }
    {
        self.nodes[node as usize].tree == self.tree_mark
    }

    /// What a net pays for the node.
    pub(crate) fn price(&self, node: u32) -> u64
        requires { node < count_of self.now }
        ensures { result ≡ price_of self.now node }
    {
        self.nodes[node as usize].price
    }

    /// The least price so far of a walk to the node.
    pub(crate) fn cost(&self, node: u32) -> u64
        requires { node < count_of self.now }
        ensures { result ≡ cost (state_of self.now) node }
    {
        self.nodes[node as usize].cost
    }

    /// When a signal is at the node that goes by that walk, or by that of the tree.
    pub(crate) fn arrival(&self, node: u32) -> u32
        requires { node < count_of self.now }
    {
        self.nodes[node as usize].arrival
    }

    /// The node before it on that walk, or itself.
    pub(crate) fn before(&self, node: u32) -> u32
        requires { node < count_of self.now }
        ensures { result ≡ before (state_of self.now) node }
    {
        self.nodes[node as usize].before
    }

    /// Whether the search at hand has seen the node and not settled it.
    pub(crate) fn is_open(&self, node: u32) -> bool
        requires { node < count_of self.now }
        ensures { IsTrue result ↔ IsOpen (state_of self.now) node }
    {
        self.nodes[node as usize].stamp == self.mark
    }

    /// Sets how many nets have the node, and what a net pays for it.
    pub fn charge(&mut self, node: u32, users: u32, price: u64)
        requires tables { AreTables self.old }
        requires node { node < count_of self.old }
        ensures tables { AreTables self.new }
        ensures charged { IsCharged self.old self.new node users price }
    {
        let note = &mut self.nodes[node as usize];
        note.users = users;
        note.price = price;
    }

    /// Takes the node into the tree that grows now.
    pub fn hold(&mut self, node: u32)
        requires tables { AreTables self.old }
        requires node { node < count_of self.old }
        ensures tables { AreTables self.new }
        ensures held { IsHeldToo self.old self.new node }
    {
        let mark = self.tree_mark;
        let note = &mut self.nodes[node as usize];
        note.tree = mark;
    }

    /// Begins a new tree, which has no node.
    pub fn release(&mut self)
        requires tables { AreTables self.old }
        ensures tables { AreTables self.new }
        ensures count { count_of self.new ≡ count_of self.old }
        ensures price { prices self.new ≡ prices self.old }
        ensures users { counts self.new ≡ counts self.old }
        ensures free { (node : ℕ) → is_held self.new node ≡ false }
    {
        if self.tree_mark < u32::MAX {
            self.tree_mark += 1;
        } else {
            clear_trees(&mut self.nodes);
            self.tree_mark = 1;
        }
    }

    /// Forgets the last search. In the next one a signal can be at the goals at this time, at the soonest.
    pub(crate) fn begin(&mut self, soonest: u32)
        requires tables { AreTables self.old }
        ensures tables { AreTables self.new }
        ensures kept { IsKept self.old self.new }
        ensures empty { IsEmpty self.new.queue }
        ensures unseen { (node : ℕ) → stamp (state_of self.new) node < self.new.mark }
    {
        self.queue.clear();
        self.soonest = soonest;
        if self.mark < u32::MAX - 4 {
            self.mark += 2;
        } else {
            clear_stamps(&mut self.nodes);
            self.mark = 1;
        }
    }

    /// Whether the node is better reached at this price.
    pub(crate) fn improves(&self, node: u32, cost: u64) -> bool
        requires { node < count_of self.now }
        ensures { result ≡ improves (state_of self.now) node cost }
    {
        let note = &self.nodes[node as usize];
        let stamp = note.stamp;
        if stamp == self.mark {
            cost < note.cost
        } else {
            stamp < self.mark
        }
    }

    /// Gives a node a price, the node before it, and the time when a signal arrives there. Among entries of one key those are taken out
    /// first by which it is due at the goals the soonest.
    pub(crate) fn take(
        &mut self,
        node: u32,
        cost: u64,
        before: u32,
        key: u64,
        arrival: u32,
        due: u32,
    ) -> Result<(), Memory>
        requires node { node < count_of self.old }
        requires queue { IsQueue self.old.queue }
        ensures taken { OnOk result (state_of self.new ≡ taken (state_of self.old) node cost before) }
        ensures pushed { OnOk result (IsPushed self.old.queue self.new.queue key node) }
        ensures queue { OnOk result (IsQueue self.new.queue) }
        ensures size { OnOk result (size self.new.queue ≤ size self.old.queue + 1) }
        ensures kept { OnOk result (IsKept self.old self.new) }
    {
        let tie = tie_of(due.saturating_sub(self.soonest));
        self.queue.push(key, tie, node)?;
        let mark = self.mark;
        let note = &mut self.nodes[node as usize];
        note.stamp = mark;
        note.cost = cost;
        note.before = before;
        note.arrival = arrival;
        Ok(())
    }

    /// Settles a node.
    pub(crate) fn settle(&mut self, node: u32)
        requires node { node < count_of self.old }
        requires small { self.old.mark + 1 < 2 ^ 32 }
        ensures settled { state_of self.new ≡ settled (state_of self.old) node }
        ensures queue { self.new.queue ≡ self.old.queue }
        ensures kept { IsKept self.old self.new }
    {
        let mark = self.mark;
        let note = &mut self.nodes[node as usize];
        note.stamp = mark + 1;
    }
}

/// Where entries by which a signal comes so late stand among those of one key. A step to the next tile and back takes no less than 6.
fn tie_of(late: u32) -> u32
    ensures { result < 8 }
{
    (late / 6).min(7)
}

/// Forgets which tree took a node.
fn clear_trees(nodes: &mut Vec<Node>)
    ensures count { length nodes.new.items ≡ length nodes.old.items }
    ensures price { map (λ (n : Node). n.price) nodes.new.items ≡ map (λ (n : Node). n.price) nodes.old.items }
    ensures users { map (λ (n : Node). n.users) nodes.new.items ≡ map (λ (n : Node). n.users) nodes.old.items }
    ensures stamps { map (λ (n : Node). n.stamp) nodes.new.items ≡ map (λ (n : Node). n.stamp) nodes.old.items }
    ensures clear { (k : ℕ) → slice_index (map (λ (n : Node). n.tree) nodes.new.items) k ≡ 0 }
{
    for at in 0..nodes.len() {
        let note = &mut nodes[at];
        note.tree = 0;
    }
}

/// Forgets which search saw a node.
fn clear_stamps(nodes: &mut Vec<Node>)
    ensures count { length nodes.new.items ≡ length nodes.old.items }
    ensures price { map (λ (n : Node). n.price) nodes.new.items ≡ map (λ (n : Node). n.price) nodes.old.items }
    ensures users { map (λ (n : Node). n.users) nodes.new.items ≡ map (λ (n : Node). n.users) nodes.old.items }
    ensures trees { map (λ (n : Node). n.tree) nodes.new.items ≡ map (λ (n : Node). n.tree) nodes.old.items }
    ensures clear { (k : ℕ) → slice_index (map (λ (n : Node). n.stamp) nodes.new.items) k ≡ 0 }
{
    for at in 0..nodes.len() {
        let note = &mut nodes[at];
        note.stamp = 0;
    }
}
