//! A net's tree is given up, or taken up: the users of its nodes, and their prices.
ghost use Rattle.std.specs.Prelude.{◌≡◌, ℕ, ◌+◌, ◌*◌, ◌<◌, ◌≤◌, true, slice_index};
ghost use Rattle.std.specs.List.{All};
ghost use Rattle.fab_astar.specs.Walks.{has};
ghost use Rattle.fab_astar.specs.Tables.{AreTables, IsCharged, count_of, users_of};
ghost use Rattle.fab_pathfinder.specs.Plain.{most_routed_nets};
ghost use Rattle.fab_pathfinder.specs.inner.Prices.{bit, ArePriced, IsPast};

use fab_astar::Tables;

/// The price of a node in a round, for a net beside so many others that have it.
pub(crate) fn price(past: u32, round: u32, others: u32) -> u64
    requires past { past ≤ 2064447 }
    requires round { round < 64 }
    requires others { others ≤ most_routed_nets }
    ensures { result ≡ (1 + past) * (1 + round * others) }
{
    (1 + past as u64) * (1 + round as u64 * others as u64)
}

/// A node has so many users now.
fn recount(tables: &mut Tables, past: &[u32], round: u32, node: u32, users: u32)
    requires tables { AreTables tables.old }
    requires past { IsPast past.now round tables.old }
    requires node { node < count_of tables.old }
    requires few { users ≤ most_routed_nets }
    requires priced { ArePriced past.now round tables.old }
    ensures tables { AreTables tables.new }
    ensures charged { IsCharged tables.old tables.new node users ((1 + slice_index past.now node) * (1 + round * users)) }
    ensures priced { ArePriced past.now round tables.new }
{
    let price = price(past[node as usize], round, users);
    tables.charge(node, users, price);
}

/// Takes the nodes of a tree out of the counts. Each counts once, wherever it stands.
pub(crate) fn give_up(tables: &mut Tables, past: &[u32], round: u32, nodes: &[u32])
    requires tables { AreTables tables.old }
    requires past { IsPast past.now round tables.old }
    requires nodes { All (λ w. w < count_of tables.old) nodes.now }
    requires few { (w : ℕ) → users_of tables.old w ≤ most_routed_nets }
    requires counted { (w : ℕ) → has nodes.now w ≡ true → 1 ≤ users_of tables.old w }
    requires priced { ArePriced past.now round tables.old }
    ensures tables { AreTables tables.new }
    ensures count { count_of tables.new ≡ count_of tables.old }
    ensures priced { ArePriced past.now round tables.new }
    ensures users { (w : ℕ) → users_of tables.new w + bit (has nodes.now w) ≡ users_of tables.old w }
{
    tables.release();
    for node in nodes {
        if tables.is_held(*node) {
            continue;
        }
        tables.hold(*node);
        let users = tables.users(*node) - 1;
        recount(tables, past, round, *node, users);
    }
}

/// Takes the nodes of a tree into the counts.
pub(crate) fn take_up(tables: &mut Tables, past: &[u32], round: u32, nodes: &[u32])
    requires tables { AreTables tables.old }
    requires past { IsPast past.now round tables.old }
    requires nodes { All (λ w. w < count_of tables.old) nodes.now }
    requires few { (w : ℕ) → users_of tables.old w < most_routed_nets }
    requires priced { ArePriced past.now round tables.old }
    ensures tables { AreTables tables.new }
    ensures count { count_of tables.new ≡ count_of tables.old }
    ensures priced { ArePriced past.now round tables.new }
    ensures users { (w : ℕ) → users_of tables.new w ≡ users_of tables.old w + bit (has nodes.now w) }
{
    tables.release();
    for node in nodes {
        if tables.is_held(*node) {
            continue;
        }
        tables.hold(*node);
        let users = tables.users(*node) + 1;
        recount(tables, past, round, *node, users);
    }
}
