//! What is given to a machine: at first, while words are loaded, and where it starts to run.

ghost use Rattle.std.specs.Prelude.{◌≡◌, ◌+◌, ◌<◌, ◌≤◌, Bool, List, length, map};
ghost use Rattle.fab_meaning.specs.Loading.{offered_at};
ghost use Rattle.fab_ternary.specs.Terns.{plain_tern};
ghost use Rattle.fab_network.specs.Network.{AreFit};
ghost use Rattle.fab_network.specs.Passes.{kept_tern};
ghost use Rattle.fab_phases.specs.Cycles.{AreOnce};
ghost use Rattle.fab_phases.specs.Loading.{IsSolvable};
ghost use Rattle.fab_phases.specs.Running.{AreNumbers};
ghost use Rattle.fab_phases.specs.Words.{AreLoadSteps, IsLoadingAt, word_bits};
ghost use Rattle.fab_state_points.specs.Standing.{data_width, first_data};
ghost use Rattle.fab_sim.specs.inner.Starting.{AreFilled, IsSetOut};

use fab_demand::Demand;
use fab_network::Network;
use fab_phases::{Loading, feed, load_bits, load_words, open};
use fab_state_points::{DataPoints, StatePoints};
use fab_ternary::Tern;

/// Loads words, whole or bit by bit.
pub fn load_stream(
    network: &Network,
    loading: &Loading,
    carrier: DataPoints,
    words: &[u32],
    demand: &mut Demand,
    given: &mut [Tern],
)
    requires fit { AreFit network.now.trees.items network.now.drives.items }
    requires solvable { IsSolvable network.now }
    requires points { length network.now.drives.items ≡ length demand.old.leads }
    requires given { length given.old ≡ length demand.old.leads }
    requires loading { (loads : List Bool) × IsLoadingAt network.now loading.now loads (first_data carrier) (data_width carrier) demand.old given.old }
    ensures points { length demand.new.leads ≡ length demand.old.leads }
    ensures steps { (loads : List Bool) → IsLoadingAt network.now loading.now loads (first_data carrier) (data_width carrier) demand.old given.old →
        AreLoadSteps network.now loads (first_data carrier) (offered_at (data_width carrier) (map word_bits words.now)) (kept_tern given.old) (kept_tern given.new) }
{
    match carrier {
        DataPoints::Bit(point) => load_bits(network, loading, point, words, demand, given),
        DataPoints::Word(first) => load_words(network, loading, first, words, demand, given),
    }
}

/// Sets the flip-flops of the state, and opens the inputs that it names. Inputs that carry words are 0 from now on.
pub fn set_out(points: &StatePoints, values: &[bool], given: &mut [Tern])
    requires strobe { points.now.stream.strobe < length given.old }
    requires carrier { first_data points.now.stream.carrier + data_width points.now.stream.carrier ≤ length given.old }
    requires ins { AreNumbers (length given.old) points.now.ins.items }
    requires ffs { AreNumbers (length given.old) points.now.ffs.items }
    requires once { AreOnce points.now.ffs.items }
    requires values { length values.now ≡ length points.now.ffs.items }
    ensures { IsSetOut points.now values.now (kept_tern given.old) (kept_tern given.new) }
{
    let carrier = points.stream.carrier;
    given[points.stream.strobe as usize] = Tern::No;
    fill(carrier.first(), carrier.width(), Tern::No, given);
    open(&points.ins, given);
    feed(&points.ffs, values, given);
}

/// Gives a value to points that follow one another.
pub fn fill(first: u32, width: u32, value: Tern, given: &mut [Tern])
    requires { first + width ≤ length given.old }
    ensures { AreFilled first width (plain_tern value) (kept_tern given.old) (kept_tern given.new) }
{
    for bit in 0..width {
        given[first as usize + bit as usize] = value;
    }
}
