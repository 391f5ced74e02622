//! What the words of a bitstream leave in the loader and in the configuration latches, whatever they held and however the clocks tick between
//! words, and what they leave in a chain of flip-flops: laws of small machines, apart from any text.
#![tactic(auto)]

ghost use Rattle.fab_loading_laws.specs.Streams.{StreamsLoad, TicksKeepMachines};
ghost use Rattle.fab_loading_laws.specs.Chain.{TilesAreOneChain, ChainLoads};

/// The words of a bitstream leave each configuration latch at its bit and the loader waiting, whatever they held, with any ticks of their clock
/// that bring no word and any ticks of other clocks among them.
pub fn streams_load()
    ensures { StreamsLoad }
{}

/// What the registers of a loader can hold, they can hold after a tick.
pub fn ticks_keep_machines()
    ensures { TicksKeepMachines }
{}

/// The bits of tiles one behind the other, to each of which comes what the one before it lets out, are one chain.
pub fn tiles_are_one_chain()
    ensures { TilesAreOneChain }
{}

/// Whatever the flip-flops of a chain held, the words of a bitstream, bit by bit, leave each at its bit.
pub fn chains_load()
    ensures { ChainLoads }
{}
