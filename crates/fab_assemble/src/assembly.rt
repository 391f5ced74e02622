//! The assembly of an implementation.

ghost use Rattle.std.specs.Prelude.{◌≡◌, List, IfOk, OnOk, IfErr, All};
ghost use Rattle.fab_syntax.specs.Plain.{PlainModule};
ghost use Rattle.fab_fabric.specs.Bits.{AreBitsOf, plain_bits};
ghost use Rattle.fab_netlist.specs.Cycles.{HasNoCycle};
ghost use Rattle.fab_netlist.specs.Packing.{packed as packed_of};
ghost use Rattle.fab_implementation.specs.OnFabric.{IsOnFabric};
ghost use Rattle.fab_implementation.specs.Inputs.{InputsAreLines};
ghost use Rattle.fab_legal.specs.Legal.{IsLegal};
ghost use Rattle.fab_legal.specs.Broken.{Explains};
ghost use Rattle.fab_frames.specs.Stream.{stream};
ghost use Rattle.fab_settling_laws.specs.fab_fabric_text_defs_Texts.{IsFabricText};
ghost use Rattle.fab_settling_laws.specs.fab_use_defs_Registers.{design_state};
ghost use Rattle.fab_settling_laws.specs.fab_use_defs_Configuring.{Configures};
ghost use Rattle.fab_settling_laws.specs.fab_use_defs_Headline.{RunsDesign};
ghost use Rattle.fab_settling_laws.specs.Settling.{SettlesDesign};
ghost use Rattle.fab_gen_tile.specs.Words.{IsNamed};
ghost use Rattle.fab_features.specs.Design.{design_features};
ghost use Rattle.fab_features.specs.Features.{IsBitMapOf};
ghost use Rattle.fab_features.specs.Naming.{HasPrefixes};

use crate::state::state_of;
use fab_fabric::{Bits, Fabric};
use fab_fasm::Feature;
use fab_features::{design_bits, features_of};
use fab_frames::frames;
use fab_legal::{CheckFault, Fixed, Implementation, check, packed_is_well_made};
use fab_netlist::{Netlist, Packed};
use fab_settling_laws::{legal_designs_run, legal_designs_settle};
use fab_state::State;
use std::alloc::Global;

/// What a device is given so that it becomes a design.
#[derive(Debug, Drop)]
pub struct Assembled {
    /// The features, line by line.
    pub features: Vec<Feature>,
    /// The configuration bits.
    pub bits: Bits,
    /// The bitstream that loads them, as words of 32 bits.
    pub words: Vec<u32>,
    /// The ports at their pads, and what the flip-flops hold at first.
    pub state: State,
}

/// Assembles an implementation of a packed netlist, if it is legal: its features, its configuration bits, the words that load
/// them and the state from which it starts. In each text of the fabric the words then run the netlist, whatever order the
/// text settles in.
///
/// # Errors
///
/// The first of the nine rules that is broken with what breaks it first, or want of memory.
pub fn assemble(
    alloc: Global,
    fabric: &Fabric,
    netlist: &Netlist,
    packed: &Packed,
    fixed: &Fixed,
    implementation: Implementation,
) -> Result<Assembled, CheckFault>
    requires no_cycle { HasNoCycle netlist.now }
    requires packed { packed.now ≡ packed_of netlist.now }
    requires on_fabric { IsOnFabric fabric.now implementation }
    requires lines { InputsAreLines implementation }
    ensures legal { OnOk result (IsLegal fabric.now packed.now fixed.now implementation) }
    ensures features { IfOk result (λ it. it.features.items ≡ design_features fabric.now packed.now implementation) }
    ensures bits { IfOk result (λ it. AreBitsOf fabric.now it.bits) }
    ensures configures { IfOk result (λ it. Configures fabric.now packed.now implementation (plain_bits it.bits)) }
    ensures map { IfOk result (λ it. All IsNamed fabric.now.types → All HasPrefixes fabric.now.types → IsBitMapOf fabric.now it.features.items (plain_bits it.bits)) }
    ensures words { IfOk result (λ it. it.words.items ≡ stream fabric.now (plain_bits it.bits)) }
    ensures state { IfOk result (λ it. it.state ≡ design_state packed.now implementation) }
    ensures runs { IfOk result (λ it. (text : List PlainModule) → IsFabricText fabric.now text → RunsDesign fabric.now text netlist.now netlist.now implementation it.words.items it.state) }
    ensures settles { IfOk result (λ it. (text : List PlainModule) → IsFabricText fabric.now text → SettlesDesign fabric.now text netlist.now netlist.now implementation it.words.items) }
    ensures err { IfErr result (Explains fabric.now packed.now fixed.now implementation) }
{
    netlist.is_well_made();
    packed_is_well_made();
    legal_designs_run();
    legal_designs_settle();
    fabric.is_well_made();
    let legal = check(alloc, fabric, packed, fixed, implementation)?;
    let features = features_of(alloc, fabric, packed, &legal)?;
    let bits = design_bits(alloc, fabric, packed, &legal)?;
    let words = frames(alloc, fabric, &bits)?;
    let state = state_of(alloc, packed, legal.get())?;
    Ok(Assembled {
        features,
        bits,
        words,
        state,
    })
}
