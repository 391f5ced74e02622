//! Netlists after reading and flattening.

ghost use Rattle.std.specs.Prelude.{◌≡◌, ◌<◌, length, IfOk, MatchOption, None, true, false};
ghost use Rattle.std.specs.Str.{bytes_eq};
ghost use Rattle.fab_netlist.specs.Plain.{name_of};
ghost use Rattle.fab_netlist.specs.Cycles.{HasNoCycle, IsOneCycle};
ghost use Rattle.fab_netlist.specs.inner.Order.{IsOrder};
ghost use Rattle.fab_netlist.specs.Resets.{IsSetTo, reset_place};
ghost use Rattle.fab_netlist.specs.WellMade.{IsWellMade};

use crate::walk::find_order;
use fab_base::{Memory, Name};
use std::alloc::Global;
use std::marker::Model;

/// How many nets a netlist may have.
pub const MAX_NETS: usize = 16_384;

/// A look-up table between nets. Nets are named by their places in the netlist.
#[derive(Debug, Drop)]
pub struct Cover {
    /// The line of the file on which the cover begins.
    pub line: u32,
    /// The nets that it reads, at most four.
    pub inputs: Vec<u32>,
    /// The net that it drives.
    pub output: u32,
    /// Bit i is the value of the output where the inputs, the first as least significant, spell i. A cover of fewer than
    /// four inputs has its bits repeated to 16.
    pub table: u16,
}

impl Model for Cover {
    ghost use Rattle.fab_netlist.specs.Plain.{PlainCover};

    ghost Value = { PlainCover };

    ghost view = { λ cover. record { line = cover.line; inputs = cover.inputs.items; output = cover.output; table = cover.table } };
}

/// A latch between nets, which takes its input once a cycle.
#[derive(Clone, Copy, Debug, PartialEq, Eq)]
pub struct Latch {
    /// The net that it takes.
    pub input: u32,
    /// The net that it drives.
    pub output: u32,
    /// The initial value: 0, 1, or 2 and 3 for any.
    pub init: u8,
}

/// What a netlist is made of. A search for cycles goes through it.
#[derive(Drop)]
pub(crate) struct Parts<'a> {
    pub nets: &'a [Name],
    pub inputs: &'a [u32],
    pub outputs: &'a [u32],
    pub covers: &'a [Cover],
    pub latches: &'a [Latch],
    pub reset: Option<u32>,
}

impl<'a> Model for Parts<'a> {
    ghost use Rattle.fab_netlist.specs.Plain.{PlainNetlist};

    ghost Value = { PlainNetlist };

    ghost view = { λ parts. record { nets = parts.nets.now; inputs = parts.inputs.now; outputs = parts.outputs.now; covers = parts.covers.now; latches = parts.latches.now; reset = parts.reset } };
}

/// In what order the covers of a netlist may be asked.
#[derive(Debug, Drop)]
pub(crate) enum Order {
    /// The places of all covers, each behind those that it reads.
    Straight(Vec<u32>),
    /// There is none: the places of covers of which each reads the next, and the last one the first.
    Round(Vec<u32>),
}

/// A netlist. Contracts see it as a record of lists. It is well made: each net that something reads is driven, and none is
/// driven twice. It keeps an order of its covers, which contracts do not see.
#[derive(Debug, Drop)]
pub struct Netlist {
    /// The names of the nets.
    pub nets: Vec<Name>,
    /// The nets of the input ports.
    pub inputs: Vec<u32>,
    /// The nets of the output ports.
    pub outputs: Vec<u32>,
    /// The covers, in any order.
    pub covers: Vec<Cover>,
    /// The latches; held values stand in their order.
    pub latches: Vec<Latch>,
    /// The reset port, by its place among the input ports, where one is chosen.
    pub reset: Option<u32>,
    order: Order,
}

impl Model for Netlist {
    ghost use Rattle.fab_netlist.specs.Plain.{PlainNetlist};
    ghost use Rattle.fab_netlist.specs.inner.Order.{IsSound};

    ghost Value = { PlainNetlist };

    ghost view = { λ netlist. record { nets = netlist.nets.items; inputs = netlist.inputs.items; outputs = netlist.outputs.items; covers = netlist.covers.items; latches = netlist.latches.items; reset = netlist.reset } };

    ghost invariant = { λ netlist. IsSound (record { nets = netlist.nets.items; inputs = netlist.inputs.items; outputs = netlist.outputs.items; covers = netlist.covers.items; latches = netlist.latches.items; reset = netlist.reset }) netlist.order };
}

impl Netlist {
    /// The netlist of these nets, ports, covers and latches, which are well made. It is `Memory` where memory was refused. The
    /// time is linear: an order of the covers is searched here, once, for `step` and `check_acyclic`.
    pub fn new(
        alloc: Global,
        nets: Vec<Name>,
        inputs: Vec<u32>,
        outputs: Vec<u32>,
        covers: Vec<Cover>,
        latches: Vec<Latch>,
    ) -> Result<Netlist, Memory>
        requires { IsWellMade (record { nets = nets.items; inputs = inputs.items; outputs = outputs.items; covers = covers.items; latches = latches.items; reset = None }) }
        ensures { IfOk result (λ netlist. netlist ≡ record { nets = nets.items; inputs = inputs.items; outputs = outputs.items; covers = covers.items; latches = latches.items; reset = None }) }
    {
        let parts = Parts {
            nets: &nets,
            inputs: &inputs,
            outputs: &outputs,
            covers: &covers,
            latches: &latches,
            reset: None,
        };
        let order = find_order(alloc, &parts)?;
        Ok(Netlist {
            nets,
            inputs,
            outputs,
            covers,
            latches,
            reset: None,
            order,
        })
    }

    /// States what holds of every netlist, for the calls that rest on it. It does nothing.
    pub fn is_well_made(&self)
        ensures { IsWellMade self.now }
    {
        let _ = &self.nets;
    }

    /// What it is made of, as a search for cycles sees it.
    pub(crate) fn parts(&self) -> Parts<'_>
        ensures { result ≡ self.now }
    {
        Parts {
            nets: &self.nets,
            inputs: &self.inputs,
            outputs: &self.outputs,
            covers: &self.covers,
            latches: &self.latches,
            reset: self.reset,
        }
    }

    /// Whether a net has a name.
    fn is_named(&self, net: u32, port: &[u8]) -> bool
        requires { net < length self.now.nets }
        ensures { result ≡ bytes_eq port.now (name_of self.now net) }
    {
        port == self.nets[net as usize].bytes()
    }

    /// The place of the input port of a name.
    fn place_of(&self, port: &[u8]) -> Option<u32>
        ensures { result ≡ reset_place self.now port.now }
    {
        self.is_well_made();
        for (place, net) in self.inputs.iter().enumerate() {
            if self.is_named(*net, port) {
                return Some(place as u32);
            }
        }
        None
    }

    /// Chooses the input port of a name as the reset port: in a cycle in which it is 1 the latches take their initial values. It is false, and
    /// nothing changes, where no input port has the name.
    pub fn set_reset(&mut self, port: &[u8]) -> bool
        ensures sets { IsSetTo self.old port.now result self.new }
        ensures acyclic { HasNoCycle self.old → HasNoCycle self.new }
    {
        match self.place_of(port) {
            None => false,
            Some(place) => {
                self.reset = Some(place);
                true
            }
        }
    }

    /// The places of all covers, each behind those that it reads.
    pub(crate) fn order(&self) -> &[u32]
        requires { HasNoCycle self.now }
        ensures { IsOrder self.now result.now }
    {
        match &self.order {
            Order::Straight(places) => places.as_slice(),
            Order::Round(_) => unreachable!(),
        }
    }

    /// The places of covers that read one another round, if there are such covers.
    pub(crate) fn cycle(&self) -> Option<&[u32]>
        ensures { MatchOption result (HasNoCycle self.now) (λ places. IsOneCycle self.now places.now) }
    {
        match &self.order {
            Order::Straight(_) => None,
            Order::Round(places) => Some(places.as_slice()),
        }
    }
}
