//! The kinds and what is asked of them.

ghost use Rattle.std.specs.Prelude.{◌≡◌, ◌+◌, ◌<◌, ◌≤◌, length, slice_get, IsTrue};
ghost use Rattle.fab_kinds.specs.Pins.{input_count, output_count, bit_count, pin_names};
ghost use Rattle.fab_kinds.specs.Kinds.{output_of, next_of, has_flip_flop};

use crate::{lut, mux};

/// A kind of BEL.
#[derive(Clone, Copy, Debug, PartialEq, Eq)]
pub enum Kind {
    /// A look-up table of four inputs with a carry and a flip-flop.
    Lut4c,
    /// An IO pad with a flip-flop behind its input.
    Io,
    /// A tree of multiplexers over eight inputs.
    Mux8,
}

const LUT_PINS: [&str; 9] = ["I0", "I1", "I2", "I3", "Ci", "SR", "EN", "O", "Co"];

const PAD_PINS: [&str; 4] = ["I", "T", "O", "Q"];

const MUX_PINS: [&str; 16] = [
    "A", "B", "C", "D", "E", "F", "G", "H", "S0", "S1", "S2", "S3", "M_AB", "M_AD", "M_AH", "M_EF",
];

impl Kind {
    /// How many configuration bits it has.
    pub fn bits(self) -> u32
        ensures { result ≡ bit_count self }
    {
        match self {
            Kind::Lut4c => 19,
            Kind::Io => 0,
            Kind::Mux8 => 2,
        }
    }

    /// How many input pins it has.
    pub fn inputs(self) -> u32
        ensures { result ≡ input_count self }
    {
        match self {
            Kind::Lut4c => 7,
            Kind::Io => 2,
            Kind::Mux8 => 12,
        }
    }

    /// How many output pins it has.
    pub fn outputs(self) -> u32
        ensures { result ≡ output_count self }
    {
        match self {
            Kind::Lut4c => 2,
            Kind::Io => 2,
            Kind::Mux8 => 4,
        }
    }

    /// The name of a pin. A pin's number counts the inputs first.
    pub fn pin_name(self, pin: u32) -> &'static str
        requires { pin < input_count self + output_count self }
        ensures { slice_get (pin_names self) pin ≡ Some result.now }
    {
        match self {
            Kind::Lut4c => LUT_PINS[pin as usize],
            Kind::Io => PAD_PINS[pin as usize],
            Kind::Mux8 => MUX_PINS[pin as usize],
        }
    }

    /// The value of an output pin. `pins` are the values of the input pins and `config` the configuration bits, both in
    /// their order; `held` is what the flip-flop holds, and `top` what comes from the outside of a pad.
    pub fn output(self, pin: u32, pins: &[bool], config: &[bool], held: bool, top: bool) -> bool
        requires after_inputs { input_count self ≤ pin }
        requires known { pin < input_count self + output_count self }
        requires pins { length pins.now ≡ input_count self }
        requires config { length config.now ≡ bit_count self }
        ensures { result ≡ output_of self pin pins.now config.now held top }
    {
        let place = (pin - self.inputs()) as usize;
        match self {
            Kind::Lut4c => lut::outputs(pins, config, held)[place],
            Kind::Io => [top, held][place],
            Kind::Mux8 => mux::outputs(pins, config)[place],
        }
    }

    /// Whether it has a flip-flop.
    pub fn has_flip_flop(self) -> bool
        ensures { result ≡ has_flip_flop self }
    {
        match self {
            Kind::Lut4c | Kind::Io => true,
            Kind::Mux8 => false,
        }
    }

    /// The next value of the flip-flop, from the same values as an output's.
    pub fn next(self, pins: &[bool], config: &[bool], held: bool, top: bool) -> bool
        requires flip_flop { IsTrue (has_flip_flop self) }
        requires pins { length pins.now ≡ input_count self }
        requires config { length config.now ≡ bit_count self }
        ensures { result ≡ next_of self pins.now config.now held top }
    {
        match self {
            Kind::Lut4c => lut::next(pins, config, held),
            Kind::Io => top,
            Kind::Mux8 => unreachable!(),
        }
    }
}
