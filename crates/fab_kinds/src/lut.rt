//! The look-up table.

ghost use Rattle.std.specs.Prelude.{◌≡◌, length};
ghost use Rattle.fab_kinds.specs.Lut.{lut_pins, lut_settings, lut_value, at_least_two, lut_outputs, lut_next};

/// The table at the index that the inputs stand for.
fn value(pins: &[bool], config: &[bool]) -> bool
    requires pins { length pins.now ≡ 7 }
    requires config { length config.now ≡ 19 }
    ensures { result ≡ lut_value (lut_settings config.now) (lut_pins pins.now) }
{
    let lowest = if config[17] { pins[4] } else { pins[0] };
    let index = usize::from(lowest)
        + 2 * usize::from(pins[1])
        + 4 * usize::from(pins[2])
        + 8 * usize::from(pins[3]);
    config[index]
}

/// Whether at least two of three bits are 1.
fn carry(first: bool, second: bool, third: bool) -> bool
    ensures { result ≡ at_least_two first second third }
{
    (first && second) || (first && third) || (second && third)
}

/// O and Co.
pub fn outputs(pins: &[bool], config: &[bool], held: bool) -> [bool; 2]
    requires pins { length pins.now ≡ 7 }
    requires config { length config.now ≡ 19 }
    ensures { result ≡ lut_outputs pins.now config.now held }
{
    let output = if config[16] {
        held
    } else {
        value(pins, config)
    };
    [output, carry(pins[4], pins[1], pins[2])]
}

/// What the flip-flop holds next.
pub fn next(pins: &[bool], config: &[bool], held: bool) -> bool
    requires pins { length pins.now ≡ 7 }
    requires config { length config.now ≡ 19 }
    ensures { result ≡ lut_next (lut_settings config.now) (lut_pins pins.now) held }
{
    if !pins[6] {
        held
    } else if pins[5] {
        config[18]
    } else {
        value(pins, config)
    }
}
