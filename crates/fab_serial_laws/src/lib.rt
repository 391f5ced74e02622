//! The laws of serial loading: the bits of a bitstream's words, sent to the serial port of a fabric's text, configure the fabric behind it.
#![tactic(auto)]

ghost use Rattle.fab_serial_laws.specs.Loads.{FabricTextsTakePorts, SerialTextsLoad};

use fab_load_runs_laws::led_runs_exist;
use fab_meaning::laws::{led_points_stay, led_runs_agree};
use fab_nested_laws::nested_texts;
use fab_text_loads_laws::fabric_texts_load;

/// The text of a fabric in frames meets what a serial port asks of a text.
pub fn fabric_texts_take_ports()
    ensures { FabricTextsTakePorts }
{}

/// Behind a serial port the text of a fabric in frames has exactly one run of serial loading, from whatever it holds, and the words of a bitstream
/// that are sent bit by bit leave its bits in the fabric, where they stay.
pub fn serial_texts_load()
    ensures { SerialTextsLoad }
{
    fabric_texts_take_ports();
    fabric_texts_load();
    nested_texts();
    led_runs_agree();
    led_points_stay();
    led_runs_exist();
}
