//! The headline through a serial port: words that run a design in the text of a fabric run it behind a port, sent bit by bit.
#![tactic(auto)]

ghost use Rattle.fab_serial_runs_laws.specs.Runs.{DesignsRunSerially};

use fab_nested_laws::nested_texts;
use fab_serial_laws::{fabric_texts_take_ports, serial_texts_load};

/// Where words run a design in the text of a fabric in frames, they run it in the text with a serial port, when they are sent bit by bit: while no bit is
/// sent, its pads show what the netlist says.
pub fn designs_run_serially()
    ensures { DesignsRunSerially }
{
    fabric_texts_take_ports();
    serial_texts_load();
    nested_texts();
}
