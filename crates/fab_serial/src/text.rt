//! A text with a serial port in front of its top.

ghost use Rattle.std.specs.Prelude.{◌≡◌, IfOk, OnOk, option_to_list, map};
ghost use Rattle.fab_syntax.specs.Plain.{plain_module, plain_text};
ghost use Rattle.fab_syntax.specs.Sound.{IsSound};
ghost use Rattle.fab_meaning.specs.Points.{last_of};
ghost use Rattle.fab_serial.specs.Delivery.{DeliversSerially};
ghost use Rattle.fab_serial.specs.Module.{CanHaveSerialPort, serial_text, serial_top};

use crate::module::serial_module;
use crate::top::serial_top;
use fab_base::Memory;
use fab_syntax::{Module, Text};
use std::alloc::Global;

// The new top, where the text has a last module.
fn top_behind(alloc: Global, modules: &[Module]) -> Result<Option<Module>, Memory>
    ensures { IfOk result (λ top. map plain_module (option_to_list top) ≡ map serial_top (option_to_list (last_of (map plain_module modules.now)))) }
{
    match modules.last() {
        Some(top) => Ok(Some(serial_top(alloc, top)?)),
        None => Ok(None),
    }
}

/// The text with the module of the serial port behind it, and a top that joins the port to the text's own top, where it has one. The only
/// error is want of memory, and then the text is lost.
///
/// What is promised of the new text is promised of a sound text with the top of a fabric: it has the name `eFPGA` and the inputs that bring
/// clocks and words, and the names of both modules, of their instances and of the new inputs are free. The new text is sound. Where the bits of
/// words are sent to it, bit 31 of each word first, behind a tick of `CLK` without a bit and before another one, its fabric sees the words,
/// whatever was held. A tick without a bit within a word would begin it anew; ticks of other clocks may come anywhere.
pub fn serial_text(alloc: Global, text: Text) -> Result<Text, Memory>
    ensures is { IfOk result (λ whole. plain_text whole ≡ serial_text (plain_text text)) }
    ensures sound { IfOk result (λ whole. CanHaveSerialPort (plain_text text) → IsSound (plain_text whole)) }
    ensures delivers { IfOk result (λ whole. CanHaveSerialPort (plain_text text) → DeliversSerially (plain_text whole)) }
{
    let mut modules = text.modules;
    let top = top_behind(alloc, &modules)?;
    modules.push(serial_module(alloc)?)?;
    if let Some(top) = top {
        modules.push(top)?;
    }
    Ok(Text { modules })
}
