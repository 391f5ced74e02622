//! Printed modules and texts.

ghost use Rattle.std.specs.Prelude.{◌≡◌, ◌+◌, ◌≤◌, [], ◌∷◌, length, IfOk};
ghost use Rattle.std.specs.List.{remove_range};
ghost use Rattle.fab_syntax.specs.Plain.{plain_module, plain_text};
ghost use Rattle.fab_syntax.specs.Spelling.{text_bytes};

use fab_base::Memory;
use fab_syntax::{Module, Text, print};
use std::alloc::Global;

/// The bytes of a text, and how many of them are not those of its loaders' modules.
#[derive(Debug, Drop)]
pub struct PrintedText {
    pub bytes: Vec<u8>,
    pub unloaded: u64,
}

/// The printed text of one module.
pub fn printed_module(alloc: Global, unit: Module) -> Result<Vec<u8>, Memory>
    ensures { IfOk result (λ text. text.items ≡ text_bytes (plain_module unit ∷ [])) }
{
    let mut modules = Vec::new(alloc);
    modules.push(unit)?;
    print(alloc, &Text { modules })
}

/// A printed text whose loaders are the modules from one place on up to another.
pub fn printed_text(
    alloc: Global,
    text: Text,
    from: usize,
    to: usize,
) -> Result<PrintedText, Memory>
    requires order { from ≤ to }
    requires within { to ≤ length (plain_text text) }
    ensures bytes { IfOk result (λ printed. printed.bytes.items ≡ text_bytes (plain_text text)) }
    ensures unloaded { IfOk result (λ printed. printed.unloaded ≡ length (text_bytes (remove_range (plain_text text) from to))) }
{
    let mut front = text.modules;
    let behind = front.split_off(to)?;
    let loaders = front.split_off(from)?;
    let mut bytes = print(alloc, &Text { modules: front })?;
    let loaders = print(alloc, &Text { modules: loaders })?;
    let behind = print(alloc, &Text { modules: behind })?;
    let unloaded = (bytes.len() + behind.len()) as u64;
    bytes.extend_from_slice(&loaders)?;
    bytes.extend_from_slice(&behind)?;
    Ok(PrintedText { bytes, unloaded })
}
