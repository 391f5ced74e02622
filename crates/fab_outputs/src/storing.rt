//! The outputs of commands.

ghost use Rattle.std.specs.Prelude.{◌≡◌, ◌<◌, ◌≤◌, [], ◌∷◌, ◌++◌, All, map, option_map, IfOk, IfErr, OnOk, OnErr};
ghost use Rattle.std.specs.Str.{IsUtf8};
ghost use Rattle.fab_desk.specs.Files.{with_file};
ghost use Rattle.fab_outputs.specs.Storing.{output, plain_output, with_outputs, IsStoreFault, IsStopped};

use fab_base::{Fault, Memory, Name};
use fab_desk::{Desk, DeskFault};
use fab_progress::{Progress, Step};
use std::alloc::Global;
use std::str;

/// A file that a command stores.
#[derive(Debug, Drop)]
pub struct Output {
    /// The name of the file.
    pub name: Name,
    /// What it is to hold.
    pub bytes: Vec<u8>,
}

/// The text of a name that is UTF-8.
fn text_of(name: &Name) -> &str
    requires { IsUtf8 name.now }
    ensures { result.now ≡ name.now }
{
    match str::from_utf8(name.bytes()) {
        Ok(text) => text,
        Err(_) => unreachable!(),
    }
}

/// Puts a text under a file's name. `WriteFault` names the file where the device fails; besides it only want of memory comes.
fn store<D: Desk>(alloc: Global, desk: &mut D, file: &Name, text: &[u8]) -> Result<(), Fault>
    requires { IsUtf8 file.now }
    ensures reads { D.reads desk.new ≡ D.reads desk.old }
    ensures writes { D.writes desk.old ≤ D.writes desk.new }
    ensures ok { OnOk result (D.told desk.new ≡ option_map (with_file file.now text.now) (D.told desk.old)) }
    ensures err { OnErr result (D.told desk.new ≡ D.told desk.old) }
    ensures fault { IfErr result (IsStoreFault file.now (D.writes desk.old < D.writes desk.new)) }
{
    let name = file.copy(alloc)?;
    match desk.store(text_of(file), text) {
        Ok(()) => Ok(()),
        Err(DeskFault::Failed) => Err(Fault::WriteFault(name)),
        Err(DeskFault::Memory) => Err(Fault::Memory),
        Err(DeskFault::Long) => unreachable!(),
    }
}

/// Stores outputs one after the other, up to the first store that fails.
///
/// `WriteFault` names the output at which the device fails; besides it only want of memory comes.
pub fn store_all<D: Desk, P: Progress>(
    alloc: Global,
    desk: &mut D,
    progress: &mut P,
    outputs: &[Output],
) -> Result<(), Fault>
    requires { All (λ output. IsUtf8 output.name) outputs.now }
    ensures reads { D.reads desk.new ≡ D.reads desk.old }
    ensures writes { D.writes desk.old ≤ D.writes desk.new }
    ensures done { OnOk result (D.told desk.new ≡ option_map (with_outputs (map plain_output outputs.now)) (D.told desk.old)) }
    ensures stopped { IfErr result (IsStopped (map plain_output outputs.now) (D.told desk.old) (D.told desk.new) (D.writes desk.old < D.writes desk.new)) }
{
    for output in outputs {
        progress.tell(Step::Writing(&output.name));
        store(alloc, desk, &output.name, &output.bytes)?;
    }
    Ok(())
}

/// Adds an output, whose name is a beginning and an ending.
pub fn put_output(
    alloc: Global,
    outputs: &mut Vec<Output>,
    base: &Name,
    ending: &[u8],
    bytes: Vec<u8>,
) -> Result<(), Memory>
    ensures are { OnOk result (map plain_output outputs.new.items ≡ map plain_output outputs.old.items ++ output (base.now ++ ending.now) bytes.items ∷ []) }
    ensures names { IsUtf8 base.now → IsUtf8 ending.now → All (λ output. IsUtf8 output.name) outputs.old.items → OnOk result (All (λ output. IsUtf8 output.name) outputs.new.items) }
{
    let mut name = Vec::from_slice(alloc, base.bytes())?;
    name.extend_from_slice(ending)?;
    outputs.push(Output {
        name: Name::from(name),
        bytes,
    })?;
    Ok(())
}

/// The outputs of a command that has one.
pub fn one_output(alloc: Global, file: &Name, bytes: Vec<u8>) -> Result<Vec<Output>, Memory>
    ensures are { IfOk result (λ outputs. map plain_output outputs.items ≡ output file.now bytes.items ∷ []) }
    ensures names { IsUtf8 file.now → IfOk result (λ outputs. All (λ output. IsUtf8 output.name) outputs.items) }
{
    let mut outputs = Vec::new(alloc);
    let name = file.copy(alloc)?;
    outputs.push(Output { name, bytes })?;
    Ok(outputs)
}
