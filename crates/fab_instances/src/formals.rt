//! The words of instances, which join nets to the ports of models.

ghost use Rattle.std.specs.Prelude.{◌≡◌, ◌≢◌, ℕ, List, ◌∷◌, ◌++◌, [], None, true, IfErr, IfOk, OnOk, length, map, nat_eq, option_map, position};
ghost use Rattle.fab_base.specs.Reading.{fault_at};
ghost use Rattle.fab_base.specs.declared.fault.Fault.TheVariants as faults;
ghost use Rattle.fab_base.specs.declared.problem.Problem.TheVariants as problems;
ghost use Rattle.fab_base.specs.declared.words.Reason.TheVariants as reasons;
ghost use Rattle.fab_blif_models.specs.Plain.{plain_body, plain_models, plain_statement};
ghost use Rattle.fab_instances.specs.Places.{model_names};
ghost use Rattle.fab_instances.specs.Formals.{HasPorts, SameNames, fits_ports, formal_of, joins_new, port_names, ports_by, sides};
ghost use Rattle.fab_instances.specs.Order.{BreaksFormals, IsLeast, IsLeastFound, NoLine};
ghost use Rattle.fab_instances.specs.Uses.{MarksUsed, breaking_in, soonest_of};
ghost use Rattle.fab_bits.specs.Keys.{key_names};

use crate::faults::malformed;
use crate::names::{insert_bytes, insert_new, is_among, place_of};
use crate::soonest::{lines_of, sooner};
use fab_base::{Fault, Memory, Name, Reason};
use fab_blif_models::{Body, Model, Statement};
use indexmap::IndexSet;
use std::alloc::Global;

fn equals_sign(word: &[u8]) -> Option<usize>
    ensures { result ≡ position (λ byte. nat_eq byte 61) word.now }
{
    word.iter().position(|byte| *byte == b'=')
}

/// The two sides of a word `formal=actual`, which is cut at its first `=`; none where it has no `=`.
pub fn sides(word: &[u8]) -> Option<(&[u8], &[u8])>
    ensures { option_map (λ pair. (pair.0.now, pair.1.now)) result ≡ sides word.now }
{
    match equals_sign(word) {
        None => None,
        Some(place) => Some((&word[..place], &word[place + 1..])),
    }
}

fn insert_name(alloc: Global, ports: &mut IndexSet<Vec<u8>>, name: &Name) -> Result<(), Memory>
    ensures { OnOk result (SameNames (key_names ports.new.keys) (key_names ports.old.keys ++ name.now ∷ [])) }
{
    insert_new(alloc, ports, name)?;
    Ok(())
}

fn insert_names(alloc: Global, ports: &mut IndexSet<Vec<u8>>, names: &[Name]) -> Result<(), Memory>
    ensures { OnOk result (SameNames (key_names ports.new.keys) (key_names ports.old.keys ++ names.now)) }
{
    for name in names {
        insert_name(alloc, ports, name)?;
    }
    Ok(())
}

fn insert_ports(alloc: Global, ports: &mut IndexSet<Vec<u8>>, body: &Body) -> Result<(), Memory>
    ensures { OnOk result (SameNames (key_names ports.new.keys) (key_names ports.old.keys ++ ports_by (plain_body body.now))) }
{
    match body {
        Body::Inputs(names) => insert_names(alloc, ports, names),
        Body::Outputs(names) => insert_names(alloc, ports, names),
        Body::Clock(name) => insert_name(alloc, ports, name),
        Body::Cover { .. } | Body::Latch { .. } | Body::Instance(_, _) => Ok(()),
    }
}

/// The port names of a model.
fn ports_of(alloc: Global, model: &Model) -> Result<IndexSet<Vec<u8>>, Memory>
    ensures { IfOk result (λ ports. SameNames (key_names ports.keys) (port_names (map plain_statement model.now.statements.items))) }
{
    let mut ports = IndexSet::new(alloc);
    for statement in &model.statements {
        insert_ports(alloc, &mut ports, &statement.body)?;
    }
    Ok(ports)
}

/// The port names of each model, made once for all instances.
fn ports_of_models(alloc: Global, models: &[Model]) -> Result<Vec<IndexSet<Vec<u8>>>, Memory>
    ensures size { IfOk result (λ ports. length ports.items ≡ length models.now) }
    ensures ports { IfOk result (λ ports. HasPorts (plain_models models.now) (map (λ names. key_names names.keys) ports.items)) }
{
    let mut ports = Vec::new(alloc);
    for model in models {
        ports.push(ports_of(alloc, model)?)?;
    }
    Ok(ports)
}

/// Whether a word joins a net to a port that no formal before it names. If so, its formal is put behind these.
fn joins_new(
    alloc: Global,
    ports: &IndexSet<Vec<u8>>,
    formals: &mut IndexSet<Vec<u8>>,
    word: &[u8],
) -> Result<bool, Memory>
    ensures joins { IfOk result (λ joins. joins ≡ joins_new (key_names ports.now.keys) (key_names formals.old.keys) word.now) }
    ensures formals { IfOk result (λ joins. joins ≡ true → key_names formals.new.keys ≡ key_names formals.old.keys ++ formal_of word.now ∷ []) }
{
    match sides(word) {
        None => Ok(false),
        Some((formal, actual)) => {
            if formal.len() == 0 || actual.len() == 0 || !is_among(ports, formal) {
                return Ok(false);
            }
            insert_bytes(alloc, formals, formal)
        }
    }
}

/// Whether the words of an instance join nets to ports of its model, to each at most one.
fn joins_ports(alloc: Global, ports: &IndexSet<Vec<u8>>, words: &[Name]) -> Result<bool, Memory>
    ensures { IfOk result (λ fits. fits ≡ fits_ports (key_names ports.now.keys) words.now) }
{
    let mut formals = IndexSet::new(alloc);
    for word in words {
        if !joins_new(alloc, ports, &mut formals, word.bytes())? {
            return Ok(false);
        }
    }
    Ok(true)
}

/// The line and the model that it names, where it is an instance whose words break a rule of formals.
fn breaking_in<'a>(
    alloc: Global,
    places: &IndexSet<Vec<u8>>,
    ports: &[IndexSet<Vec<u8>>],
    line: &'a Statement,
) -> Result<Option<(u32, &'a Name)>, Memory>
    requires { length ports.now ≡ length places.now.keys }
    ensures { IfOk result (λ found. option_map (λ at. (at.0, at.1.now)) found
        ≡ breaking_in (key_names places.now.keys) (map (λ names. key_names names.keys) ports.now) (plain_statement line.now)) }
{
    let Body::Instance(name, words) = &line.body else {
        return Ok(None);
    };
    match place_of(places, name) {
        None => Ok(None),
        Some(inner) => if joins_ports(alloc, &ports[inner], words)? {
            Ok(None)
        } else {
            Ok(Some((line.line, name)))
        },
    }
}

/// The least line that is an instance whose words break a rule of formals.
fn soonest_breaking<'a>(
    alloc: Global,
    places: &IndexSet<Vec<u8>>,
    ports: &[IndexSet<Vec<u8>>],
    lines: &[&'a Statement],
) -> Result<Option<(u32, &'a Name)>, Memory>
    requires { length ports.now ≡ length places.now.keys }
    ensures { IfOk result (λ found. option_map (λ at. (at.0, at.1.now)) found
        ≡ soonest_of (breaking_in (key_names places.now.keys) (map (λ names. key_names names.keys) ports.now)) None (map (λ line. plain_statement line.now) lines.now)) }
{
    let mut found = None;
    for line in lines {
        found = sooner(found, breaking_in(alloc, places, ports, line)?);
    }
    Ok(found)
}

/// The least line of a used model that is an instance whose words break a rule of formals.
fn breaking_of<'a>(
    alloc: Global,
    models: &'a [Model],
    places: &IndexSet<Vec<u8>>,
    used: &[bool],
) -> Result<Option<(u32, &'a Name)>, Memory>
    requires places { key_names places.now.keys ≡ model_names (plain_models models.now) }
    requires size { length used.now ≡ length models.now }
    requires used { MarksUsed (plain_models models.now) used.now }
    ensures { IfOk result (λ found. IsLeastFound (BreaksFormals (plain_models models.now)) (option_map (λ at. (at.0, at.1.now)) found)) }
{
    let ports = ports_of_models(alloc, models)?;
    let lines = lines_of(alloc, models, used)?;
    soonest_breaking(alloc, places, &ports, &lines)
}

/// Refuses words of instances in used models: `Malformed`, `formal`, at the least line where a word has no `=` or nothing on
/// one side of its first one, or where its formal is no port of the model, or stood before in the line.
pub(crate) fn refuse_formals(
    alloc: Global,
    file: &Name,
    models: &[Model],
    places: &IndexSet<Vec<u8>>,
    used: &[bool],
) -> Result<(), Fault>
    requires places { key_names places.now.keys ≡ model_names (plain_models models.now) }
    requires size { length used.now ≡ length models.now }
    requires used { MarksUsed (plain_models models.now) used.now }
    ensures fits { OnOk result (NoLine (BreaksFormals (plain_models models.now))) }
    ensures refused { IfErr result (λ fault. fault ≢ faults.Memory → (line : ℕ) × (name : List ℕ) × IsLeast (BreaksFormals (plain_models models.now)) line name
        × (fault ≡ fault_at file.now line (problems.Malformed reasons.Formal))) }
{
    if let Some((line, _)) = breaking_of(alloc, models, places, used)? {
        return Err(malformed(alloc, file, line, Reason::Formal));
    }
    Ok(())
}
