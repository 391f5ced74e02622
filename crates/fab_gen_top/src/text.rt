//! All modules of a fabric.

ghost use Rattle.std.specs.Prelude.{◌≡◌, ◌<◌, ◌≤◌, ◌||◌, ◌++◌, [], ◌∷◌, ℕ, false, All, map, length, nat_eq, slice_index_or, IfOk, IfSome, OnOk, if◌then◌else◌};
ghost use Rattle.std.specs.List.{flat_map, list_any};
ghost use Rattle.std.specs.Option.{option_map_or};
ghost use Rattle.fab_syntax.specs.Plain.{plain_module, plain_text};
ghost use Rattle.fab_prim.specs.Modules.{module_of_kind};
ghost use Rattle.fab_model.specs.declared.mode.Mode.TheVariants as modes;
ghost use Rattle.fab_model.specs.Tiles.{tile_bits};
ghost use Rattle.fab_fabric.specs.Fabric.{IsFabric, AreTiles};
ghost use Rattle.fab_gen_loader.specs.Expressions.{loader_module};
ghost use Rattle.fab_gen_tile.specs.TileModule.{matrix_output_names};
ghost use Rattle.fab_gen_tile.specs.Words.{IsNamed};
ghost use Rattle.fab_fabric.specs.Sites.{same_kind};
ghost use Rattle.fab_text_loads_laws.specs.fab_fabric_text_defs_Text.{standing_types, used_kinds, matrix_modules, config_modules, tile_modules};
ghost use Rattle.fab_text_loads_laws.specs.fab_fabric_text_defs_Mode.{text_mode};
ghost use Rattle.fab_drives_laws.specs.Drives.{ShowsDrives};
ghost use Rattle.fab_text_loads_laws.specs.Loads.{LoadsConfigurations};
ghost use Rattle.fab_text_loads_laws.specs.fab_fabric_text_defs_Texts.{generated_text, loaders_of, AreLoaders, IsFabricText};
ghost use Rattle.fab_gen_top.specs.inner.Standing.{type_of, AreStanding};

use crate::mode::text_mode;
use crate::top::top_module;
use fab_base::Memory;
use fab_drives_laws::fabric_texts_show_drives;
use fab_fabric::Fabric;
use fab_gen_loader::loader_module;
use fab_gen_tile::{config_of, tile_matrix_module, tile_of};
use fab_kinds::Kind;
use fab_model::{Bel, Mode, TileType};
use fab_prim::{IoPad, Lut4c, Mux8, Prim};
use fab_syntax::{Module, Text};
use fab_text_loads_laws::fabric_texts_load;
use fab_text_sound_laws::fabric_texts_are_sound;
use std::alloc::Global;

/// The whole text of a fabric: the primitives that it uses, the modules of its tile types that stand somewhere, the loader where its
/// configuration is kept in frames, and the top. In this text each wire of the fabric has the value of what drives it under the configuration bits. Where the names in the types' tables
/// are identifiers that no module here takes for itself, it is sound, and the words of the bitstream of any bits configure it so, whatever it held.
///
/// The time is linear in the wires, ports and pairs. Want of memory is also the answer where numbers of bits or BELs do not fit.
pub fn generate(alloc: Global, fabric: &Fabric) -> Result<Text, Memory>
    ensures text { IfOk result (λ text. plain_text text ≡ generated_text fabric.now) }
    ensures is_text { IfOk result (λ text. All IsNamed fabric.now.types → IsFabricText fabric.now (plain_text text)) }
    ensures drives { IfOk result (λ text. ShowsDrives fabric.now (plain_text text)) }
    ensures loads { IfOk result (λ text. All IsNamed fabric.now.types → LoadsConfigurations fabric.now (plain_text text)) }
{
    let standing = standing_types(alloc, fabric)?;
    let mut modules = Vec::new(alloc);
    push_primitives(alloc, &mut modules, fabric, &standing)?;
    push_types(alloc, &mut modules, fabric, &standing)?;
    push_loaders(alloc, &mut modules, fabric)?;
    modules.push(top_module(alloc, fabric)?)?;
    fabric_texts_show_drives();
    fabric_texts_are_sound();
    fabric_texts_load();
    Ok(Text { modules })
}

// ---- what stands in the grid

// The numbers of the types that stand somewhere.
fn standing_types(alloc: Global, fabric: &Fabric) -> Result<Vec<usize>, Memory>
    ensures types { IfOk result (λ numbers. map (type_of fabric.now) numbers.items ≡ standing_types fabric.now) }
    ensures within { IfOk result (λ numbers. All (λ number. number < length fabric.now.types) numbers.items) }
    ensures is_fabric { IfOk result (λ numbers. IsFabric fabric.now) }
    ensures are_tiles { IfOk result (λ numbers. AreTiles fabric.now) }
{
    let types = fabric.types();
    let mut marks = vec![in alloc; false; types.len()]?;
    mark_places(&mut marks, fabric.grid());
    marked_numbers(alloc, fabric, &marks)
}

// Marks the types that stand somewhere.
fn mark_places(marks: &mut Vec<bool>, grid: &[Option<u32>])
    requires { All (λ place. IfSome place (λ number. number < length marks.old.items)) grid.now }
    ensures len { length marks.new.items ≡ length marks.old.items }
    ensures each { (number : ℕ) → slice_index_or marks.new.items number false
        ≡ (slice_index_or marks.old.items number false || list_any (λ place. option_map_or (nat_eq number) place false) grid.now) }
{
    for place in grid {
        mark(marks, *place);
    }
}

fn mark(marks: &mut Vec<bool>, place: Option<u32>)
    requires { IfSome place (λ number. number < length marks.old.items) }
    ensures len { length marks.new.items ≡ length marks.old.items }
    ensures each { (number : ℕ) → slice_index_or marks.new.items number false
        ≡ (slice_index_or marks.old.items number false || option_map_or (nat_eq number) place false) }
{
    if let Some(number) = place {
        marks[number as usize] = true;
    }
}

// The numbers of the types that are marked.
fn marked_numbers(alloc: Global, fabric: &Fabric, marks: &[bool]) -> Result<Vec<usize>, Memory>
    requires { AreStanding fabric.now marks.now }
    ensures types { IfOk result (λ numbers. map (type_of fabric.now) numbers.items ≡ standing_types fabric.now) }
    ensures within { IfOk result (λ numbers. All (λ number. number < length fabric.now.types) numbers.items) }
{
    let mut numbers = Vec::new(alloc);
    for (number, stands) in marks.iter().enumerate() {
        if *stands {
            numbers.push(number)?;
        }
    }
    Ok(numbers)
}

// Whether a type of these numbers has a BEL of this kind.
#[tactic(auto, using(crate::proofs::Steps::any_seen_more, crate::proofs::Steps::any_seen_at))]
fn is_used(fabric: &Fabric, numbers: &[usize], kind: Kind) -> bool
    requires { All (λ number. number < length fabric.now.types) numbers.now }
    ensures { result ≡ list_any (λ tile. list_any (λ bel. same_kind bel.kind kind) tile.bels) (map (type_of fabric.now) numbers.now) }
{
    for number in numbers {
        if has_kind(fabric.types()[*number].bels(), kind) {
            return true;
        }
    }
    false
}

fn has_kind(bels: &[Bel], kind: Kind) -> bool
    ensures { result ≡ list_any (λ bel. same_kind bel.kind kind) bels.now }
{
    bels.iter().any(|bel| same_kind(bel.kind, kind))
}

fn same_kind(first: Kind, second: Kind) -> bool
    ensures { result ≡ same_kind first second }
{
    first == second
}

// ---- modules

// Adds the primitives that types of these numbers use.
fn push_primitives(
    alloc: Global,
    modules: &mut Vec<Module>,
    fabric: &Fabric,
    numbers: &[usize],
) -> Result<(), Memory>
    requires types { map (type_of fabric.now) numbers.now ≡ standing_types fabric.now }
    requires within { All (λ number. number < length fabric.now.types) numbers.now }
    ensures { OnOk result (map plain_module modules.new.items
        ≡ map plain_module modules.old.items ++ map module_of_kind (used_kinds fabric.now)) }
{
    push_primitive(
        alloc,
        modules,
        &Lut4c,
        is_used(fabric, numbers, Kind::Lut4c),
    )?;
    push_primitive(alloc, modules, &IoPad, is_used(fabric, numbers, Kind::Io))?;
    push_primitive(alloc, modules, &Mux8, is_used(fabric, numbers, Kind::Mux8))
}

// Adds a primitive, if it is used.
fn push_primitive<P: Prim>(
    alloc: Global,
    modules: &mut Vec<Module>,
    primitive: &P,
    used: bool,
) -> Result<(), Memory>
    ensures { OnOk result (map plain_module modules.new.items
        ≡ map plain_module modules.old.items ++ (if used then module_of_kind (P.kind_of primitive.now) ∷ [] else [])) }
{
    if used {
        modules.push(primitive.module(alloc)?)?;
    }
    Ok(())
}

// Adds the loader, where there is one.
fn push_loaders(alloc: Global, modules: &mut Vec<Module>, fabric: &Fabric) -> Result<(), Memory>
    ensures modules { OnOk result (map plain_module modules.new.items
        ≡ map plain_module modules.old.items ++ loaders_of (text_mode fabric.now) fabric.now.rows) }
    ensures loaders { OnOk result (AreLoaders fabric.now.rows (text_mode fabric.now) (loaders_of (text_mode fabric.now) fabric.now.rows)) }
{
    fabric.is_well_made();
    match text_mode(fabric) {
        Mode::Frames => push_loader(alloc, modules, fabric.rows()),
        Mode::Chain => Ok(()),
    }
}

fn push_loader(alloc: Global, modules: &mut Vec<Module>, rows: u32) -> Result<(), Memory>
    requires some { 1 ≤ rows }
    requires few { rows ≤ 31 }
    ensures modules { OnOk result (map plain_module modules.new.items ≡ map plain_module modules.old.items ++ loader_module rows ∷ []) }
    ensures loaders { OnOk result (AreLoaders rows modes.Frames (loader_module rows ∷ [])) }
{
    modules.push(loader_module(alloc, rows)?)?;
    Ok(())
}

// Adds the modules of types of these numbers.
#[tactic(auto, using(crate::proofs::Steps::seen_more))]
fn push_types(
    alloc: Global,
    modules: &mut Vec<Module>,
    fabric: &Fabric,
    numbers: &[usize],
) -> Result<(), Memory>
    requires { All (λ number. number < length fabric.now.types) numbers.now }
    ensures { OnOk result (map plain_module modules.new.items
        ≡ map plain_module modules.old.items ++ flat_map (tile_modules (text_mode fabric.now)) (map (type_of fabric.now) numbers.now)) }
{
    for number in numbers {
        push_type(alloc, modules, &fabric.types()[*number], text_mode(fabric))?;
    }
    Ok(())
}

fn push_type(
    alloc: Global,
    modules: &mut Vec<Module>,
    tile: &TileType,
    mode: Mode,
) -> Result<(), Memory>
    ensures { OnOk result (map plain_module modules.new.items ≡ map plain_module modules.old.items ++ tile_modules mode tile.now) }
{
    push_matrix(alloc, modules, tile)?;
    push_config(alloc, modules, tile, mode)?;
    modules.push(tile_of(alloc, tile, mode)?)?;
    Ok(())
}

// Adds the matrix, where the tile has an output of it: it has an item for each.
fn push_matrix(alloc: Global, modules: &mut Vec<Module>, tile: &TileType) -> Result<(), Memory>
    ensures { OnOk result (map plain_module modules.new.items
        ≡ map plain_module modules.old.items ++ matrix_modules tile.now (matrix_output_names tile.now)) }
{
    let matrix = tile_matrix_module(alloc, tile)?;
    if matrix.items.is_empty() {
        return Ok(());
    }
    modules.push(matrix)?;
    Ok(())
}

// Adds the configuration, where there are bits.
fn push_config(
    alloc: Global,
    modules: &mut Vec<Module>,
    tile: &TileType,
    mode: Mode,
) -> Result<(), Memory>
    ensures { OnOk result (map plain_module modules.new.items
        ≡ map plain_module modules.old.items ++ config_modules mode tile.now (tile_bits tile.now)) }
{
    if tile.bits() == 0 {
        return Ok(());
    }
    modules.push(config_of(alloc, tile, mode)?)?;
    Ok(())
}
