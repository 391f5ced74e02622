//! How the names of a text are found.

ghost use Rattle.std.specs.Prelude.{◌<◌, ◌↔◌, [], ◌∷◌, length, IfOk, IfSome, IsTrue};
ghost use Rattle.fab_syntax.specs.Plain.{plain_text};
ghost use Rattle.fab_meaning.specs.Points.{Path, Point};
ghost use Rattle.fab_equations.specs.Instances.{points};
ghost use Rattle.fab_equations.specs.Equations.{IsPoint};
ghost use Rattle.fab_use_defs.specs.fab_fabric_text_defs_Names.{pad_port_name};
ghost use Rattle.fab_syntax.specs.declared.tree.Shape.TheVariants.{Scalar};
ghost use Rattle.fab_state_points.specs.Finding.{IsClocked, IsFoundFlop, IsFoundName, IsInstanceAt};
ghost use Rattle.fab_state_points.specs.Entries.{IsFoundEntry};

use crate::entry::Entry;
use crate::names::{bel_name, port_name, tile_name};
use fab_base::Memory;
use fab_equations::laws::{instances_are_numbered, names_have_points, points_are_numbered};
use fab_equations::{Driver, Equations};
use fab_fabric::Site;
use fab_meaning::laws::points_of_sound_texts_have_one_driver;
use fab_syntax::Shape;
use fab_values::Role;
use std::alloc::Global;

// The instance of the top, if the text has a module.
fn top(equations: &Equations) -> Option<u32>
    ensures { IsInstanceAt (plain_text equations.now) [] result }
{
    equations.text_is_sound();
    instances_are_numbered();
    if equations.instances() == 0 {
        return None;
    }
    Some(0)
}

// The instance of a name in another, if this is there and has one.
fn child_of(equations: &Equations, instance: Option<u32>, name: &[u8]) -> Option<u32>
    requires { (path : Path) × IsInstanceAt (plain_text equations.now) path instance }
    ensures { (path : Path) → IsInstanceAt (plain_text equations.now) path instance → IsInstanceAt (plain_text equations.now) (name.now ∷ path) result }
{
    equations.child(instance?, name)
}

// The first point of a name that an instance declares with this shape and in this role.
fn declared(
    equations: &Equations,
    instance: Option<u32>,
    name: &[u8],
    shape: Shape,
    role: Role,
) -> Option<u32>
    requires { (path : Path) × IsInstanceAt (plain_text equations.now) path instance }
    ensures { (path : Path) → IsInstanceAt (plain_text equations.now) path instance → IsFoundName (plain_text equations.now) path name.now shape role result }
{
    equations.text_is_sound();
    instances_are_numbered();
    names_have_points();
    let found = equations.local(instance?, name)?;
    if found.shape == shape && found.role == role {
        return Some(found.first);
    }
    None
}

/// The first point of an input of the top that has this shape, if there is one.
pub fn top_input(equations: &Equations, name: &[u8], shape: Shape) -> Option<u32>
    ensures { IsFoundName (plain_text equations.now) [] name.now shape Role.Input result }
{
    declared(equations, top(equations), name, shape, Role::Input)
}

// The point of a port of the top that belongs to a pad, if there is one.
fn pad_point(
    alloc: Global,
    equations: &Equations,
    site: Site,
    port: &[u8],
    role: Role,
) -> Result<Option<u32>, Memory>
    ensures { IfOk result (λ found. IsFoundName (plain_text equations.now) [] (pad_port_name site.x site.y site.bel port.now) Scalar role found) }
{
    let name = port_name(alloc, site, port)?;
    Ok(declared(equations, top(equations), &name, Shape::Scalar, role))
}

// Whether a point is a flip-flop.
fn is_flip_flop(equations: &Equations, number: u32) -> bool
    requires { number < length (points (plain_text equations.now)) }
    ensures { (p : Point) → IsPoint (plain_text equations.now) number p → (IsTrue result ↔ IsClocked (plain_text equations.now) p) }
{
    equations.text_is_sound();
    points_are_numbered();
    points_of_sound_texts_have_one_driver();
    match equations.driver(number) {
        Driver::Flop(_, _) => true,
        Driver::Outside | Driver::Same(_) | Driver::Value(_) | Driver::Hold(_, _) => false,
    }
}

// A point, if it is there and is a flip-flop.
fn flip_flop(equations: &Equations, number: Option<u32>) -> Option<u32>
    requires { IfSome number (λ n. n < length (points (plain_text equations.now))) }
    ensures { IsFoundFlop (plain_text equations.now) number result }
{
    let number = number?;
    if is_flip_flop(equations, number) {
        return Some(number);
    }
    None
}

// The point of the flip-flop of a BEL, if there is one.
fn register_point(alloc: Global, equations: &Equations, site: Site) -> Result<Option<u32>, Memory>
    ensures { IfOk result (λ found. IsFoundEntry (plain_text equations.now) (Entry.Register site) found) }
{
    let tile = tile_name(alloc, site)?;
    let bel = bel_name(alloc, site)?;
    let tile = child_of(equations, top(equations), &tile);
    let bel = child_of(equations, tile, &bel);
    let register = declared(equations, bel, b"q", Shape::Scalar, Role::Reg);
    Ok(flip_flop(equations, register))
}

/// The point of a line of a state, if the text has it. Want of memory is also the answer where the letter of a BEL is no byte.
pub fn point_of(alloc: Global, equations: &Equations, entry: Entry) -> Result<Option<u32>, Memory>
    ensures { IfOk result (λ found. IsFoundEntry (plain_text equations.now) entry found) }
{
    match entry {
        Entry::Input(site) => pad_point(alloc, equations, site, b"O_top", Role::Input),
        Entry::Output(site) => pad_point(alloc, equations, site, b"I_top", Role::Output),
        Entry::Register(site) => register_point(alloc, equations, site),
    }
}
