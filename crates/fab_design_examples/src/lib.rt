//! The texts of designs as a user has them: BLIF files, FASM texts, implementations, states and pad constraints. Small ones
//! are read, and what is read of them, or the report of their refusal, is printed. Designs that Yosys mapped are run beside
//! the outputs that Icarus gave for their Verilog.
#![tactic(auto)]

mod cases;
mod designs;
mod entries;
mod fasm;
mod legal;
mod models;
mod netlists;
mod packing;
mod places;
mod steps;
mod table;
mod texts;
mod words;

use cases::print_cases;
use designs::run_design;
use entries::print_entries;
use fab_base::Name;
use fab_blif::read_blif;
use fab_desk::{Desk, Sink};
use fab_examples::{Stop, fetch};
use fab_fabric::Fabric;
use fab_small_fabric::small_fabric;
use fasm::Features;
use legal::read_design;
use models::Models;
use netlists::{Netlists, WideNetlists};
use packing::Packing;
use places::{Places, Sides};
use std::alloc::Global;
use steps::print_steps;
use texts::{Constraints, Implementations, States};

/// The files that make a design, and the file of its implementations.
const DESIGNS: [(&str, &str, &str); 4] = [
    ("inv.blif", "inv.pcf", "inv.cases"),
    ("inv.blif", "turned.pcf", "turned.cases"),
    ("tog.blif", "tog.pcf", "tog.cases"),
    ("inputs.blif", "inputs.pcf", "inputs.cases"),
];

fn print_blif<D: Desk, S: Sink>(alloc: Global, desk: &mut D, out: &mut S) -> Result<(), Stop> {
    print_cases(alloc, desk, out, &Models, "statements.cases")?;
    print_cases(alloc, desk, out, &Places, "places.cases")?;
    print_cases(alloc, desk, out, &Sides, "sides.cases")?;
    for file in [
        "lines.cases",
        "models.cases",
        "nets.cases",
        "netlists.cases",
        "limits.cases",
        "worked.cases",
    ] {
        print_cases(alloc, desk, out, &Netlists, file)?;
    }
    print_cases(alloc, desk, out, &WideNetlists, "wide.cases")?;
    print_cases(alloc, desk, out, &Packing, "packed.cases")
}

fn print_designs<D: Desk, S: Sink>(alloc: Global, desk: &mut D, out: &mut S) -> Result<(), Stop> {
    for design in ["counter", "detector", "multiplier"] {
        run_design(alloc, desk, out, design)?;
    }
    print_steps(alloc, desk, out, "toggle")
}

fn print_texts<D: Desk, S: Sink>(
    alloc: Global,
    desk: &mut D,
    out: &mut S,
    fabric: &Fabric,
) -> Result<(), Stop> {
    let bytes = fetch(alloc, desk, "inv.blif")?;
    let netlist = read_blif(alloc, &Name::of(alloc, b"inv.blif")?, &bytes)?;
    let implementations = Implementations { fabric };
    print_cases(alloc, desk, out, &implementations, "implementations.cases")?;
    print_cases(alloc, desk, out, &States, "states.cases")?;
    let constraints = Constraints {
        fabric,
        netlist: &netlist,
    };
    print_cases(alloc, desk, out, &constraints, "constraints.cases")?;
    print_entries(alloc, desk, out, "entries.impl", 4)
}

fn print_legal<D: Desk, S: Sink>(
    alloc: Global,
    desk: &mut D,
    out: &mut S,
    fabric: &Fabric,
) -> Result<(), Stop> {
    for (blif, constraints, file) in DESIGNS {
        let design = read_design(alloc, desk, fabric, blif, constraints)?;
        print_cases(alloc, desk, out, &design, file)?;
    }
    Ok(())
}

/// Puts what is made of each case of the texts of designs, in the order of their files.
///
/// `Stop` comes where a file of the cases is not there or not as it should be, and where nothing can be put.
pub fn put_design_examples<D: Desk, S: Sink>(
    alloc: Global,
    desk: &mut D,
    out: &mut S,
) -> Result<(), Stop> {
    let fabric = small_fabric(alloc)?;
    print_designs(alloc, desk, out)?;
    print_blif(alloc, desk, out)?;
    print_cases(alloc, desk, out, &Features, "fasm.cases")?;
    print_texts(alloc, desk, out, &fabric)?;
    print_legal(alloc, desk, out, &fabric)
}
