//! Texts of implementations, states and pad constraints: what is read of them, printed back.

use crate::cases::{Case, Subject};
use crate::words::{headed, put_number};
use fab_base::{Fault, Memory};
use fab_fabric::Fabric;
use fab_impl::{print_impl, print_state, read_impl, read_pcf, read_state};
use fab_implementation::Fixed;
use fab_netlist::Netlist;
use std::alloc::Global;

fn behind_name(alloc: Global, case: &Case, text: &[u8]) -> Result<Vec<u8>, Memory> {
    let mut out = headed(alloc, &case.file)?;
    out.push(b'\n')?;
    out.extend_from_slice(text)?;
    Ok(out)
}

/// Each implementation is printed back.
#[derive(Drop)]
pub struct Implementations<'a> {
    pub fabric: &'a Fabric,
}

impl<'a> Subject for Implementations<'a> {
    fn shown(&self, alloc: Global, case: &Case) -> Result<Vec<u8>, Fault> {
        let fabric = self.fabric;
        let implementation = read_impl(alloc, &case.file, case.text, fabric)?;
        let text = print_impl(alloc, fabric, &implementation)?;
        Ok(behind_name(alloc, case, &text)?)
    }
}

/// Each state is printed back.
#[derive(Drop)]
pub struct States;

impl Subject for States {
    fn shown(&self, alloc: Global, case: &Case) -> Result<Vec<u8>, Fault> {
        let state = read_state(alloc, &case.file, case.text)?;
        let text = print_state(alloc, &state)?;
        Ok(behind_name(alloc, case, &text)?)
    }
}

/// Of constraints each port is printed, with the column, the row and the BEL of its site.
#[derive(Drop)]
pub struct Constraints<'a> {
    pub fabric: &'a Fabric,
    pub netlist: &'a Netlist,
}

impl<'a> Subject for Constraints<'a> {
    fn shown(&self, alloc: Global, case: &Case) -> Result<Vec<u8>, Fault> {
        let fixed = read_pcf(alloc, &case.file, case.text, self.fabric, self.netlist)?;
        let text = fixed_text(alloc, &fixed)?;
        Ok(behind_name(alloc, case, &text)?)
    }
}

fn fixed_text(alloc: Global, fixed: &Fixed) -> Result<Vec<u8>, Memory> {
    let mut out = Vec::new(alloc);
    for (port, site) in &fixed.pads {
        out.extend_from_slice(port.bytes())?;
        put_number(&mut out, u128::from(site.x))?;
        put_number(&mut out, u128::from(site.y))?;
        put_number(&mut out, u128::from(site.bel))?;
        out.push(b'\n')?;
    }
    Ok(out)
}
