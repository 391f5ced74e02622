//! The names in a text under which a site stands.

ghost use Rattle.std.specs.Prelude.{◌≡◌, IfOk};
ghost use Rattle.fab_fabric.specs.Names.{place_name};
ghost use Rattle.fab_use_defs.specs.fab_fabric_text_defs_Names.{pad_port_name};
ghost use Rattle.fab_gen_tile.specs.Names.{bel_instance_name};

use fab_base::Memory;
use fab_fabric::{Site, place_name};
use fab_gen_tile::letter;
use std::alloc::Global;

/// The instance of the tile of a site, as `X1Y2`.
pub fn tile_name(alloc: Global, site: Site) -> Result<Vec<u8>, Memory>
    ensures { IfOk result (λ name. name.items ≡ place_name site.x site.y) }
{
    place_name(alloc, site.x, site.y)
}

/// The instance of the BEL in its tile, as `fab_bel_A`.
pub fn bel_name(alloc: Global, site: Site) -> Result<Vec<u8>, Memory>
    ensures { IfOk result (λ name. name.items ≡ bel_instance_name site.bel) }
{
    let mut name = Vec::from_slice(alloc, b"fab_bel_")?;
    name.push(letter(site.bel as usize)?)?;
    Ok(name)
}

/// A port of a pad as a port of the top, as `X1Y2_A_O_top`.
pub fn port_name(alloc: Global, site: Site, port: &[u8]) -> Result<Vec<u8>, Memory>
    ensures { IfOk result (λ name. name.items ≡ pad_port_name site.x site.y site.bel port.now) }
{
    let mut name = place_name(alloc, site.x, site.y)?;
    name.push(b'_')?;
    name.push(letter(site.bel as usize)?)?;
    name.push(b'_')?;
    name.extend_from_slice(port)?;
    Ok(name)
}
