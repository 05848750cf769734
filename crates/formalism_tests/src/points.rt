//! How many lists of counts a phase has.

ghost use Rattle.std.specs.Prelude.{◌≤◌, length};

use cal_list::{Items, one};
use cef_core::{Name, PhaseAt, count_points};
use sample_phases::{three, two};
use std::alloc::{AllocError, Global};
use std::test::Fail;

/// The number of lists of one sublattice of these sites.
fn points(alloc: Global, sites: Items<Option<u16>>, lattice: u32) -> Result<Option<u64>, AllocError>
    requires { 1 ≤ length sites }
{
    let phase = PhaseAt {
        name: Name::from_bytes(alloc, b"S")?,
        t: 100_000,
        lattice,
        scale: 1,
        ratios: one(alloc, 1)?,
        sites: one(alloc, sites)?,
        parameters: Items::new(alloc),
        magnetic: None,
    };
    Ok(count_points(&phase))
}

#[test]
fn two_constituents_share_ten_parts_in_eleven_ways(rt: HostRuntime) -> Result<(), Fail> {
    let alloc = rt.alloc();
    let sites = two(alloc, Some(0), Some(1))?;
    assert_eq!(rt; points(alloc, sites, 10)?, Some(11));
    Ok(())
}

#[test]
fn three_constituents_share_a_hundred_parts_in_5151_ways(rt: HostRuntime) -> Result<(), Fail> {
    let alloc = rt.alloc();
    let sites = three(alloc, Some(0), Some(1), Some(2))?;
    assert_eq!(rt; points(alloc, sites, 100)?, Some(5151));
    Ok(())
}
