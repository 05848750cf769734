//! The box of all lists of counts of a phase.

ghost use Rattle.std.specs.Prelude.{◌≡◌, ◌<◌, ◌+◌, ◌^◌, ◌++◌, IfOk, List, ℕ};
ghost use Rattle.cef_core.specs.Constitutions.{HasShape};
ghost use Rattle.cef_core.specs.Phases.{IsFine};
ghost use Rattle.cef_core.specs.Shapes.{places};
ghost use Rattle.cef_box.specs.Boxes.{IsMember};
ghost use Rattle.cef_box.specs.Terms.{FitsBox, shape_of_phase};
ghost use Rattle.cef_box.specs.Tight.{HasSite, IsTightBox, all_ranges, full_box};

use crate::box_range::BoxRange;
use crate::range::Range;
use cal_list::Items;
use cef_core::PhaseAt;
use std::alloc::{AllocError, Global};

/// The box with further sublattices behind it, each of their sites with the range from 0 to n.
#[tactic(auto, using(crate::proofs::Wholes::growing))]
fn with_lists(range: BoxRange, n: u16, sites: &[Items<Option<u16>>]) -> Result<BoxRange, AllocError>
    requires { places range + places sites.now < 2 ^ 16 }
    ensures { IfOk result (λ box. box ≡ range ++ all_ranges n sites.now) }
{
    match sites.split_first() {
        None => Ok(range),
        Some((row, rest)) => {
            let more = range.with_sublattice(row.len() as u16, Range { low: 0, high: n })?;
            with_lists(more, n, rest)
        }
    }
}

/// The tightened box of all lists of counts of a phase: its members are these lists.
#[tactic(auto, using(crate::proofs::Wholes::wholes))]
pub fn full(alloc: Global, phase: &PhaseAt) -> Result<BoxRange, AllocError>
    requires { IsFine phase.now }
    ensures exact { IfOk result (λ box. box ≡ full_box phase.now) }
    ensures has_site { IfOk result (λ box. HasSite phase.now.lattice box) }
    ensures tight { IfOk result (λ box. IsTightBox phase.now.lattice box) }
    ensures fits { IfOk result (λ box. FitsBox (shape_of_phase phase.now) box) }
    ensures lists { IfOk result (λ box. (site : List (List ℕ)) → IsMember phase.now.lattice box site → HasShape phase.now.lattice phase.now.sites site) }
    ensures members { IfOk result (λ box. (site : List (List ℕ)) → HasShape phase.now.lattice phase.now.sites site → IsMember phase.now.lattice box site) }
{
    let mut range = with_lists(
        BoxRange::new(alloc),
        phase.lattice as u16,
        phase.sites.as_slice(),
    )?;
    range.tighten_lists(phase.lattice);
    Ok(range)
}
