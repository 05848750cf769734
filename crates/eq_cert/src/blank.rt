//! Counts that are written over.

ghost use Rattle.std.specs.Prelude.{◌≡◌, ◌≤◌, IfOk};
ghost use Rattle.cef_core.specs.Shapes.{shape, places};

use cef_core::{PhaseAt, Site};
use std::alloc::{AllocError, Global};

/// Counts of 0, one for each site of the phase.
pub(crate) fn blank_site(alloc: Global, phase: &PhaseAt) -> Result<Site, AllocError>
    requires { places phase.now.sites ≤ 90 }
    ensures { IfOk result (λ site. shape site ≡ shape phase.now.sites) }
{
    let mut site = Site::new(alloc);
    'sublattices: for sublattice in 0..phase.sublattices() {
        let zeros = vec![in alloc; 0; phase.sites_in(sublattice)]?;
        site = site.with_sublattice(zeros.as_slice())?;
    }
    Ok(site)
}
