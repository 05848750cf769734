//! The text of what is kept of an equilibrium that is left open.

ghost use Rattle.std.specs.Prelude.{◌≡◌, ◌<◌, IfOk, length, All};
ghost use Rattle.cal_refusal.specs.Refusals as spec;

use crate::numbers::gap;
use cal_scan::Name;
use eq_solve::Open;
use eq_text::write_entries;
use std::alloc::{AllocError, Global};

/// The kept entries line by line, and the line of the phase at which the budget was spent, under the names of the system's phases.
pub fn open_text(
    alloc: Global,
    phases: &[Name],
    budget: u64,
    left: &Open,
) -> Result<Vec<u8>, AllocError>
    requires phase { left.now.phase < length phases.now }
    requires entries { All (λ entry. entry.phase < length phases.now) left.now.entries }
    ensures { IfOk result (λ text. text.items ≡ spec.open_text phases.now budget left.now) }
{
    let mut text = write_entries(alloc, phases, left.entries.as_slice())?;
    let phase = &phases[left.phase];
    let line = gap(alloc, phase, budget, left.potentials.as_slice())?;
    text.extend_from_slice(&line)?;
    Ok(text)
}
