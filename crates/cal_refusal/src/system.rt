//! The lines of causes why there is no system.

ghost use Rattle.std.specs.Prelude.{◌≡◌, IfOk};
ghost use Rattle.cal_refusal.specs.Refusals.{system_line};

use crate::lines::{named, numbered};
use cal_select::SystemFault;
use std::alloc::{AllocError, Global};

/// The line of the cause. Want of memory has none.
pub fn system_refusal(alloc: Global, fault: &SystemFault) -> Result<Vec<u8>, AllocError>
    ensures { IfOk result (λ text. text.items ≡ system_line fault.now) }
{
    match fault {
        SystemFault::UnknownElement(name) => named(alloc, b"unknown-element", name),
        SystemFault::UnknownPhase(name) => named(alloc, b"unknown-phase", name),
        SystemFault::NoPhase => Vec::from_slice(alloc, b"refused system no-phase\n".as_slice()),
        SystemFault::Ionic(line) => numbered(alloc, b"ionic", *line),
        SystemFault::RatiosTooWide(line) => numbered(alloc, b"ratios", *line),
        SystemFault::Missing(line) => numbered(alloc, b"missing", *line),
        SystemFault::Cycle(line) => numbered(alloc, b"cycle", *line),
        SystemFault::Unsupported(line) => numbered(alloc, b"unsupported", *line),
        SystemFault::TooLarge(line) => numbered(alloc, b"too-large", *line),
        SystemFault::EnergyTooLarge(name) => named(alloc, b"energy", name),
        SystemFault::LatticeTooLarge => {
            Vec::from_slice(alloc, b"refused system lattice\n".as_slice())
        }
        SystemFault::TooFine => Vec::from_slice(alloc, b"refused system fine\n".as_slice()),
        SystemFault::Memory => Ok(Vec::new(alloc)),
    }
}
