//! Assemblages, reports and their certificates, and what it means that a report holds.
#![tactic(auto)]

mod entry;
mod law;
mod report;

pub use entry::Entry;
pub use law::certificate_is_sound;
pub use report::Report;
