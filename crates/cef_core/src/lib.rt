//! Phases of the compound energy formalism on a lattice, their constitutions and energies.
#![tactic(auto)]

mod constitution;
mod job;
mod lattice;
mod order;
mod phase;
mod points;
mod powers;
mod row;
mod shape;
mod site;
mod sizes;
mod system;

pub use cal_scan::Name;
pub use cef_kind::Kind;
pub use constitution::{content, has_content, is_list, weight};
pub use job::Job;
pub use lattice::{LATTICES, is_lattice};
pub use order::is_less;
pub use phase::{MagneticAt, ParamAt, PhaseAt};
pub use points::count_points;
pub use powers::power_within;
pub use row::sum_of;
pub use site::{Site, part_at};
pub use sizes::{magnitudes_within, ratio_sum, sigma, size_within};
pub use system::System;
