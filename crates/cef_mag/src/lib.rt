//! Magnetism of phases, by the model of Inden, Hillert and Jarl: its energy at constitutions, with bounds over boxes.
#![tactic(auto)]

mod branched;
mod branches;
mod mag_term;
mod magnet;
mod moment;
mod series;
mod sums;

pub use branches::g_of;
pub use mag_term::MagTerm;
pub use magnet::Magnet;
pub use moment::Sums;
