//! The system that a database gives for what is asked, or the first cause why there is none.
#![tactic(auto)]

mod arrays;
mod building;
mod chosen;
mod fault;
mod groups;
mod kept;
mod limits;
mod names;
mod parameters;
mod phases;
mod ratios;
mod selecting;
mod types;
mod values;
mod wholes;

pub use fault::SystemFault;
pub use selecting::system;
