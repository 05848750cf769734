//! Models of phases: the energy of their constitutions, the bounds of boxes, and the multipliers that are chosen for them.
#![tactic(auto)]

mod choose;
mod law;
mod magnetism;
mod mixing;
mod model;
mod models;
mod part;
mod planes;
mod row;
mod slope;
mod sum_phase;
mod terms;
mod walk;

pub use law::energy_is_bounded;
pub use model::PhaseModel;
pub use models::models_of;
pub use sum_phase::SumPhase;
