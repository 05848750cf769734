//! Laws of bases of whole columns: what an exchange keeps, and how large the numbers of a basis and of its potentials are.
#![tactic(auto)]

mod basis;
mod bound;
mod descent;
mod weight;

pub use basis::{exchange_keeps_basis, rows_are_unique};
pub use bound::{
    denominators_are_bounded, own_products_are_bounded, parts_are_bounded, potentials_are_bounded,
    row_numbers_are_bounded,
};
pub use descent::{
    costs_fall, lists_stay_above, proof_excludes_weights, some_place_is_left, weights_give_target,
};
pub use weight::{
    dear_weights_have_a_price, idle_places_stay, one_row_is_left, weights_stay_above,
};
