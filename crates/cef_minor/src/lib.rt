//! Affine minorants: a plane below each parameter on a box of constitutions.
#![tactic(auto)]

mod affine_form;
mod divisor;
mod form;
mod frame;
mod interaction;
mod law;
mod level;
mod parameter_plane;
mod places;
mod plane;
mod product;
mod product_plane;
mod raise;
mod site_list;
mod slope;
mod sloping;

pub use affine_form::affine;
pub use law::{
    constants_are_bounded, minorants_are_below, minorants_are_exact, slopes_are_bounded,
};
pub use parameter_plane::minorant;
