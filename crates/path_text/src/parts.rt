//! The parts of a path, on the way to the whole.

use cal_list::Items;
use cef_core::Name;
use cef_path::{Finish, StepText};

#[derive(Drop)]
pub(crate) struct Head {
    pub liquid: Name,
    pub descent: u32,
    pub floor: u32,
    pub stop: u32,
}

#[derive(Drop)]
pub(crate) struct Ending {
    pub finish: Finish,
    pub solids: Items<i128>,
    pub remains: Items<i128>,
    pub lost: Items<i128>,
}

/// Steps and what is behind them.
#[derive(Drop)]
pub(crate) struct Steps {
    pub steps: Items<StepText>,
    pub ending: Ending,
}
