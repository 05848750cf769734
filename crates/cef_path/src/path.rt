use crate::finish::Finish;
use crate::step::StepText;
use cal_list::Items;
use cef_core::Name;

/// A path of equilibria over a falling temperature, each of which asks what the step before left of the liquid.
#[derive(Drop)]
pub struct PathText {
    pub liquid: Name,
    /// By how much each step lowers the temperature, in hundredths of a kelvin.
    pub descent: u32,
    /// The lowest temperature, in hundredths of a kelvin.
    pub floor: u32,
    /// The fraction of liquid at which the path ends, in millionths.
    pub stop: u32,
    pub steps: Items<StepText>,
    pub finish: Finish,
    /// What became solid of each element, in units of 1/N nmol.
    pub solids: Items<i128>,
    /// What remains of each element in the liquid, in units of 1/N nmol.
    pub remains: Items<i128>,
    /// What was asked of each element and is in no equilibrium, in units of 1/N nmol.
    pub lost: Items<i128>,
}
