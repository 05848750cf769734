/// Why a path ends with a step.
#[derive(Clone, Copy, Debug, PartialEq, Eq)]
pub enum Finish {
    /// Nothing of the liquid is left.
    NoLiquid,
    /// What is left of the liquid is at most the asked fraction of what was there first.
    Fraction,
    /// The next temperature would be below the lowest one.
    Temperature,
}
