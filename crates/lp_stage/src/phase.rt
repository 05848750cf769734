ghost use Rattle.std.specs.Prelude.{◌≡◌};
ghost use Rattle.lp_stage.specs.Pricing.{cost_in};

use lp_basis::Column;

/// The first phase makes the weight of the unit columns least, the second the cost.
#[derive(Clone, Copy)]
pub enum Phase {
    First,
    Second,
}

/// What a unit of a known column costs in the phase.
pub fn cost_of(phase: Phase, column: &Column) -> i128
    ensures { result ≡ cost_in phase column.now }
{
    match phase {
        Phase::First => 0,
        Phase::Second => column.cost,
    }
}
