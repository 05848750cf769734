ghost use Rattle.std.specs.Prelude.{◌≡◌};
ghost use Rattle.eq_solve.specs.declared.fault.SolveFault.TheVariants.{Memory};

use cal_list::Items;
use cef_report::Entry;
use std::alloc::AllocError;

/// What is kept of an equilibrium whose sweep spent its budget.
#[derive(Drop)]
pub struct Open {
    /// For each element, in 2^-16 µJ/mol per 1/N.
    pub potentials: Items<i128>,
    /// The place of the phase at which the budget was spent.
    pub phase: usize,
    /// In rising order. Amounts may be 0.
    pub entries: Items<Entry>,
}

/// Why there is no equilibrium.
#[derive(Drop)]
pub enum SolveFault {
    /// These numbers, one for each element, show that no constitutions give the asked totals.
    Infeasible(Vec<i128>),
    /// The sweep spent its budget.
    GapNotClosed(Open),
    Memory,
}

impl From<AllocError> for SolveFault {
    ghost from_gives = { λ _ e. e ≡ Memory };

    fn from(_e: AllocError) -> SolveFault {
        SolveFault::Memory
    }
}
