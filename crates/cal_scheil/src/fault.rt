ghost use Rattle.std.specs.Prelude.{◌≡◌};
ghost use Rattle.cal_scheil.specs.declared.fault.StepFault.TheVariants.{Memory};

use cal_select::SystemFault;
use eq_solve::Open;
use std::alloc::AllocError;

/// Why there is no step.
#[derive(Drop)]
pub enum StepFault {
    /// There is no system, or the liquid is none of its phases. It is never `SystemFault::Memory`.
    System(SystemFault),
    /// These numbers, one for each element, show that no constitutions give what is asked.
    Infeasible(Vec<i128>),
    /// A sweep spent its budget.
    GapNotClosed(Open),
    Memory,
}

impl From<AllocError> for StepFault {
    ghost from_gives = { λ _ e. e ≡ Memory };

    fn from(_e: AllocError) -> StepFault {
        StepFault::Memory
    }
}
