ghost use Rattle.std.specs.Prelude.{ℕ, ℤ, List, IfOk};
ghost use Rattle.cef_core.specs.declared.system.System.{System};
ghost use Rattle.eq_sweep.specs.declared.swept.Swept.{Swept};
ghost use Rattle.eq_solve.specs.Points.{IsListOf, IsColumnOf};
ghost use Rattle.eq_solve.specs.Sweeps.{CanSweep, Sweeps};

use cef_report::Entry;
use eq_sweep::Swept;
use lp_core::Column;
use std::alloc::{AllocError, Global};

/// The phases of a system, as rounds see them.
pub(crate) trait Phases {
    ghost system: { Self → System };

    /// They are those of a system within its limits.
    ghost ready: { Self → Type 0 };

    /// What a sweep under these potentials with this budget answers.
    ghost swept: { Self → List ℤ → ℕ → Swept → Type 0 };

    fn sweep(&self, alloc: Global, potentials: &[i128], budget: u64) -> Result<Swept, AllocError>
        requires ready { ready self.now }
        requires small { CanSweep (system self.now) potentials.now }
        ensures exact { IfOk result (λ s. swept self.now potentials.now budget s) }
        ensures sound { IfOk result (λ s. Sweeps (system self.now) potentials.now budget s) };

    /// Lists of counts that may cost less than the potentials of a plan of the known columns ask for them, the likeliest last. Any answer
    /// serves: what is proposed is tested.
    fn propose(
        &self,
        alloc: Global,
        potentials: &[i128],
        denominator: i128,
        known: &[Entry],
        columns: &[Column],
    ) -> Result<Vec<Entry>, AllocError>
        requires { ready self.now };

    /// The content and the energy of a list of counts.
    fn column(&self, alloc: Global, entry: &Entry) -> Result<Column, AllocError>
        requires ready { ready self.now }
        requires list { IsListOf (system self.now) entry.now }
        ensures { IfOk result (λ column. IsColumnOf (system self.now) entry.now column) };
}
