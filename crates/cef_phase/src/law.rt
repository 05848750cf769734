//! What is known of the energies of a phase, for proofs of other crates. The calls do nothing: each stands for the lemmas
//! that its clauses name.

ghost use Rattle.std.specs.Prelude.{List, ℕ, ◌≤◌, unsigned_abs};
ghost use Rattle.cef_core.specs.declared.phase.PhaseAt.{PhaseAt as Phase};
ghost use Rattle.cef_core.specs.Constitutions.{HasShape};
ghost use Rattle.cef_core.specs.Energies.{energy};
ghost use Rattle.cef_core.specs.Phases.{IsFine, sigma};

/// No energy of a phase is greater than the size of its energies, in µJ per mol of formula units.
#[tactic(auto, using(crate::specs::Sizes::energy_size))]
pub fn energy_is_bounded()
    ensures { (phase : Phase) (counts : List (List ℕ)) → IsFine phase → HasShape phase.lattice phase.sites counts → unsigned_abs (energy phase counts) ≤ sigma phase }
{}
