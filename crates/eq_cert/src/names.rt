//! Whether a report names the elements and the phases of a system.

ghost use Rattle.std.specs.Prelude.{◌≡◌, map};
ghost use Rattle.std.specs.Bool.{OnTrue, OnFalse};

use cef_core::{Name, PhaseAt};

/// Whether the names are the same, in order.
pub(crate) fn are_same(names: &[Name], others: &[Name]) -> bool
    ensures yes { OnTrue result (names.now ≡ others.now) }
    ensures no { OnFalse result (names.now ≡ others.now → ⊥) }
{
    match names.split_first() {
        None => others.is_empty(),
        Some((name, names)) => match others.split_first() {
            None => false,
            Some((other, others)) => {
                if *name == *other {
                    are_same(names, others)
                } else {
                    false
                }
            }
        },
    }
}

/// Whether the names are those of the phases, in order.
pub(crate) fn are_names_of(names: &[Name], phases: &[PhaseAt]) -> bool
    ensures yes { OnTrue result (names.now ≡ map (λ phase. phase.name) phases.now) }
    ensures no { OnFalse result (names.now ≡ map (λ phase. phase.name) phases.now → ⊥) }
{
    match names.split_first() {
        None => phases.is_empty(),
        Some((name, names)) => match phases.split_first() {
            None => false,
            Some((phase, phases)) => {
                if *name == phase.name {
                    are_names_of(names, phases)
                } else {
                    false
                }
            }
        },
    }
}
