//! Which parameters have an affine minorant.

ghost use Rattle.std.specs.Prelude.{◌≡◌, ◌<◌, Some, length, slice_get};
ghost use Rattle.cef_core.specs.declared.phase.ParamAt.{ParamAt as Parameter};
ghost use Rattle.cef_minor.specs.Forms.{is_affine, is_form};

use crate::interaction::{Interaction, interaction_in};
use cef_core::{Kind, ParamAt, PhaseAt};

/// Whether the value is a sum of products of counts, by the order and the lists of two or more constituents.
fn is_form(order: u8, weighted: bool, interaction: Interaction) -> bool
    ensures { result ≡ is_form order weighted interaction }
{
    match interaction {
        Interaction::Alone => true,
        Interaction::Pair => order < 2,
        Interaction::Triple => { if weighted { order < 3 } else { true } }
        Interaction::TwoPairs => true,
        Interaction::Larger => false,
    }
}

#[tactic(auto, unfolding(crate::specs::Forms::is_affine))]
fn is_affine(parameter: &ParamAt) -> bool
    ensures { result ≡ is_affine parameter.now }
{
    match parameter.kind {
        Kind::G => is_form(
            parameter.order,
            parameter.weighted,
            interaction_in(parameter.array.as_slice()),
        ),
        Kind::Tc => false,
        Kind::Beta => false,
        Kind::Unread => false,
        Kind::Other => false,
    }
}

/// Whether a parameter has an affine minorant: it adds to the energy, and its value is a sum of products of counts.
pub fn affine(phase: &PhaseAt, index: usize) -> bool
    requires index { index < length phase.now.parameters }
    ensures { (p : Parameter) → slice_get phase.now.parameters index ≡ Some p → result ≡ is_affine p }
{
    is_affine(&phase.parameters()[index])
}
