//! The type definitions that apply to a phase, and its magnetism.

ghost use Rattle.std.specs.Prelude.{◌≡◌, ◌≤◌, ◌==◌, IfSome, filter, map};
ghost use Rattle.std.specs.List.{list_any};
ghost use Rattle.std.specs.Option.{option_or};
ghost use Rattle.cef_core.specs.Phases.{IsMagnetic};
ghost use Rattle.cal_select.specs.Types as spec;
ghost use Rattle.cal_select.specs.Causes.{Tells, type_causes};

use crate::fault::SystemFault;
use crate::wholes::{factor, ten_thousandths};
use cal_scan::Name;
use cef_core::MagneticAt;
use tdb_read::{PhaseText, TypeKind, TypeText};

fn names_phase(named: &Name, name: &Name) -> bool
    ensures { result ≡ spec.names_phase named.now name.now }
{
    named.bytes() == b"@".as_slice() || named == name
}

fn has_code(codes: &[u8], code: u8) -> bool
    ensures { result ≡ list_any (λ other. other == code) codes.now }
{
    codes.iter().any(|other| *other == code)
}

fn applies(name: &Name, phase: &PhaseText, text: &TypeText) -> bool
    ensures { result ≡ spec.applies (name.now, phase.now) text.now }
{
    has_code(phase.codes.bytes(), text.code) && names_phase(&text.phase, name)
}

/// The magnetism that a type definition gives.
fn magnetism(kind: TypeKind) -> Option<MagneticAt>
    ensures value { result ≡ spec.magnetism_of kind }
    ensures sound { IsMagnetic result }
{
    match kind {
        TypeKind::Magnetic(first, second) => match factor(first) {
            None => None,
            Some(factor) => match ten_thousandths(second) {
                None => None,
                Some(p4) => Some(MagneticAt { factor, p4 }),
            },
        },
        TypeKind::Plain | TypeKind::Other => None,
    }
}

fn is_left_out(kind: TypeKind) -> bool
    ensures { result ≡ spec.is_left_out kind }
{
    match kind {
        TypeKind::Magnetic(_, _) => magnetism(kind).is_none(),
        TypeKind::Plain => false,
        TypeKind::Other => true,
    }
}

/// Refuses the first definition that applies to the phase and has no meaning here.
#[tactic(auto, using(crate::proofs::Firsts::found))]
pub(crate) fn allowed_types(
    name: &Name,
    phase: &PhaseText,
    texts: &[TypeText],
) -> Result<(), SystemFault>
    ensures { Tells result (type_causes (spec.applying texts.now (name.now, phase.now))) }
{
    'texts: for text in texts {
        if applies(name, phase, text) && is_left_out(text.kind) {
            return Err(SystemFault::Unsupported(text.line));
        }
    }
    Ok(())
}

/// The later of two magnetisms, the second being that of a definition where it applies.
fn later(
    before: Option<MagneticAt>,
    name: &Name,
    phase: &PhaseText,
    text: &TypeText,
) -> Option<MagneticAt>
    requires { IsMagnetic before }
    ensures value { result ≡ spec.later before (name.now, phase.now) text.now }
    ensures sound { IsMagnetic result }
{
    if !applies(name, phase, text) {
        return before;
    }
    match magnetism(text.kind) {
        None => before,
        Some(magnetic) => Some(magnetic),
    }
}

/// The magnetism of a phase: that of the last definition that applies to it.
pub(crate) fn magnetic(name: &Name, phase: &PhaseText, texts: &[TypeText]) -> Option<MagneticAt>
    ensures value { result ≡ spec.magnetic_of texts.now (name.now, phase.now) }
    ensures sound { IsMagnetic result }
{
    let mut last = None;
    'texts: for text in texts {
        last = later(last, name, phase, text);
    }
    last
}
