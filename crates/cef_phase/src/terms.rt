//! The terms of a phase's parameters, and the sum of their values.

ghost use Rattle.std.specs.Prelude.{◌≡◌, ◌≤◌, ◌^◌, IfOk, unsigned_abs};
ghost use Rattle.cef_core.specs.Phases.{IsFine, of_kind};
ghost use Rattle.cal_limits.specs.declared.TheConstants.{MOST_ENERGY};
ghost use Rattle.cef_phase.specs.Kinds.{AllFit, AllFitBox, AreTerms, lows_of, micros, values_of};

use cal_whole::plus;
use cef_box::{BoxRange, Term};
use cef_core::{Kind, PhaseAt, Site};
use cef_term::ParamTerm;
use std::alloc::{AllocError, Global};

/// Whether a parameter of the second kind is wanted.
fn is_of(wanted: Kind, kind: Kind) -> bool
    ensures { result ≡ of_kind wanted kind }
{
    match (wanted, kind) {
        (Kind::G, Kind::G) | (Kind::Tc, Kind::Tc) | (Kind::Beta, Kind::Beta) => true,
        _ => false,
    }
}

/// The terms of the parameters of a kind.
pub fn terms_of<'a>(
    alloc: Global,
    phase: &'a PhaseAt,
    kind: Kind,
) -> Result<Vec<ParamTerm<'a>>, AllocError>
    requires { IsFine phase.now }
    ensures { IfOk result (λ terms. AreTerms (of_kind kind) phase.now terms.items) }
{
    let mut terms = Vec::new(alloc);
    'each: for index in 0..phase.parameters().len() {
        if is_of(kind, phase.parameters()[index].kind) {
            terms.push(ParamTerm::new(alloc, phase, index)?)?;
        }
    }
    Ok(terms)
}

/// The sum of the values of a phase's terms.
pub fn sum_of_terms(terms: &[ParamTerm<'_>], site: &Site) -> i128
    requires { AllFit terms.now site.now }
    ensures exact { result ≡ values_of terms.now site.now }
    ensures size { unsigned_abs result ≤ 2 ^ 120 }
{
    let mut total = 0;
    'each: for term in terms {
        total = plus(total, term.value(site));
    }
    total
}

/// The sum of the lows of a phase's terms over a box.
pub fn low_of_terms(terms: &[ParamTerm<'_>], range: &BoxRange) -> i128
    requires fits { AllFitBox terms.now range.now }
    requires small { micros terms.now ≤ MOST_ENERGY }
    ensures exact { result ≡ lows_of terms.now range.now }
    ensures size { unsigned_abs result ≤ micros terms.now }
{
    let mut total = 0;
    'each: for term in terms {
        total = plus(total, term.low(range));
    }
    total
}
