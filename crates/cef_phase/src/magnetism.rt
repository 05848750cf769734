//! The magnetism of a phase, where it has any.

ghost use Rattle.std.specs.Prelude.{◌≡◌, ◌≤◌, ◌+◌, ◌+ℤ◌, IfOk, unsigned_abs};
ghost use Rattle.cal_limits.specs.declared.TheConstants.{MOST_ENERGY};
ghost use Rattle.cef_core.specs.Phases.{IsFine};
ghost use Rattle.cef_phase.specs.Kinds.{AllFitBox, lows_of, micros};
ghost use Rattle.cef_phase.specs.MagneticTerms.{FitsMagnetism, FitsMagnetismBox, IsMagnetism};
ghost use Rattle.cef_phase.specs.MagneticTerms.{magnetism_at, magnetism_low, most_magnetic};

use crate::terms::{low_of_terms, terms_of};
use cal_log::Logs;
use cal_whole::plus;
use cef_box::{BoxRange, Term};
use cef_core::{Kind, PhaseAt, Site};
use cef_mag::MagTerm;
use cef_term::ParamTerm;
use std::alloc::{AllocError, Global};

/// The magnetism of a phase that has it.
pub fn magnetism_of<'a>(
    alloc: Global,
    phase: &'a PhaseAt,
    logs: &'a Logs,
) -> Result<Option<MagTerm<'a, ParamTerm<'a>>>, AllocError>
    requires fine { IsFine phase.now }
    requires reach { 501001 ≤ logs.now }
    ensures { IfOk result (λ magnetism. IsMagnetism phase.now phase.now.magnetic magnetism) }
{
    match &phase.magnetic {
        None => Ok(None),
        Some(_) => {
            let curie = terms_of(alloc, phase, Kind::Tc)?;
            let moments = terms_of(alloc, phase, Kind::Beta)?;
            Ok(Some(MagTerm::new(phase, logs, curie, moments)))
        }
    }
}

/// The magnetic energy of a list of counts, in µJ per mol of formula units.
pub fn magnetic_value(magnetism: &Option<MagTerm<'_, ParamTerm<'_>>>, site: &Site) -> i128
    requires { FitsMagnetism magnetism.now site.now }
    ensures exact { result ≡ magnetism_at magnetism.now site.now }
    ensures size { unsigned_abs result ≤ most_magnetic magnetism.now }
{
    match magnetism {
        None => 0,
        Some(term) => term.value(site),
    }
}

/// The low of the magnetic energy over a box.
pub fn magnetic_low(magnetism: &Option<MagTerm<'_, ParamTerm<'_>>>, range: &BoxRange) -> i128
    requires { FitsMagnetismBox magnetism.now range.now }
    ensures exact { result ≡ magnetism_low magnetism.now range.now }
    ensures size { unsigned_abs result ≤ most_magnetic magnetism.now }
{
    match magnetism {
        None => 0,
        Some(term) => term.low(range),
    }
}

/// The sum of the lows of a phase's terms and of magnetism over a box.
pub fn sum_of_lows(
    terms: &[ParamTerm<'_>],
    magnetism: &Option<MagTerm<'_, ParamTerm<'_>>>,
    range: &BoxRange,
) -> i128
    requires fits { AllFitBox terms.now range.now }
    requires fits_magnetism { FitsMagnetismBox magnetism.now range.now }
    requires small { micros terms.now + most_magnetic magnetism.now ≤ MOST_ENERGY }
    ensures exact { result ≡ lows_of terms.now range.now +ℤ magnetism_low magnetism.now range.now }
    ensures size { unsigned_abs result ≤ MOST_ENERGY }
{
    let parameters = low_of_terms(terms, range);
    let magnetism = magnetic_low(magnetism, range);
    plus(parameters, magnetism)
}
