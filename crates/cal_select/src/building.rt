//! The selected phases at a temperature and on a lattice.

ghost use Rattle.std.specs.Prelude.{◌≡◌, ◌≤◌, ◌^◌, [], true, false, IfOk, filter, length};
ghost use Rattle.std.specs.List.{AllByRecursion};
ghost use Rattle.cef_core.specs.Jobs.{IsJob};
ghost use Rattle.tdb_read.specs.Sound.{IsEntry, IsPhaseText};
ghost use Rattle.cal_select.specs.Chosen.{is_selected as selects, qualifies};
ghost use Rattle.cal_select.specs.Causes.{is_too_wide, too_wide};
ghost use Rattle.cal_select.specs.Measures.{IsShort, IsMeasured, StandAt, AreGrouped, made_in, GivesParameter, GivesParameters, GivesPhase, GivesPhases};
ghost use Rattle.temp_fun.specs.Keeping.{IsKept};

use crate::arrays::{array_at, is_weighted};
use crate::chosen::is_selected;
use crate::fault::SystemFault;
use crate::groups::{Group, parameter_of, places_of};
use crate::kept::{all_kept, sites_at};
use crate::parameters::{counts, is_unsupported};
use crate::ratios::{decimals, whole_ratios};
use crate::types::{allowed_types, magnetic};
use crate::values::{Made, micro, nano};
use cal_limits::{HIGHEST_TEMPERATURE, MOST_ELEMENTS};
use cal_list::Items;
use cal_log::Logs;
use cal_scan::Name;
use cef_core::{Job, ParamAt, PhaseAt};
use indexmap::IndexMap;
use std::alloc::Global;
use tdb_read::{Db, Key, ParamText, PhaseText};
use temp_fun::Kept;

/// What phases are made of, and for which elements: the places of parameters are those of each phase.
#[derive(Drop)]
pub(crate) struct Source<'a> {
    pub db: &'a Db,
    pub logs: &'a Logs,
    pub job: &'a Job,
    pub components: &'a [Name],
    pub groups: &'a IndexMap<Name, Items<usize>>,
}

/// The phase for which parameters are read.
#[derive(Drop)]
pub(crate) struct Needs<'a> {
    pub group: Group<'a>,
    pub kept: &'a [Items<Name>],
    pub magnetic: bool,
    pub scale: u32,
}

/// A needed parameter at the temperature, or the first cause that it gives.
fn parameter(
    alloc: Global,
    source: &Source,
    needs: &Needs,
    key: &Key,
    text: &ParamText,
    known: Kept,
) -> Result<Made<ParamAt>, SystemFault>
    requires job { IsJob source.now.job.now }
    requires logs { HIGHEST_TEMPERATURE ≤ source.now.logs.now }
    requires entry { IsEntry key.now text.now }
    requires kept { AllByRecursion IsShort needs.now.kept.now }
    requires places { StandAt source.now.db.now needs.now.group.phase.now needs.now.group.places.now }
    requires phase { key.now.phase ≡ needs.now.group.phase.now }
    requires known { IsKept source.now.db.now.functions source.now.job.now.t known }
    ensures gives { GivesParameter source.now.db.now source.now.job.now.t needs.now.scale needs.now.kept.now (key.now, text.now) (made_in result) }
    ensures known { IfOk result (λ made. IsKept source.now.db.now.functions source.now.job.now.t made.known) }
{
    let unsupported = is_unsupported(alloc, needs.kept, key, text)?;
    if unsupported {
        return Err(SystemFault::Unsupported(text.ranged.line));
    }
    match nano(
        alloc,
        source.db,
        source.logs,
        &text.ranged,
        source.job.t,
        known,
    ) {
        Err(fault) => Err(fault),
        Ok(Made { value: nano, known }) => {
            let array = array_at(alloc, needs.kept, &key.array)?;
            let weighted = is_weighted(alloc, source.db, &needs.group, key)?;
            let value = ParamAt {
                kind: text.kind,
                micro: micro(nano, needs.scale, text.kind),
                array,
                order: key.order,
                weighted,
            };
            Ok(Made { value, known })
        }
    }
}

/// The parameters that the phase needs, or the first cause that one of them gives.
fn parameters(
    alloc: Global,
    source: &Source,
    needs: &Needs,
    known: Kept,
) -> Result<Made<Items<ParamAt>>, SystemFault>
    requires job { IsJob source.now.job.now }
    requires logs { HIGHEST_TEMPERATURE ≤ source.now.logs.now }
    requires kept { AllByRecursion IsShort needs.now.kept.now }
    requires places { StandAt source.now.db.now needs.now.group.phase.now needs.now.group.places.now }
    requires known { IsKept source.now.db.now.functions source.now.job.now.t known }
    ensures gives { GivesParameters source.now.db.now source.now.job.now.t needs.now.scale needs.now.magnetic needs.now.kept.now needs.now.group.phase.now (made_in result) }
    ensures known { IfOk result (λ made. IsKept source.now.db.now.functions source.now.job.now.t made.known) }
{
    let mut all = Items::new(alloc);
    let mut known = known;
    'numbers: for number in 0..needs.group.places.len() {
        let (key, text) = parameter_of(source.db, &needs.group, number);
        if counts(needs.magnetic, needs.kept, key, text) {
            match parameter(alloc, source, needs, key, text, known) {
                Err(fault) => return Err(fault),
                Ok(
                    Made {
                        value,
                        known: after,
                    },
                ) => {
                    all.push(value)?;
                    known = after;
                }
            }
        }
    }
    Ok(Made { value: all, known })
}

/// The power of ten.
fn power_of_ten(exponent: u32) -> u32
    requires { exponent ≤ 5 }
    ensures value { result ≡ 10 ^ exponent }
    ensures least { 1 ≤ result }
    ensures most { result ≤ 100000 }
{
    match exponent {
        0 => 1,
        1 => 10,
        2 => 100,
        3 => 1000,
        4 => 10_000,
        _ => 100_000,
    }
}

/// A selected phase, or the first cause that its definitions and parameters give.
fn phase(
    alloc: Global,
    source: &Source,
    name: &Name,
    text: &PhaseText,
    known: Kept,
) -> Result<Made<PhaseAt>, SystemFault>
    requires job { IsJob source.now.job.now }
    requires logs { HIGHEST_TEMPERATURE ≤ source.now.logs.now }
    requires components { length source.now.components.now ≤ MOST_ELEMENTS }
    requires groups { AreGrouped source.now.db.now source.now.groups.now.entries }
    requires text { IsPhaseText text.now }
    requires selected { qualifies source.now.components.now text.now ≡ true }
    requires narrow { is_too_wide text.now.ratios ≡ false }
    requires known { IsKept source.now.db.now.functions source.now.job.now.t known }
    ensures gives { GivesPhase source.now.db.now source.now.job.now source.now.components.now (name.now, text.now) (made_in result) }
    ensures measured { IfOk result (λ made. IsMeasured made.value) }
    ensures known { IfOk result (λ made. IsKept source.now.db.now.functions source.now.job.now.t made.known) }
{
    if let Err(fault) = allowed_types(name, text, source.db.types()) {
        return Err(fault);
    }
    let magnetic = magnetic(name, text, source.db.types());
    let kept = all_kept(alloc, source.components, text.sites.as_slice())?;
    let decimals = decimals(text.ratios.as_slice()).unwrap_or(0);
    let scale = power_of_ten(decimals);
    let needs = Needs {
        group: Group {
            phase: name,
            places: places_of(source.groups, name),
        },
        kept: kept.as_slice(),
        magnetic: magnetic.is_some(),
        scale,
    };
    match parameters(alloc, source, &needs, known) {
        Err(fault) => Err(fault),
        Ok(
            Made {
                value: parameters,
                known,
            },
        ) => {
            let name = name.copy()?;
            let ratios = whole_ratios(alloc, decimals, text.ratios.as_slice())?;
            let sites = sites_at(alloc, source.components, kept.as_slice())?;
            let value = PhaseAt {
                name,
                t: source.job.t,
                lattice: source.job.lattice,
                scale,
                ratios,
                sites,
                parameters,
                magnetic,
            };
            Ok(Made { value, known })
        }
    }
}

/// The selected phases, or the first cause that one of them gives.
pub(crate) fn phases(alloc: Global, source: &Source) -> Result<Items<PhaseAt>, SystemFault>
    requires job { IsJob source.now.job.now }
    requires logs { HIGHEST_TEMPERATURE ≤ source.now.logs.now }
    requires components { length source.now.components.now ≤ MOST_ELEMENTS }
    requires groups { AreGrouped source.now.db.now source.now.groups.now.entries }
    requires narrow { too_wide (filter (selects source.now.components.now source.now.job.now.phases) source.now.db.now.phases) ≡ [] }
    ensures measured { IfOk result (λ all. AllByRecursion IsMeasured all) }
    ensures gives { GivesPhases source.now.db.now source.now.job.now source.now.components.now (filter (selects source.now.components.now source.now.job.now.phases) source.now.db.now.phases) result }
{
    let mut all = Items::new(alloc);
    let mut known = Kept::none(alloc, source.db.functions())?;
    'places: for place in 0..source.db.phase_count() {
        let (name, text) = source.db.phase_at(place);
        if is_selected(source.components, &source.job.phases, name, text) {
            match phase(alloc, source, name, text, known) {
                Err(fault) => return Err(fault),
                Ok(
                    Made {
                        value,
                        known: after,
                    },
                ) => {
                    all.push(value)?;
                    known = after;
                }
            }
        }
    }
    Ok(all)
}
