//! Constitutions of a phase on its lattice, and what they hold of each component.

ghost use Rattle.std.specs.Prelude.{◌≡◌, ℕ, ◌≤◌, ◌<◌, ◌*◌, ◌^◌, Option, [], length, pos, slice_index, slice_index_or, Some, None};
ghost use Rattle.std.specs.Bool.{OnTrue, OnFalse};
ghost use Rattle.cef_core.specs.Constitutions.{HasShape, HasContent, weight_of, weight_at, content_of_counts, content_over, content};
ghost use Rattle.cef_core.specs.Sublattices.{parts_of, IsFlat};

use crate::phase::PhaseAt;
use crate::row::sum_of;
use crate::site::Site;
use cal_list::Items;

/// Whether the site has a count for each constituent of the phase, those of each sublattice adding to N.
pub fn is_list(phase: &PhaseAt, site: &Site) -> bool
    ensures yes { OnTrue result (HasShape phase.now.lattice phase.now.sites site.now) }
    ensures no { OnFalse result (HasShape phase.now.lattice phase.now.sites site.now → ⊥) }
{
    let flat = site.flat();
    is_list_of(
        phase.lattice,
        0,
        flat.ends,
        phase.sites.as_slice(),
        flat.counts,
    )
}

#[tactic(auto, using(crate::proofs::Flats::splitting))]
fn is_list_of(n: u32, from: u16, ends: &[u16], sites: &[Items<Option<u16>>], counts: &[u16]) -> bool
    requires flat { IsFlat from ends.now counts.now }
    ensures yes { OnTrue result (HasShape n sites.now (parts_of from ends.now counts.now)) }
    ensures no { OnFalse result (HasShape n sites.now (parts_of from ends.now counts.now) → ⊥) }
{
    match ends.split_first() {
        None => match sites.split_first() {
            None => true,
            Some(_) => false,
        },
        Some((end, rest)) => match sites.split_first() {
            None => false,
            Some((row, rows)) => {
                let count = usize::from(*end - from);
                let (part, counts_rest) = counts.split_at(count);
                if part.len() == row.len() {
                    if sum_of(part) == n {
                        is_list_of(n, *end, rest, rows, counts_rest)
                    } else {
                        false
                    }
                } else {
                    false
                }
            }
        },
    }
}

/// How much one count of a site adds to the content of a component: the ratio of its sublattice where the site is of that
/// component, and 0 otherwise.
pub fn weight(phase: &PhaseAt, sublattice: usize, place: usize, component: usize) -> u32
    requires ratio { sublattice < length phase.now.ratios }
    requires sublattice { sublattice < length phase.now.sites }
    requires place { place < length (slice_index_or phase.now.sites sublattice []) }
    ensures { result ≡ weight_at phase.now sublattice place component }
{
    let site = phase.sites.as_slice()[sublattice].as_slice()[place];
    weight_of(component, phase.ratios.as_slice()[sublattice], site)
}

fn weight_of(component: usize, ratio: u32, site: Option<u16>) -> u32
    ensures exact { result ≡ weight_of component ratio site }
    ensures small { result ≤ ratio }
{
    match site {
        None => 0,
        Some(other) => {
            if component == usize::from(other) {
                ratio
            } else {
                0
            }
        }
    }
}

/// The content of a component in a formula unit, in units of 1/N.
#[tactic(auto, unfolding(crate::specs::Constitutions::content))]
pub fn content(phase: &PhaseAt, site: &Site, component: usize) -> i128
    ensures { result ≡ content phase.now site.now component }
{
    let flat = site.flat();
    content_over(
        component,
        phase.ratios.as_slice(),
        phase.sites.as_slice(),
        0,
        flat.ends,
        flat.counts,
    ) as i128
}

#[tactic(auto, using(crate::proofs::Flats::splitting, crate::proofs::Contents::contents))]
fn content_over(
    component: usize,
    ratios: &[u32],
    sites: &[Items<Option<u16>>],
    from: u16,
    ends: &[u16],
    counts: &[u16],
) -> u128
    requires flat { IsFlat from ends.now counts.now }
    ensures exact { result ≡ content_over component ratios.now sites.now (parts_of from ends.now counts.now) }
    ensures small { result ≤ 2 ^ 48 * length counts.now }
{
    match ratios.split_first() {
        None => 0,
        Some((ratio, ratios)) => match sites.split_first() {
            None => 0,
            Some((row, rows)) => match ends.split_first() {
                None => 0,
                Some((end, rest)) => {
                    let count = usize::from(*end - from);
                    let (part, counts_rest) = counts.split_at(count);
                    let here = content_of_counts(component, *ratio, row.as_slice(), part);
                    let others = content_over(component, ratios, rows, *end, rest, counts_rest);
                    here + others
                }
            },
        },
    }
}

#[tactic(auto, using(crate::proofs::Contents::contents))]
fn content_of_counts(component: usize, ratio: u32, sites: &[Option<u16>], counts: &[u16]) -> u128
    ensures exact { result ≡ content_of_counts component ratio sites.now counts.now }
    ensures small { result ≤ 2 ^ 48 * length counts.now }
{
    match sites.split_first() {
        None => 0,
        Some((site, sites)) => match counts.split_first() {
            None => 0,
            Some((count, counts)) => {
                let weight = weight_of(component, ratio, *site);
                let here = u64::from(*count) * u64::from(weight);
                let others = content_of_counts(component, ratio, sites, counts);
                u128::from(here) + others
            }
        },
    }
}

/// Whether the counts hold some component.
pub fn has_content(phase: &PhaseAt, site: &Site) -> bool
    ensures yes { OnTrue result (HasContent phase.now site.now) }
    ensures no { OnFalse result (HasContent phase.now site.now → ⊥) }
{
    let flat = site.flat();
    some_content_over(
        phase.ratios.as_slice(),
        phase.sites.as_slice(),
        0,
        flat.ends,
        flat.counts,
    )
}

#[tactic(auto, using(crate::proofs::Flats::splitting, crate::proofs::Contents::presence))]
fn some_content_over(
    ratios: &[u32],
    sites: &[Items<Option<u16>>],
    from: u16,
    ends: &[u16],
    counts: &[u16],
) -> bool
    requires flat { IsFlat from ends.now counts.now }
    ensures yes { OnTrue result ((c : ℕ) × (0 < content_over c ratios.now sites.now (parts_of from ends.now counts.now))) }
    ensures no { OnFalse result ((c : ℕ) → content_over c ratios.now sites.now (parts_of from ends.now counts.now) ≡ 0) }
{
    match ratios.split_first() {
        None => false,
        Some((ratio, ratios)) => match sites.split_first() {
            None => false,
            Some((row, rows)) => match ends.split_first() {
                None => false,
                Some((end, rest)) => {
                    let count = usize::from(*end - from);
                    let (part, counts_rest) = counts.split_at(count);
                    if some_content_of_counts(*ratio, row.as_slice(), part) {
                        true
                    } else {
                        some_content_over(ratios, rows, *end, rest, counts_rest)
                    }
                }
            },
        },
    }
}

#[tactic(auto, using(crate::proofs::Contents::presence))]
fn some_content_of_counts(ratio: u32, sites: &[Option<u16>], counts: &[u16]) -> bool
    ensures yes { OnTrue result ((c : ℕ) × (0 < content_of_counts c ratio sites.now counts.now)) }
    ensures no { OnFalse result ((c : ℕ) → content_of_counts c ratio sites.now counts.now ≡ 0) }
{
    match sites.split_first() {
        None => false,
        Some((site, sites)) => match counts.split_first() {
            None => false,
            Some((count, counts)) => {
                if is_present(ratio, *site, *count) {
                    true
                } else {
                    some_content_of_counts(ratio, sites, counts)
                }
            }
        },
    }
}

#[tactic(auto, using(crate::proofs::Contents::presence))]
fn is_present(ratio: u32, site: Option<u16>, count: u16) -> bool
    ensures yes { OnTrue result ((c : ℕ) × (0 < count * weight_of c ratio site)) }
    ensures no { OnFalse result ((c : ℕ) → count * weight_of c ratio site ≡ 0) }
{
    match site {
        None => false,
        Some(_) => { if count == 0 { false } else { ratio > 0 } }
    }
}
