//! The energy of mixing of a list of counts.

ghost use Rattle.std.specs.Prelude.{◌≡◌, ◌≤◌, ◌<◌, length, drop, sum, slice_index, unsigned_abs};
ghost use Rattle.cal_limits.specs.declared.TheConstants.{MOST_ENERGY};
ghost use Rattle.cef_core.specs.Mixing.{mixing_of_counts, mixing_over};
ghost use Rattle.cef_phase.specs.Sizes.{AddUpTo};
ghost use Rattle.cef_phase.specs.Sums.{IsMixable};

use cal_whole::plus;
use cef_core::Site;
use cef_mix::Mix;

/// The energies of mixing of the counts of one sublattice together.
#[tactic(auto, using(crate::proofs::Sublattices::counts_rules))]
fn mixing_of_counts(mix: &Mix, sublattice: usize, counts: &[u16]) -> i128
    requires mixable { IsMixable mix.now }
    requires sublattice { sublattice < length mix.now.ratios }
    requires within { sum counts.now ≤ mix.now.lattice }
    ensures exact { result ≡ mixing_of_counts mix.now.t mix.now.lattice (slice_index mix.now.ratios sublattice) counts.now }
    ensures size { unsigned_abs result ≤ MOST_ENERGY }
{
    match counts.split_first() {
        None => 0,
        Some((count, rest)) => {
            let here = mix.h(sublattice, *count);
            let others = mixing_of_counts(mix, sublattice, rest);
            plus(here, others)
        }
    }
}

/// The energy of mixing of the sublattices from a place on.
#[tactic(auto, using(crate::proofs::Sublattices::from_rules))]
pub fn mixing_from(mix: &Mix, site: &Site, place: usize) -> i128
    requires mixable { IsMixable mix.now }
    requires each { length mix.now.ratios ≡ length site.now }
    requires within { AddUpTo mix.now.lattice site.now }
    requires place { place ≤ length site.now }
    ensures exact { result ≡ mixing_over mix.now.t mix.now.lattice (drop place mix.now.ratios) (drop place site.now) }
    ensures size { unsigned_abs result ≤ MOST_ENERGY }
{
    if place == site.sublattices() {
        return 0;
    }
    let here = mixing_of_counts(mix, place, site.sublattice(place));
    let others = mixing_from(mix, site, place + 1);
    plus(here, others)
}
