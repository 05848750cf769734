//! What counts are worth at potentials.

ghost use Rattle.std.specs.Prelude.{◌≡◌, ◌≤◌, ◌^◌, pos, ◌*ℤ◌, unsigned_abs};
ghost use Rattle.cal_math.specs.Vectors.{at, dot};
ghost use Rattle.cef_core.specs.Constitutions.{HasShape, content};
ghost use Rattle.cef_core.specs.Worth.{worth};
ghost use Rattle.cef_phase.specs.Bounds.{IsPlane};

use cal_whole::{plus, times};
use cef_core::{PhaseAt, Site, content};

/// The sum of potential times content, in 2^-16 µJ/mol.
pub(crate) fn worth_of(phase: &PhaseAt, site: &Site, potentials: &[i128]) -> i128
    requires shape { HasShape phase.now.lattice phase.now.sites site.now }
    requires plane { IsPlane (2 ^ 116) phase.now potentials.now }
    ensures exact { result ≡ worth potentials.now (content phase.now site.now) }
    ensures size { unsigned_abs result ≤ 2 ^ 116 }
{
    let mut sum = 0;
    'components: for component in 0..potentials.len() {
        let here = times(potentials[component], content(phase, site, component));
        sum = plus(sum, here);
    }
    sum
}
