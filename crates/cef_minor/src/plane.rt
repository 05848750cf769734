//! The plane of a parameter on a box.

ghost use Rattle.std.specs.Prelude.{◌≡◌, ◌^◌, ◌<◌, ◌≤◌, ◌-ℤ◌, length, pos, take, unsigned_abs};
ghost use Rattle.cef_minor.specs.Kept.{IsArray, plane_in};
ghost use Rattle.cef_minor.specs.Raised.{AreRaised, AreWithin};

use crate::form::Form;
use crate::frame::Frame;
use crate::level::{are_fixed, level_constant};
use crate::sloping::raise_form;

/// 2^16 less than the sum of the parts of the constant.
#[tactic(auto, using(crate::proofs::Sums::lowered_rules))]
fn lowered(parts: i128) -> i128
    requires { unsigned_abs parts ≤ 2 ^ 104 }
    ensures { result ≡ parts -ℤ pos 65536 }
{
    parts - 65536
}

/// Adds the slopes of a parameter to those of its sites, and answers its constant. The first sites are those of its
/// array.
#[tactic(auto, using(crate::proofs::Arrays::plane_rules))]
pub fn raise_plane(
    frame: Frame<'_>,
    form: Form,
    sites: &mut [u16],
    count: usize,
    slopes: &mut [i128],
) -> i128
    requires array { IsArray frame (length slopes.old) form (take count sites.old) }
    requires count { count < length sites.old }
    requires room { AreWithin (2 ^ 100) slopes.old }
    ensures constant { result ≡ (plane_in (length slopes.old) frame.entry form (take count sites.old)).constant }
    ensures slopes { AreRaised (plane_in (length slopes.old) frame.entry form (take count sites.old)).slope slopes.old slopes.new }
{
    let (all, _) = sites.split_at(count);
    if are_fixed(frame.low, frame.high, all) {
        return level_constant(frame, form, all);
    }
    lowered(raise_form(frame, form, sites, count, slopes))
}
