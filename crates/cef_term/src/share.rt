//! Shares of a parameter: floor (micro * q / den).

ghost use Rattle.std.specs.Prelude.{◌≡◌, ◌≤◌, ◌^◌, ◌*◌, pos, ◌*ℤ◌, unsigned_abs};
ghost use Rattle.cef_term.specs.Kept.{HasProduct, IsShare, share_value, micro_of, den, product_at, q_at};

use crate::narrow::{NarrowShare, narrow_share, narrow_value, product_of};
use crate::wide::{WideShare, wide_value};

/// The numbers micro and den, in 64 bits where den is small enough for all products.
#[derive(Clone, Copy, Debug, PartialEq, Eq)]
pub enum Share {
    Narrow(NarrowShare),
    Wide(WideShare),
}

/// The greatest divisor whose products have 64 bits.
const NARROW: u128 = 1 << 31;

/// What is kept of a parameter and its divisor.
#[tactic(auto, using(crate::proofs::Shares::signed_rules))]
pub fn share_of(micro: i128, divisor: u128) -> Share
    requires micro { unsigned_abs micro ≤ 2 ^ 55 }
    requires low { 1 ≤ divisor }
    requires high { divisor ≤ 3 * 2 ^ 70 }
    ensures keeps { IsShare result }
    ensures micro { micro_of result ≡ micro }
    ensures divisor { den result ≡ divisor }
{
    if divisor <= NARROW {
        Share::Narrow(narrow_share(micro, divisor))
    } else {
        Share::Wide(WideShare {
            micro,
            den: divisor,
        })
    }
}

/// floor (micro * q / den) for the product q of the counts at the places and a factor, of a
/// magnitude of at most den.
#[inline(always)]
#[tactic(auto, using(crate::proofs::Shares::signed_rules))]
pub fn share_value(share: Share, counts: &[u16], places: &[u16], factor: i64) -> i128
    requires keeps { IsShare share }
    requires product { HasProduct (den share) counts.now places.now }
    requires room { product_at counts.now places.now * unsigned_abs factor ≤ den share }
    ensures exact { result ≡ share_value share (q_at counts.now places.now factor) }
    ensures size { unsigned_abs result ≤ unsigned_abs (micro_of share) }
{
    match share {
        Share::Narrow(narrow) => {
            let product = product_of(counts, places);
            i128::from(narrow_value(narrow, product, factor))
        }
        Share::Wide(wide) => wide_value(wide, counts, places, factor),
    }
}
