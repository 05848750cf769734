//! The value of a parameter where every site of its array is fixed.

ghost use Rattle.std.specs.Prelude.{◌≡◌, ◌+◌, ◌*◌, ◌^◌, ◌<◌, ◌≤◌, ℕ, length, pos, ◌-ℤ◌, ◌*ℤ◌, slice_index, unsigned_abs};
ghost use Rattle.std.specs.List.{AllByRecursion};
ghost use Rattle.cef_minor.specs.Kept.{IsArray, IsFormIn, IsFrame, factor_at, factor_most, low_of};
ghost use Rattle.cef_minor.specs.Planes.{are_fixed};
ghost use Rattle.cef_minor.specs.Products.{product_at, products_of, q_of, value_of};

use crate::form::Form;
use crate::frame::Frame;
use crate::product::product_in;
use crate::slope::{weighted, whole_part};
use cal_whole::times;

/// Whether each site has its low equal to its high.
#[tactic(auto, using(crate::proofs::Levels::fixed_rules))]
pub fn are_fixed(low: &[u16], high: &[u16], sites: &[u16]) -> bool
    requires low { AllByRecursion (λ site. site < length low.now) sites.now }
    requires high { length high.now ≡ length low.now }
    ensures { result ≡ are_fixed (λ i. slice_index low.now i) (λ i. slice_index high.now i) sites.now }
{
    match sites.split_first() {
        None => true,
        Some((site, later)) => {
            let site = usize::from(*site);
            if low[site] != high[site] {
                return false;
            }
            are_fixed(low, high, later)
        }
    }
}

/// The difference of two counts.
#[tactic(auto, using(crate::proofs::Levels::difference_rules))]
fn difference(first: u16, second: u16) -> i128
    ensures { result ≡ pos first -ℤ pos second }
{
    i128::from(first) - i128::from(second)
}

/// N and three times the own count, less the three counts.
#[tactic(auto, using(crate::proofs::Levels::difference_rules))]
fn weighted_factor(parts: u32, own: u16, first: u16, second: u16, third: u16) -> i128
    ensures { result ≡ pos (3 * own + parts) -ℤ pos (first + second + third) }
{
    let up = 3 * u64::from(own) + u64::from(parts);
    let down = u64::from(first) + u64::from(second) + u64::from(third);
    i128::from(up) - i128::from(down)
}

/// The factor at counts.
#[tactic(auto, using(crate::proofs::Levels::factor_rules))]
fn factor_in(parts: u32, counts: &[u16], form: Form) -> i128
    requires { IsFormIn (length counts.now) form }
    ensures { result ≡ factor_at parts (λ i. slice_index counts.now i) form }
{
    match form {
        Form::Plain => 1,
        Form::Difference { first, second } => {
            difference(counts[usize::from(first)], counts[usize::from(second)])
        }
        Form::Weighted {
            own,
            first,
            second,
            third,
        } => weighted_factor(
            parts,
            counts[usize::from(own)],
            counts[usize::from(first)],
            counts[usize::from(second)],
            counts[usize::from(third)],
        ),
    }
}

/// The sum of the products at the lows.
#[tactic(auto, using(crate::proofs::Levels::level_rules))]
fn q_at_lows(frame: Frame<'_>, form: Form, sites: &[u16]) -> i128
    requires { IsArray frame (length frame.low.now) form sites.now }
    ensures exact { result ≡ q_of (low_of frame.entry) (products_of frame.entry.parts form sites.now) }
    ensures size { unsigned_abs result ≤ frame.entry.den }
{
    let product = product_in(frame.parts, frame.low, sites);
    weighted(factor_in(frame.parts, frame.low, form), product)
}

/// 2^16 times the value at the lows.
#[tactic(auto, using(crate::proofs::Levels::level_rules))]
pub fn level_constant(frame: Frame<'_>, form: Form, sites: &[u16]) -> i128
    requires { IsArray frame (length frame.low.now) form sites.now }
    ensures { result ≡ pos 65536 *ℤ value_of frame.entry.micro frame.entry.den (q_of (low_of frame.entry) (products_of frame.entry.parts form sites.now)) }
{
    let numerator = times(frame.micro, q_at_lows(frame, form, sites));
    times(65536, whole_part(numerator, frame.den))
}
