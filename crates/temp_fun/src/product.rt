ghost use Rattle.std.specs.Prelude.{◌≡◌, ◌≤◌, ◌+ℤ◌, length, unsigned_abs, IfSome, IfNone};
ghost use Rattle.std.specs.Bool.{OnTrue, OnFalse};
ghost use Rattle.cal_dec.specs.Scales.{nano_of as value_of};
ghost use Rattle.cal_dec.specs.Decimals.{decimal_of};
ghost use Rattle.temp_fun.specs.Values.{log_kelvin, IsSmall};
ghost use Rattle.tdb_expr.specs.Forms.{IsProduct};
ghost use Rattle.temp_fun.specs.Marks.{AreRight};
ghost use Rattle.temp_fun.specs.Progress.{IsPartial, IsTimes, ReadsFactors, Adds};

use crate::factor::read_factor;
use crate::fault::EvalFault;
use crate::found::Found;
use crate::mark::Mark;
use crate::partial::{Partial, Progress, Sum};
use crate::reader::Reader;
use cal_dec::{Dec, mul, to_nano};
use cal_scan::Name;
use indexmap::IndexMap;
use tdb_expr::{Product, Ranged};

/// The greatest magnitude of a product and of a sum, in nano.
const LARGEST: u128 = 1_000_000_000_000_000_000_000_000_000;

fn times(partial: Partial, number: Dec, height: u8) -> Partial
    requires own { unsigned_abs partial.number.exponent ≤ 10000 }
    requires modest { unsigned_abs number.exponent ≤ 300 }
    ensures { IsTimes partial number height result }
{
    Partial {
        number: mul(partial.number, number),
        height: partial.height.max(height),
    }
}

/// Reads the factors of a product from a place on.
pub fn read_factors(
    reader: &Reader,
    marks: &[Mark],
    line: u32,
    product: &Product,
    from: usize,
    partial: Partial,
) -> Result<Progress, EvalFault>
    requires marks { AreRight reader.now.functions.now.entries reader.now.t marks.now }
    requires product { IsProduct product.now }
    requires from { from ≤ length product.now.factors }
    requires partial { IsPartial reader.now.functions.now.entries reader.now.t product.now from partial }
    ensures { ReadsFactors reader.now.functions.now.entries reader.now.t marks.now line product.now result }
{
    let factors = product.factors.as_slice();
    let mut now = partial;
    'factors: for j in from..factors.len() {
        match read_factor(reader, marks, line, &factors[j]) {
            Err(fault) => return Err(fault),
            Ok(Found::Waits(child)) => return Ok(Progress::Waits(j, now, child)),
            Ok(Found::Number(number, height)) => now = times(now, number, height),
        }
    }
    Ok(Progress::Whole(now))
}

#[tactic(auto, unfolding(crate::specs::Values::IsSmall))]
fn plus(sum: i128, nano: i128) -> i128
    requires sum { IsSmall sum }
    requires nano { IsSmall nano }
    ensures { result ≡ sum +ℤ nano }
{
    sum + nano
}

#[tactic(auto, unfolding(crate::specs::Values::IsSmall))]
fn is_small(value: i128) -> bool
    ensures yes { OnTrue result (IsSmall value) }
    ensures no { OnFalse result (IsSmall value → ⊥) }
{
    value.unsigned_abs() <= LARGEST
}

#[tactic(auto, unfolding(crate::specs::Values::IsSmall))]
fn nano_of(product: Dec) -> Option<i128>
    ensures some { IfSome result (λ v. v ≡ value_of (decimal_of product)) }
    ensures small { IfSome result IsSmall }
    ensures none { IfNone result (IsSmall (value_of (decimal_of product)) → ⊥) }
{
    match to_nano(product) {
        Ok(nano) => Some(nano),
        Err(_) => None,
    }
}

/// Adds a product to a sum.
pub fn add(line: u32, sum: Sum, product: Partial) -> Result<Sum, EvalFault>
    requires { IsSmall sum.value }
    ensures { Adds line sum product result }
{
    match nano_of(product.number) {
        None => Err(EvalFault::TooLarge(line)),
        Some(nano) => {
            let value = plus(sum.value, nano);
            if is_small(value) {
                Ok(Sum {
                    value,
                    height: sum.height.max(product.height),
                })
            } else {
                Err(EvalFault::TooLarge(line))
            }
        }
    }
}
