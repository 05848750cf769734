ghost use Rattle.std.specs.Prelude.{◌≡◌, ◌≢◌, ◌≤◌, ◌*◌, ◌^◌, pos, negsuc, ◌+ℤ◌, ◌*ℤ◌, int_div, unsigned_abs};
ghost use Rattle.cal_dec.specs.Decimals.{decimal_of};
ghost use Rattle.cal_dec.specs.Products.{product, product_of_copies, inverse as inverse_of, power_of};

use crate::dec::Dec;
use crate::trimming::trimmed;

/// The product of two numbers, cut towards 0 to 18 digits (this project's rounding).
pub fn mul(a: Dec, b: Dec) -> Dec
    requires { unsigned_abs (a.exponent +ℤ b.exponent) ≤ 30000 }
    ensures { decimal_of result ≡ product (decimal_of a) (decimal_of b) }
{
    trimmed(mantissa_of_product(a, b), a.exponent + b.exponent)
}

fn mantissa_of_product(a: Dec, b: Dec) -> i128
    ensures { result ≡ a.mantissa *ℤ b.mantissa }
{
    a.mantissa as i128 * b.mantissa as i128
}

/// `base` to the power `n`: the product of `n` copies from the left, and for a negative `n` the inverse of that of `-n` copies.
/// Every product and the inverse are cut towards 0 to 18 digits (this project's rounding).
pub fn power(base: Dec, n: i8) -> Dec
    requires not_zero { base.mantissa ≢ pos 0 }
    requires exponent { unsigned_abs base.exponent ≤ 300 }
    requires times { unsigned_abs n ≤ 20 }
    ensures { decimal_of result ≡ power_of (decimal_of base) n }
{
    let product = copies(base, n.unsigned_abs());
    if n < 0 { inverse(product) } else { product }
}

/// The product of `count` copies from the left.
fn copies(base: Dec, count: u8) -> Dec
    requires not_zero { base.mantissa ≢ pos 0 }
    requires exponent { unsigned_abs base.exponent ≤ 300 }
    requires count { count ≤ 20 }
    ensures product { decimal_of result ≡ product_of_copies (decimal_of base) count }
    ensures not_zero { result.mantissa ≢ pos 0 }
    ensures exponent { unsigned_abs result.exponent ≤ 318 * count }
{
    if count == 0 {
        return Dec {
            mantissa: 1,
            exponent: 0,
        };
    }
    mul(copies(base, count - 1), base)
}

/// `1 / b`, to 18 digits.
fn inverse(b: Dec) -> Dec
    requires not_zero { b.mantissa ≢ pos 0 }
    requires exponent { unsigned_abs b.exponent ≤ 6360 }
    ensures { decimal_of result ≡ inverse_of (decimal_of b) }
{
    trimmed(mantissa_of_inverse(b), -36 - b.exponent)
}

fn mantissa_of_inverse(b: Dec) -> i128
    requires { b.mantissa ≢ pos 0 }
    ensures { result ≡ int_div (pos (10 ^ 36)) b.mantissa }
{
    10i128.pow(36) / b.mantissa as i128
}
