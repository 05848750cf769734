//! Numbers that may be too great, compared with their limits.

ghost use Rattle.std.specs.Prelude.{◌≡◌, ◌≤◌, ◌<◌, ◌*◌, ◌^◌};
ghost use Rattle.cef_core.specs.Capped.{within};

/// The product, where it is at most the limit.
fn product_within(a: u128, b: u64, limit: u128) -> Option<u128>
    requires { limit < 2 ^ 127 }
    ensures { result ≡ within limit (a * b) }
{
    match a.checked_mul(u128::from(b)) {
        None => None,
        Some(product) => {
            if product <= limit {
                Some(product)
            } else {
                None
            }
        }
    }
}

/// `base^exponent`, where it is at most the limit.
pub fn power_within(base: u64, exponent: usize, limit: u128) -> Option<u128>
    requires one { 1 ≤ limit }
    requires limit { limit < 2 ^ 127 }
    ensures { result ≡ within limit (base ^ exponent) }
{
    let mut power = 1;
    'factors: for _ in 0..exponent {
        power = product_within(power, base, limit)?;
    }
    Some(power)
}
