//! The counts of one sublattice, as a slice.

ghost use Rattle.std.specs.Prelude.{◌≡◌, ◌≤◌, ◌<◌, ◌*◌, ◌^◌, length, sum};

/// The sum of counts.
pub fn sum_of(counts: &[u16]) -> u32
    requires { length counts.now < 2 ^ 16 }
    ensures exact { result ≡ sum counts.now }
    ensures small { result ≤ 65535 * length counts.now }
{
    match counts.split_first() {
        None => 0,
        Some((count, rest)) => {
            let sum = sum_of(rest);
            u32::from(*count) + sum
        }
    }
}
