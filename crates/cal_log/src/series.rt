ghost use Rattle.std.specs.Prelude.{◌≡◌, ◌≤◌, ◌<◌, ◌+◌, ◌*◌, ◌/◌};
ghost use Rattle.cal_limits.specs.declared.TheConstants.{HIGHEST_TEMPERATURE};
ghost use Rattle.cal_math.specs.Logarithm.{log_step};

/// Twice the unit of the logarithm: ln (i / (i - 1)) is twice the sum over odd m of 1 / (m * (2i - 1)^m).
const TWICE_UNIT: u64 = 2_000_000_000_000_000;

/// What is left behind a division by the square; most are by one that is greater.
#[tactic(auto, using(crate::proofs::Quick::quick))]
fn divided(power: u64, square: u64) -> u64
    requires { 0 < square }
    ensures { result ≡ power / square }
{
    if power < square {
        return 0;
    }
    power / square
}

/// The summand of the place: the first divides by 1.
#[tactic(auto, using(crate::proofs::Quick::quick))]
fn summand(power: u64, place: u64) -> u64
    requires { place ≤ 16 }
    ensures { result ≡ power / (2 * place + 1) }
{
    if place == 0 {
        return power;
    }
    power / (2 * place + 1)
}

/// The logarithm of `i / (i - 1)`, each summand of its series rounded down.
pub fn log_ratio(i: u64) -> u64
    requires least { 2 ≤ i }
    requires greatest { i ≤ HIGHEST_TEMPERATURE }
    ensures { result ≡ log_step i }
{
    let odd = 2 * i - 1;
    let mut power = TWICE_UNIT / odd;
    let mut sum = 0;
    let mut terms = 0;
    'series: while power > 0 {
        sum += summand(power, terms);
        power = divided(power, odd * odd);
        terms += 1;
    }
    sum
}
