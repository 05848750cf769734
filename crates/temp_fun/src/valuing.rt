ghost use Rattle.std.specs.Prelude.{◌≡◌, ◌≤◌, ◌<◌, ◌^◌, ◌-ℤ◌, unsigned_abs, ℕ, IfOk};
ghost use Rattle.cal_limits.specs.declared.TheConstants.{LOWEST_TEMPERATURE, HIGHEST_TEMPERATURE};
ghost use Rattle.cal_dec.specs.Decimals.{decimal_of};
ghost use Rattle.temp_fun.specs.Values.{log_kelvin as log_of_kelvin};
ghost use Rattle.temp_fun.specs.Functions.{AreFunctions};
ghost use Rattle.tdb_expr.specs.Forms.{IsRanged};
ghost use Rattle.temp_fun.specs.Stops.{IsAnswer};
ghost use Rattle.temp_fun.specs.States.{AreUnvisited};
ghost use Rattle.temp_fun.specs.Keeping.{IsKept, value_in};

use crate::fault::EvalFault;
use crate::kept::{Kept, Valued};
use crate::mark::Mark;
use crate::reader::Reader;
use crate::state::{After, State};
use crate::stepping::step;
use crate::sum::begin;
use cal_dec::Dec;
use cal_log::Logs;
use cal_scan::Name;
use indexmap::IndexMap;
use std::alloc::{AllocError, Global};
use tdb_expr::Ranged;

fn difference(a: i128, b: i128) -> i64
    requires { unsigned_abs (a -ℤ b) < 10 ^ 18 }
    ensures { result ≡ a -ℤ b }
{
    (a - b) as i64
}

/// The logarithm of a temperature of `t` hundredths of a kelvin.
fn log_kelvin(logs: &Logs, t: u32) -> Dec
    requires least { LOWEST_TEMPERATURE ≤ t }
    requires greatest { t ≤ HIGHEST_TEMPERATURE }
    requires table { t ≤ logs.now }
    ensures { decimal_of result ≡ log_of_kelvin t }
{
    Dec {
        mantissa: difference(logs.at(t), logs.at(100)),
        exponent: -15,
    }
}

fn unvisited(alloc: Global, count: usize) -> Result<Vec<Mark>, AllocError>
    ensures { IfOk result (λ marks. AreUnvisited count marks.items) }
{
    let mut marks = Vec::with_capacity(alloc, count)?;
    'marks: for _ in 0..count {
        marks.push(Mark::Unvisited)?;
    }
    Ok(marks)
}

impl Kept {
    /// No function is read yet.
    pub fn none(alloc: Global, functions: &IndexMap<Name, Ranged>) -> Result<Kept, AllocError>
        ensures { (t : ℕ) → IfOk result (IsKept functions.now.entries t) }
    {
        let marks = unvisited(alloc, functions.len())?;
        Ok(Kept { marks })
    }
}

/// The value of a ranged text at `t` hundredths of a kelvin in units of 10^-9, or its first refusal in
/// written order. Each product is cut to 18 digits factor by factor and floored, and the sum of the
/// products is exact (this project's rounding). Each function is read once, and not again where it was
/// read for a value before.
pub fn value_with(
    alloc: Global,
    functions: &IndexMap<Name, Ranged>,
    logs: &Logs,
    ranged: &Ranged,
    t: u32,
    kept: Kept,
) -> Result<Valued, EvalFault>
    requires functions { AreFunctions functions.now.entries }
    requires ranged { IsRanged ranged.now }
    requires least { LOWEST_TEMPERATURE ≤ t }
    requires greatest { t ≤ HIGHEST_TEMPERATURE }
    requires table { t ≤ logs.now }
    requires kept { IsKept functions.now.entries t kept }
    ensures answer { IsAnswer functions.now.entries t ranged.now (value_in result) }
    ensures kept { IfOk result (λ valued. IsKept functions.now.entries t valued.kept) }
{
    let reader = Reader {
        functions,
        t,
        log: log_kelvin(logs, t),
    };
    let Kept { marks } = kept;
    match begin(&reader, marks.as_slice(), ranged) {
        Err(fault) => Err(fault),
        Ok(turn) => {
            let mut state = State {
                marks,
                stack: Vec::new(alloc),
                turn,
            };
            'steps: loop {
                match step(&reader, state) {
                    Err(fault) => return Err(fault),
                    Ok(After::Value(value, marks)) => {
                        return Ok(Valued {
                            value,
                            kept: Kept { marks },
                        });
                    }
                    Ok(After::More(next)) => state = next,
                }
            }
        }
    }
}

/// The value of one ranged text, with nothing kept.
pub fn value(
    alloc: Global,
    functions: &IndexMap<Name, Ranged>,
    logs: &Logs,
    ranged: &Ranged,
    t: u32,
) -> Result<i128, EvalFault>
    requires functions { AreFunctions functions.now.entries }
    requires ranged { IsRanged ranged.now }
    requires least { LOWEST_TEMPERATURE ≤ t }
    requires greatest { t ≤ HIGHEST_TEMPERATURE }
    requires table { t ≤ logs.now }
    ensures { IsAnswer functions.now.entries t ranged.now result }
{
    let kept = Kept::none(alloc, functions)?;
    match value_with(alloc, functions, logs, ranged, t, kept) {
        Err(fault) => Err(fault),
        Ok(valued) => Ok(valued.value),
    }
}
