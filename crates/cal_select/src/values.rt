//! The values of parameters.

ghost use Rattle.std.specs.Prelude.{◌≡◌, ◌≤◌, ◌<◌, ◌^◌, IfOk, ℤ, pos, ◌*ℤ◌, unsigned_abs};
ghost use Rattle.tdb_expr.specs.Forms.{IsRanged};
ghost use Rattle.temp_fun.specs.Keeping.{IsKept};
ghost use Rattle.cal_select.specs.Valuations.{Valuation, AreOutcomes};
ghost use Rattle.cal_select.specs.Causes.{Gives, refusal_of, value_causes};
ghost use Rattle.cal_select.specs.Measures.{made_in};
ghost use Rattle.cal_select.specs.Parameters.{nano_of, micro_of as micro_at, scale_for as scale_of_kind};

use crate::fault::SystemFault;
use cal_limits::HIGHEST_TEMPERATURE;
use cal_log::Logs;
use cef_core::Kind;
use std::alloc::Global;
use tdb_expr::Ranged;
use tdb_read::Db;
use temp_fun::{EvalFault, Kept, Valued, one_outcome, value_with};

/// What was made, and the functions that are known then.
#[derive(Drop)]
pub(crate) struct Made<T> {
    pub value: T,
    pub known: Kept,
}

fn refusal(fault: EvalFault) -> SystemFault
    ensures { result ≡ refusal_of fault }
{
    match fault {
        EvalFault::Missing(line) => SystemFault::Missing(line),
        EvalFault::Cycle(line) => SystemFault::Cycle(line),
        EvalFault::Unsupported(line) => SystemFault::Unsupported(line),
        EvalFault::TooLarge(line) => SystemFault::TooLarge(line),
        EvalFault::Memory => SystemFault::Memory,
    }
}

/// The value of a ranged text of the database at the temperature, in nano. A function that is known is not read again.
pub(crate) fn nano(
    alloc: Global,
    db: &Db,
    logs: &Logs,
    ranged: &Ranged,
    t: u32,
    known: Kept,
) -> Result<Made<i128>, SystemFault>
    requires ranged { IsRanged ranged.now }
    requires coldest { 100 ≤ t }
    requires hottest { t ≤ HIGHEST_TEMPERATURE }
    requires logs { HIGHEST_TEMPERATURE ≤ logs.now }
    requires known { IsKept db.now.functions t known }
    ensures gives { (outcome : Valuation) → AreOutcomes db.now.functions t outcome → Gives (made_in result) (value_causes (outcome ranged.now)) (nano_of (outcome ranged.now)) }
    ensures small { IfOk result (λ made. unsigned_abs made.value ≤ 10 ^ 27) }
    ensures known { IfOk result (λ made. IsKept db.now.functions t made.known) }
{
    one_outcome();
    match value_with(alloc, db.functions(), logs, ranged, t, known) {
        Err(fault) => Err(refusal(fault)),
        Ok(Valued { value, kept }) => Ok(Made { value, known: kept }),
    }
}

fn scale_for(scale: u32, kind: Kind) -> u32
    ensures value { result ≡ scale_of_kind scale kind }
    ensures size { 1 ≤ scale → result ≤ scale }
{
    match kind {
        Kind::G => scale,
        Kind::Tc | Kind::Beta | Kind::Unread | Kind::Other => 1,
    }
}

fn times(nano: i128, scale: u32) -> i128
    requires nano { unsigned_abs nano ≤ 10 ^ 27 }
    ensures { result ≡ nano *ℤ pos scale }
{
    nano * i128::from(scale)
}

/// The value in µJ, µK or millionths: the floor of the scaled value over 1000.
pub(crate) fn micro(nano: i128, scale: u32, kind: Kind) -> i128
    requires { unsigned_abs nano ≤ 10 ^ 27 }
    ensures { result ≡ micro_at (scale_of_kind scale kind) nano }
{
    times(nano, scale_for(scale, kind)).div_euclid(1000)
}
