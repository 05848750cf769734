ghost use Rattle.std.specs.Prelude.{◌≡◌, ◌≢◌, ◌≤◌, codes, length, unsigned_abs, IfOk, IfSome, ◌<◌};
ghost use Rattle.std.specs.Bool.{OnTrue, OnFalse};
ghost use Rattle.cal_dec.specs.Decimals.{decimal_of};
ghost use Rattle.temp_fun.specs.Values.{kelvin as kelvin_of, log_kelvin, gas_constant as the_constant, from_nano as nano_of};
ghost use Rattle.temp_fun.specs.Functions.{place_of as place_in};
ghost use Rattle.tdb_expr.specs.Forms.{IsFactor};
ghost use Rattle.temp_fun.specs.Marks.{AreRight, Reads, ReadsName, ReadsAt, IsModest};

use crate::fault::EvalFault;
use crate::found::Found;
use crate::mark::Mark;
use crate::reader::Reader;
use cal_dec::{Dec, power, trimmed};
use cal_limits::GAS_CONSTANT;
use cal_scan::Name;
use indexmap::IndexMap;
use tdb_expr::{Factor, Ranged};

fn kelvin(t: u32) -> Dec
    ensures { decimal_of result ≡ kelvin_of t }
{
    Dec {
        mantissa: t as i64,
        exponent: -2,
    }
}

/// R, in J/(mol K).
fn gas_constant() -> Dec
    ensures { decimal_of result ≡ the_constant }
{
    Dec {
        mantissa: GAS_CONSTANT as i64,
        exponent: -5,
    }
}

fn from_nano(value: i128) -> Dec
    ensures value { decimal_of result ≡ nano_of value }
    ensures modest { unsigned_abs result.exponent ≤ 300 }
{
    trimmed(value, -9)
}

fn is_gas_constant(name: &Name) -> bool
    ensures yes { OnTrue result (name.now ≡ codes "R") }
    ensures no { OnFalse result (name.now ≢ codes "R") }
{
    name.bytes() == b"R".as_slice()
}

/// The number of the function at a place, or the place itself where it was not visited.
fn read_function(mark: Mark, line: u32, place: usize) -> Result<Found, EvalFault>
    ensures value { ReadsAt mark line place result }
    ensures modest { IfOk result IsModest }
{
    match mark {
        Mark::Unvisited => Ok(Found::Waits(place)),
        Mark::Followed => Err(EvalFault::Cycle(line)),
        Mark::Done(value, height) => {
            if height > 64 {
                return Err(EvalFault::Unsupported(line));
            }
            Ok(Found::Number(from_nano(value), height))
        }
    }
}

fn place_of(functions: &IndexMap<Name, Ranged>, name: &Name) -> Option<usize>
    ensures place { result ≡ place_in functions.now.entries name.now }
    ensures within { IfSome result (λ place. place < length functions.now.entries) }
{
    functions.get_index_of(name)
}

fn read_name(reader: &Reader, marks: &[Mark], line: u32, name: &Name) -> Result<Found, EvalFault>
    requires { AreRight reader.now.functions.now.entries reader.now.t marks.now }
    ensures value { ReadsName reader.now.functions.now.entries reader.now.t marks.now line name.now result }
    ensures modest { IfOk result IsModest }
{
    match place_of(reader.functions, name) {
        None => {
            if is_gas_constant(name) {
                Ok(Found::Number(gas_constant(), 0))
            } else {
                Err(EvalFault::Missing(line))
            }
        }
        Some(place) => read_function(marks[place], line, place),
    }
}

/// The number of a factor, or the place of a function that was not visited.
pub fn read_factor(
    reader: &Reader,
    marks: &[Mark],
    line: u32,
    factor: &Factor,
) -> Result<Found, EvalFault>
    requires marks { AreRight reader.now.functions.now.entries reader.now.t marks.now }
    requires factor { IsFactor factor.now }
    ensures value { Reads reader.now.functions.now.entries reader.now.t marks.now line factor.now result }
    ensures modest { IfOk result IsModest }
{
    match factor {
        Factor::Number(number) => Ok(Found::Number(*number, 0)),
        Factor::T => Ok(Found::Number(kelvin(reader.t), 0)),
        Factor::Power(n) => Ok(Found::Number(power(kelvin(reader.t), *n), 0)),
        Factor::LnT => Ok(Found::Number(reader.log, 0)),
        Factor::Name(name) => read_name(reader, marks, line, name),
    }
}
