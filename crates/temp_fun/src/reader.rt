ghost use Rattle.std.specs.Prelude.{◌≡◌, ◌≤◌};
ghost use Rattle.cal_limits.specs.declared.TheConstants.{LOWEST_TEMPERATURE, HIGHEST_TEMPERATURE};
ghost use Rattle.cal_dec.specs.Decimals.{decimal_of};
ghost use Rattle.temp_fun.specs.Values.{log_kelvin};

use cal_dec::Dec;
use cal_scan::Name;
use indexmap::IndexMap;
use tdb_expr::Ranged;

/// What an expression is read with: the functions, a temperature in hundredths of a kelvin, and its
/// logarithm.
#[derive(Drop)]
pub struct Reader<'a> {
    pub functions: &'a IndexMap<Name, Ranged>,
    pub t: u32,
    pub log: Dec,
    pub ghost least: { LOWEST_TEMPERATURE ≤ t },
    pub ghost greatest: { t ≤ HIGHEST_TEMPERATURE },
    pub ghost log_is: { decimal_of log ≡ log_kelvin t },
}
