ghost use Rattle.std.specs.Prelude.{◌≡◌, ◌≤◌, ◌+◌, ◌/◌, IfOk, pos};
ghost use Rattle.cal_limits.specs.declared.TheConstants.{HIGHEST_TEMPERATURE};
ghost use Rattle.cal_math.specs.Logarithm.{log_of, log_between};

use crate::series::log_ratio;
use std::alloc::{AllocError, Global};
use std::marker::Model;

/// The logarithms of 1 to a greatest number, in units of 10^-15. Contracts see that greatest number.
///
/// The rounding is this project's: each summand of the series of `ln (i / (i - 1))` is rounded down.
#[derive(Drop)]
pub struct Logs {
    entries: Vec<u64>,
}

impl Model for Logs {
    ghost use Rattle.std.specs.Prelude.{ℕ, length};
    ghost use Rattle.cal_log.specs.Table.{IsTable};

    ghost Value = { ℕ };

    ghost view = { λ l. length l.entries.items };

    ghost invariant = { λ l. IsTable l.entries.items };
}

impl Logs {
    /// The table of the logarithms of 1 to `max`; it takes eight bytes a number.
    pub fn build(alloc: Global, max: u32) -> Result<Logs, AllocError>
        requires least { 1 ≤ max }
        requires greatest { max ≤ HIGHEST_TEMPERATURE }
        ensures { IfOk result (λ logs. logs ≡ max) }
    {
        let mut entries = Vec::with_capacity(alloc, max as usize)?;
        let mut sum = 0;
        entries.push(sum)?;
        for i in 2..max as u64 + 1 {
            sum += log_ratio(i);
            entries.push(sum)?;
        }
        Ok(Logs { entries })
    }

    /// The logarithm of `n`, in units of 10^-15.
    pub fn at(&self, n: u32) -> i128
        requires least { 1 ≤ n }
        requires greatest { n ≤ self.now }
        ensures { result ≡ pos (log_of n) }
    {
        self.entry(n) as i128
    }

    /// The logarithm of `1 + micro / 10^6`, in units of 10^-15, linear between the thousandths.
    pub fn between(&self, micro: u64) -> i128
        requires range { micro ≤ 500000000 }
        requires greatest { 1001 + micro / 1000 ≤ self.now }
        ensures { result ≡ pos (log_between micro) }
    {
        let thousandth = (1000 + micro / 1000) as u32;
        let low = self.entry(thousandth);
        let rise = self.entry(thousandth + 1) - low;
        (low - self.entry(1000) + rise * (micro % 1000) / 1000) as i128
    }

    fn entry(&self, n: u32) -> u64
        requires least { 1 ≤ n }
        requires greatest { n ≤ self.now }
        ensures { result ≡ log_of n }
    {
        self.entries[n as usize - 1]
    }
}
