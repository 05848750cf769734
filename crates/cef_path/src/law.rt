ghost use Rattle.cef_path.specs.Paths.{LedgerBalances};

/// Of each element, what was asked first is what became solid, what remains in the liquid and what was lost.
pub fn ledger_balances()
    ensures { LedgerBalances }
{}
