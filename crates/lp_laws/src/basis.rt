ghost use Rattle.lp_laws.specs.Laws.{ExchangeKeepsBasis, RowsAreUnique};

/// The exchange of a column makes a basis of a basis.
pub fn exchange_keeps_basis()
    ensures { ExchangeKeepsBasis }
{}

/// Columns have one list of rows without a common divisor.
pub fn rows_are_unique()
    ensures { RowsAreUnique }
{}
