ghost use Rattle.lp_laws.specs.Bounds.{RowNumbersAreBounded, OwnProductsAreBounded, PartsAreBounded, DenominatorsAreBounded, PotentialsAreBounded};

/// A number of a row is at most `w^(C-1)`.
pub fn row_numbers_are_bounded()
    ensures { RowNumbersAreBounded }
{}

/// The product of a row with its own column is at most `w^C`.
pub fn own_products_are_bounded()
    ensures { OwnProductsAreBounded }
{}

/// The least common denominator of the weights of a basis is at most `w^C`.
pub fn parts_are_bounded()
    ensures { PartsAreBounded }
{}

/// The least denominator of the potentials of a basis is at most `w^C`.
pub fn denominators_are_bounded()
    ensures { DenominatorsAreBounded }
{}

/// A potential of a basis is at most `3*C*s*w^(C-1)`.
pub fn potentials_are_bounded()
    ensures { PotentialsAreBounded }
{}
