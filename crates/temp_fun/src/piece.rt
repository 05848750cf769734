ghost use Rattle.std.specs.Prelude.{◌<◌, length};
ghost use Rattle.temp_fun.specs.Pieces.{Holds};

use cal_dec::below;
use tdb_expr::{Expr, Piece};

/// The expression that holds at `t` hundredths of a kelvin: that of the first piece whose high limit is
/// above, or of the last.
pub fn chosen(pieces: &[Piece], t: u32) -> &Expr
    requires { 0 < length pieces.now }
    ensures { Holds t pieces.now result.now }
{
    let last = pieces.len() - 1;
    'pieces: for i in 0..last {
        if below(t, pieces[i].high) {
            return &pieces[i].expr;
        }
    }
    &pieces[last].expr
}
