use crate::expression::Expr;
use cal_dec::Dec;
use cal_list::Items;

/// An expression that holds below a temperature in K.
#[derive(Drop)]
pub struct Piece {
    pub high: Dec,
    pub expr: Expr,
}

/// Expressions for ranges of the temperature, one above the other, and the line of the command that gives them.
#[derive(Drop)]
pub struct Ranged {
    pub line: u32,
    pub pieces: Items<Piece>,
}
