use crate::partial::{Partial, Sum};
use tdb_expr::Product;

/// A sum of products that waits for the function at the place `child`, which its factor at these places
/// names.
#[derive(Drop)]
pub struct Waiting<'a> {
    pub line: u32,
    pub products: &'a [Product],
    pub product: usize,
    pub factor: usize,
    pub sum: Sum,
    pub partial: Partial,
    pub child: usize,
}

/// What the reading of a sum comes to.
#[derive(Drop)]
pub enum Turn<'a> {
    Ended(Sum),
    Needs(Waiting<'a>),
}
