use crate::product::Product;
use cal_list::Items;

/// A sum of products in written order, or a text that is none.
#[derive(Drop)]
pub enum Expr {
    Sum(Items<Product>),
    Unsupported,
}
