use crate::factor::Factor;
use cal_list::Items;

/// A product of factors in written order, or what it is below 0.
#[derive(Drop)]
pub struct Product {
    pub negative: bool,
    pub factors: Items<Factor>,
}
