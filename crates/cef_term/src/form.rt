/// What stands behind the product of the counts in a parameter's value. Places count on over the sublattices.
#[derive(Clone, Copy, Debug, PartialEq, Eq)]
pub enum Form {
    /// 1.
    Plain,
    /// The difference of two counts, to the power of the order.
    Binary {
        first: u16,
        second: u16,
        order: u8,
    },
    /// N and twice the own count, less the two other counts.
    Ternary {
        parts: u32,
        own: u16,
        second: u16,
        third: u16,
    },
}
