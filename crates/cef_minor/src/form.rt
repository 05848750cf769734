/// The factor behind the product of the counts in a parameter's value. Sites count on over the sublattices.
#[derive(Clone, Copy, Debug, PartialEq, Eq)]
pub enum Form {
    /// 1.
    Plain,
    /// The difference of two counts.
    Difference {
        first: u16,
        second: u16,
    },
    /// N and three times the own count, less the three counts.
    Weighted {
        own: u16,
        first: u16,
        second: u16,
        third: u16,
    },
}
