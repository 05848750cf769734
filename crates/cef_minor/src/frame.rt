/// A parameter's number and divisor, and the corners of a box. Sites count on over the sublattices.
#[derive(Clone, Copy)]
pub struct Frame<'a> {
    /// The number N of parts of each sublattice.
    pub parts: u32,
    /// The parameter's number, in µJ per mol of formula units.
    pub micro: i128,
    /// The divisor of its value.
    pub den: u128,
    /// The low of each site.
    pub low: &'a [u16],
    /// The high of each site.
    pub high: &'a [u16],
}
