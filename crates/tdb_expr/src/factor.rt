use cal_dec::Dec;
use cal_scan::Name;

/// A factor of a product.
#[derive(Drop)]
pub enum Factor {
    /// A number, without a sign.
    Number(Dec),
    /// The temperature in K.
    T,
    /// A power of the temperature in K.
    Power(i8),
    /// The natural logarithm of the temperature in K.
    LnT,
    /// The value of the function of this name, or the gas constant.
    Name(Name),
}
