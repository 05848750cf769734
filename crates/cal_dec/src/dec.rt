ghost use Rattle.std.specs.Prelude.{unsigned_abs, ◌<◌, ◌^◌};

/// The number `mantissa * 10^exponent`. The mantissa has at most 18 digits.
#[derive(Clone, Copy, Debug, PartialEq, Eq)]
pub struct Dec {
    pub mantissa: i64,
    pub exponent: i16,
    pub ghost bounded: { unsigned_abs mantissa < 10 ^ 18 },
}
