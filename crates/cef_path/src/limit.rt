/// The most steps of a path.
pub const MOST_STEPS: usize = 10_000;
/// The greatest fraction of liquid at which a path may end, in millionths: all of it.
pub const MOST_STOP: u32 = 1_000_000;
