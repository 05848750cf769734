use cal_dec::Dec;

/// What a factor is: a number with the height of the function that it names, or the place of a function
/// that was not visited.
#[derive(Clone, Copy)]
pub enum Found {
    Number(Dec, u8),
    Waits(usize),
}
