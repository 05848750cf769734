use cal_dec::Dec;

/// The product of the first factors, with the greatest height of the functions that they name.
#[derive(Clone, Copy)]
pub struct Partial {
    pub number: Dec,
    pub height: u8,
}

/// The sum of the first products in nano, with the greatest height of the functions that they name.
#[derive(Clone, Copy)]
pub struct Sum {
    pub value: i128,
    pub height: u8,
}

/// How far a product was read: to its end, or to the factor at a place, which names the function at
/// another place.
#[derive(Clone, Copy)]
pub enum Progress {
    Whole(Partial),
    Waits(usize, Partial, usize),
}
