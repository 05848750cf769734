use cal_scan::Name;
use tdb_forms::Array;

/// What a parameter is of: the name of its kind, its phase, the constituents of each sublattice as they are written, and its order.
#[derive(Drop, PartialEq, Eq, Hash)]
pub struct Key {
    pub kind_name: Name,
    pub phase: Name,
    pub array: Array,
    pub order: u8,
}
