//! The limits of what is read, asked and answered, each in one place. They are this project's own.
#![tactic(auto)]

/// The lowest temperature, in hundredths of a kelvin.
pub const LOWEST_TEMPERATURE: u32 = 100;
/// The highest temperature, in hundredths of a kelvin.
pub const HIGHEST_TEMPERATURE: u32 = 600_000;

/// The most elements that are asked together.
pub const MOST_ELEMENTS: usize = 8;
/// The most that may be asked of an element, in units of 1/N nmol: 1000 mol at the finest lattice and some room.
pub const MOST_ASKED: u64 = 1 << 50;
/// The most that may be asked of an element on the command line, in nmol.
pub const MOST_NANOMOLES: u64 = 1_000_000_000_000;
/// The least that may be asked of all elements together, in nmol.
pub const LEAST_NANOMOLES: u64 = 1_000_000;
/// The least gap that may be asked, in µJ per mol of components.
pub const LEAST_GAP: u64 = 1;
/// The greatest gap that may be asked, in µJ per mol of components.
pub const MOST_GAP: u64 = 1_000_000_000_000;
/// The most splits of boxes that may be asked.
pub const MOST_BUDGET: u64 = 1 << 40;

/// The most sublattices of a phase.
pub const MOST_SUBLATTICES: usize = 10;
/// The most sites of a phase.
pub const MOST_SITES: usize = 90;
/// The fewest parts of a sublattice.
pub const FEWEST_PARTS: u32 = 10;
/// The most parts of a sublattice.
pub const MOST_PARTS: u32 = 1000;
/// The greatest sum of the whole ratios of a phase.
pub const MOST_RATIOS: u32 = 100_000;
/// The most decimals of a written ratio.
pub const MOST_RATIO_DECIMALS: u32 = 5;
/// The greatest order of a binary interaction: it is written as one digit.
pub const MOST_ORDER: u8 = 9;
/// The greatest magnitude of the energy of a formula unit, in µJ/mol.
pub const MOST_ENERGY: u64 = 1 << 55;
/// The greatest sum of magnitudes of a phase's Curie temperatures, in µK.
pub const MOST_CURIE: u64 = 10_000_000_000;
/// The greatest sum of magnitudes of a phase's magnetic moments, in millionths.
pub const MOST_MOMENT: u64 = 500_000_000;
/// The greatest power of N in the divisor of a parameter's value.
pub const MOST_POWER: u128 = 1 << 70;
/// The most lists of counts of all phases of a system together.
pub const MOST_LISTS: u64 = 1 << 40;
/// The greatest power W^C, of the widest content of a system to the number of its elements.
pub const MOST_WIDTH: u128 = 1 << 62;
/// The greatest product of that power with the greatest size of a phase's energies.
pub const MOST_COST: u128 = 1 << 94;
/// The greatest potential of a sweep, in magnitude times the widest content of its phases.
pub const MOST_SWEPT: u128 = 1 << 116;
/// The greatest potential of a bound, in magnitude times the widest content of its phase; and the greatest multiplier times N.
pub const MOST_BOUNDED: u128 = 1 << 117;

/// The most bytes of a name.
pub const MOST_NAME_BYTES: usize = 40;
/// The most bytes of a database.
pub const MOST_DATABASE_BYTES: u64 = 1 << 24;
/// The most bytes of a report.
pub const MOST_REPORT_BYTES: u64 = 1 << 28;
/// The most entries of a report.
pub const MOST_ENTRIES: usize = 32;
/// The greatest count of a constitution in a report, and the greatest place and cut of a split.
pub const MOST_COUNT: u16 = 65_535;
/// The greatest magnitude of a number in a report.
pub const MOST_NUMBER: u128 = 1 << 120;
/// The greatest tolerance in a report, in units of 1/N nmol.
pub const MOST_TOLERANCE: u128 = 1 << 60;
/// The greatest gap in a report, in fJ.
pub const MOST_PRINTED_GAP: u128 = 1 << 110;

/// The gas constant, in 10^-5 J/(mol K): the value that published assessments of this format use.
pub const GAS_CONSTANT: u32 = 831_451;
