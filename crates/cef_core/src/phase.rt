use cal_list::Items;
use cal_scan::Name;
use cef_kind::Kind;

/// A parameter of a phase at a temperature.
#[derive(Drop)]
pub struct ParamAt {
    pub kind: Kind,
    /// In µJ per mol of formula units for the kind G, in µK for Tc, in millionths for Beta.
    pub micro: i128,
    /// For each sublattice the places of the constituents in it, as written. An empty list stands for any constituent.
    pub array: Items<Items<u16>>,
    pub order: u8,
    /// Whether a ternary interaction is weighted by composition.
    pub weighted: bool,
}

/// The magnetism of a phase, by the model of Inden, Hillert and Jarl.
#[derive(Drop)]
pub struct MagneticAt {
    /// The magnitude of the antiferromagnetic factor.
    pub factor: u8,
    /// The structure factor p, in ten-thousandths.
    pub p4: u32,
}

/// A phase of the compound energy formalism at a temperature and on a lattice.
#[derive(Drop)]
pub struct PhaseAt {
    pub name: Name,
    /// In hundredths of a kelvin.
    pub t: u32,
    /// The number N of parts of each sublattice.
    pub lattice: u32,
    /// The power of ten that makes the written ratios whole. A formula unit is the written one times this.
    pub scale: u32,
    /// The whole ratio of each sublattice.
    pub ratios: Items<u32>,
    /// For each sublattice the component of each constituent, or none for a vacancy.
    pub sites: Items<Items<Option<u16>>>,
    pub parameters: Items<ParamAt>,
    pub magnetic: Option<MagneticAt>,
}
