//! What other crates read of a phase.

ghost use Rattle.std.specs.Prelude.{◌≡◌, ◌<◌, [], length, slice_index, slice_index_or};

use crate::phase::{ParamAt, PhaseAt};

impl PhaseAt {
    /// The temperature, in hundredths of a kelvin.
    pub fn temperature(&self) -> u32
        ensures { result ≡ self.now.t }
    {
        self.t
    }

    /// The number N of parts of each sublattice.
    pub fn parts(&self) -> u32
        ensures { result ≡ self.now.lattice }
    {
        self.lattice
    }

    /// How many sublattices there are.
    pub fn sublattices(&self) -> usize
        ensures { result ≡ length self.now.sites }
    {
        self.sites.len()
    }

    /// How many sites a sublattice has.
    pub fn sites_in(&self, sublattice: usize) -> usize
        requires { sublattice < length self.now.sites }
        ensures { result ≡ length (slice_index_or self.now.sites sublattice []) }
    {
        self.sites.as_slice()[sublattice].len()
    }

    /// The whole ratios of the sublattices.
    pub fn ratios(&self) -> &[u32]
        ensures { result.now ≡ self.now.ratios }
    {
        self.ratios.as_slice()
    }

    /// The parameters.
    pub fn parameters(&self) -> &[ParamAt]
        ensures { result.now ≡ self.now.parameters }
    {
        self.parameters.as_slice()
    }
}
