ghost use Rattle.std.specs.Prelude.{◌≡◌};
ghost use Rattle.cef_core.specs.Lattices.{is_lattice as is_listed};

/// The numbers N of parts that a sublattice may have.
pub const LATTICES: [u32; 11] = [10, 20, 25, 40, 50, 100, 125, 200, 250, 500, 1000];

/// Whether a sublattice may have so many parts.
pub fn is_lattice(parts: u32) -> bool
    ensures { result ≡ is_listed parts }
{
    LATTICES.iter().any(|lattice| parts == *lattice)
}
