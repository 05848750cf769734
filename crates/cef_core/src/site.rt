ghost use Rattle.std.specs.Prelude.{◌≡◌, ◌<◌, ◌≤◌, ◌+◌, ◌^◌, ◌++◌, ◌∷◌, [], Some, IfOk, length, slice_get, slice_set, true};
ghost use Rattle.std.specs.List.{concat};
ghost use Rattle.cef_core.specs.Shapes.{shape};
ghost use Rattle.cef_core.specs.Sublattices.{parts_of, are_ends, start_at, IsFlat};

use smallvec::SmallVec;
use std::alloc::{AllocError, Global};
use std::marker::Model;

/// The counts of a constitution: of each sublattice, how many of its N parts each constituent takes. Contracts see a
/// list for each sublattice.
#[derive(Drop)]
pub struct Site {
    counts: SmallVec<u16, 16>,
    /// The place behind each sublattice.
    ends: SmallVec<u16, 10>,
}

impl Model for Site {
    ghost use Rattle.std.specs.Prelude.{List, ℕ, ◌≡◌, length, true};
    ghost use Rattle.cef_core.specs.Sublattices.{parts_of, are_ends};

    ghost Value = { List (List ℕ) };

    ghost view = { λ s. parts_of 0 s.ends.items s.counts.items };

    ghost invariant = { λ s. are_ends 0 s.ends.items (length s.counts.items) ≡ true };
}

/// The counts of all sites, with the place behind each sublattice.
#[derive(Clone, Copy)]
pub(crate) struct FlatCounts<'a> {
    pub ends: &'a [u16],
    pub counts: &'a [u16],
}

impl Site {
    /// The counts of no sublattice.
    pub fn new(alloc: Global) -> Site
        ensures { result ≡ [] }
    {
        Site {
            counts: SmallVec::new(alloc),
            ends: SmallVec::new(alloc),
        }
    }

    /// These counts with those of one more sublattice behind them.
    #[tactic(auto, using(crate::proofs::Parts::sublattices))]
    pub fn with_sublattice(self, counts: &[u16]) -> Result<Site, AllocError>
        requires { length (concat self) + length counts.now < 2 ^ 16 }
        ensures { IfOk result (λ site. site ≡ self ++ counts.now ∷ []) }
    {
        let Site {
            counts: mut all,
            mut ends,
        } = self;
        all.extend_from_slice(counts)?;
        ends.push(all.len() as u16)?;
        Ok(Site { counts: all, ends })
    }

    /// The same counts.
    pub fn copy(&self, alloc: Global) -> Result<Site, AllocError>
        ensures { IfOk result (λ site. site ≡ self.now) }
    {
        let counts = SmallVec::from_slice(alloc, self.counts.as_slice())?;
        let ends = SmallVec::from_slice(alloc, self.ends.as_slice())?;
        Ok(Site { counts, ends })
    }

    /// The counts of all sites, those of each sublattice behind those of the one before.
    #[tactic(auto, using(crate::proofs::Flats::flattened))]
    pub fn counts(&self) -> &[u16]
        ensures { result.now ≡ concat self.now }
    {
        self.counts.as_slice()
    }

    /// The count at a place becomes another one. Places count on over the sublattices.
    pub fn set_count(&mut self, place: usize, count: u16)
        requires { place < length (concat self.old) }
        ensures counts { concat self.new ≡ slice_set (concat self.old) place count }
        ensures shaped { shape self.new ≡ shape self.old }
    {
        write_at(self.counts.as_mut_slice(), place, count);
    }

    /// The counts as they are kept.
    #[tactic(auto, using(crate::proofs::Flats::alone))]
    pub(crate) fn flat(&self) -> FlatCounts<'_>
        ensures exact { parts_of 0 result.ends.now result.counts.now ≡ self.now }
        ensures flat { IsFlat 0 result.ends.now result.counts.now }
    {
        FlatCounts {
            ends: self.ends.as_slice(),
            counts: self.counts.as_slice(),
        }
    }

    /// How many sublattices there are.
    #[tactic(auto, using(crate::proofs::Parts::sublattices))]
    pub fn sublattices(&self) -> usize
        ensures { result ≡ length self.now }
    {
        self.ends.len()
    }

    /// The counts of a sublattice.
    #[tactic(auto, using(crate::proofs::Parts::sublattices))]
    pub fn sublattice(&self, place: usize) -> &[u16]
        requires { place < length self.now }
        ensures { slice_get self.now place ≡ Some result.now }
    {
        part_at(self.counts.as_slice(), self.ends.as_slice(), place)
    }
}

/// The list at a place of lists that are kept one behind the other, with the place behind each.
pub fn part_at<'a>(counts: &'a [u16], ends: &[u16], place: usize) -> &'a [u16]
    requires ends { are_ends 0 ends.now (length counts.now) ≡ true }
    requires place { place < length ends.now }
    ensures { slice_get (parts_of 0 ends.now counts.now) place ≡ Some result.now }
{
    let (front, _) = counts.split_at(usize::from(ends[place]));
    let (_, part) = front.split_at(start_of(ends, place));
    part
}

fn start_of(ends: &[u16], place: usize) -> usize
    requires { place < length ends.now }
    ensures { result ≡ start_at 0 ends.now place }
{
    if place == 0 {
        return 0;
    }
    usize::from(ends[place - 1])
}

/// The counts with another one at a place.
fn write_at(counts: &mut [u16], place: usize, count: u16)
    requires { place < length counts.old }
    ensures { counts.new ≡ slice_set counts.old place count }
{
    counts[place] = count;
}
