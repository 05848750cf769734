//! Boxes: a range of counts for each site.

ghost use Rattle.std.specs.Prelude.{◌≡◌, ◌<◌, ◌+◌, ◌^◌, ◌++◌, ◌∷◌, [], IfOk, Some, length, List, ℕ, replicate, slice_get};
ghost use Rattle.std.specs.Bool.{OnTrue, OnFalse};
ghost use Rattle.std.specs.List.{concat};
ghost use Rattle.cef_core.specs.Shapes.{shape, places};
ghost use Rattle.cef_box.specs.Boxes.{IsMember, lows_of, highs_of};
ghost use Rattle.cef_box.specs.Cuts.{range_at, placed_in};
ghost use Rattle.cef_box.specs.Flat.{ranges, rows_of, AreFlat};
ghost use Rattle.cef_box.specs.Tight.{HasSite, IsTightBox, tightened_box};

use crate::flat::{have_lists, is_member, place_in, tighten_rows};
use crate::range::Range;
use cef_core::{PhaseAt, Site, part_at};
use smallvec::SmallVec;
use std::alloc::{AllocError, Global};
use std::marker::Model;

/// For each site the counts that it may take. Contracts see a row of ranges for each sublattice.
#[derive(Drop)]
pub struct BoxRange {
    low: SmallVec<u16, 16>,
    high: SmallVec<u16, 16>,
    /// The place behind each sublattice.
    ends: SmallVec<u16, 10>,
}

impl Model for BoxRange {
    ghost use Rattle.std.specs.Prelude.{List as Seq};
    ghost use Rattle.cef_box.specs.declared.range.Range.{Range};
    ghost use Rattle.cef_box.specs.Flat.{rows_of, AreFlat};

    ghost Value = { Seq (Seq Range) };

    ghost view = { λ b. rows_of 0 b.ends.items b.low.items b.high.items };

    ghost invariant = { λ b. AreFlat 0 b.ends.items b.low.items b.high.items };
}

/// The ranges of one sublattice: the lows of its sites, and their highs.
#[derive(Clone, Copy)]
pub struct RowRange<'a> {
    pub low: &'a [u16],
    pub high: &'a [u16],
}

/// The lows and the highs of all sites, with the place behind each sublattice.
#[derive(Clone, Copy)]
pub(crate) struct FlatRanges<'a> {
    pub ends: &'a [u16],
    pub low: &'a [u16],
    pub high: &'a [u16],
}

/// Whether the counts are a member of the box: each lies in its range, and each sublattice adds to N.
#[tactic(auto, using(crate::proofs::Shapes::shapes))]
pub fn member(phase: &PhaseAt, range: &BoxRange, site: &Site) -> bool
    requires { shape site.now ≡ shape range.now }
    ensures yes { OnTrue result (IsMember phase.now.lattice range.now site.now) }
    ensures no { OnFalse result (IsMember phase.now.lattice range.now site.now → ⊥) }
{
    is_member(
        phase.lattice,
        0,
        range.ends.as_slice(),
        range.low.as_slice(),
        range.high.as_slice(),
        site.counts(),
    )
}

impl BoxRange {
    /// The box of no sublattice.
    pub fn new(alloc: Global) -> BoxRange
        ensures { result ≡ [] }
    {
        BoxRange {
            low: SmallVec::new(alloc),
            high: SmallVec::new(alloc),
            ends: SmallVec::new(alloc),
        }
    }

    /// This box with one more sublattice behind it, each site of it with this range.
    #[tactic(auto, using(crate::proofs::Grown::grown, crate::proofs::Shapes::shapes))]
    pub fn with_sublattice(self, sites: u16, range: Range) -> Result<BoxRange, AllocError>
        requires { places self + sites < 2 ^ 16 }
        ensures { IfOk result (λ box. box ≡ self ++ replicate sites range ∷ []) }
    {
        let BoxRange {
            low,
            high,
            mut ends,
        } = self;
        let low = grown(low, sites, range.low)?;
        let high = grown(high, sites, range.high)?;
        ends.push(low.len() as u16)?;
        Ok(BoxRange { low, high, ends })
    }

    /// This box with one more sublattice behind it, whose sites have these ranges.
    #[tactic(auto, using(crate::proofs::Grown::grown, crate::proofs::Shapes::shapes))]
    pub fn with_ranges(self, lows: &[u16], highs: &[u16]) -> Result<BoxRange, AllocError>
        requires each { length lows.now ≡ length highs.now }
        requires few { places self + length lows.now < 2 ^ 16 }
        ensures { IfOk result (λ box. box ≡ self ++ ranges lows.now highs.now ∷ []) }
    {
        let BoxRange {
            mut low,
            mut high,
            mut ends,
        } = self;
        low.extend_from_slice(lows)?;
        high.extend_from_slice(highs)?;
        ends.push(low.len() as u16)?;
        Ok(BoxRange { low, high, ends })
    }

    /// The same box.
    pub fn copy(&self, alloc: Global) -> Result<BoxRange, AllocError>
        ensures { IfOk result (λ box. box ≡ self.now) }
    {
        let low = SmallVec::from_slice(alloc, self.low.as_slice())?;
        let high = SmallVec::from_slice(alloc, self.high.as_slice())?;
        let ends = SmallVec::from_slice(alloc, self.ends.as_slice())?;
        Ok(BoxRange { low, high, ends })
    }

    /// How many sublattices there are.
    #[tactic(auto, using(crate::proofs::Shapes::rows))]
    pub fn sublattices(&self) -> usize
        ensures { result ≡ length self.now }
    {
        self.ends.len()
    }

    /// The ranges of a sublattice.
    #[tactic(auto, using(crate::proofs::Shapes::rows))]
    pub fn sublattice(&self, place: usize) -> RowRange<'_>
        requires { place < length self.now }
        ensures { slice_get self.now place ≡ Some (ranges result.low.now result.high.now) }
    {
        RowRange {
            low: part_at(self.low.as_slice(), self.ends.as_slice(), place),
            high: part_at(self.high.as_slice(), self.ends.as_slice(), place),
        }
    }

    /// The lows of all sites, those of each sublattice behind those of the one before.
    #[tactic(auto, using(crate::proofs::Shapes::flattened))]
    pub fn lows(&self) -> &[u16]
        ensures { result.now ≡ concat (lows_of self.now) }
    {
        self.low.as_slice()
    }

    /// The highs of all sites, in the same order.
    #[tactic(auto, using(crate::proofs::Shapes::flattened))]
    pub fn highs(&self) -> &[u16]
        ensures { result.now ≡ concat (highs_of self.now) }
    {
        self.high.as_slice()
    }

    /// How many sites there are.
    #[tactic(auto, using(crate::proofs::Shapes::shapes))]
    pub fn places(&self) -> usize
        ensures { result ≡ places self.now }
    {
        self.low.len()
    }

    /// The range of a place. Places count on over the sublattices.
    #[tactic(auto, using(crate::proofs::Places::at_place))]
    pub fn range_at(&self, place: usize) -> Range
        requires { place < places self.now }
        ensures { range_at self.now place ≡ Some result }
    {
        Range {
            low: self.low.as_slice()[place],
            high: self.high.as_slice()[place],
        }
    }

    /// The ranges as they are kept.
    pub(crate) fn flat(&self) -> FlatRanges<'_>
        ensures exact { rows_of 0 result.ends.now result.low.now result.high.now ≡ self.now }
        ensures flat { AreFlat 0 result.ends.now result.low.now result.high.now }
    {
        FlatRanges {
            ends: self.ends.as_slice(),
            low: self.low.as_slice(),
            high: self.high.as_slice(),
        }
    }

    /// Whether each sublattice has a list.
    pub(crate) fn has_lists(&self, n: u32) -> bool
        ensures yes { OnTrue result (HasSite n self.now) }
        ensures no { OnFalse result (HasSite n self.now → ⊥) }
    {
        have_lists(
            n,
            0,
            self.ends.as_slice(),
            self.low.as_slice(),
            self.high.as_slice(),
        )
    }

    /// Each range becomes the set of values that members take there.
    pub(crate) fn tighten_lists(&mut self, n: u32)
        requires { HasSite n self.old }
        ensures { self.new ≡ tightened_box n self.old }
    {
        tighten_rows(
            n,
            0,
            self.ends.as_slice(),
            self.low.as_mut_slice(),
            self.high.as_mut_slice(),
        );
    }

    /// The box becomes another one of its shape.
    #[tactic(auto, using(crate::proofs::Places::boxes))]
    pub(crate) fn copy_from(&mut self, other: &BoxRange)
        requires { shape self.old ≡ shape other.now }
        ensures { self.new ≡ other.now }
    {
        self.low
            .as_mut_slice()
            .copy_from_slice(other.low.as_slice());
        self.high
            .as_mut_slice()
            .copy_from_slice(other.high.as_slice());
    }

    /// The tight box has another range at a place, and is tightened again.
    #[tactic(auto, using(crate::proofs::Shapes::shapes))]
    pub(crate) fn narrow(&mut self, n: u32, place: usize, other: Range)
        requires within { place < places self.old }
        requires tight { IsTightBox n self.old }
        requires has_site { HasSite n self.old }
        requires placed_has { HasSite n (placed_in place other self.old) }
        ensures { self.new ≡ tightened_box n (placed_in place other self.old) }
    {
        place_in(
            n,
            place,
            other,
            0,
            self.ends.as_slice(),
            self.low.as_mut_slice(),
            self.high.as_mut_slice(),
        );
    }
}

/// The counts with so many of one value behind them.
#[tactic(auto, using(crate::proofs::Grown::growing))]
fn grown(counts: SmallVec<u16, 16>, times: u16, value: u16) -> Result<SmallVec<u16, 16>, AllocError>
    ensures { IfOk result (λ all. all.items ≡ counts.items ++ replicate times value) }
{
    let mut counts = counts;
    if times == 0 {
        return Ok(counts);
    }
    counts.push(value)?;
    grown(counts, times - 1, value)
}
