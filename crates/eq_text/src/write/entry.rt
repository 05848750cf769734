//! The line of an entry.

ghost use Rattle.std.specs.Prelude.{◌≡◌, ◌<◌, ◌++◌, OnOk, length};
ghost use Rattle.std.specs.List.{flat_map};
ghost use Rattle.std.specs.Fmt.{decimal};
ghost use Rattle.cal_scan.specs.Lines.{line};
ghost use Rattle.cef_report.specs.Texts.{entry_words, counts_words};
ghost use Rattle.eq_text.specs.Spacing.{spaced, spelled, sublattice_words};

use crate::write::line::{put_count, put_number, put_word};
use cef_core::{Name, Site};
use cef_report::Entry;
use std::alloc::{AllocError, Global};

fn put_counts(alloc: Global, out: &mut Vec<u8>, counts: &[u16]) -> Result<(), AllocError>
    ensures { OnOk result (out.new.items ≡ out.old.items ++ flat_map (λ k. spaced (decimal k)) counts.now) }
{
    'counts: for count in counts {
        put_count(alloc, out, u64::from(*count))?;
    }
    Ok(())
}

/// The counts of a sublattice, behind the word `:` but for the first.
fn put_sublattice(
    alloc: Global,
    out: &mut Vec<u8>,
    site: &Site,
    place: usize,
) -> Result<(), AllocError>
    requires { place < length site.now }
    ensures { OnOk result (out.new.items ≡ out.old.items ++ spelled (sublattice_words site.now place)) }
{
    if place > 0 {
        put_word(out, b":")?;
    }
    put_counts(alloc, out, site.sublattice(place))?;
    Ok(())
}

/// The counts of all sublattices.
pub fn put_site(alloc: Global, out: &mut Vec<u8>, site: &Site) -> Result<(), AllocError>
    ensures { OnOk result (out.new.items ≡ out.old.items ++ spelled (counts_words site.now)) }
{
    'places: for place in 0..site.sublattices() {
        put_sublattice(alloc, out, site, place)?;
    }
    Ok(())
}

pub(crate) fn put_entry(
    alloc: Global,
    out: &mut Vec<u8>,
    phases: &[Name],
    entry: &Entry,
) -> Result<(), AllocError>
    requires { entry.now.phase < length phases.now }
    ensures { OnOk result (out.new.items ≡ out.old.items ++ line (entry_words phases.now entry.now)) }
{
    out.extend_from_slice(b"entry")?;
    put_word(out, phases[entry.phase].bytes())?;
    put_number(alloc, out, entry.amount)?;
    put_site(alloc, out, &entry.site)?;
    out.push(b'\n')?;
    Ok(())
}
