//! The lines of entries alone, as a refusal prints those that it keeps.

ghost use Rattle.std.specs.Prelude.{◌≡◌, ◌<◌, IfOk, length, All};
ghost use Rattle.std.specs.List.{flat_map};
ghost use Rattle.cal_scan.specs.Lines.{line};
ghost use Rattle.cef_report.specs.Texts.{entry_words};

use crate::write::entry::put_entry;
use cef_core::Name;
use cef_report::Entry;
use std::alloc::{AllocError, Global};

/// A line for each entry, as in the text of a report of these phases.
pub fn write_entries(
    alloc: Global,
    phases: &[Name],
    entries: &[Entry],
) -> Result<Vec<u8>, AllocError>
    requires { All (λ entry. entry.phase < length phases.now) entries.now }
    ensures { IfOk result (λ bytes. bytes.items ≡ flat_map (λ entry. line (entry_words phases.now entry)) entries.now) }
{
    let mut out = Vec::new(alloc);
    'entries: for entry in entries {
        put_entry(alloc, &mut out, phases, entry)?;
    }
    Ok(out)
}
