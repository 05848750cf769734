//! The entries of the assemblage.

ghost use Rattle.std.specs.Prelude.{◌≡◌, ◌+◌, ◌<◌, IfOk, length, [], Some};
ghost use Rattle.cal_scan.specs.Lines.{texts};
ghost use Rattle.std.specs.List.{concat};
ghost use Rattle.cal_lines.specs.Places.{ReadsAt};
ghost use Rattle.cal_lines.specs.Reading.{of_line};
ghost use Rattle.eq_text.specs.Kinds as kinds;
ghost use Rattle.eq_text.specs.Parsing.{entry_lines_at, entries_at};

use crate::read::numbers::natural_after;
use cal_limits::{MOST_ASKED, MOST_COUNT, MOST_ENTRIES, MOST_SITES, MOST_SUBLATTICES};
use cal_lines::{Place, TextFault, integer_of, natural_of, read_line};
use cal_list::Items;
use cal_scan::is_word;
use cef_core::{Name, Site};
use cef_report::Entry;
use std::alloc::{AllocError, Global};

/// Sublattices with so many counts, if these are not too many.
fn if_small(site: Site, counts: usize) -> Option<Site>
    requires { counts ≡ length (concat site) }
    ensures { result ≡ kinds.only_if kinds.is_small (Some site) }
{
    if site.sublattices() <= MOST_SUBLATTICES && counts <= MOST_SITES {
        Some(site)
    } else {
        None
    }
}

/// The counts of sublattices with the word `:` between them, within their limits.
fn sublattices(alloc: Global, words: &[&[u8]]) -> Result<Option<Site>, AllocError>
    requires { length words.now < MOST_SITES + MOST_SUBLATTICES }
    ensures { IfOk result (λ o. o ≡ kinds.only_if kinds.is_small (kinds.parts [] [] (texts words.now))) }
{
    let mut site = Site::new(alloc);
    let mut part: Items<u16> = Items::new(alloc);
    let mut counts: usize = 0;
    'words: for word in words {
        if is_word(*word, b":") {
            if part.len() == 0 {
                return Ok(None);
            }
            site = site.with_sublattice(part.as_slice())?;
            part = Items::new(alloc);
        } else {
            let Some(count) = natural_of(*word, u128::from(MOST_COUNT)) else {
                return Ok(None);
            };
            part.push(count as u16)?;
            counts += 1;
        }
    }
    if part.len() == 0 {
        return Ok(None);
    }
    let site = site.with_sublattice(part.as_slice())?;
    Ok(if_small(site, counts))
}

#[tactic(auto, unfolding(crate::specs::Kinds::site_of))]
fn site_of(alloc: Global, words: &[&[u8]]) -> Result<Option<Site>, AllocError>
    ensures { IfOk result (λ o. o ≡ kinds.site_of (texts words.now)) }
{
    if words.len() >= MOST_SITES + MOST_SUBLATTICES {
        return Ok(None);
    }
    let found = sublattices(alloc, words)?;
    Ok(found)
}

fn is_amount(value: i128) -> bool
    ensures { result ≡ kinds.is_positive value }
{
    value > 0
}

#[tactic(auto, unfolding(crate::specs::Kinds::amount_of))]
fn amount_of(word: &[u8]) -> Option<i128>
    ensures { result ≡ kinds.amount_of word.now }
{
    let value = integer_of(word, u128::from(MOST_ASKED))?;
    if is_amount(value) { Some(value) } else { None }
}

#[tactic(auto, unfolding(crate::specs::Kinds::place_of))]
fn place_of(word: &[u8], phases: &[Name]) -> Option<usize>
    ensures { result ≡ kinds.place_of word.now phases.now }
{
    phases.iter().position(|phase| is_word(phase.bytes(), word))
}

#[tactic(auto, unfolding(crate::specs::Kinds::entry_of))]
fn entry_of(alloc: Global, phases: &[Name], words: &[&[u8]]) -> Result<Option<Entry>, AllocError>
    ensures { IfOk result (λ o. o ≡ kinds.entry_of phases.now (texts words.now)) }
{
    match words {
        [word, name, number, counts @ ..] => {
            if !is_word(*word, b"entry") {
                return Ok(None);
            }
            let Some(phase) = place_of(*name, phases) else {
                return Ok(None);
            };
            let Some(amount) = amount_of(*number) else {
                return Ok(None);
            };
            let Some(site) = site_of(alloc, counts)? else {
                return Ok(None);
            };
            Ok(Some(Entry {
                phase,
                amount,
                site,
            }))
        }
        _ => Ok(None),
    }
}

fn entry_line<'a>(
    alloc: Global,
    phases: &[Name],
    at: Place<'a>,
) -> Result<(Entry, Place<'a>), TextFault>
    ensures { ReadsAt result (of_line (kinds.entry_of phases.now)) at.entry }
{
    read_line(alloc, at, |words| entry_of(alloc, phases, words))
}

#[tactic(auto, unfolding(crate::specs::Kinds::count_of))]
fn count_of(words: &[&[u8]]) -> Option<u32>
    ensures { result ≡ kinds.count_of (texts words.now) }
{
    let count = natural_after(words, b"entries", MOST_ENTRIES as u128)?;
    Some(count as u32)
}

fn count_line<'a>(alloc: Global, at: Place<'a>) -> Result<(u32, Place<'a>), TextFault>
    ensures { ReadsAt result (of_line kinds.count_of) at.entry }
{
    read_line(alloc, at, |words| Ok(count_of(words)))
}

fn entry_lines<'a>(
    alloc: Global,
    phases: &[Name],
    count: u32,
    at: Place<'a>,
) -> Result<(Items<Entry>, Place<'a>), TextFault>
    ensures { ReadsAt result (entry_lines_at phases.now count) at.entry }
{
    let mut all = Items::new(alloc);
    let mut here = at;
    'entries: for _ in 0..count {
        let (entry, after) = entry_line(alloc, phases, here)?;
        all.push(entry)?;
        here = after;
    }
    Ok((all, here))
}

/// The number of entries, and a line for each.
#[tactic(auto, unfolding(crate::specs::Parsing::entries_at, cal_lines::specs::Reading::both))]
pub(crate) fn entries<'a>(
    alloc: Global,
    phases: &[Name],
    at: Place<'a>,
) -> Result<(Items<Entry>, Place<'a>), TextFault>
    ensures { ReadsAt result (entries_at phases.now) at.entry }
{
    let (count, after) = count_line(alloc, at)?;
    let (entries, after) = entry_lines(alloc, phases, count, after)?;
    Ok((entries, after))
}
