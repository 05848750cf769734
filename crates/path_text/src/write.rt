//! The text of a path, part by part.

ghost use Rattle.std.specs.Prelude.{◌≡◌, ◌++◌, ◌∷◌, [], OnOk, IfOk};
ghost use Rattle.cal_scan.specs.Lines.{line};
ghost use Rattle.cef_report.specs.Spelled.{IsSpelled};
ghost use Rattle.cef_path.specs.Texts as texts;

use cef_core::Name;
use cef_path::Finish;
use cef_report::Report;
use eq_text::{put_count_line, put_numbers_line, put_word, write_report};
use std::alloc::{AllocError, Global};

/// The key and the word.
#[tactic(auto, unfolding(cal_scan::specs::Lines::line))]
fn put_word_line(out: &mut Vec<u8>, key: &[u8], word: &[u8]) -> Result<(), AllocError>
    ensures { OnOk result (out.new.items ≡ out.old.items ++ line (key.now ∷ word.now ∷ [])) }
{
    out.extend_from_slice(key)?;
    put_word(out, word)?;
    out.push(b'\n')?;
    Ok(())
}

/// The head of a path: its liquid; the descent and the floor in hundredths of a kelvin, and the stop in millionths.
pub fn write_head(
    alloc: Global,
    liquid: &Name,
    descent: u32,
    floor: u32,
    stop: u32,
) -> Result<Vec<u8>, AllocError>
    ensures { IfOk result (λ bytes. bytes.items ≡ texts.head_text liquid.now descent floor stop) }
{
    let mut out = Vec::new(alloc);
    put_word_line(&mut out, b"path", b"1")?;
    put_word_line(&mut out, b"liquid", liquid.bytes())?;
    put_count_line(alloc, &mut out, b"descent", u64::from(descent))?;
    put_count_line(alloc, &mut out, b"floor", u64::from(floor))?;
    put_count_line(alloc, &mut out, b"stop", u64::from(stop))?;
    Ok(out)
}

/// A step of a path: its number, its report, and what it left of each element, in units of 1/N nmol.
pub fn write_step(
    alloc: Global,
    number: u32,
    report: &Report,
    left: &[i128],
) -> Result<Vec<u8>, AllocError>
    requires { IsSpelled report.now }
    ensures { IfOk result (λ bytes. bytes.items ≡ texts.step_text number report.now left.now) }
{
    let mut out = Vec::new(alloc);
    put_count_line(alloc, &mut out, b"step", u64::from(number))?;
    let text = write_report(alloc, report)?;
    out.extend_from_slice(text.as_slice())?;
    put_numbers_line(alloc, &mut out, b"left", left)?;
    Ok(out)
}

fn finish_word(finish: Finish) -> &'static [u8]
    ensures { result.now ≡ texts.finish_word finish }
{
    match finish {
        Finish::NoLiquid => b"no-liquid",
        Finish::Fraction => b"fraction",
        Finish::Temperature => b"temperature",
    }
}

/// The end of a path: why it ends, and its ledger, in units of 1/N nmol of each element.
pub fn write_finish(
    alloc: Global,
    finish: Finish,
    solids: &[i128],
    remains: &[i128],
    lost: &[i128],
) -> Result<Vec<u8>, AllocError>
    ensures { IfOk result (λ bytes. bytes.items ≡ texts.finish_text finish solids.now remains.now lost.now) }
{
    let mut out = Vec::new(alloc);
    put_word_line(&mut out, b"finish", finish_word(finish))?;
    put_numbers_line(alloc, &mut out, b"solids", solids)?;
    put_numbers_line(alloc, &mut out, b"remains", remains)?;
    put_numbers_line(alloc, &mut out, b"lost", lost)?;
    Ok(out)
}
