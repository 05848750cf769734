ghost use Rattle.std.specs.Prelude.{◌≡◌, ℕ, List, Err, IfOk, None, Some, Option, map, string_bytes, true};
ghost use Rattle.std.specs.Bool.{OnTrue, OnFalse};
ghost use Rattle.std.specs.Option.{option_map};
ghost use Rattle.cal_limits.specs.declared.TheConstants.{LOWEST_TEMPERATURE, HIGHEST_TEMPERATURE};
ghost use Rattle.cal_job.specs.declared.order.Order.{Order};
ghost use Rattle.cal_job.specs.declared.request.Request.{Request};
ghost use Rattle.cal_job.specs.declared.request.PathRequest.{PathRequest};
ghost use Rattle.cal_job.specs.Forms.{number_of, listed_in};
ghost use Rattle.cal_job.specs.Requests.{IsBetween, IsDescent, IsOrder};
ghost use Rattle.cal_job.specs.Saying.{Word, Says};
ghost use Rattle.cal_job.specs.Texts.{TextsAsk, TextsAskRequest, TextsAskPath};
ghost use Rattle.cal_job.specs.Texts.{TextsAskCheck, TextsAskTable};
ghost use Rattle.cef_core.specs.Jobs.{AreListed};
ghost use Rattle.cef_core.specs.Lattices as lattices;

use crate::composition::{Composition, read_composition};
use crate::form::{BUDGET_FORM, GAP_FORM, LATTICE_FORM, STEP_FORM, STOP_FORM, TEMPERATURE_FORM};
use crate::names::{listed, name};
use crate::number::number_within;
use crate::order::Order;
use crate::request::{CheckRequest, PathRequest, Request, TableRequest};
use cal_args::{
    CheckTexts, CommandTexts, EquilibriumTexts, ScheilTexts, TableTexts, WordsFault, read_texts,
};
use cal_list::Items;
use cal_scan::Name;
use cef_core::{Job, is_lattice};
use cef_path::MOST_STEPS;
use std::alloc::{AllocError, Global};

/// The temperature that a text writes, in hundredths of a kelvin.
fn temperature(alloc: Global, text: &str) -> Result<u32, WordsFault>
    ensures value { IfOk result (λ t. number_of TEMPERATURE_FORM text.now ≡ Some t) }
    ensures range { IfOk result (IsBetween LOWEST_TEMPERATURE HIGHEST_TEMPERATURE) }
    ensures usage { result ≡ Err WordsFault.Usage → number_of TEMPERATURE_FORM text.now ≡ None }
{
    let t = number_within(alloc, text.as_bytes(), TEMPERATURE_FORM)?;
    Ok(t as u32)
}

/// The number of parts of each sublattice.
fn lattice(alloc: Global, text: &str) -> Result<u32, WordsFault>
    ensures value { IfOk result (λ lattice. number_of LATTICE_FORM text.now ≡ Some lattice) }
    ensures listed { IfOk result (λ lattice. lattices.is_lattice lattice ≡ true) }
    ensures usage { result ≡ Err WordsFault.Usage → (lattice : ℕ) → lattices.is_lattice lattice ≡ true →
        ¬ (number_of LATTICE_FORM text.now ≡ Some lattice) }
{
    let lattice = number_within(alloc, text.as_bytes(), LATTICE_FORM)? as u32;
    if !is_lattice(lattice) {
        return Err(WordsFault::Usage);
    }
    Ok(lattice)
}

/// The phases that are listed, or none where there is no text.
fn phases(alloc: Global, text: Option<&str>) -> Result<Option<Items<Name>>, WordsFault>
    ensures value { IfOk result (λ phases. option_map listed_in (option_map (λ text. text.now) text.entry) ≡ phases) }
    ensures range { IfOk result (λ phases. AreListed phases) }
    ensures usage { result ≡ Err WordsFault.Usage → (phases : Option (List Word)) → AreListed phases →
        ¬ (option_map listed_in (option_map (λ text. text.now) text.entry) ≡ phases) }
{
    match text {
        None => Ok(None),
        Some(text) => {
            let names = listed(alloc, text.as_bytes())?;
            Ok(Some(names))
        }
    }
}

/// The request of the texts of an equilibrium.
fn request(alloc: Global, texts: EquilibriumTexts) -> Result<Request, WordsFault>
    ensures asks { IfOk result (λ request. TextsAskRequest texts.entry request) }
    ensures usage { result ≡ Err WordsFault.Usage → (request : Request) → ¬ TextsAskRequest texts.entry request }
{
    let t = temperature(alloc, texts.t)?;
    let Composition { elements, amounts } = read_composition(alloc, texts.amounts.as_bytes())?;
    let lattice = lattice(alloc, texts.lattice)?;
    let gap = number_within(alloc, texts.gap.as_bytes(), GAP_FORM)?;
    let budget = number_within(alloc, texts.budget.as_bytes(), BUDGET_FORM)?;
    let phases = phases(alloc, texts.phases)?;
    let database = texts.db.to_string(alloc)?;
    Ok(Request {
        database,
        job: Job {
            t,
            lattice,
            elements,
            phases,
        },
        amounts,
        gap,
        budget,
    })
}

/// Whether the steps from a temperature go down to the floor, and are not too many.
fn is_descent(t: u32, descent: u32, floor: u32) -> bool
    ensures descent { OnTrue result (IsDescent t descent floor) }
    ensures none { OnFalse result (¬ IsDescent t descent floor) }
{
    if floor > t {
        return false;
    }
    ((t - floor) as u64) < MOST_STEPS as u64 * descent as u64
}

/// The request of the texts of a path.
fn path(alloc: Global, texts: ScheilTexts) -> Result<PathRequest, WordsFault>
    ensures asks { IfOk result (λ path. TextsAskPath texts.entry path) }
    ensures usage { result ≡ Err WordsFault.Usage → (path : PathRequest) → ¬ TextsAskPath texts.entry path }
{
    let request = request(alloc, texts.first)?;
    let descent = number_within(alloc, texts.step.as_bytes(), STEP_FORM)? as u32;
    let floor = temperature(alloc, texts.end)?;
    let stop = number_within(alloc, texts.stop.as_bytes(), STOP_FORM)? as u32;
    let liquid = name(alloc, texts.liquid.as_bytes())?;
    if !is_descent(request.job.t, descent, floor) {
        return Err(WordsFault::Usage);
    }
    Ok(PathRequest {
        request,
        descent,
        floor,
        stop,
        liquid,
    })
}

fn check(alloc: Global, texts: CheckTexts) -> Result<CheckRequest, AllocError>
    ensures { IfOk result (λ check. TextsAskCheck texts.entry check) }
{
    let database = texts.db.to_string(alloc)?;
    let report = texts.report.to_string(alloc)?;
    Ok(CheckRequest { database, report })
}

fn table(alloc: Global, texts: TableTexts) -> Result<TableRequest, AllocError>
    ensures { IfOk result (λ table. TextsAskTable texts.entry table) }
{
    let report = texts.report.to_string(alloc)?;
    Ok(TableRequest { report })
}

/// The order of the texts of a command.
fn order(alloc: Global, texts: CommandTexts) -> Result<Order, WordsFault>
    ensures asks { IfOk result (λ order. TextsAsk texts.entry order) }
    ensures usage { result ≡ Err WordsFault.Usage → (order : Order) → ¬ TextsAsk texts.entry order }
{
    match texts {
        CommandTexts::Equilibrium(texts) => {
            let request = request(alloc, texts)?;
            Ok(Order::Equilibrium(request))
        }
        CommandTexts::Scheil(texts) => {
            let path = path(alloc, texts)?;
            Ok(Order::Scheil(path))
        }
        CommandTexts::Check(texts) => {
            let check = check(alloc, texts)?;
            Ok(Order::Check(check))
        }
        CommandTexts::Table(texts) => {
            let table = table(alloc, texts)?;
            Ok(Order::Table(table))
        }
    }
}

/// The order of the words behind the program's name: a command word in full, and then the options of
/// the command as `clap` reads them, each with a value that has its form and is in its range. Other
/// words are `Usage`.
pub fn read_words(alloc: Global, words: &[String]) -> Result<Order, WordsFault>
    ensures says { IfOk result (λ order. Says (map (λ word. string_bytes word) words.now) order) }
    ensures keeps { IfOk result (λ order. IsOrder order) }
    ensures usage { result ≡ Err WordsFault.Usage → (order : Order) →
        ¬ Says (map (λ word. string_bytes word) words.now) order }
{
    let texts = read_texts(alloc, words)?;
    let order = order(alloc, texts)?;
    Ok(order)
}
