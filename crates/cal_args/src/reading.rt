ghost use Rattle.std.specs.Prelude.{◌≡◌, ℕ, List, map, string_bytes, Err, IfOk, Some, true, false, is_some};
ghost use Rattle.clap.specs.Words.{first_value, found_of};
ghost use Rattle.cal_args.specs.Plain.{HasRequired, IsSpelledBy, value_of};
ghost use Rattle.cal_scan.specs.Lines.{Word};
ghost use Rattle.cal_args.specs.Program.{choices_of, word_of};
ghost use Rattle.cal_args.specs.Reading.{Gives, Holds, command_of, is_read};
ghost use Rattle.cal_args.specs.Reading.{GivesCheck, GivesEquilibrium, GivesScheil, GivesTable};
ghost use Rattle.cal_args.specs.declared.command.Command.{Command};
ghost use Rattle.cal_args.specs.declared.command.Command.TheVariants as commands;

use crate::command::Command;
use crate::fault::WordsFault;
use crate::matching::matched;
use crate::program::{command, options, word};
use crate::texts::{CheckTexts, CommandTexts, EquilibriumTexts, ScheilTexts, TableTexts};
use clap::ArgMatches;
use std::alloc::Global;

/// The value of an option that has one.
fn value<'a>(matches: &ArgMatches<'a>, option: &str) -> &'a str
    requires { is_some (first_value (found_of matches.now) option.now) ≡ true }
    ensures { first_value (found_of matches.now) option.now ≡ Some result.now }
{
    match matches.get_str(option) {
        Some(value) => value,
        None => "",
    }
}

fn equilibrium<'a>(matches: &ArgMatches<'a>) -> EquilibriumTexts<'a>
    requires { HasRequired (choices_of commands.Equilibrium) (first_value (found_of matches.now)) }
    ensures { GivesEquilibrium (first_value (found_of matches.now)) result }
{
    EquilibriumTexts {
        db: value(matches, "db"),
        t: value(matches, "t"),
        amounts: value(matches, "amounts"),
        lattice: value(matches, "lattice"),
        gap: value(matches, "gap"),
        budget: value(matches, "budget"),
        phases: matches.get_str("phases"),
    }
}

fn scheil<'a>(matches: &ArgMatches<'a>) -> ScheilTexts<'a>
    requires { HasRequired (choices_of commands.Scheil) (first_value (found_of matches.now)) }
    ensures { GivesScheil (first_value (found_of matches.now)) result }
{
    ScheilTexts {
        first: equilibrium(matches),
        step: value(matches, "step"),
        end: value(matches, "end"),
        stop: value(matches, "stop"),
        liquid: value(matches, "liquid"),
    }
}

fn check<'a>(matches: &ArgMatches<'a>) -> CheckTexts<'a>
    requires { HasRequired (choices_of commands.Check) (first_value (found_of matches.now)) }
    ensures { GivesCheck (first_value (found_of matches.now)) result }
{
    CheckTexts {
        db: value(matches, "db"),
        report: value(matches, "report"),
    }
}

fn table<'a>(matches: &ArgMatches<'a>) -> TableTexts<'a>
    requires { HasRequired (choices_of commands.Table) (first_value (found_of matches.now)) }
    ensures { GivesTable (first_value (found_of matches.now)) result }
{
    TableTexts {
        report: value(matches, "report"),
    }
}

/// The texts that the matches of a command give.
fn texts<'a>(command: Command, matches: &ArgMatches<'a>) -> CommandTexts<'a>
    requires { HasRequired (choices_of command) (first_value (found_of matches.now)) }
    ensures command { command_of result ≡ command }
    ensures gives { Gives (first_value (found_of matches.now)) result }
{
    match command {
        Command::Equilibrium => CommandTexts::Equilibrium(equilibrium(matches)),
        Command::Scheil => CommandTexts::Scheil(scheil(matches)),
        Command::Check => CommandTexts::Check(check(matches)),
        Command::Table => CommandTexts::Table(table(matches)),
    }
}

/// What the words hold, by what `clap` holds.
fn read<'a>(alloc: Global, words: &'a [String]) -> Result<CommandTexts<'a>, WordsFault>
    ensures holds { IfOk result (λ asked. Holds (map (λ word. string_bytes word) words.now) asked) }
    ensures usage { result ≡ Err WordsFault.Usage →
        is_read (map (λ word. string_bytes word) words.now) ≡ false }
{
    let Some(first) = words.first() else {
        return Err(WordsFault::Usage);
    };
    let Some(command) = command(first.as_str()) else {
        return Err(WordsFault::Usage);
    };
    let options = options(command);
    let matches = matched(alloc, word(command), options, words)?;
    Ok(texts(command, &matches))
}

/// The command and the texts of the words behind the program's name: a command word in full, and
/// then its options as `clap` reads them, each a long one with a value. Other words are `Usage`.
pub fn read_texts<'a>(alloc: Global, words: &'a [String]) -> Result<CommandTexts<'a>, WordsFault>
    ensures holds { IfOk result (λ asked. Holds (map (λ word. string_bytes word) words.now) asked) }
    ensures usage { result ≡ Err WordsFault.Usage →
        is_read (map (λ word. string_bytes word) words.now) ≡ false }
    ensures plain { (command : Command) → (pairs : List (Word × Word))
        → IsSpelledBy (word_of command) (choices_of command)
        (map (λ word. string_bytes word) words.now) pairs
        → IfOk result (λ asked.
        (command_of asked ≡ command) × Gives (λ option. value_of option pairs) asked)
        × ¬ (result ≡ Err WordsFault.Usage) }
{
    read(alloc, words)
}
