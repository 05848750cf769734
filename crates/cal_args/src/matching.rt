ghost use Rattle.std.specs.Prelude.{◌≡◌, ℕ, List, map, string_bytes, Err, IfOk, true, false};
ghost use Rattle.clap.specs.Words.{app_of, first_value, found_of, kind_of, rule_of};
ghost use Rattle.clap.specs.declared.error.kind.ErrorKind.TheVariants.{OutOfMemory};
ghost use Rattle.cal_args.specs.Plain.{HasRequired, is_table};
ghost use Rattle.cal_args.specs.Held.{app_for, held_value, is_taken, rule_for};
ghost use Rattle.cal_args.specs.Options.{choice_of, choices_in};

use crate::fault::WordsFault;
use crate::option::CommandOption;
use clap::error::ErrorKind;
use clap::{Arg, ArgAction, ArgMatches, Command, Error};
use std::alloc::{AllocError, Global};

/// The argument of an option.
fn argument<'a>(alloc: Global, option: CommandOption) -> Arg<'a>
    ensures rule { rule_of result ≡ rule_for (choice_of option) }
    ensures own { result.global ≡ false }
{
    Arg::new(alloc, option.name)
        .long(option.name)
        .action(ArgAction::Set)
        .required(option.is_required)
}

/// The `clap` command with exactly these options.
fn command<'a>(
    alloc: Global,
    name: &'a str,
    options: &[CommandOption],
) -> Result<Command<'a>, AllocError>
    ensures { IfOk result (λ command. app_of command ≡ app_for name.now (choices_in options.now)) }
{
    let mut command = Command::new(alloc, name)
        .disable_help_flag(true)
        .disable_version_flag(true);
    'options: for option in options {
        command = command.arg(argument(alloc, *option))?;
    }
    Ok(command)
}

fn fault(error: &Error) -> WordsFault
    ensures { result ≡ WordsFault.Usage → ¬ (kind_of error.now ≡ OutOfMemory) }
{
    match error.kind() {
        ErrorKind::OutOfMemory => WordsFault::Memory,
        _ => WordsFault::Usage,
    }
}

/// What `clap` matches in the words of a command with these options; the first word is the command's.
pub fn matched<'a>(
    alloc: Global,
    name: &'a str,
    options: &[CommandOption],
    words: &'a [String],
) -> Result<ArgMatches<'a>, WordsFault>
    requires table { is_table (choices_in options.now) ≡ true }
    ensures held { IfOk result (λ matches.
        first_value (found_of matches)
        ≡ held_value name.now (choices_in options.now) (map (λ word. string_bytes word) words.now)) }
    ensures given { IfOk result (λ matches.
        HasRequired (choices_in options.now) (first_value (found_of matches))) }
    ensures taken { IfOk result (λ matches.
        is_taken name.now (choices_in options.now) (map (λ word. string_bytes word) words.now) ≡ true) }
    ensures usage { result ≡ Err WordsFault.Usage →
        is_taken name.now (choices_in options.now) (map (λ word. string_bytes word) words.now) ≡ false }
{
    let command = command(alloc, name, options)?;
    match command.try_get_matches_from(words) {
        Ok(matches) => Ok(matches),
        Err(error) => Err(fault(&error)),
    }
}
