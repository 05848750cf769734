ghost use Rattle.std.specs.Prelude.{◌≡◌};
ghost use Rattle.cal_args.specs.Options.{choices_in};
ghost use Rattle.cal_args.specs.Program.{choices_of, command_at, word_of};

use crate::command::Command;
use crate::option::CommandOption;

macro_rules! required {
    ($name:literal) => {
        CommandOption { name: $name, is_required: true }
    };
}

macro_rules! optional {
    ($name:literal) => {
        CommandOption { name: $name, is_required: false }
    };
}

static EQUILIBRIUM: [CommandOption; 7] = [
    required!("db"),
    required!("t"),
    required!("amounts"),
    required!("lattice"),
    required!("gap"),
    required!("budget"),
    optional!("phases"),
];

static SCHEIL: [CommandOption; 11] = [
    required!("db"),
    required!("t"),
    required!("amounts"),
    required!("lattice"),
    required!("gap"),
    required!("budget"),
    optional!("phases"),
    required!("step"),
    required!("end"),
    required!("stop"),
    required!("liquid"),
];

static CHECK: [CommandOption; 2] = [required!("db"), required!("report")];

static TABLE: [CommandOption; 1] = [required!("report")];

/// The options of a command.
pub fn options(command: Command) -> &'static [CommandOption]
    ensures { choices_in result.now ≡ choices_of command }
{
    match command {
        Command::Equilibrium => EQUILIBRIUM.as_slice(),
        Command::Scheil => SCHEIL.as_slice(),
        Command::Check => CHECK.as_slice(),
        Command::Table => TABLE.as_slice(),
    }
}

/// The word of a command.
pub fn word(command: Command) -> &'static str
    ensures { result.now ≡ word_of command }
{
    match command {
        Command::Equilibrium => "equilibrium",
        Command::Scheil => "scheil",
        Command::Check => "check",
        Command::Table => "table",
    }
}

/// The command of a word, which is spelled in full.
pub fn command(word: &str) -> Option<Command>
    ensures { result ≡ command_at word.now }
{
    match word {
        "equilibrium" => Some(Command::Equilibrium),
        "scheil" => Some(Command::Scheil),
        "check" => Some(Command::Check),
        "table" => Some(Command::Table),
        _ => None,
    }
}
