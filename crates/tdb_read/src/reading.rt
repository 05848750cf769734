//! Reading a database, or its first fault.

ghost use Rattle.std.specs.Prelude.{◌≤◌, ◌^◌, length};
ghost use Rattle.cal_limits.specs.declared.TheConstants.{MOST_DATABASE_BYTES};
ghost use Rattle.tdb_read.specs.Entering.{Answers};
ghost use Rattle.tdb_read.specs.Commands.{Obeys, Makes};
ghost use Rattle.tdb_read.specs.Folding.{ReadsCommands, Reads};

use crate::constituent::enter_constituent;
use crate::db::Db;
use crate::element::enter_element;
use crate::fault::DbFault;
use crate::function::enter_function;
use crate::parameter::enter_parameter;
use crate::phase::enter_phase;
use crate::type_definition::enter_type_definition;
use cal_scan::{split_token, with_byte};
use cal_words::{CommandWord, Rule, command_word};
use std::alloc::Global;
use tdb_lex::{Command, CommandList, commands};

/// What the text behind a command word makes of a database.
fn by_word(alloc: Global, db: Db, line: u32, word: CommandWord, text: &[u8]) -> Result<Db, DbFault>
    ensures { Answers line (Obeys db line text.now word) result }
{
    match word {
        CommandWord::Element => enter_element(alloc, db, line, text),
        CommandWord::Function => enter_function(alloc, db, line, text),
        CommandWord::Phase => enter_phase(alloc, db, line, text),
        CommandWord::Constituent => enter_constituent(alloc, db, line, text),
        CommandWord::Parameter => enter_parameter(alloc, db, line, text),
        CommandWord::TypeDefinition => enter_type_definition(alloc, db, line, text),
        CommandWord::DefineSystemDefault
        | CommandWord::DefaultCommand
        | CommandWord::TemperatureLimits
        | CommandWord::DatabaseInformation
        | CommandWord::AssessedSystems
        | CommandWord::VersionDate
        | CommandWord::ReferenceFile
        | CommandWord::ListOfReferences
        | CommandWord::AddReferences
        | CommandWord::Diffusion
        | CommandWord::ZeroVolumeSpecies
        | CommandWord::ZerovolumeSpecies => Ok(db),
        CommandWord::Species
        | CommandWord::FtpFile
        | CommandWord::AddConstituent
        | CommandWord::CompoundPhase
        | CommandWord::AllotropicPhase
        | CommandWord::Case
        | CommandWord::Table => Err(DbFault::Bad {
            line,
            rule: Rule::LeftOut,
        }),
    }
}

/// What a command makes of a database.
fn obey(alloc: Global, db: Db, command: &Command) -> Result<Db, DbFault>
    ensures { Answers command.now.line (Makes db command.now) result }
{
    let (token, rest) = split_token(command.text.as_slice());
    let word = with_byte(alloc, token, b'-', b'_')?;
    match command_word(word.as_slice()) {
        None => Err(DbFault::Bad {
            line: command.line,
            rule: Rule::Word,
        }),
        Some(word) => by_word(alloc, db, command.line, word, rest),
    }
}

/// The database of commands, or the first fault.
fn fold(alloc: Global, list: &[Command], unfinished: Option<u32>) -> Result<Db, DbFault>
    ensures { ReadsCommands list.now unfinished result }
{
    let mut db = Db::new(alloc);
    'commands: for i in 0..list.len() {
        match obey(alloc, db, &list[i]) {
            Err(fault) => return Err(fault),
            Ok(next) => db = next,
        }
    }
    match unfinished {
        Some(line) => Err(DbFault::Bad {
            line,
            rule: Rule::Unfinished,
        }),
        None => Ok(db),
    }
}

/// The database of a text, or its first fault: the line of the first command that breaks a rule, or else of unfinished text, and the
/// rule. The rules are those of this project's profile of the TDB format.
pub fn read(alloc: Global, bytes: &[u8]) -> Result<Db, DbFault>
    requires { length bytes.now ≤ MOST_DATABASE_BYTES }
    ensures { Reads bytes.now result }
{
    let found = commands(alloc, bytes)?;
    let CommandList { list, unfinished } = found;
    fold(alloc, list.as_slice(), unfinished)
}
