ghost use Rattle.std.specs.Prelude.{◌≡◌, ◌≤◌, IfSome, IfNone};
ghost use Rattle.cal_words.specs.Commands.{place_of, IsCommandWord};

use crate::commands::command_words;
use crate::words::{Found, find};

/// The command words of a database, in the order of their table.
#[derive(Clone, Copy, Debug, PartialEq, Eq)]
pub enum CommandWord {
    Element,
    Species,
    Function,
    Phase,
    Constituent,
    Parameter,
    TypeDefinition,
    DefineSystemDefault,
    DefaultCommand,
    TemperatureLimits,
    DatabaseInformation,
    AssessedSystems,
    VersionDate,
    ReferenceFile,
    ListOfReferences,
    AddReferences,
    Diffusion,
    ZeroVolumeSpecies,
    ZerovolumeSpecies,
    FtpFile,
    AddConstituent,
    CompoundPhase,
    AllotropicPhase,
    Case,
    Table,
}

/// The fewest bytes of an abbreviated command word.
const LEAST: usize = 3;

/// The command word at a place of the table.
fn command_at(place: usize) -> Option<CommandWord>
    ensures word { IfSome result (λ command. place_of command ≡ place) }
    ensures none { IfNone result (25 ≤ place) }
{
    match place {
        0 => Some(CommandWord::Element),
        1 => Some(CommandWord::Species),
        2 => Some(CommandWord::Function),
        3 => Some(CommandWord::Phase),
        4 => Some(CommandWord::Constituent),
        5 => Some(CommandWord::Parameter),
        6 => Some(CommandWord::TypeDefinition),
        7 => Some(CommandWord::DefineSystemDefault),
        8 => Some(CommandWord::DefaultCommand),
        9 => Some(CommandWord::TemperatureLimits),
        10 => Some(CommandWord::DatabaseInformation),
        11 => Some(CommandWord::AssessedSystems),
        12 => Some(CommandWord::VersionDate),
        13 => Some(CommandWord::ReferenceFile),
        14 => Some(CommandWord::ListOfReferences),
        15 => Some(CommandWord::AddReferences),
        16 => Some(CommandWord::Diffusion),
        17 => Some(CommandWord::ZeroVolumeSpecies),
        18 => Some(CommandWord::ZerovolumeSpecies),
        19 => Some(CommandWord::FtpFile),
        20 => Some(CommandWord::AddConstituent),
        21 => Some(CommandWord::CompoundPhase),
        22 => Some(CommandWord::AllotropicPhase),
        23 => Some(CommandWord::Case),
        24 => Some(CommandWord::Table),
        _ => None,
    }
}

/// The command word that a word of at least three bytes stands for. It may abbreviate each part; which words there are,
/// and the rule of abbreviations, is this project's own.
pub fn command_word(word: &[u8]) -> Option<CommandWord>
    ensures found { IfSome result (λ command. IsCommandWord word.now command) }
    ensures none { IfNone result ((command : _) → ¬ IsCommandWord word.now command) }
{
    let words = command_words();
    match find(&words, word, LEAST) {
        Found::One(place) => command_at(place),
        Found::Nothing | Found::Several => None,
    }
}
