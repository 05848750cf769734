ghost use Rattle.std.specs.Prelude.{◌≡◌};
ghost use Rattle.cal_words.specs.Commands.{command_entries};
ghost use Rattle.cal_words.specs.Found.{texts_of};

use crate::words::Words;

/// The command words of a database. Which there are, and their order, is this project's own.
pub fn command_words() -> Words<25>
    ensures { texts_of result ≡ command_entries }
{
    [
        "ELEMENT",
        "SPECIES",
        "FUNCTION",
        "PHASE",
        "CONSTITUENT",
        "PARAMETER",
        "TYPE_DEFINITION",
        "DEFINE_SYSTEM_DEFAULT",
        "DEFAULT_COMMAND",
        "TEMPERATURE_LIMITS",
        "DATABASE_INFORMATION",
        "ASSESSED_SYSTEMS",
        "VERSION_DATE",
        "REFERENCE_FILE",
        "LIST_OF_REFERENCES",
        "ADD_REFERENCES",
        "DIFFUSION",
        "ZERO_VOLUME_SPECIES",
        "ZEROVOLUME_SPECIES",
        "FTP_FILE",
        "ADD_CONSTITUENT",
        "COMPOUND_PHASE",
        "ALLOTROPIC_PHASE",
        "CASE",
        "TABLE",
    ]
}
