//! The words of a command line, read by `clap`: which command they name, and the text of each
//! of its options.
#![tactic(auto)]

mod command;
mod fault;
mod matching;
mod option;
mod program;
mod reading;
mod texts;

pub use fault::WordsFault;
pub use matching::matched;
pub use option::CommandOption;
pub use reading::read_texts;
pub use texts::{CheckTexts, CommandTexts, EquilibriumTexts, ScheilTexts, TableTexts};
