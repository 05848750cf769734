//! Tables of words, of which a text may abbreviate each part, and the names of the rules that a text may break.
#![tactic(auto)]

mod commands;
mod rules;
mod texts;
mod vocabulary;
mod words;

pub use commands::command_words;
pub use rules::{Rule, rule_text};
pub use vocabulary::{CommandWord, command_word};
pub use words::{Found, Words, find, fits};
