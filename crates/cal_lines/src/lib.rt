//! Texts read line by line, each line as words with one space between them, with the first line that is at fault.
#![tactic(auto)]

mod choice;
mod ends;
mod fault;
mod line;
mod name_list;
mod number;
mod number_list;
mod place;
mod words;

pub use choice::next_begins_with;
pub use fault::TextFault;
pub use line::read_line;
pub use name_list::names;
pub use number::{integer_of, natural_of};
pub use number_list::all_integers;
pub use place::Place;
pub use words::words_at;
