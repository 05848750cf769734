//! A run of the program: the words are read, then the files that they name, and what they give is written.
#![tactic(auto)]

mod answer;
mod asked;
mod documents;
mod equilibria;
mod loaded;
mod orders;
mod paths;
mod reply;
mod running;
mod texts;
mod words;

pub use running::run;
