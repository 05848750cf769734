//! What a program has of its machine: the files of the disk, standard output, and the words of its command line.
#![tactic(auto)]

mod command_line;
mod disk;
mod output;

pub use command_line::words;
pub use disk::DiskLibrary;
pub use output::OutSink;
