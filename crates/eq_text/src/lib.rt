//! The text of a report, written and read.
#![tactic(auto)]

mod read;
mod write;

pub use cal_lines::TextFault;
pub use read::{integers_line, natural_after, next_report, read_report, two_words_line};
pub use write::{
    put_count_line, put_numbers_line, put_site, put_word, write_entries, write_report,
};
