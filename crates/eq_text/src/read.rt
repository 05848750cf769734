//! Reading a report.

mod entry;
mod head;
mod numbers;
mod parts;
mod report;
mod sums;
mod tree;

pub use head::two_words_line;
pub use numbers::{integers_line, natural_after};
pub use report::{next_report, read_report};
