//! Writing a report.

mod entry;
mod kept;
mod line;
mod report;
mod tree;

pub use entry::put_site;
pub use kept::write_entries;
pub use line::{put_count_line, put_numbers_line, put_word};
pub use report::write_report;
