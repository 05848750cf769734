use cef_path::PathText;
use cef_report::Report;

/// A report, or a path of them.
#[derive(Drop)]
pub enum Document {
    One(Report),
    Path(PathText),
}
