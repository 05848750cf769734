//! The text of a path, written and read, and of a document: a report or a path.
#![tactic(auto)]

mod document;
mod kind;
mod law;
mod lines;
mod parts;
mod reading;
mod write;

pub use document::read_document;
pub use kind::Document;
pub use law::one_document;
pub use write::{write_finish, write_head, write_step};
