use crate::request::{CheckRequest, PathRequest, Request, TableRequest};

/// What the words ask the program to do.
#[derive(Drop)]
pub enum Order {
    /// To print an equilibrium.
    Equilibrium(Request),
    /// To print a solidification path after Scheil.
    Scheil(PathRequest),
    /// To check a document.
    Check(CheckRequest),
    /// To print the table of a document.
    Table(TableRequest),
}
