//! Tests of the reader of databases: what the commands of a text give.
#![tactic(auto)]

#[cfg(test)]
mod entries;
