use cal_list::Items;
use cal_scan::Name;
use cef_core::Job;

/// What the words of an equilibrium ask for.
#[derive(Drop)]
pub struct Request {
    /// The name of the database's file, as the word gives it.
    pub database: String,
    /// The letters of its names are upper case.
    pub job: Job,
    /// In nmol, of each element in the order in which they are asked.
    pub amounts: Items<u64>,
    /// In µJ per mol of components.
    pub gap: u64,
    /// The most splits of a sweep.
    pub budget: u64,
}

/// What the words of a path ask for.
#[derive(Drop)]
pub struct PathRequest {
    /// What is asked of its first step.
    pub request: Request,
    /// By how much each step lowers the temperature, in hundredths of a kelvin.
    pub descent: u32,
    /// The lowest temperature, in hundredths of a kelvin.
    pub floor: u32,
    /// The fraction of liquid at which the path ends, in millionths.
    pub stop: u32,
    /// The name of the liquid phase; its letters are upper case.
    pub liquid: Name,
}

/// What the words of a check ask for.
#[derive(Drop)]
pub struct CheckRequest {
    /// The name of the database's file, as the word gives it.
    pub database: String,
    /// The name of the document's file, as the word gives it.
    pub report: String,
}

/// What the words of a table ask for.
#[derive(Drop)]
pub struct TableRequest {
    /// The name of the document's file, as the word gives it.
    pub report: String,
}
