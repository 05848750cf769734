//! Command lines.

use cal_job::{Order, PathRequest, Request, WordsFault, read_words};
use cal_scan::Name;
use std::alloc::{AllocError, Global};

/// The words behind the first one.
fn words(alloc: Global, row: &str) -> Result<Vec<String>, AllocError> {
    let mut words = Vec::new(alloc);
    for word in row.split(' ').skip(1) {
        words.push(String::from_str(alloc, word)?)?;
    }
    Ok(words)
}

/// An element with its amount.
fn item(alloc: Global, element: &Name, amount: u64) -> Result<String, AllocError> {
    let name = String::from_utf8_lossy(alloc, element.bytes())?;
    format!(in alloc; "{name}={amount}")
}

/// The elements with their amounts.
fn amounts(alloc: Global, request: &Request) -> Result<String, AllocError> {
    let mut text = String::new(alloc);
    let elements = request.job.elements.as_slice();
    for (element, amount) in elements.iter().zip(request.amounts.as_slice()) {
        if !text.is_empty() {
            text.push_str(",")?;
        }
        let item = item(alloc, element, *amount)?;
        text.push_str(item.as_str())?;
    }
    Ok(text)
}

/// The listed phases.
fn phases(alloc: Global, names: &[Name]) -> Result<String, AllocError> {
    let mut text = String::new(alloc);
    let mut comma = " phases ";
    for name in names {
        let name = String::from_utf8_lossy(alloc, name.bytes())?;
        text = format!(in alloc; "{text}{comma}{name}")?;
        comma = ",";
    }
    Ok(text)
}

fn request_text(alloc: Global, request: &Request) -> Result<String, AllocError> {
    let amounts = amounts(alloc, request)?;
    let phases = match &request.job.phases {
        None => String::new(alloc),
        Some(names) => phases(alloc, names.as_slice())?,
    };
    format!(in alloc;
        "{}: {} {amounts} {} {} {}{phases}",
        request.database, request.job.t, request.job.lattice, request.gap, request.budget
    )
}

fn path_text(alloc: Global, path: &PathRequest) -> Result<String, AllocError> {
    let first = request_text(alloc, &path.request)?;
    let liquid = String::from_utf8_lossy(alloc, path.liquid.bytes())?;
    format!(in alloc;
        "{first} path {} {} {} {liquid}",
        path.descent, path.floor, path.stop
    )
}

fn order_text(alloc: Global, order: &Order) -> Result<String, AllocError> {
    match order {
        Order::Equilibrium(request) => request_text(alloc, request),
        Order::Scheil(path) => path_text(alloc, path),
        Order::Check(check) => format!(in alloc; "check {} {}", check.database, check.report),
        Order::Table(table) => format!(in alloc; "table {}", table.report),
    }
}

/// What the words of a row ask for.
pub fn order(alloc: Global, row: &str) -> Result<String, AllocError> {
    let words = words(alloc, row)?;
    match read_words(alloc, words.as_slice()) {
        Ok(order) => order_text(alloc, &order),
        Err(WordsFault::Usage) => format!(in alloc; "no command"),
        Err(WordsFault::Memory) => Err(AllocError),
    }
}
