//! The asked totals, in the order of a system's elements.

ghost use Rattle.std.specs.Prelude.{◌≡◌, ◌*◌, IfOk, pos};
ghost use Rattle.cal_job.specs.Requests.{IsRequest};
ghost use Rattle.cal_top.specs.Equilibria as spec;

use cal_job::Request;
use cal_scan::Name;
use std::alloc::{AllocError, Global};

/// The amount beside the name of its element, or 0.
fn amount_beside(elements: &[Name], amounts: &[u64], name: &Name) -> u64
    ensures { result ≡ spec.amount_beside elements.now amounts.now name.now }
{
    match elements.split_first() {
        None => 0,
        Some((element, elements)) => match amounts.split_first() {
            None => 0,
            Some((amount, amounts)) => {
                if name == element {
                    return *amount;
                }
                amount_beside(elements, amounts, name)
            }
        },
    }
}

/// What is asked of an element, in units of 1/N nmol.
fn total_of(request: &Request, name: &Name) -> i128
    requires { IsRequest request.now }
    ensures { result ≡ pos (spec.amount_beside request.now.job.elements request.now.amounts name.now * request.now.job.lattice) }
{
    let amount = amount_beside(
        request.job.elements.as_slice(),
        request.amounts.as_slice(),
        name,
    );
    i128::from(amount * u64::from(request.job.lattice))
}

/// What is asked of each element, in units of 1/N nmol.
pub(crate) fn totals_asked(
    alloc: Global,
    request: &Request,
    elements: &[Name],
) -> Result<Vec<i128>, AllocError>
    requires { IsRequest request.now }
    ensures { IfOk result (λ totals. totals.items ≡ spec.totals_asked request.now elements.now) }
{
    let mut totals = Vec::new(alloc);
    'elements: for name in elements {
        totals.push(total_of(request, name))?;
    }
    Ok(totals)
}
