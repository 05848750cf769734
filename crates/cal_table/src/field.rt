//! The fields of a record.

ghost use Rattle.std.specs.Prelude.{◌≡◌, IfOk};
ghost use Rattle.cef_report.specs.Spelled.{IsSpelledSite};
ghost use Rattle.cal_table.specs.Tables as tables;

use cal_dec::print_fixed;
use cef_core::Site;
use eq_text::put_site;
use std::alloc::{AllocError, Global};

/// Hundredths of a kelvin as kelvin, with two decimals.
#[tactic(auto, unfolding(crate::specs::Tables::kelvin))]
pub(crate) fn kelvin(alloc: Global, t: u32) -> Result<Vec<u8>, AllocError>
    ensures { IfOk result (λ text. text.items ≡ tables.kelvin t) }
{
    let mut out = Vec::new(alloc);
    print_fixed(u64::from(t), 2, &mut out)?;
    Ok(out)
}

/// The counts of the sublattices as in a report.
#[tactic(auto, using(crate::proofs::Fields::one_byte, crate::proofs::Fields::behind_space))]
pub(crate) fn constitution(alloc: Global, site: &Site) -> Result<Vec<u8>, AllocError>
    requires { IsSpelledSite site.now }
    ensures { IfOk result (λ text. text.items ≡ tables.constitution site.now) }
{
    let mut out = Vec::new(alloc);
    put_site(alloc, &mut out, site)?;
    let (_, counts) = out.as_slice().split_at(1);
    Vec::from_slice(alloc, counts)
}
