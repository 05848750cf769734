//! The least and the greatest R*T*g over a range of theta, each branch by itself.

ghost use Rattle.std.specs.Prelude.{◌≡◌, ◌≤◌, ◌<◌, ◌*◌, ◌+◌, unsigned_abs};
ghost use Rattle.cal_limits.specs.declared.TheConstants.{MOST_CURIE};
ghost use Rattle.cef_mag.specs.Ranges.{least_above, greatest_above, least_u, greatest_u};

use crate::branches::Branches;

/// The least R*T*g for theta in a range, in µJ/mol.
#[tactic(auto, using(crate::proofs::Branching::least_rules))]
pub fn least_u(branches: Branches, from: u64, to: u64) -> i128
    requires order { from ≤ to }
    requires most { to ≤ MOST_CURIE }
    ensures { result ≡ least_u branches.t branches.p4 from to }
{
    let joint = 10000 * branches.t;
    if to <= joint {
        least_above(branches, from, to)
    } else if joint < from {
        branches.u_below(to, from)
    } else {
        least_above(branches, from, joint).min(branches.u_below(to, joint + 1))
    }
}

/// The greatest one.
#[tactic(auto, using(crate::proofs::Branching::greatest_rules))]
pub fn greatest_u(branches: Branches, from: u64, to: u64) -> i128
    requires order { from ≤ to }
    requires most { to ≤ MOST_CURIE }
    ensures { result ≡ greatest_u branches.t branches.p4 from to }
{
    let joint = 10000 * branches.t;
    if to <= joint {
        greatest_above(branches, from, to)
    } else if joint < from {
        branches.u_below(from, to)
    } else {
        greatest_above(branches, from, joint).max(branches.u_below(joint + 1, to))
    }
}

/// The least one above the Curie temperature: at the end of the range, or 0 where theta may be 0.
#[tactic(auto, using(crate::proofs::Branching::above_rules))]
fn least_above(branches: Branches, from: u64, to: u64) -> i128
    requires order { from ≤ to }
    requires above { to ≤ 10000 * branches.t }
    requires most { to ≤ MOST_CURIE }
    ensures { result ≡ least_above branches.t branches.p4 from to }
{
    if to == 0 {
        return 0;
    }
    let end = branches.u_above(to);
    if from == 0 { end.min(0) } else { end }
}

/// The greatest one there: at the start of the range, or 0 where theta may be 0.
#[tactic(auto, using(crate::proofs::Branching::above_rules))]
fn greatest_above(branches: Branches, from: u64, to: u64) -> i128
    requires order { from ≤ to }
    requires above { to ≤ 10000 * branches.t }
    requires most { to ≤ MOST_CURIE }
    ensures { result ≡ greatest_above branches.t branches.p4 from to }
{
    if to == 0 {
        0
    } else if from == 0 {
        branches.u_above(1).max(0)
    } else {
        branches.u_above(from)
    }
}
