//! How many constituents of an array interact.

ghost use Rattle.std.specs.Prelude.{◌≡◌, ◌≤◌, ◌∷◌, List, ℕ, length, map};
ghost use Rattle.cef_core.specs.Parameters.{interacting};
ghost use Rattle.cef_minor.specs.Forms.{interaction_of};

use cal_list::Items;

/// The lists of two or more constituents of an array.
#[derive(Clone, Copy, Debug, PartialEq, Eq)]
pub enum Interaction {
    /// None.
    Alone,
    /// One list of two.
    Pair,
    /// One list of three.
    Triple,
    /// Two lists of two.
    TwoPairs,
    /// Any others.
    Larger,
}

/// One list of two or more, and no others.
#[tactic(auto, using(crate::proofs::Interactions::interactions))]
fn of_list(size: usize) -> Interaction
    requires { 2 ≤ size }
    ensures { (sizes : List ℕ) → Interaction.Alone ≡ interaction_of sizes → result ≡ interaction_of (size ∷ sizes) }
{
    if size == 2 {
        Interaction::Pair
    } else if size == 3 {
        Interaction::Triple
    } else {
        Interaction::Larger
    }
}

/// One list of two or more, before one of two.
#[tactic(auto, using(crate::proofs::Interactions::interactions))]
fn with_pair(size: usize) -> Interaction
    requires { 2 ≤ size }
    ensures { (sizes : List ℕ) → Interaction.Pair ≡ interaction_of sizes → result ≡ interaction_of (size ∷ sizes) }
{
    if size == 2 {
        Interaction::TwoPairs
    } else {
        Interaction::Larger
    }
}

/// One list of two or more, before others.
#[tactic(auto, using(crate::proofs::Interactions::interactions))]
fn with_list(size: usize, later: Interaction) -> Interaction
    requires { 2 ≤ size }
    ensures { (sizes : List ℕ) → later ≡ interaction_of sizes → result ≡ interaction_of (size ∷ sizes) }
{
    match later {
        Interaction::Alone => of_list(size),
        Interaction::Pair => with_pair(size),
        Interaction::Triple => Interaction::Larger,
        Interaction::TwoPairs => Interaction::Larger,
        Interaction::Larger => Interaction::Larger,
    }
}

/// The lists of two or more constituents of an array.
#[tactic(auto, using(crate::proofs::Interactions::lists))]
pub fn interaction_in(array: &[Items<u16>]) -> Interaction
    ensures { result ≡ interaction_of (map length (interacting array.now)) }
{
    match array.split_first() {
        None => Interaction::Alone,
        Some((list, lists)) => {
            let later = interaction_in(lists);
            if list.len() < 2 {
                return later;
            }
            with_list(list.len(), later)
        }
    }
}
