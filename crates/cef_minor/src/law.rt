//! What is known of minorants, for proofs of other crates. The calls do nothing: each stands for the lemma that its clause
//! names.

ghost use Rattle.cef_minor.specs.Laws.{MinorantIsBelow, MinorantIsExact, SlopesAreSmall, ConstantIsSmall};

/// No member of the box has a value below.
#[tactic(auto, using(crate::proofs::Laws::minorant_is_below))]
pub fn minorants_are_below()
    ensures { MinorantIsBelow }
{}

/// Where the lows are the highs, the minorant is 2^16 times the value.
#[tactic(auto, using(crate::proofs::Laws::minorant_is_exact))]
pub fn minorants_are_exact()
    ensures { MinorantIsExact }
{}

/// No slope is greater in magnitude than 2^20 times the parameter's number.
#[tactic(auto, using(crate::proofs::Laws::slopes_are_small))]
pub fn slopes_are_bounded()
    ensures { SlopesAreSmall }
{}

/// No constant is greater in magnitude than 2^40 times the parameter's number, and 2^16.
#[tactic(auto, using(crate::proofs::Laws::constant_is_small))]
pub fn constants_are_bounded()
    ensures { ConstantIsSmall }
{}
