//! The law of walks. The calls do nothing: each stands for the lemmas that its clauses name.

ghost use Rattle.cal_scheil.specs.Steps.{LossIsSmall};
ghost use Rattle.cal_scheil.specs.Walked.{WalkBegins, WalkGoesOn, WalkSelects, WalkEnds};

use temp_fun::some_outcome;

/// The steps that a walk makes one after the other over one database, from its beginning to a finish, are those of a path that holds.
pub fn a_walk_is_a_path()
    ensures begins { WalkBegins }
    ensures goes_on { WalkGoesOn }
    ensures selects { WalkSelects }
    ensures ends { WalkEnds }
{
    some_outcome();
}

/// What a step loses of an element is not below 0, and below C*W.
pub fn each_loss_is_small()
    ensures { LossIsSmall }
{}
