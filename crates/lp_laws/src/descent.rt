ghost use Rattle.lp_laws.specs.Descents.{ListsStayAbove, CostsFall, SomePlaceIsLeft, WeightsGiveTarget, ProofExcludesWeights};

/// The lexicographic rule keeps the list of every row above 0.
pub fn lists_stay_above()
    ensures { ListsStayAbove }
{}

/// A step lowers the list of costs, so no basis comes twice within a phase.
pub fn costs_fall()
    ensures { CostsFall }
{}

/// A column of amounts of at least 0, not all 0, has a place where it can enter.
pub fn some_place_is_left()
    ensures { SomePlaceIsLeft }
{}

/// The weights of a basis give the target.
pub fn weights_give_target()
    ensures { WeightsGiveTarget }
{}

/// A proof of none excludes weights.
pub fn proof_excludes_weights()
    ensures { ProofExcludesWeights }
{}
