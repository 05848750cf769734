ghost use Rattle.lp_laws.specs.Idle.{OneRowIsLeft, WeightsStayAbove, IdlePlacesStay, DearWeightsHaveAPrice};

/// A row that kills all columns of a basis but one kills no more than the row of that column's place.
pub fn one_row_is_left()
    ensures { OneRowIsLeft }
{}

/// No weight falls below 0 where the column that goes has the weight 0.
pub fn weights_stay_above()
    ensures { WeightsStayAbove }
{}

/// A place without a weight gets none where the column that goes has the weight 0.
pub fn idle_places_stay()
    ensures { IdlePlacesStay }
{}

/// Where a column of a cost above 0 has a weight, the potentials ask more than 0 for the target.
pub fn dear_weights_have_a_price()
    ensures { DearWeightsHaveAPrice }
{}
