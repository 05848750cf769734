ghost use Rattle.std.specs.Bool.{OnTrue};
ghost use Rattle.std.specs.List.{AllByRecursion};
ghost use Rattle.cef_box.specs.Boxes.{IsRange};
ghost use Rattle.cef_box.specs.Flat.{ranges};

/// Whether no low is above its high, and no high above 10.
pub fn are_ranges(low: &[u16], high: &[u16]) -> bool
    ensures { OnTrue result (AllByRecursion (IsRange 10) (ranges low.now high.now)) }
{
    match low.split_first() {
        None => true,
        Some((first, lows)) => match high.split_first() {
            None => true,
            Some((last, highs)) => {
                if first > last {
                    false
                } else if *last > 10 {
                    false
                } else {
                    are_ranges(lows, highs)
                }
            }
        },
    }
}
