//! The slopes of a parameter by the form of its factor, and the parts of its constant.

ghost use Rattle.std.specs.Prelude.{◌≡◌, ◌^◌, ◌<◌, ◌≤◌, length, take, unsigned_abs};
ghost use Rattle.cef_minor.specs.Kept.{IsFrame, AreProducts, parts_in, slopes_in};
ghost use Rattle.cef_minor.specs.Products.{products_of};
ghost use Rattle.cef_minor.specs.Raised.{AreRaised, AreWithin};
ghost use Rattle.cef_minor.specs.Slopes.{site_slope};

use crate::form::Form;
use crate::frame::Frame;
use crate::product_plane::{raise_product, raise_with};

/// Adds the slopes of all products, and answers the sum of their parts of the constant. The first sites are those of
/// the array.
#[tactic(auto, using(crate::proofs::Rooms::added_rules))]
pub fn raise_form(
    frame: Frame<'_>,
    form: Form,
    sites: &mut [u16],
    count: usize,
    slopes: &mut [i128],
) -> i128
    requires frame { IsFrame frame (length slopes.old) }
    requires count { count < length sites.old }
    requires products { AreProducts frame (length slopes.old) (products_of frame.parts form (take count sites.old)) }
    requires room { AreWithin (2 ^ 100) slopes.old }
    ensures slopes { AreRaised (site_slope (slopes_in frame.entry (products_of frame.entry.parts form (take count sites.old)))) slopes.old slopes.new }
    ensures parts { result ≡ parts_in frame.entry (products_of frame.entry.parts form (take count sites.old)) }
    ensures size { unsigned_abs result ≤ 2 ^ 104 }
{
    match form {
        Form::Plain => {
            let (all, _) = sites.split_at(count);
            raise_product(frame, 1, all, slopes)
        }
        Form::Difference { first, second } => {
            let up = raise_with(frame, 1, first, sites, count, slopes);
            let down = raise_with(frame, -1, second, sites, count, slopes);
            up + down
        }
        Form::Weighted {
            own,
            first,
            second,
            third,
        } => {
            let tripled = raise_with(frame, 3, own, sites, count, slopes);
            let (all, _) = sites.split_at(count);
            let scaled = raise_product(frame, i128::from(frame.parts), all, slopes);
            let one = raise_with(frame, -1, first, sites, count, slopes);
            let two = raise_with(frame, -1, second, sites, count, slopes);
            let three = raise_with(frame, -1, third, sites, count, slopes);
            tripled + (scaled + (one + (two + three)))
        }
    }
}
