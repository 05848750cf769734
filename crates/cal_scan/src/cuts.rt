ghost use Rattle.std.specs.Prelude.{◌≡◌, ◌==◌, IfOk, map, position};
ghost use Rattle.std.specs.Option.{option_map};
ghost use Rattle.cal_scan.specs.Cuts.{cut_at as cut_of, parts_at as parts_of};

use std::alloc::{AllocError, Global};

fn place_of(text: &[u8], mark: u8) -> Option<usize>
    ensures { result ≡ position (λ b. b == mark) text.now }
{
    text.iter().position(|byte| *byte == mark)
}

/// What stands before and behind the first such byte.
#[tactic(auto, unfolding(crate::specs::Cuts::cut_at))]
pub fn cut_at(text: &[u8], mark: u8) -> Option<(&[u8], &[u8])>
    ensures { option_map (λ r. (r.0.now, r.1.now)) result ≡ cut_of mark text.now }
{
    match place_of(text, mark) {
        None => None,
        Some(place) => {
            let (front, rest) = text.split_at(place);
            let (_, behind) = rest.split_at(1);
            Some((front, behind))
        }
    }
}

/// What stands between such bytes: one part more than there are of them.
#[tactic(auto, unfolding(crate::specs::Cuts::parts_at))]
pub fn parts_at(alloc: Global, text: &[u8], mark: u8) -> Result<Vec<&[u8]>, AllocError>
    ensures { IfOk result (λ v. map (λ w. w.now) v.items ≡ parts_of mark text.now) }
{
    text.split(|byte| *byte == mark).collect(alloc)
}
