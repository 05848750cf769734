ghost use Rattle.std.specs.Prelude.{◌≡◌, ◌≤◌, length};
ghost use Rattle.std.specs.List.{prefix_len};
ghost use Rattle.cal_scan.specs.FrontTokens.{is_solid, first_token, behind_token};

use crate::fronts::behind_spaces;

fn solid_count(text: &[u8]) -> usize
    ensures value { result ≡ prefix_len is_solid text.now }
    ensures bound { result ≤ length text.now }
{
    text.iter().take_while(|byte| **byte != b' ').count()
}

/// The first token of a text, or nothing where it is all spaces, and what stands behind it.
#[tactic(auto, unfolding(crate::specs::FrontTokens::first_token, crate::specs::FrontTokens::behind_token))]
pub fn split_token(text: &[u8]) -> (&[u8], &[u8])
    ensures token { result.0.now ≡ first_token text.now }
    ensures rest { result.1.now ≡ behind_token text.now }
{
    let text = behind_spaces(text);
    text.split_at(solid_count(text))
}
