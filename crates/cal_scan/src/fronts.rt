ghost use Rattle.std.specs.Prelude.{◌≡◌, ◌≤◌, length};
ghost use Rattle.std.specs.List.{prefix_len};
ghost use Rattle.cal_scan.specs.Bytes.{is_name_byte};
ghost use Rattle.cal_scan.specs.Fronts.{is_space, behind_spaces as text_behind_spaces, name_bytes_at as name_bytes_of};

use crate::byte::may_stand_in_name;

fn space_count(text: &[u8]) -> usize
    ensures value { result ≡ prefix_len is_space text.now }
    ensures bound { result ≤ length text.now }
{
    text.iter().take_while(|byte| **byte == b' ').count()
}

/// What is behind all spaces at the front of a text.
#[tactic(auto, unfolding(crate::specs::Fronts::behind_spaces))]
pub fn behind_spaces(text: &[u8]) -> &[u8]
    ensures { result.now ≡ text_behind_spaces text.now }
{
    let (_, rest) = text.split_at(space_count(text));
    rest
}

fn name_byte_count(text: &[u8]) -> usize
    ensures value { result ≡ prefix_len is_name_byte text.now }
    ensures bound { result ≤ length text.now }
{
    text.iter()
        .take_while(|byte| may_stand_in_name(**byte))
        .count()
}

/// All letters, digits and `_` at the front of a text, and what is behind them.
#[tactic(auto, unfolding(crate::specs::Fronts::name_bytes_at))]
pub fn name_bytes_at<'a>(text: &'a [u8]) -> (&'a [u8], &'a [u8])
    ensures front { result.0.now ≡ (name_bytes_of text.now).0 }
    ensures rest { result.1.now ≡ (name_bytes_of text.now).1 }
{
    text.split_at(name_byte_count(text))
}
