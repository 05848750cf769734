ghost use Rattle.std.specs.Prelude.{◌≡◌, IfOk};
ghost use Rattle.cal_scan.specs.Copies.{without_spaces as solid_text, with_byte as replaced_text};

use std::alloc::{AllocError, Global};

/// The text without its spaces.
#[tactic(auto, unfolding(crate::specs::Copies::without_spaces))]
pub fn without_spaces(alloc: Global, text: &[u8]) -> Result<Vec<u8>, AllocError>
    ensures { IfOk result (λ v. v.items ≡ solid_text text.now) }
{
    text.iter()
        .copied()
        .filter(|byte| *byte != b' ')
        .collect(alloc)
}

/// The text with each byte `from` as the byte `to`.
#[tactic(auto, unfolding(crate::specs::Copies::with_byte))]
pub fn with_byte(alloc: Global, text: &[u8], from: u8, to: u8) -> Result<Vec<u8>, AllocError>
    ensures { IfOk result (λ v. v.items ≡ replaced_text from to text.now) }
{
    text.iter()
        .map(|byte| if *byte == from { to } else { *byte })
        .collect(alloc)
}
