ghost use Rattle.std.specs.Prelude.{◌≡◌, ℕ, ◌+◌, ◌^◌, ◌<◌, ◌≤◌, ◌+ℤ◌, length, pos, slice_index_or, unsigned_abs};
ghost use Rattle.cef_minor.specs.Slopes.{share};

/// Adds the slope of a place to that of its site.
#[tactic(auto, using(crate::proofs::Steps::raise_rules))]
pub fn raise(site: u16, slope: i128, slopes: &mut [i128])
    requires site { site < length slopes.old }
    requires room { unsigned_abs (slice_index_or slopes.old site (pos 0)) ≤ 2 ^ 125 }
    requires slope { unsigned_abs slope ≤ 2 ^ 72 }
    ensures { (i : ℕ) → slice_index_or slopes.new i (pos 0) ≡ slice_index_or slopes.old i (pos 0) +ℤ share site slope i }
{
    slopes[usize::from(site)] += slope;
}
