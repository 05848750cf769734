ghost use Rattle.std.specs.Prelude.{◌≡◌, ℕ, ◌*◌, ◌^◌, ◌<◌, ◌≤◌, length, slice_index};
ghost use Rattle.std.specs.List.{AllByRecursion};
ghost use Rattle.cef_minor.specs.Products.{product_at};

/// The product of the counts at the sites, each count at most N.
#[tactic(auto, using(crate::proofs::Steps::product_rules))]
pub fn product_in(parts: u32, counts: &[u16], sites: &[u16]) -> u128
    requires some { 1 ≤ parts }
    requires within { AllByRecursion (λ site. site < length counts.now) sites.now }
    requires counts { (i : ℕ) → slice_index counts.now i ≤ parts }
    requires room { parts ^ length sites.now ≤ 2 ^ 100 }
    ensures exact { result ≡ product_at (λ i. slice_index counts.now i) sites.now }
    ensures size { result ≤ parts ^ length sites.now }
{
    match sites.split_first() {
        None => 1,
        Some((site, later)) => {
            let rest = product_in(parts, counts, later);
            u128::from(counts[usize::from(*site)]) * rest
        }
    }
}
