//! The definitions give exactly one outcome. The calls do nothing: each stands for the lemmas that its
//! clauses name.

ghost use Rattle.std.specs.Prelude.{ℕ};
ghost use Rattle.tdb_expr.specs.declared.ranged.Ranged.{Ranged};
ghost use Rattle.tdb_expr.specs.Forms.{IsRanged};
ghost use Rattle.temp_fun.specs.Functions.{Functions, AreFunctions};
ghost use Rattle.temp_fun.specs.Outcomes.{SomeOutcome, OneValue, OneRefusal, NotBoth};

/// A ranged text has a value or a first refusal.
pub fn some_outcome()
    ensures { (f : Functions) (t : ℕ) (ranged : Ranged) → AreFunctions f → IsRanged ranged → SomeOutcome f t ranged }
{}

/// A ranged text has at most one value, at most one first refusal, and not both.
pub fn one_outcome()
    ensures value { (f : Functions) (t : ℕ) (ranged : Ranged) → OneValue f t ranged }
    ensures refusal { (f : Functions) (t : ℕ) (ranged : Ranged) → OneRefusal f t ranged }
    ensures not_both { (f : Functions) (t : ℕ) (ranged : Ranged) → NotBoth f t ranged }
{}
