//! What is known of the grammar, for proofs of other crates. The call does nothing: it stands for the lemma that its clause names.

ghost use Rattle.std.specs.Prelude.{◌≡◌, ℕ, List};
ghost use Rattle.tdb_expr.specs.declared.expression.Expr.{Expr};
ghost use Rattle.tdb_expr.specs.Grammar.{IsReading};

/// A text is one expression of the grammar, or none.
pub fn one_reading()
    ensures { (text : List ℕ) (a b : Expr) → IsReading text a → IsReading text b → a ≡ b }
{}
