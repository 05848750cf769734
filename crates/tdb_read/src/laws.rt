//! What is known of the definitions, for proofs of other crates. The call does nothing: it stands for the lemmas that its clauses name.

ghost use Rattle.tdb_read.specs.Outcomes.{OneDatabase, OneFault, DatabaseOrFault};

/// A text has one database, or one first fault, and not both.
pub fn one_outcome()
    ensures database { OneDatabase }
    ensures fault { OneFault }
    ensures apart { DatabaseOrFault }
{}
