ghost use Rattle.std.specs.Prelude.{◌≡◌};
ghost use Rattle.eq_cert.specs.Words.{rule_word};

/// A rule of a text, of a report or of a path. Where a line breaks two, the one in front is named.
#[derive(Clone, Copy, Debug, PartialEq, Eq)]
pub enum CheckRule {
    /// The text is one of its format.
    Text,
    /// The temperature, the lattice, the elements and the phases are those of the system.
    System,
    /// Each entry is a constitution of a phase, and comes behind the one before it.
    Entry,
    /// Each total is the sum of amount times content.
    Total,
    /// The energy is the sum of amount times energy.
    Energy,
    /// No total differs from the asked one by more than the tolerance.
    Tolerance,
    /// The potentials show that the energy lies within the gap.
    Gap,
    /// No potential is too great for bounds.
    Potentials,
    /// The trees cover the boxes of their phases.
    Tree,
    /// The steps of a path follow each other.
    Path,
}

/// The name of a rule in an answer.
pub fn check_text(rule: CheckRule) -> &'static str
    ensures { result.now ≡ rule_word rule }
{
    match rule {
        CheckRule::Text => "text",
        CheckRule::System => "system",
        CheckRule::Entry => "entry",
        CheckRule::Total => "total",
        CheckRule::Energy => "energy",
        CheckRule::Tolerance => "tolerance",
        CheckRule::Gap => "gap",
        CheckRule::Potentials => "potentials",
        CheckRule::Tree => "tree",
        CheckRule::Path => "path",
    }
}
