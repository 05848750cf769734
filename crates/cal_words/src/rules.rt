ghost use Rattle.std.specs.Prelude.{◌≡◌};
ghost use Rattle.cal_words.specs.Rules.{name_of};

use crate::texts::text_of;

/// The rules that the text of a database keeps.
#[derive(Clone, Copy, Debug, PartialEq, Eq)]
pub enum Rule {
    /// The command word is one of the table.
    Word,
    /// The command is one that is read.
    LeftOut,
    /// The form of ELEMENT.
    Element,
    /// The form of FUNCTION.
    Function,
    /// The form of PHASE.
    Phase,
    /// The form of CONSTITUENT.
    Constituent,
    /// The form of PARAMETER.
    Parameter,
    /// The form of TYPE_DEFINITION.
    TypeDef,
    /// No text stands behind the last command.
    Unfinished,
}

/// The name of a rule in the line of a refusal.
pub fn rule_text(rule: Rule) -> &'static str
    ensures { result.now ≡ name_of rule }
{
    text_of!(
        rule,
        Rule {
            Word: "word",
            LeftOut: "left-out",
            Element: "element",
            Function: "function",
            Phase: "phase",
            Constituent: "constituent",
            Parameter: "parameter",
            TypeDef: "type",
            Unfinished: "unfinished",
        }
    )
}
