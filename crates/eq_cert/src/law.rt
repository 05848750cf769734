//! What is known of the rules of a report. The calls do nothing: each stands for the lemmas that its
//! clauses name.

ghost use Rattle.std.specs.Prelude.{◌≡◌, length};
ghost use Rattle.cef_report.specs.declared.report.Report.{Report};
ghost use Rattle.eq_cert.specs.Faults.{OneIsFirst, NoneIsFirst};
ghost use Rattle.eq_cert.specs.Places.{HasLines};

/// The lines that the rules name are those of the text of a report.
pub fn rules_have_lines()
    ensures { (report : Report) → length report.phases ≡ length report.trees → HasLines report }
{}

/// At most one rule at one line is the first that is broken, and none where all are kept.
pub fn one_rule_is_first()
    ensures one { OneIsFirst }
    ensures none { NoneIsFirst }
{}
