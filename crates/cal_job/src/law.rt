//! The law of plain words. The call does nothing: it stands for the lemma that its clause names.

ghost use Rattle.cal_job.specs.PlainWords.{PlainWordsSay};

/// On plain words, which are a command word and then, in any order, each required option once and
/// each other option of the command at most once, each as two words with a value that is not empty
/// and does not begin with `-`, an order is said exactly where it is one of the command, and each of
/// its fields is the value behind its option, read in its form.
pub fn plain_words_say()
    ensures { PlainWordsSay }
{}
