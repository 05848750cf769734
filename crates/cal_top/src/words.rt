//! What the words of a run come to.

ghost use Rattle.std.specs.Prelude.{◌≡◌, IfOk, map, string_bytes};
ghost use Rattle.cal_top.specs.Seen.{seen};
ghost use Rattle.cal_top.specs.Answers.{IsAnswer};

use crate::answer::Answer;
use crate::orders::{check, follow, solve, tabulate};
use crate::reply::Reply;
use cal_base::{Library, Status};
use cal_job::{Order, WordsFault, read_words};
use cal_refusal::USAGE;
use std::alloc::{AllocError, Global};

/// The reply to the words, or the path that they ask for.
pub(crate) fn answer<L: Library>(
    alloc: Global,
    words: &[String],
    files: &mut L,
) -> Result<Answer, AllocError>
    ensures told { L.told files.new ≡ L.told files.old }
    ensures answer { IfOk result (λ answer.
        IsAnswer
        (seen (L.told files.old) (L.faults files.old) (L.faults files.new) (L.given files.old) (L.given files.new))
        (map (λ word. string_bytes word) words.now) answer) }
{
    let said = read_words(alloc, words);
    match said {
        Err(WordsFault::Usage) => {
            let reply = Reply::refusal(alloc, Status::Usage, USAGE)?;
            Ok(Answer::Reply(reply))
        }
        Err(WordsFault::Memory) => Err(AllocError),
        Ok(Order::Equilibrium(asked)) => {
            let reply = solve(alloc, files, &asked)?;
            Ok(Answer::Reply(reply))
        }
        Ok(Order::Scheil(asked)) => {
            let answer = follow(alloc, files, asked)?;
            Ok(answer)
        }
        Ok(Order::Check(asked)) => {
            let reply = check(alloc, files, &asked)?;
            Ok(Answer::Reply(reply))
        }
        Ok(Order::Table(asked)) => {
            let reply = tabulate(alloc, files, &asked)?;
            Ok(Answer::Reply(reply))
        }
    }
}
