ghost use Rattle.std.specs.Prelude.{◌≡◌, ◌≤◌, ◌<◌, ◌++◌, ◌∷◌, [], length, IfOk, suc};
ghost use Rattle.cal_dec.specs.Decimals.{decimal_of};
ghost use Rattle.temp_fun.specs.declared.waiting.Turn.TheVariants.{Ended, Needs};
ghost use Rattle.temp_fun.specs.declared.mark.Mark.TheVariants.{Done};
ghost use Rattle.temp_fun.specs.Values.{log_kelvin};
ghost use Rattle.temp_fun.specs.Functions.{AreFunctions, IsFunctionAt};
ghost use Rattle.temp_fun.specs.States.{IsReady, Follows, Goes};

use crate::fault::EvalFault;
use crate::mark::Mark;
use crate::partial::Sum;
use crate::reader::Reader;
use crate::state::{After, State};
use crate::sum::{begin, resume};
use crate::waiting::{Turn, Waiting};
use cal_dec::Dec;
use cal_scan::Name;
use indexmap::IndexMap;
use std::alloc::AllocError;
use tdb_expr::Ranged;

fn function_at(functions: &IndexMap<Name, Ranged>, place: usize) -> &Ranged
    requires { place < length functions.now.entries }
    ensures { IsFunctionAt functions.now.entries place result.now }
{
    functions.get_index(place).unwrap().1
}

fn with_waiting<'a>(
    mut stack: Vec<Waiting<'a>>,
    waiting: Waiting<'a>,
) -> Result<Vec<Waiting<'a>>, AllocError>
    ensures { IfOk result (λ s. s.items ≡ stack.entry.items ++ waiting.entry ∷ []) }
{
    stack.push(waiting)?;
    Ok(stack)
}

/// Begins with the function that an expression waits for.
fn follow<'a>(
    reader: &Reader<'a>,
    mut marks: Vec<Mark>,
    stack: Vec<Waiting<'a>>,
    waiting: Waiting<'a>,
) -> Result<State<'a>, EvalFault>
    requires functions { AreFunctions reader.now.functions.now.entries }
    requires ready { IsReady reader.now.functions.now.entries reader.now.t
        marks.items stack.items (Needs waiting) }
    ensures { Follows reader.now.functions.now.entries reader.now.t
        marks.items stack.entry.items (Needs waiting.entry) result }
{
    let child = waiting.child;
    marks[child] = Mark::Followed;
    let found = begin(
        reader,
        marks.as_slice(),
        function_at(reader.functions, child),
    );
    match found {
        Err(fault) => Err(fault),
        Ok(turn) => {
            let stack = with_waiting(stack, waiting)?;
            Ok(State { marks, stack, turn })
        }
    }
}

/// The mark of a function whose expression has this sum.
fn done(sum: Sum) -> Mark
    requires { sum.height ≤ 64 }
    ensures { result ≡ Done sum.value (suc sum.height) }
{
    Mark::Done(sum.value, sum.height + 1)
}

/// Goes on where a function is done, or ends.
fn finish<'a>(
    reader: &Reader<'a>,
    mut marks: Vec<Mark>,
    mut stack: Vec<Waiting<'a>>,
    sum: Sum,
) -> Result<After<'a>, EvalFault>
    requires { IsReady reader.now.functions.now.entries reader.now.t
        marks.items stack.items (Ended sum) }
    ensures { Goes reader.now.functions.now.entries reader.now.t
        marks.items stack.entry.items (Ended sum) result }
{
    match stack.pop() {
        None => Ok(After::Value(sum.value, marks)),
        Some(waiting) => {
            marks[waiting.child] = done(sum);
            match resume(reader, marks.as_slice(), waiting) {
                Err(fault) => Err(fault),
                Ok(turn) => Ok(After::More(State { marks, stack, turn })),
            }
        }
    }
}

/// The next state, or the value.
pub fn step<'a>(reader: &Reader<'a>, state: State<'a>) -> Result<After<'a>, EvalFault>
    requires functions { AreFunctions reader.now.functions.now.entries }
    requires ready { IsReady reader.now.functions.now.entries reader.now.t
        state.marks.items state.stack.items state.turn }
    ensures { Goes reader.now.functions.now.entries reader.now.t
        state.entry.marks.items state.entry.stack.items state.entry.turn result }
{
    let State { marks, stack, turn } = state;
    match turn {
        Turn::Ended(sum) => finish(reader, marks, stack, sum),
        Turn::Needs(waiting) => match follow(reader, marks, stack, waiting) {
            Err(fault) => Err(fault),
            Ok(next) => Ok(After::More(next)),
        },
    }
}
