use lp_core::{Column, LpFault, Plan, fits, solve};
use std::alloc::{AllocError, Global};
use std::process::Abort;
use std::test::Fail;

/// Problems of one to three components, one a line: the target, each column as `cost: amounts`, and the least cost in lowest terms, or
/// `none`. The costs come from a listing of all bases in exact fractions, and agree with those of the exact simplex method of GLPK.
const FEW: &str = "\
3 | 5: 2 = 15/2
7 | 4: 1 | 9: 2 | 13: 3 = 28/1
1 | -3: 2 | -3: 2 = -3/2
9 | 0: 4 = 0/1
1 1 | -30: 2 1 | -30: 1 2 = -20/1
1 0 | -10: 1 0 | -10: 1 0 | -20: 0 1 = -10/1
1 1 | -30: 1 1 | -60: 2 2 | 0: 1 0 | 0: 0 1 = -30/1
1 1 | -5: 1 0 = none
1 3 | 1: 2 1 | 1: 1 1 = none
5 1 | 1: 4 1 | -7: 1 2 = none
2 4 | 7: 1 2 | -4: 1 0 | 3: 0 1 = 4/1
2 4 | 7: 1 2 | -4: 1 1 | 3: 2 1 = 14/1
2 3 | 11: 7 0 | -4: 0 5 = 26/35
3 5 | 1: 2 7 | -2: 5 3 | 4: 1 1 = -6/29
6 6 | 6: 1 1 | 3: 1 0 | 3: 0 1 | 12: 2 2 = 36/1
4 4 | -8: 1 3 | -8: 3 1 | -8: 2 2 = -16/1
5 8 | 0: 3 1 | 0: 1 4 | 0: 2 2 = 0/1
1 1 1 | -6: 1 1 0 | -6: 0 1 1 | -6: 1 0 1 | -8: 1 1 1 = -9/1
1 2 3 | 5: 1 0 0 | 6: 0 1 0 | 7: 0 0 1 | 8: 1 1 1 | 9: 0 1 2 | -1: 1 0 3 = 11/1
4 5 6 | -9: 2 1 0 | 4: 0 3 1 | -7: 1 0 2 | 3: 1 1 1 | 3: 1 1 1 = -237/13
1 1 4 | 2: 1 1 1 | 3: 2 1 1 | 5: 1 2 3 = none
2 3 5 | 4: 1 0 1 | -1: 0 1 1 | 2: 1 1 2 = 3/1
2 3 6 | 4: 1 0 1 | -1: 0 1 1 | 2: 1 1 2 = none
3 0 2 | 5: 1 0 0 | -2: 1 0 1 | 1: 0 0 3 = 1/1
3 0 2 | -50: 1 1 1 | 5: 2 0 1 | -2: 1 0 3 = 33/5";

/// Problems of four to eight components.
const MANY: &str = "\
3 1 4 1 | 3: 1 0 1 0 | 1: 0 1 0 1 | 4: 1 0 2 0 | -2: 1 1 1 1 | 9: 2 0 1 0 = 5/1
2 7 1 8 | 10: 1 0 0 0 | 20: 0 1 0 0 | 30: 0 0 1 0 | 40: 0 0 0 1 | 25: 1 1 0 0 | 65: 0 0 1 2 | -5: 0 3 0 1 | 90: 1 2 1 3 = 220/1
1 1 1 1 | -3: 2 1 0 0 | -3: 0 2 1 0 | -3: 0 0 2 1 | -3: 1 0 0 2 = -4/1
0 0 0 5 | -3: 1 0 0 2 | 7: 0 0 0 3 | 8: 0 0 0 4 = 10/1
1 2 3 4 5 | 7: 1 1 0 0 0 | 6: 0 1 1 0 0 | 5: 0 0 1 1 0 | 4: 0 0 0 1 1 | 3: 1 0 0 0 1 | 2: 0 0 1 0 1 = 65/2
1 1 1 1 1 | 7: 1 1 0 0 0 | 6: 0 1 1 0 0 | 5: 0 0 1 1 0 | 4: 0 0 0 1 1 | 3: 1 0 0 0 1 | -9: 2 3 0 1 0 | 1: 0 0 0 0 1 = 5/1
1 3 2 5 4 6 | -2: 1 0 1 0 0 0 | 3: 0 1 0 1 0 0 | -4: 0 0 0 0 1 1 | 5: 1 1 0 0 0 1 | -6: 0 0 1 1 0 0 | 7: 0 0 0 1 0 2 | 8: 0 2 1 0 3 0 | 1: 0 0 0 1 0 0 = -13/1
1 1 2 2 3 3 4 | -1: 1 0 0 0 0 0 1 | -2: 0 1 0 0 0 0 1 | -3: 0 0 1 0 0 0 1 | -4: 0 0 0 1 0 0 1 | -5: 0 0 0 0 1 0 1 | -6: 0 0 0 0 0 1 1 | 0: 1 1 1 1 1 1 0 | 9: 0 0 1 1 2 2 1 | 2: 0 0 0 0 0 0 1 | 1: 0 0 0 0 1 1 0 = -17/1
2 2 2 2 2 2 2 2 | -9: 2 1 0 0 0 0 0 0 | -7: 0 2 1 0 0 0 0 0 | -5: 0 0 2 1 0 0 0 0 | -3: 0 0 0 2 1 0 0 0 | -1: 0 0 0 0 2 1 0 0 | 1: 0 0 0 0 0 2 1 0 | 3: 0 0 0 0 0 0 2 1 | 5: 1 0 0 0 0 0 0 2 | 1: 1 1 1 1 1 1 1 1 = -32/3
9 1 1 1 1 1 1 1 | -8: 1 0 0 0 0 0 0 0 | -5: 1 1 0 0 0 0 0 0 | -2: 1 0 1 0 0 0 0 0 | 1: 1 0 0 1 0 0 0 0 | 4: 1 0 0 0 1 0 0 0 | 7: 1 0 0 0 0 1 0 0 | 10: 1 0 0 0 0 0 1 0 | 13: 1 0 0 0 0 0 0 1 | -40: 0 0 0 0 0 0 0 3 = -67/3
0 1 1 1 1 1 1 1 | -8: 1 0 0 0 0 0 0 0 | -5: 1 1 0 0 0 0 0 0 | -2: 1 0 1 0 0 0 0 0 | 1: 1 0 0 1 0 0 0 0 | 4: 1 0 0 0 1 0 0 0 | 7: 1 0 0 0 0 1 0 0 | 10: 1 0 0 0 0 0 1 0 | 13: 1 0 0 0 0 0 0 1 = none";

/// A target, columns for it, and the text of the least cost.
#[derive(Drop)]
struct Problem<'a> {
    target: Vec<i128>,
    columns: Vec<Column>,
    want: &'a str,
}

fn read_numbers(alloc: Global, text: &str) -> Result<Vec<i128>, Fail> {
    let mut numbers = Vec::new(alloc);
    for word in text.split_whitespace() {
        let number = word.parse::<i128>()?;
        numbers.push(number)?;
    }
    Ok(numbers)
}

fn read_column(alloc: Global, text: &str) -> Result<Column, Fail> {
    let (cost, amounts) = text.split_once(':').ok_or("no cost")?;
    let cost = cost.trim().parse::<i128>()?;
    let amounts = read_numbers(alloc, amounts)?;
    Ok(Column { cost, amounts })
}

fn read_columns(alloc: Global, text: &str) -> Result<Vec<Column>, Fail> {
    let mut columns = Vec::new(alloc);
    for part in text.split('|') {
        let column = read_column(alloc, part)?;
        columns.push(column)?;
    }
    Ok(columns)
}

fn read_problem<'a>(alloc: Global, line: &'a str) -> Result<Problem<'a>, Fail> {
    let (problem, want) = line.split_once('=').ok_or("no least cost")?;
    let (target, columns) = problem.split_once('|').ok_or("no columns")?;
    let target = read_numbers(alloc, target)?;
    let columns = read_columns(alloc, columns)?;
    Ok(Problem {
        target,
        columns,
        want: want.trim(),
    })
}

/// What `solve` answers, where the columns fit.
fn answer(
    alloc: Global,
    columns: &[Column],
    target: &[i128],
) -> Result<Result<Plan, LpFault>, Fail> {
    if !fits(columns, target) {
        return Err("the columns do not fit".into());
    }
    Ok(solve(alloc, columns, target))
}

/// The plan, where there is one.
fn planned(alloc: Global, columns: &[Column], target: &[i128]) -> Result<Plan, Fail> {
    let plan = answer(alloc, columns, target)??;
    Ok(plan)
}

/// The proof that there is no plan.
fn refused(alloc: Global, columns: &[Column], target: &[i128]) -> Result<Vec<i128>, Fail> {
    match answer(alloc, columns, target)? {
        Err(LpFault::Infeasible(proof)) => Ok(proof),
        _ => Err("no proof".into()),
    }
}

/// The product of two rows of numbers.
fn met(row: &[i128], column: &[i128]) -> Option<i128> {
    let mut sum = 0i128;
    for (a, b) in row.iter().zip(column.iter()) {
        sum = sum.checked_add(a.checked_mul(*b)?)?;
    }
    Some(sum)
}

/// What the weights cost, over `parts`.
fn cost_of(columns: &[Column], plan: &Plan) -> Option<i128> {
    let mut sum = 0i128;
    for (k, weight) in plan.weights.iter() {
        let column = columns.get(*k)?;
        sum = sum.checked_add(column.cost.checked_mul(*weight)?)?;
    }
    Some(sum)
}

/// The plan costs `above / below`.
fn check_cost(
    rt: &impl Abort,
    alloc: Global,
    problem: &Problem,
    above: &str,
    below: &str,
) -> Result<(), Fail> {
    let plan = planned(alloc, &problem.columns, &problem.target)?;
    let cost = cost_of(&problem.columns, &plan).ok_or("a large cost")?;
    let above = above.parse::<i128>()?;
    let below = below.parse::<i128>()?;
    let left = cost.checked_mul(below).ok_or("a large cost")?;
    let right = above.checked_mul(plan.parts).ok_or("a large cost")?;
    assert_eq!(rt; left, right);
    Ok(())
}

/// The numbers are at most 0 at every column and above 0 at the target.
fn check_none(rt: &impl Abort, alloc: Global, problem: &Problem) -> Result<(), Fail> {
    let proof = refused(alloc, &problem.columns, &problem.target)?;
    assert_eq!(rt; proof.len(), problem.target.len());
    let above = met(&proof, &problem.target).ok_or("a large product")?;
    assert!(rt; above > 0);
    for column in problem.columns.iter() {
        let below = met(&proof, &column.amounts).ok_or("a large product")?;
        assert!(rt; below <= 0);
    }
    Ok(())
}

fn check(rt: &impl Abort, alloc: Global, line: &str) -> Result<(), Fail> {
    let problem = read_problem(alloc, line)?;
    match problem.want.split_once('/') {
        Some((above, below)) => check_cost(rt, alloc, &problem, above, below),
        None => check_none(rt, alloc, &problem),
    }
}

#[test]
fn plans_of_few_components_cost_least(rt: HostRuntime) -> Result<(), Fail> {
    for line in FEW.split('\n') {
        check(&rt, rt.alloc(), line)?;
    }
    Ok(())
}

#[test]
fn plans_of_many_components_cost_least(rt: HostRuntime) -> Result<(), Fail> {
    for line in MANY.split('\n') {
        check(&rt, rt.alloc(), line)?;
    }
    Ok(())
}

/// The weight of the column at k, over `parts`.
fn weight_of(plan: &Plan, k: usize) -> i128 {
    for (place, weight) in plan.weights.iter() {
        if *place == k {
            return *weight;
        }
    }
    0
}

#[test]
fn two_columns_share_a_target_between_them(rt: HostRuntime) -> Result<(), Fail> {
    let alloc = rt.alloc();
    let columns = read_columns(alloc, "-30: 2 1 | -30: 1 2")?;
    let plan = planned(alloc, &columns, &[1, 1])?;
    assert_eq!(rt; plan.weights.len(), 2);
    assert_eq!(rt; weight_of(&plan, 0), 1);
    assert_eq!(rt; weight_of(&plan, 1), 1);
    assert_eq!(rt; plan.parts, 3);
    assert_eq!(rt; plan.potentials.as_slice(), [-10, -10].as_slice());
    assert_eq!(rt; plan.denominator, 1);
    Ok(())
}

#[test]
fn equal_columns_give_what_one_of_them_would(rt: HostRuntime) -> Result<(), Fail> {
    let alloc = rt.alloc();
    let columns = read_columns(alloc, "-10: 1 0 | -10: 1 0 | -20: 0 1")?;
    let plan = planned(alloc, &columns, &[1, 0])?;
    let sum = weight_of(&plan, 0).checked_add(weight_of(&plan, 1));
    assert_eq!(rt; sum, Some(plan.parts));
    assert_eq!(rt; weight_of(&plan, 2), 0);
    let ten = plan.denominator.checked_mul(-10);
    assert_eq!(rt; plan.potentials.first().copied(), ten);
    Ok(())
}

#[test]
fn potentials_of_a_target_with_one_column_add_to_its_cost(rt: HostRuntime) -> Result<(), Fail> {
    let alloc = rt.alloc();
    let columns = read_columns(alloc, "-30: 1 1 | -60: 2 2 | 0: 1 0 | 0: 0 1")?;
    let plan = planned(alloc, &columns, &[1, 1])?;
    let thirty = plan.denominator.checked_mul(-30);
    assert_eq!(rt; met(&plan.potentials, &[1, 1]), thirty);
    Ok(())
}

#[test]
fn a_component_that_no_column_has_is_no_plan(rt: HostRuntime) -> Result<(), Fail> {
    let alloc = rt.alloc();
    let columns = read_columns(alloc, "0: 1 0")?;
    let proof = refused(alloc, &columns, &[1, 1])?;
    assert_eq!(rt; proof.len(), 2);
    assert!(rt; proof[0] <= 0);
    let sum = proof[0].checked_add(proof[1]).ok_or("a large sum")?;
    assert!(rt; sum > 0);
    let proof = refused(alloc, &[], &[7])?;
    assert_eq!(rt; proof.len(), 1);
    assert!(rt; proof[0] > 0);
    Ok(())
}

fn shown(alloc: Global, fault: &LpFault) -> Result<String, AllocError> {
    format!(in alloc; "{fault}")
}

#[test]
fn a_fault_says_what_is_missing(rt: HostRuntime) -> Result<(), Fail> {
    let alloc = rt.alloc();
    let none = shown(alloc, &LpFault::Infeasible(Vec::new(alloc)))?;
    assert_eq!(rt; none.as_str(), "no weights of at least 0 give the target");
    let memory = shown(alloc, &LpFault::Memory)?;
    assert_eq!(rt; memory.as_str(), "out of memory");
    Ok(())
}
