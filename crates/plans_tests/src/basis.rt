ghost use Rattle.std.specs.Prelude.{◌<◌, ◌≤◌, ◌^◌, length, IfOk, IfSome};
ghost use Rattle.lp_basis.specs.Held.{AreRows};

use lp_basis::{Row, exchange, product, sum_of, units};
use std::alloc::{AllocError, Global};
use std::process::Abort;
use std::test::Fail;

/// A row that is wanted, and its product with the column of its place.
struct Want<'a> {
    numbers: &'a [i128],
    own: i128,
}

/// The rows with the column in at the place, where it can come in.
fn entered(
    alloc: Global,
    width: u128,
    rows: &[Row],
    i: usize,
    column: &[i128],
) -> Result<Option<Vec<Row>>, AllocError>
    requires { AreRows width rows.now }
    ensures { IfOk result (λ found. IfSome found (λ next. AreRows width next.items)) }
{
    if i >= rows.len() {
        return Ok(None);
    }
    if column.len() != rows.len() {
        return Ok(None);
    }
    let found = sum_of(column);
    match found {
        None => Ok(None),
        Some(sum) => {
            if sum > width {
                return Ok(None);
            }
            if product(&rows[i].numbers, column) == 0 {
                return Ok(None);
            }
            let next = exchange(alloc, rows, i, column)?;
            Ok(Some(next))
        }
    }
}

/// The columns come in one after another where the units stood.
fn check(
    rt: &impl Abort,
    alloc: Global,
    width: u128,
    columns: &[&[i128]],
    wants: &[Want],
) -> Result<(), Fail>
    requires positive { 1 ≤ length columns.now }
    requires wide { 1 ≤ width }
    requires room { width ^ length columns.now ≤ 2 ^ 62 }
{
    let mut rows = units(alloc, columns.len())?;
    'enter: for i in 0..columns.len() {
        let next = entered(alloc, width, &rows, i, columns[i])?;
        rows = next.ok_or("a column could not come in")?;
    }
    assert_eq!(rt; rows.len(), wants.len());
    'compare: for j in 0..wants.len() {
        assert_eq!(rt; rows[j].numbers.as_slice(), wants[j].numbers);
        assert_eq!(rt; rows[j].own, wants[j].own);
    }
    Ok(())
}

#[test]
fn an_exchange_gives_the_rows_of_the_new_basis(rt: HostRuntime) -> Result<(), Fail> {
    let alloc = rt.alloc();
    check(
        &rt,
        alloc,
        5,
        &[&[5]],
        &[Want {
            numbers: &[1],
            own: 5,
        }],
    )?;
    check(
        &rt,
        alloc,
        4,
        &[&[2, 1], &[1, 3]],
        &[
            Want {
                numbers: &[3, -1],
                own: 5,
            },
            Want {
                numbers: &[-1, 2],
                own: 5,
            },
        ],
    )?;
    check(
        &rt,
        alloc,
        6,
        &[&[2, 4], &[0, 1]],
        &[
            Want {
                numbers: &[1, 0],
                own: 2,
            },
            Want {
                numbers: &[-2, 1],
                own: 1,
            },
        ],
    )?;
    check(
        &rt,
        alloc,
        3,
        &[&[1, 2], &[1, 1]],
        &[
            Want {
                numbers: &[-1, 1],
                own: 1,
            },
            Want {
                numbers: &[2, -1],
                own: 1,
            },
        ],
    )?;
    // Degenerate for the target (1, 1), of which the second row's product is 0.
    check(
        &rt,
        alloc,
        2,
        &[&[1, 1], &[0, 1]],
        &[
            Want {
                numbers: &[1, 0],
                own: 1,
            },
            Want {
                numbers: &[-1, 1],
                own: 1,
            },
        ],
    )?;
    check(
        &rt,
        alloc,
        215,
        &[
            &[214, 1, 0, 0, 0, 0, 0, 0],
            &[0, 214, 1, 0, 0, 0, 0, 0],
            &[0, 0, 214, 1, 0, 0, 0, 0],
            &[0, 0, 0, 214, 1, 0, 0, 0],
            &[0, 0, 0, 0, 214, 1, 0, 0],
            &[0, 0, 0, 0, 0, 214, 1, 0],
            &[0, 0, 0, 0, 0, 0, 214, 1],
            &[0, 0, 0, 0, 0, 0, 0, 214],
        ],
        &[
            Want {
                numbers: &[1, 0, 0, 0, 0, 0, 0, 0],
                own: 214,
            },
            Want {
                numbers: &[-1, 214, 0, 0, 0, 0, 0, 0],
                own: 45796,
            },
            Want {
                numbers: &[1, -214, 45796, 0, 0, 0, 0, 0],
                own: 9800344,
            },
            Want {
                numbers: &[-1, 214, -45796, 9800344, 0, 0, 0, 0],
                own: 2097273616,
            },
            Want {
                numbers: &[1, -214, 45796, -9800344, 2097273616, 0, 0, 0],
                own: 448816553824,
            },
            Want {
                numbers: &[-1, 214, -45796, 9800344, -2097273616, 448816553824, 0, 0],
                own: 96046742518336,
            },
            Want {
                numbers: &[
                    1,
                    -214,
                    45796,
                    -9800344,
                    2097273616,
                    -448816553824,
                    96046742518336,
                    0,
                ],
                own: 20554002898923904,
            },
            Want {
                numbers: &[
                    -1,
                    214,
                    -45796,
                    9800344,
                    -2097273616,
                    448816553824,
                    -96046742518336,
                    20554002898923904,
                ],
                own: 4398556620369715456,
            },
        ],
    )?;
    Ok(())
}
