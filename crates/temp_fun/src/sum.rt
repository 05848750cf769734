ghost use Rattle.std.specs.Prelude.{◌≡◌, ◌≤◌, length, pos};
ghost use Rattle.cal_dec.specs.Decimals.{decimal_of};
ghost use Rattle.temp_fun.specs.Values.{log_kelvin, one as one_of};
ghost use Rattle.tdb_expr.specs.Forms.{AreProducts, IsRanged};
ghost use Rattle.temp_fun.specs.Marks.{AreRight};
ghost use Rattle.temp_fun.specs.Progress.{IsSum, IsMidway, Steps, Turns, IsWaiting, Begins};

use crate::fault::EvalFault;
use crate::mark::Mark;
use crate::partial::{Partial, Progress, Sum};
use crate::piece::chosen;
use crate::product::{add, read_factors};
use crate::reader::Reader;
use crate::waiting::{Turn, Waiting};
use cal_dec::Dec;
use cal_scan::Name;
use indexmap::IndexMap;
use tdb_expr::{Expr, Product, Ranged};

/// 1 or -1, before any factor.
fn fresh(negative: bool) -> Partial
    ensures value { decimal_of result.number ≡ one_of negative }
    ensures exponent { result.number.exponent ≡ pos 0 }
    ensures height { result.height ≡ 0 }
{
    Partial {
        number: Dec {
            mantissa: if negative { -1 } else { 1 },
            exponent: 0,
        },
        height: 0,
    }
}

/// Reads a product of a sum on from one of its factors, and adds it.
fn read_product<'a>(
    reader: &Reader,
    marks: &[Mark],
    line: u32,
    products: &'a [Product],
    product: usize,
    factor: usize,
    sum: Sum,
    partial: Partial,
) -> Result<Turn<'a>, EvalFault>
    requires marks { AreRight reader.now.functions.now.entries reader.now.t marks.now }
    requires products { AreProducts products.now }
    requires sum { IsSum reader.now.functions.now.entries reader.now.t products.now product sum }
    requires midway { IsMidway reader.now.functions.now.entries reader.now.t products.now product factor partial }
    ensures { Steps reader.now.functions.now.entries reader.now.t
        marks.now line products.now product result }
{
    match read_factors(reader, marks, line, &products[product], factor, partial) {
        Err(fault) => Err(fault),
        Ok(Progress::Waits(factor, partial, child)) => Ok(Turn::Needs(Waiting {
            line,
            products,
            product,
            factor,
            sum,
            partial,
            child,
        })),
        Ok(Progress::Whole(whole)) => match add(line, sum, whole) {
            Err(fault) => Err(fault),
            Ok(next) => Ok(Turn::Ended(next)),
        },
    }
}

/// Reads the products of a sum from a place on.
fn read_products<'a>(
    reader: &Reader,
    marks: &[Mark],
    line: u32,
    products: &'a [Product],
    from: usize,
    start: Sum,
) -> Result<Turn<'a>, EvalFault>
    requires marks { AreRight reader.now.functions.now.entries reader.now.t marks.now }
    requires products { AreProducts products.now }
    requires from { from ≤ length products.now }
    requires sum { IsSum reader.now.functions.now.entries reader.now.t products.now from start }
    ensures { Turns reader.now.functions.now.entries reader.now.t marks.now line products.now result }
{
    let mut sum = start;
    'products: for k in from..products.len() {
        let fresh = fresh(products[k].negative);
        match read_product(reader, marks, line, products, k, 0, sum, fresh) {
            Err(fault) => return Err(fault),
            Ok(Turn::Needs(waiting)) => return Ok(Turn::Needs(waiting)),
            Ok(Turn::Ended(next)) => sum = next,
        }
    }
    Ok(Turn::Ended(sum))
}

/// Goes on with a sum whose function is done.
pub fn resume<'a>(
    reader: &Reader,
    marks: &[Mark],
    waiting: Waiting<'a>,
) -> Result<Turn<'a>, EvalFault>
    requires marks { AreRight reader.now.functions.now.entries reader.now.t marks.now }
    requires products { AreProducts waiting.products.now }
    requires waiting { IsWaiting reader.now.functions.now.entries reader.now.t
        waiting.line waiting.products.now waiting }
    ensures { Turns reader.now.functions.now.entries reader.now.t
        marks.now waiting.entry.line waiting.entry.products.now result }
{
    let Waiting {
        line,
        products,
        product,
        factor,
        sum,
        partial,
        child: _,
    } = waiting;
    match read_product(reader, marks, line, products, product, factor, sum, partial) {
        Err(fault) => Err(fault),
        Ok(Turn::Needs(next)) => Ok(Turn::Needs(next)),
        Ok(Turn::Ended(next)) => { read_products(reader, marks, line, products, product + 1, next) }
    }
}

/// Reads the expression of a ranged text that holds.
pub fn begin<'a>(reader: &Reader, marks: &[Mark], ranged: &'a Ranged) -> Result<Turn<'a>, EvalFault>
    requires marks { AreRight reader.now.functions.now.entries reader.now.t marks.now }
    requires ranged { IsRanged ranged.now }
    ensures { Begins reader.now.functions.now.entries reader.now.t marks.now ranged.now result }
{
    match chosen(ranged.pieces.as_slice(), reader.t) {
        Expr::Unsupported => Err(EvalFault::Unsupported(ranged.line)),
        Expr::Sum(products) => {
            let none = Sum {
                value: 0,
                height: 0,
            };
            read_products(reader, marks, ranged.line, products.as_slice(), 0, none)
        }
    }
}
