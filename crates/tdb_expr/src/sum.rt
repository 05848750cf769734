//! Products, their signs, and sums of them.

ghost use Rattle.std.specs.Prelude.{◌≡◌, IfOk, map};
ghost use Rattle.std.specs.Option.{option_map};
ghost use Rattle.tdb_expr.specs.Forms.{IsExpr};
ghost use Rattle.tdb_expr.specs.Grammar.{IsReading};
ghost use Rattle.tdb_expr.specs.Parts.{part_of, term_of};
ghost use Rattle.tdb_expr.specs.Reading.{product_at, signs_at, sign_of, turned_if, begins_signed as begins_signed_of, term_at, all_terms, with_terms, sum_at};

use crate::expression::Expr;
use crate::factor::Factor;
use crate::mark::behind_mark;
use crate::product::Product;
use crate::reading::factor;
use cal_list::Items;
use cal_scan::behind_spaces;
use std::alloc::{AllocError, Global};

/// The list, without room for more.
fn compact<T>(list: Items<T>) -> Items<T>
    ensures { result ≡ list }
{
    let mut inner = list.into_vec();
    inner.shrink_to_fit();
    Items::from_vec(inner)
}

/// The factors at the front of a text, at most 16 with `*` between them.
fn product<'a>(
    alloc: Global,
    text: &'a [u8],
) -> Result<Option<(Items<Factor>, &'a [u8])>, AllocError>
    ensures { IfOk result (λ o. option_map (λ r. (map part_of r.0, r.1.now)) o ≡ product_at 16 text.now) }
{
    let room = Vec::with_capacity(alloc, 1)?;
    let mut all = Items::from_vec(room);
    let mut rest = text;
    'factors: for _ in 0u32..16 {
        let found = factor(alloc, rest)?;
        match found {
            None => return Ok(None),
            Some((factor, after)) => {
                all.push(factor)?;
                match behind_mark(after, b'*') {
                    None => return Ok(Some((compact(all), after))),
                    Some(more) => rest = more,
                }
            }
        }
    }
    Ok(None)
}

/// Whether a sign, or a space among signs, makes a product negative; nothing for any other byte.
fn sign(byte: u8) -> Option<bool>
    ensures { result ≡ sign_of byte }
{
    match byte {
        b' ' => Some(false),
        b'+' => Some(false),
        b'-' => Some(true),
        _ => None,
    }
}

fn turned(minus: bool, negative: bool) -> bool
    ensures { result ≡ turned_if minus negative }
{
    if minus {
        return !negative;
    }
    negative
}

/// Whether the signs at the front of a text are negative together, and what is behind them.
fn signs(text: &[u8]) -> (bool, &[u8])
    ensures { (result.0, result.1.now) ≡ signs_at text.now }
{
    let mut negative = false;
    'signs: for i in 0..text.len() {
        match sign(text[i]) {
            None => {
                let (_, rest) = text.split_at(i);
                return (negative, rest);
            }
            Some(minus) => negative = turned(minus, negative),
        }
    }
    let (_, rest) = text.split_at(text.len());
    (negative, rest)
}

fn begins_signed(text: &[u8]) -> bool
    ensures { result ≡ begins_signed_of text.now }
{
    match text.split_first() {
        Some((first, _)) => *first == b'+' || *first == b'-',
        None => false,
    }
}

/// The product at the front of a text with its signs, of which there is one at least, and what is behind the spaces behind it.
#[tactic(auto, unfolding(crate::specs::Reading::term_at))]
fn term<'a>(alloc: Global, text: &'a [u8]) -> Result<Option<(Product, &'a [u8])>, AllocError>
    ensures { IfOk result (λ o. option_map (λ r. (term_of r.0, r.1.now)) o ≡ term_at text.now) }
{
    if !begins_signed(text) {
        return Ok(None);
    }
    let (negative, rest) = signs(text);
    let found = product(alloc, rest)?;
    match found {
        None => Ok(None),
        Some((factors, after)) => Ok(Some((Product { negative, factors }, behind_spaces(after)))),
    }
}

/// These products and those that a text goes on with.
fn terms(
    alloc: Global,
    first: Items<Product>,
    text: &[u8],
) -> Result<Option<Items<Product>>, AllocError>
    ensures { IfOk result (λ o. option_map (map term_of) o ≡ with_terms (map term_of first) (all_terms text.now)) }
{
    let mut all = first;
    let mut rest = text;
    'terms: while rest.len() > 0 {
        let found = term(alloc, rest)?;
        match found {
            None => return Ok(None),
            Some((term, after)) => {
                all.push(term)?;
                rest = after;
            }
        }
    }
    Ok(Some(all))
}

#[tactic(auto, unfolding(crate::specs::Reading::sum_at))]
fn sum(alloc: Global, text: &[u8]) -> Result<Option<Items<Product>>, AllocError>
    ensures { IfOk result (λ o. option_map (map term_of) o ≡ sum_at text.now) }
{
    let (negative, rest) = signs(text);
    let found = product(alloc, rest)?;
    match found {
        None => Ok(None),
        Some((factors, after)) => {
            let mut all = Items::new(alloc);
            all.push(Product { negative, factors })?;
            let sum = terms(alloc, all, behind_spaces(after))?;
            Ok(sum)
        }
    }
}

/// The expression that a text is, `Unsupported` where it is none of the grammar. Letters are capitals, and the one space byte
/// is 32.
pub fn read_expr(alloc: Global, text: &[u8]) -> Result<Expr, AllocError>
    ensures reading { IfOk result (IsReading text.now) }
    ensures form { IfOk result IsExpr }
{
    let found = sum(alloc, text)?;
    match found {
        None => Ok(Expr::Unsupported),
        Some(products) => Ok(Expr::Sum(compact(products))),
    }
}
