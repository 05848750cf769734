//! `PARAMETER kind(phase,array;order) ranged-text`.

ghost use Rattle.std.specs.Prelude.{◌≡◌, IfOk, IfSome, IfNone, Some, None, List, ℕ, []};
ghost use Rattle.cal_words.specs.declared.rules.Rule.TheVariants as rules;
ghost use Rattle.tdb_expr.specs.Forms.{IsRanged};
ghost use Rattle.tdb_forms.specs.Finding.{Finds};
ghost use Rattle.tdb_read.specs.Database.{with_parameter};
ghost use Rattle.tdb_read.specs.Entering.{Enters, Answers};
ghost use Rattle.tdb_read.specs.Parameter.{order_of, ordered, array_and_order as array_and_order_of, key_of, kind_and_key as kind_and_key_of, IsBracketed, IsParameter};

use crate::db::Db;
use crate::fault::DbFault;
use crate::key::Key;
use cal_scan::{Name, behind_spaces, cut_at, is_digit_byte, without_spaces};
use cal_words::Rule;
use cef_kind::Kind;
use std::alloc::{AllocError, Global};
use tdb_expr::Ranged;
use tdb_forms::{Array, read_array, read_kind, read_ranged, split_head};

/// What a parameter adds to, and its values for ranges of the temperature.
#[derive(Drop)]
pub struct ParamText {
    pub kind: Kind,
    pub ranged: Ranged,
}

/// An order of one digit.
#[tactic(auto, unfolding(crate::specs::Parameter::order_of))]
fn order(text: &[u8]) -> Option<u8>
    ensures { result ≡ order_of text.now }
{
    match text {
        [digit] => {
            if !is_digit_byte(*digit) {
                return None;
            }
            Some(*digit - b'0')
        }
        _ => None,
    }
}

/// An array whose order is given behind it.
fn ordered_array(
    alloc: Global,
    lists: &[u8],
    digit: &[u8],
) -> Result<Option<(Array, u8)>, AllocError>
    ensures { IfOk result (λ o. o ≡ ordered [] (Some (lists.now, digit.now))) }
{
    let found = read_array(alloc, lists)?;
    match found {
        None => Ok(None),
        Some(array) => match order(digit) {
            None => Ok(None),
            Some(order) => Ok(Some((array, order))),
        },
    }
}

/// An array of order 0.
fn plain_array(alloc: Global, text: &[u8]) -> Result<Option<(Array, u8)>, AllocError>
    ensures { IfOk result (λ o. o ≡ ordered text.now None) }
{
    let found = read_array(alloc, text)?;
    match found {
        None => Ok(None),
        Some(array) => Ok(Some((array, 0))),
    }
}

/// An array, and the order behind `;`, or 0.
#[tactic(auto, unfolding(crate::specs::Parameter::array_and_order))]
fn array_and_order(alloc: Global, text: &[u8]) -> Result<Option<(Array, u8)>, AllocError>
    ensures { IfOk result (λ o. o ≡ array_and_order_of text.now) }
{
    match cut_at(text, b';') {
        None => {
            let found = plain_array(alloc, text)?;
            Ok(found)
        }
        Some((lists, digit)) => {
            let found = ordered_array(alloc, lists, digit)?;
            Ok(found)
        }
    }
}

/// The key of what stands within the parentheses.
#[tactic(auto, unfolding(crate::specs::Parameter::key_of))]
fn key(alloc: Global, kind_name: Name, inner: &[u8]) -> Result<Option<Key>, AllocError>
    ensures { IfOk result (λ o. o ≡ key_of kind_name inner.now) }
{
    match cut_at(inner, b',') {
        None => Ok(None),
        Some((head, rest)) => match split_head(head) {
            None => Ok(None),
            Some((phase, _)) => {
                let found = array_and_order(alloc, rest)?;
                match found {
                    None => Ok(None),
                    Some((array, order)) => {
                        let phase = Name::from_bytes(alloc, phase)?;
                        Ok(Some(Key {
                            kind_name,
                            phase,
                            array,
                            order,
                        }))
                    }
                }
            }
        },
    }
}

/// The kind and the key of a parameter.
#[tactic(auto, unfolding(crate::specs::Parameter::kind_and_key))]
fn kind_and_key(alloc: Global, kind: &[u8], inner: &[u8]) -> Result<Option<(Kind, Key)>, AllocError>
    ensures { IfOk result (λ o. o ≡ kind_and_key_of kind.now inner.now) }
{
    let found = read_kind(alloc, kind)?;
    match found {
        None => Ok(None),
        Some((kind, kind_name)) => {
            let solid = without_spaces(alloc, inner)?;
            let found = key(alloc, kind_name, solid.as_slice())?;
            match found {
                None => Ok(None),
                Some(key) => Ok(Some((kind, key))),
            }
        }
    }
}

/// The text before `(`, that within the parentheses, and that behind them.
struct Brackets<'a> {
    kind: &'a [u8],
    inner: &'a [u8],
    behind: &'a [u8],
}

fn bracketed(text: &[u8]) -> Option<Brackets<'_>>
    ensures found { IfSome result (λ b. IsBracketed text.now b.kind.now b.inner.now b.behind.now) }
    ensures none { IfNone result ((kind inner behind : List ℕ) → IsBracketed text.now kind inner behind → ⊥) }
{
    match cut_at(behind_spaces(text), b'(') {
        None => None,
        Some((kind, rest)) => match cut_at(rest, b')') {
            None => None,
            Some((inner, behind)) => Some(Brackets {
                kind,
                inner,
                behind,
            }),
        },
    }
}

/// The key and the text of the parameter.
fn parameter(alloc: Global, line: u32, text: &[u8]) -> Result<Option<(Key, ParamText)>, AllocError>
    ensures value { IfOk result (λ o. Finds (IsParameter line text.now) o) }
    ensures form { IfOk result (λ o. IfSome o (λ p. IsRanged p.1.ranged)) }
{
    match bracketed(text) {
        None => Ok(None),
        Some(
            Brackets {
                kind,
                inner,
                behind,
            },
        ) => {
            let found = kind_and_key(alloc, kind, inner)?;
            match found {
                None => Ok(None),
                Some((kind, key)) => {
                    let found = read_ranged(alloc, line, behind)?;
                    match found {
                        None => Ok(None),
                        Some(ranged) => Ok(Some((key, ParamText { kind, ranged }))),
                    }
                }
            }
        }
    }
}

/// Enters the parameter of the command at the line.
pub(crate) fn enter_parameter(alloc: Global, db: Db, line: u32, text: &[u8]) -> Result<Db, DbFault>
    ensures { Answers line (Enters (IsParameter line text.now) (λ p. with_parameter db p.0 p.1) rules.Parameter) result }
{
    let found = parameter(alloc, line, text)?;
    match found {
        None => Err(DbFault::Bad {
            line,
            rule: Rule::Parameter,
        }),
        Some((key, text)) => {
            let next = db.enter_parameter(key, text)?;
            Ok(next)
        }
    }
}
