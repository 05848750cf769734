//! `TYPE_DEFINITION code ..`.

ghost use Rattle.std.specs.Prelude.{◌≡◌, IfOk, IfSome, map};
ghost use Rattle.cal_words.specs.declared.rules.Rule.TheVariants as rules;
ghost use Rattle.tdb_forms.specs.Finding.{Finds};
ghost use Rattle.tdb_read.specs.Database.{with_type};
ghost use Rattle.tdb_read.specs.Entering.{Enters, Answers};
ghost use Rattle.tdb_read.specs.TypeDefinition.{fits_pattern as pattern_fits, is_amendment as amendment, is_sequence as sequence, is_plain as plain, IsMagnetic, IsAmendedBy, Amends, GivesType, IsTypeDefinition};

use crate::db::Db;
use crate::fault::DbFault;
use cal_dec::Dec;
use cal_scan::{Name, is_word, split_token, tokens, with_byte};
use cal_words::{Rule, fits};
use std::alloc::{AllocError, Global};
use tdb_forms::readable;

/// What a type definition says of its phases.
#[derive(Clone, Copy)]
pub enum TypeKind {
    /// The antiferromagnetic factor, and the fraction of the enthalpy of magnetic ordering above the Curie temperature.
    Magnetic(Dec, Dec),
    /// Nothing that has an effect.
    Plain,
    /// Something that has no meaning here.
    Other,
}

/// A type definition of a one-byte code, as the command at the line gives it, for the phase of this name or for all, where that is `@`.
#[derive(Drop)]
pub struct TypeText {
    pub line: u32,
    pub code: u8,
    pub phase: Name,
    pub kind: TypeKind,
}

/// Whether a token abbreviates the pattern, where `-` counts as `_`.
fn fits_pattern(alloc: Global, token: &[u8], pattern: &[u8]) -> Result<bool, AllocError>
    ensures { IfOk result (λ b. b ≡ pattern_fits pattern.now token.now) }
{
    let word = with_byte(alloc, token, b'-', b'_')?;
    Ok(fits(word.as_slice(), pattern))
}

/// Whether the words begin with GES, AMEND_PHASE_DESCRIPTION and two tokens more.
fn is_amendment(alloc: Global, words: &[&[u8]]) -> Result<bool, AllocError>
    ensures { IfOk result (λ b. b ≡ amendment (map (λ w. w.now) words.now)) }
{
    match words {
        [ges, amend, _, _, ..] => {
            if !is_word(ges, b"GES") {
                return Ok(false);
            }
            let found = fits_pattern(alloc, amend, b"AMEND_PHASE_DESCRIPTION")?;
            Ok(found)
        }
        _ => Ok(false),
    }
}

fn is_sequence(words: &[&[u8]]) -> bool
    ensures { result ≡ sequence (map (λ w. w.now) words.now) }
{
    match words {
        [word, ..] => is_word(word, b"SEQ"),
        [] => false,
    }
}

fn is_plain(alloc: Global, what: &[u8]) -> Result<bool, AllocError>
    ensures { IfOk result (λ b. b ≡ plain what.now) }
{
    let major = fits_pattern(alloc, what, b"MAJOR_CONSTITUENTS")?;
    let sets = fits_pattern(alloc, what, b"COMPOSITION_SETS")?;
    Ok(major || sets)
}

/// The factor and the fraction of magnetic ordering.
fn magnetic(words: &[&[u8]]) -> Option<TypeKind>
    ensures { Finds (IsMagnetic (map (λ w. w.now) words.now)) result }
{
    match words {
        [factor, fraction, ..] => match readable(factor) {
            None => None,
            Some(factor) => match readable(fraction) {
                None => None,
                Some(fraction) => Some(TypeKind::Magnetic(factor, fraction)),
            },
        },
        _ => None,
    }
}

/// What a phase's description is amended by.
fn amended_by(alloc: Global, what: &[u8], rest: &[&[u8]]) -> Result<Option<TypeKind>, AllocError>
    ensures { IfOk result (λ o. Finds (IsAmendedBy what.now (map (λ w. w.now) rest.now)) o) }
{
    let ordering = fits_pattern(alloc, what, b"MAGNETIC_ORDERING")?;
    if ordering {
        return Ok(magnetic(rest));
    }
    let plain = is_plain(alloc, what)?;
    if plain {
        return Ok(Some(TypeKind::Plain));
    }
    Ok(Some(TypeKind::Other))
}

/// The phase and the kind of an amendment.
fn amendment_of(alloc: Global, words: &[&[u8]]) -> Result<Option<(Name, TypeKind)>, AllocError>
    ensures { IfOk result (λ o. Finds (λ x. Amends (map (λ w. w.now) words.now) x.0 x.1) o) }
{
    match words {
        [phase, what, ..] => {
            let (_, rest) = words.split_at(2);
            let found = amended_by(alloc, what, rest)?;
            match found {
                None => Ok(None),
                Some(kind) => {
                    let name = Name::from_bytes(alloc, phase)?;
                    Ok(Some((name, kind)))
                }
            }
        }
        _ => Ok(None),
    }
}

/// The phase, or `@`, and the kind that the words behind the code give.
fn phase_and_kind(alloc: Global, words: &[&[u8]]) -> Result<Option<(Name, TypeKind)>, AllocError>
    ensures { IfOk result (λ o. Finds (λ x. GivesType (map (λ w. w.now) words.now) x.0 x.1) o) }
{
    let amends = is_amendment(alloc, words)?;
    if amends {
        let (_, rest) = words.split_at(2);
        let found = amendment_of(alloc, rest)?;
        return Ok(found);
    }
    let all = Name::from_bytes(alloc, b"@")?;
    if is_sequence(words) {
        return Ok(Some((all, TypeKind::Plain)));
    }
    Ok(Some((all, TypeKind::Other)))
}

/// The type definition of the command at a line.
fn type_definition(alloc: Global, line: u32, text: &[u8]) -> Result<Option<TypeText>, AllocError>
    ensures { IfOk result (λ o. Finds (IsTypeDefinition line text.now) o) }
{
    let (token, rest) = split_token(text);
    match token {
        [code] => {
            let spaced = with_byte(alloc, rest, b',', b' ')?;
            let words = tokens(alloc, spaced.as_slice())?;
            let found = phase_and_kind(alloc, words.as_slice())?;
            match found {
                None => Ok(None),
                Some((phase, kind)) => Ok(Some(TypeText {
                    line,
                    code: *code,
                    phase,
                    kind,
                })),
            }
        }
        _ => Ok(None),
    }
}

/// Enters the type definition of the command at the line.
pub(crate) fn enter_type_definition(
    alloc: Global,
    db: Db,
    line: u32,
    text: &[u8],
) -> Result<Db, DbFault>
    ensures { Answers line (Enters (IsTypeDefinition line text.now) (with_type db) rules.TypeDef) result }
{
    let found = type_definition(alloc, line, text)?;
    match found {
        None => Err(DbFault::Bad {
            line,
            rule: Rule::TypeDef,
        }),
        Some(text) => {
            let next = db.enter_type(text)?;
            Ok(next)
        }
    }
}
