//! A report or a path, by its first line.

ghost use Rattle.std.specs.Prelude.{◌≡◌, ◌≤◌, IfOk, length};
ghost use Rattle.cal_limits.specs.declared.TheConstants.{MOST_REPORT_BYTES};
ghost use Rattle.cal_lines.specs.Places.{ReadsAs};
ghost use Rattle.cal_lines.specs.Reading.{Gives, lines_of, OnLine};
ghost use Rattle.path_text.specs.Choices.{document_at, document_of, document_fields, StandsFrom};
ghost use Rattle.path_text.specs.Documents.{document_text, IsSpelledDocument, Reads, IsFaultLine};
ghost use Rattle.path_text.specs.declared.kind.Document.{Document};

use crate::kind::Document;
use crate::reading::path;
use cal_lines::{Place, TextFault, next_begins_with};
use eq_text::next_report;
use std::alloc::Global;

fn document<'a>(alloc: Global, at: Place<'a>) -> Result<(Document, Place<'a>), TextFault>
    ensures reads { ReadsAs document_fields result document_at at.entry }
    ensures stands { IfOk result (λ x. StandsFrom at.entry.number x.0) }
{
    if next_begins_with(at, b"path") {
        let (found, after) = path(alloc, at)?;
        Ok((Document::Path(found), after))
    } else {
        let (found, after) = next_report(alloc, at)?;
        Ok((Document::One(found), after))
    }
}

#[tactic(auto, unfolding(crate::specs::Choices::document_of))]
fn all(alloc: Global, bytes: &[u8]) -> Result<Document, TextFault>
    requires { length bytes.now ≤ MOST_REPORT_BYTES }
    ensures reads { Gives document_fields result (document_of (1, lines_of bytes.now)) }
    ensures stands { IfOk result (λ d. StandsFrom 1 d) }
{
    let (found, after) = document(alloc, Place::start(bytes))?;
    after.expect_end()?;
    Ok(found)
}

/// The document that the bytes are the text of; or the number of the first line, counted from 1, at which no text of a
/// document goes on.
pub fn read_document(alloc: Global, bytes: &[u8]) -> Result<Document, TextFault>
    requires { length bytes.now ≤ MOST_REPORT_BYTES }
    // What is read has a text, and the bytes are this text.
    ensures found { IfOk result (λ d. IsSpelledDocument d × (bytes.now ≡ document_text d)) }
    // The text of a document is read, unless memory runs out.
    ensures only { (d : Document) → IsSpelledDocument d → bytes.now ≡ document_text d → Reads result d }
    ensures line { OnLine result (λ n. IsFaultLine bytes.now n) }
{
    all(alloc, bytes)
}
