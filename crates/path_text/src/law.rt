ghost use Rattle.path_text.specs.Documents.{OneDocument};

/// Bytes are the text of at most one document.
pub fn one_document()
    ensures { OneDocument }
{}
