//! What is generated is a document. The function does nothing: its contract is the law.

ghost use Rattle.ds_gen.specs.Laws.{AreDocuments};

/// For each number up to 1,000 what is generated keeps what a document keeps that was read.
pub fn generated_are_documents()
    ensures { AreDocuments }
{}
