//! The law that a saved world's text is read as its document.
//!
//! `world_save_terms` says which texts spell a document: its lists in the compact form, and between them texts of two
//! values from an older document. In those the digits of numbers that are no whole ones are the writer's. JSON reads
//! each such text as the document, member by member (`specs/Plain`). All of it is in proofs alone.

ghost use Rattle.world_save_laws.specs.Longest.{TextsAreBounded, SpelledTextsAreBounded};
ghost use Rattle.world_save_laws.specs.Plain.{SpelledDocumentsAreRead};

/// A text that spells a document is read as the document, where its lists are plain and nothing nests too deep.
pub fn spelled_documents_are_read()
    ensures { SpelledDocumentsAreRead }
{}

/// A text of a value in the compact form has no more bytes than are counted of the value, with 25 of each number; nor has a text
/// of a document.
pub fn spelled_texts_are_bounded()
    ensures values { TextsAreBounded }
    ensures documents { SpelledTextsAreBounded }
{}
