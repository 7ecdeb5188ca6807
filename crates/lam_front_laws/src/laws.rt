//! The laws of canonical text that is read again.

ghost use Rattle.lam_front_laws.specs.Law.{SpeltAgain};

/// The canonical text of a program that bytes spell spells it again, positions left out, and has itself as its canonical
/// text; or it is refused as too deep.
pub fn canonical_text_is_spelt_again()
    ensures { SpeltAgain }
{}
