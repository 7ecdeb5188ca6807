//! The laws of canonical text.

ghost use Rattle.lam_print.specs.Fitting.{PiecesFit};
ghost use Rattle.lam_print.specs.Law.{TextLaw, TokensFit};

/// The canonical text of a program is read as the tokens of its pieces: no two of them join.
pub fn canonical_text_is_lexed()
    ensures { TextLaw }
{}

/// The tokens of a text before its end are such as the printer can write: a word, a number below 2^63, a text of at
/// most 65,536 bytes, a mark.
pub fn tokens_of_a_text_fit()
    ensures { TokensFit }
{}

/// The canonical pieces of a program fit where its names, numbers and texts do.
pub fn pieces_of_a_program_fit()
    ensures { PiecesFit }
{}
