//! The laws of the words of a program that was read from a text.

ghost use Rattle.lam_print_laws.specs.Words.{WordsFit, ReadAgain};

/// Each name of the program is an identifier that is no reserved word, each number is below 2^63, and each text has at
/// most 65,536 bytes.
pub fn words_of_a_program_fit()
    ensures { WordsFit }
{}

/// The canonical text of the program is read as the tokens of its pieces.
pub fn canonical_text_is_lexed()
    ensures { ReadAgain }
{}
