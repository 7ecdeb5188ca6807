//! The round-trip law: canonical text is read as its tree, up to positions.
//!
//! `lam_print` lays a tree out as pieces and proves that its text has exactly their tokens. This crate proves that the
//! grammar of `lam_grammar` reads those tokens as the tree. Parentheses are decided here: the rule of a place reads an
//! expression laid at that place, whatever follows that binds less strongly.
//!
//! The depth sum is the one condition. An operand that loses its parentheses brings its operators and postfix parts
//! into the rule around it. So the sum can pass its limit in the canonical text of a program that was read.
//!
//! `words` has the lexical side. Names, numbers and texts of a program that a text's tokens spell are words of that
//! text. So its canonical text is lexed to the tokens that it is laid out of. `specs/Words` has this, and defines when
//! a text spells a program.
//!
//! The crate has no code beside these laws and those of `trees`. In `proofs/`:
//!
//! - `Bodies`, `Good` and `Whole` have the words.
//! - `Spans` reads without a limit of the sum, and `Levels` goes from one level of operators to the next.
//! - `Expressions`, `Statements` and `Items` read each construct back.
//! - `Ready` shows that what was read assigns to places alone.
//! - `TheLaw` and `Steady` have the laws.
//!
//! A public promise rests on each law of `trees` and `words`. Nothing here is a matter of speed.
#![tactic(auto)]

mod trees;
mod words;

pub use trees::{
    canonical_text_is_read_as_the_tree, canonical_text_is_steady,
    canonical_tokens_are_read_as_the_tree,
};
pub use words::{canonical_text_is_lexed, words_of_a_program_fit};
