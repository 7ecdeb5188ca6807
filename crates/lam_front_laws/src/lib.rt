//! The front end's laws of canonical text and of context-free derivation.
//!
//! `lam_print_laws` has the round-trip law for tokens, and `laws` states it of bytes, in the relations of `lam_front`.
//! The canonical text of a program that bytes spell is UTF-8. It spells the same program up to positions, with the same
//! canonical text again. Otherwise it is refused at a token at which the depth sum passes its limit, and for no other
//! reason.
//!
//! The grammar is a table that is read by the next token. `derivations` says that, but for the limit of the depth sum,
//! it is a plain context-free grammar. It gives a text one program at most (`specs/DerivationLaw`). `specs/Follow`
//! lists the tokens that may follow each rule.
//!
//! A public promise rests on `canonical_text_is_spelt_again` and on each law of `derivations`. Nothing here is a matter
//! of speed.
#![tactic(auto)]

pub mod derivations;
pub mod laws;
