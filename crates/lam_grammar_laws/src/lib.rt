//! Grammars with one token of lookahead, as tables, and their laws.
//!
//! A grammar is a record of `specs/Grammar.antt`. It has the bodies of each rule, its first tokens and its meaning, and
//! the rules that count in the depth sum. Nothing here is about one language. `Reads` says which tokens are read and
//! what they mean. `Stops`, in `specs/Stopping.antt`, says where reading stops and which token could stand there
//! instead.
//!
//! `proofs/` has these laws for each table that passes the computable tests of `proofs/Tests.antt`:
//!
//! - a text has one meaning,
//! - where reading stops, no text goes on,
//! - every text that is read so far can be finished,
//! - a token that reading could have taken does continue a text,
//! - the depth sum passes its limit exactly where reading says so.
//!
//! `Derives`, in `specs/Deriving.antt`, is the plain derivation of a context-free grammar. Each rule stands for some
//! body of its own, and the text is what its parts derive, one after another. Derivation looks at no token in advance.
//! Reading and derivation give the same language (`proofs/DerivedTexts`) for each table that passes the computable
//! tests of `specs/Follow.antt`. Those tests have two parts. The first tokens of each rule tell its bodies apart. No
//! token that may follow a possibly empty rule is one with which the rule could begin. So the first tokens, the order
//! of the bodies and the lookahead decide nothing about which texts there are.
//!
//! The crate has no code. The parser states its contracts in these relations and cites these laws; `lam_front_laws`
//! states the laws of derivations for the table of the language.
//!
//! The promise of `parse` of `lam_parser` rests on these laws. Nothing here is a matter of speed.
#![tactic(auto)]
