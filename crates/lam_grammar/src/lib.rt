//! The grammar of the language, as a table.
//!
//! `specs/Table.antt` lists the bodies of each rule, line by line as the printed grammar has them. It also says which
//! tokens a rule begins with, which rules and operators count in the depth sum, and what may stand before `=`.
//! `specs/Meaning.antt` gives the meaning of each rule, as a tree of `lam_syntax` without its places in memory.
//! `specs/Program.antt` makes them a grammar of `lam_grammar_laws`, and says when a list of tokens spells a program.
//!
//! `proofs/` shows that the table passes the tests of `lam_grammar_laws`. No two bodies of a rule begin alike, and the
//! first tokens of each rule are those of its bodies. Each text read so far can be finished. So all laws of
//! `lam_grammar_laws` hold of it: a list of tokens spells at most one program, and what stops at a token spells none.
//!
//! The parser, `lam_parser`, is stated and proved over this table. So is the law that canonical text is read as the
//! tree that it was printed from.
//!
//! The promise of `parse` of `lam_parser` rests on this table. Nothing here is a matter of speed.
#![tactic(auto)]

/// The operators of one line of the grammar that group to the left, from those that bind weakest.
/// The comparisons, which do not group, stand between `And` and `Sum`.
#[derive(Clone, Copy, Debug, PartialEq, Eq, Drop)]
pub enum Level {
    /// `||`, between operands of the level `And`
    Or,
    /// `&&`, between comparisons
    And,
    /// `+` and `-`, between operands of the level `Term`
    Sum,
    /// `*`, `/` and `%`, between operands with their prefixes
    Term,
}
