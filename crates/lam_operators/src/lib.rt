//! The operators of the language.
//!
//! The syntax tree, the resolved program, the bytecode and the meaning of a program share these operators. They stand
//! below all of these, so that the machine does not depend on the syntax tree.
//!
//! No public promise rests on code here: all definitions share these operators. Nothing here is a matter of speed.
#![tactic(auto)]

/// The operators between two operands, from those that bind weakest to those that bind strongest:
/// `||`, `&&`, `==`, `!=`, `<`, `<=`, `>`, `>=`, `+`, `-`, `*`, `/`, `%`.
#[derive(Clone, Copy, Debug, PartialEq, Eq, Drop)]
pub enum BinaryOp {
    Or,
    And,
    Eq,
    Ne,
    Lt,
    Le,
    Gt,
    Ge,
    Add,
    Sub,
    Mul,
    Div,
    Rem,
}

/// The operators before one operand: `!` and `-`.
#[derive(Clone, Copy, Debug, PartialEq, Eq, Drop)]
pub enum UnaryOp {
    Not,
    Neg,
}
