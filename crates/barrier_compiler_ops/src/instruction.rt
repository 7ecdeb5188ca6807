//! Instructions: operations, and constants by value.

use lam_bytecode::Op;

/// A constant of a program.
#[derive(Debug, PartialEq, Eq, PartialOrd, Ord, Drop)]
pub enum Constant {
    Int(i64),
    Bool(bool),
    Bytes(Vec<u8>),
    Nothing,
}

/// An operation, or a constant to be put on the operand stack.
#[derive(Drop)]
pub enum Instruction {
    Op(Op),
    Constant(Constant),
}
