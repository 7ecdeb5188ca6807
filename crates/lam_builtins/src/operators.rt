//! The types of operators, as values.

ghost use Rattle.std.specs.Prelude.{◌≡◌, ℕ};
ghost use Rattle.lam_operators.specs.Words.{Word};
ghost use Rattle.lam_builtins.specs.Operators.{operand, operator_type as type_of_operator, unary_type};
ghost use Rattle.lam_builtins.specs.Rows.{plain_type, plain_types};

use crate::rows::PlainType;
use lam_operators::{BinaryOp, UnaryOp};

/// The type of an operator's operands. None for `==` and `!=`, which compare.
pub fn operand_type(op: BinaryOp) -> Option<PlainType>
    ensures words { plain_types {C = Word} result ≡ operand op }
    ensures numbers { plain_types {C = ℕ} result ≡ operand op }
{
    match op {
        BinaryOp::Or | BinaryOp::And => Some(PlainType::Bool),
        BinaryOp::Eq | BinaryOp::Ne => None,
        _ => Some(PlainType::Int),
    }
}

/// The type of an operator's result.
pub fn operator_type(op: BinaryOp) -> PlainType
    ensures words { plain_type {C = Word} result ≡ type_of_operator op }
    ensures numbers { plain_type {C = ℕ} result ≡ type_of_operator op }
{
    match op {
        BinaryOp::Add | BinaryOp::Sub | BinaryOp::Mul | BinaryOp::Div | BinaryOp::Rem => {
            PlainType::Int
        }
        _ => PlainType::Bool,
    }
}

/// The type of a prefix operator's operand, and of its result.
pub fn prefix_type(op: UnaryOp) -> PlainType
    ensures words { plain_type {C = Word} result ≡ unary_type op }
    ensures numbers { plain_type {C = ℕ} result ≡ unary_type op }
{
    match op {
        UnaryOp::Not => PlainType::Bool,
        UnaryOp::Neg => PlainType::Int,
    }
}
