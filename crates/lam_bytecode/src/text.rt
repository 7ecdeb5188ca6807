//! The text of a code.

ghost use Rattle.std.specs.Prelude.{◌≡◌, ◌<◌, ◌+◌, ◌++◌, ◌∷◌, decimal, IfOk, OnOk, string_bytes};
ghost use Rattle.std.specs.Option.{option_copied};
ghost use Rattle.lam_bytecode.specs.Listing.{listing_text, units_from, unit_lines, head_text, op_lines, op_line, op_word, operands_text, kind_text, constant_text};

use crate::code::Code;
use crate::op::Op;
use crate::unit::{CodeUnit, UnitKind};
use lam_value::{Kind, TagNames, Value, push_number, push_value};
use std::alloc::Global;
use want_of_memory::NoMemory;

/// The text of a code: for each unit a line with what it is, and then one line for each operation with its address.
///
/// # Errors
///
/// `NoMemory` where memory is refused.
pub fn listing(alloc: Global, code: &Code) -> Result<String, NoMemory>
    ensures { IfOk result (λ t. string_bytes t ≡ listing_text code.now) }
{
    let mut text = String::new(alloc);
    push_units(&mut text, code.constants(), code.units())?;
    Ok(text)
}

fn push_units(text: &mut String, constants: &[Value], units: &[CodeUnit]) -> Result<(), NoMemory>
    ensures { OnOk result (string_bytes text.new ≡ string_bytes text.old ++ units_from constants.now 0 units.now) }
{
    for n in 0..units.len() {
        push_unit(text, constants, n as u64, &units[n])?;
    }
    Ok(())
}

fn push_unit(
    text: &mut String,
    constants: &[Value],
    number: u64,
    unit: &CodeUnit,
) -> Result<(), NoMemory>
    ensures { OnOk result (string_bytes text.new ≡ string_bytes text.old ++ unit_lines constants.now number unit.now) }
{
    text.push_str("unit")?;
    push_operand(text, number)?;
    push_head(text, &unit.kind, unit.locals)?;
    text.push('\n')?;
    push_ops(text, constants, unit.ops.as_slice())
}

fn push_head(text: &mut String, kind: &UnitKind, locals: u32) -> Result<(), NoMemory>
    ensures { OnOk result (string_bytes text.new ≡ string_bytes text.old ++ head_text kind.now locals) }
{
    match kind {
        UnitKind::Function { name, .. } => {
            text.push(' ')?;
            text.push_str(name.as_str())?;
            text.push_str(" locals")?;
            push_operand(text, locals as u64)
        }
        UnitKind::Region {
            region,
            catch_at,
            ..
        } => {
            text.push_str(" region")?;
            push_operand(text, *region as u64)?;
            text.push_str(" locals")?;
            push_operand(text, locals as u64)?;
            text.push_str(" catch")?;
            push_operand(text, *catch_at as u64)
        }
    }
}

fn push_ops(text: &mut String, constants: &[Value], ops: &[Op]) -> Result<(), NoMemory>
    ensures { OnOk result (string_bytes text.new ≡ string_bytes text.old ++ op_lines constants.now 0 ops.now) }
{
    for at in 0..ops.len() {
        push_op(text, constants, at as u64, ops[at])?;
    }
    Ok(())
}

fn push_op(text: &mut String, constants: &[Value], at: u64, op: Op) -> Result<(), NoMemory>
    ensures { OnOk result (string_bytes text.new ≡ string_bytes text.old ++ op_line constants.now at op) }
{
    push_number(text, at)?;
    text.push(' ')?;
    text.push_str(word_of(op))?;
    push_operands(text, constants, op)?;
    text.push('\n')?;
    Ok(())
}

/// A space and a number.
fn push_operand(text: &mut String, number: u64) -> Result<(), NoMemory>
    ensures { OnOk result (string_bytes text.new ≡ string_bytes text.old ++ 32 ∷ decimal number) }
{
    text.push(' ')?;
    push_number(text, number)
}

fn push_operands(text: &mut String, constants: &[Value], op: Op) -> Result<(), NoMemory>
    ensures { OnOk result (string_bytes text.new ≡ string_bytes text.old ++ operands_text constants.now op) }
{
    match op {
        Op::Const(k) => push_constant(text, constants.get(k as usize)),
        Op::Load(n) | Op::Store(n) | Op::Jump(n) | Op::JumpIfFalse(n) | Op::Call(n) => {
            push_operand(text, n as u64)
        }
        Op::ReadBarrier(n) | Op::WriteBarrier(n) | Op::GetField(n) | Op::PutField(n) => {
            push_operand(text, n as u64)
        }
        Op::NewObject(n) | Op::EnterRegion(n) | Op::Spawn(n) => push_operand(text, n as u64),
        Op::NewArray(kind) => push_word(text, kind_word(kind)),
        Op::MakeLabel { secrecy, integrity } => {
            push_operand(text, secrecy as u64)?;
            push_operand(text, integrity as u64)
        }
        Op::System(call) => push_word(text, call.name()),
        _ => Ok(()),
    }
}

/// A space and a word.
fn push_word(text: &mut String, word: &str) -> Result<(), NoMemory>
    ensures { OnOk result (string_bytes text.new ≡ string_bytes text.old ++ 32 ∷ word.now) }
{
    text.push(' ')?;
    text.push_str(word)?;
    Ok(())
}

/// A space and the text of a constant, where there is one. It names no tag.
fn push_constant(text: &mut String, constant: Option<&Value>) -> Result<(), NoMemory>
    ensures { OnOk result (string_bytes text.new ≡ string_bytes text.old ++ 32 ∷ constant_text (option_copied constant.entry)) }
{
    text.push(' ')?;
    match constant {
        None => Ok(()),
        Some(value) => push_value(text, value, &TagNames::new(*text.allocator())),
    }
}

fn kind_word(kind: Kind) -> &'static str
    ensures { result.now ≡ kind_text kind }
{
    match kind {
        Kind::Int => "int",
        Kind::Bool => "bool",
        Kind::Null => "null",
    }
}

/// The word of an operation.
fn word_of(op: Op) -> &'static str
    ensures { result.now ≡ op_word op }
{
    match op {
        Op::Const(_) => "const",
        Op::Load(_) => "load",
        Op::Store(_) => "store",
        Op::Pop => "pop",
        Op::Add => "add",
        Op::Sub => "sub",
        Op::Mul => "mul",
        Op::Div => "div",
        Op::Rem => "rem",
        Op::Neg => "neg",
        Op::Not => "not",
        Op::Eq => "eq",
        Op::Ne => "ne",
        Op::Lt => "lt",
        Op::Le => "le",
        Op::Gt => "gt",
        Op::Ge => "ge",
        Op::Jump(_) => "jump",
        Op::JumpIfFalse(_) => "jumpf",
        Op::Call(_) => "call",
        Op::Return => "ret",
        Op::Throw => "throw",
        Op::ReadBarrier(_) => "rbar",
        Op::WriteBarrier(_) => "wbar",
        Op::GetField(_) => "get",
        Op::PutField(_) => "put",
        Op::GetElement => "geta",
        Op::PutElement => "puta",
        Op::NewObject(_) => "new",
        Op::NewArray(_) => "newa",
        Op::MakeLabel { .. } => "label",
        Op::NoCaps => "caps0",
        Op::WithPlus => "capp",
        Op::WithMinus => "capm",
        Op::System(_) => "sys",
        Op::EnterMonitor => "menter",
        Op::LeaveMonitor => "mleave",
        Op::EnterRegion(_) => "enter",
        Op::LeaveRegion => "leave",
        Op::Spawn(_) => "spawn",
    }
}
