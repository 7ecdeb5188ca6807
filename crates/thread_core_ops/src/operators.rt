//! Effects of operators, and of making labels and capabilities.

ghost use Rattle.std.specs.Prelude.{◌≡◌, ◌⊎◌, ◌++◌, ◌&&◌, List, None, is_some};
ghost use Rattle.lam_value.specs.declared.values.Value.{Value};
ghost use Rattle.thread_steps.specs.Operators.{operator, prefix, label_from, with_sign, some_null, tags_in};
ghost use Rattle.thread_steps.specs.Ops.{between, before};
ghost use Rattle.thread_core_effects.specs.Acting.{did_of, labelled, signs, pure_of};
ghost use Rattle.thread_core_effects.specs.Reading.{number_in, tag_in};
ghost use Rattle.std.specs.List.{list_all};
ghost use Rattle.thread_core_effects.specs.Fitting.{number_if};

use lam_asks::Fault;
use lam_operators::{BinaryOp, UnaryOp};
use lam_value::Value;
use thread_core_effects::{
    Computed, OpEffect, Operands, ValueRef, number_in, same_values, some_null, tag_in,
};

fn truth(b: bool) -> Computed<'static>
    ensures { result ≡ Computed.Fine (ValueRef.Bool b) }
{
    Computed::Fine(ValueRef::Bool(b))
}

/// A number of 64 bits, or Overflow.
fn number(n: Option<i64>) -> Computed<'static>
    ensures { pure_of result ≡ number_if n }
{
    match n {
        Some(n) => Computed::Fine(ValueRef::Int(n)),
        None => Computed::Faults(Fault::Overflow),
    }
}

fn divided(a: i64, b: i64) -> Computed<'static>
    ensures { pure_of result ≡ operator BinaryOp.Div (Value.Int a) (Value.Int b) }
{
    if b == 0 {
        return Computed::Faults(Fault::Zero);
    }
    number(a.checked_div(b))
}

fn remainder(a: i64, b: i64) -> Computed<'static>
    ensures { pure_of result ≡ operator BinaryOp.Rem (Value.Int a) (Value.Int b) }
{
    if b == 0 {
        return Computed::Faults(Fault::Zero);
    }
    Computed::Fine(ValueRef::Int(a.wrapping_rem(b)))
}

fn sum(a: i64, b: i64) -> Computed<'static>
    ensures { pure_of result ≡ operator BinaryOp.Add (Value.Int a) (Value.Int b) }
{
    number(a.checked_add(b))
}

fn difference(a: i64, b: i64) -> Computed<'static>
    ensures { pure_of result ≡ operator BinaryOp.Sub (Value.Int a) (Value.Int b) }
{
    number(a.checked_sub(b))
}

fn product(a: i64, b: i64) -> Computed<'static>
    ensures { pure_of result ≡ operator BinaryOp.Mul (Value.Int a) (Value.Int b) }
{
    number(a.checked_mul(b))
}

/// What an operator gives of two numbers.
fn of_numbers(op: BinaryOp, a: i64, b: i64) -> Computed<'static>
    ensures { pure_of result ≡ operator op (Value.Int a) (Value.Int b) }
{
    match op {
        BinaryOp::Or => Computed::Wrong,
        BinaryOp::And => Computed::Wrong,
        BinaryOp::Eq => truth(a == b),
        BinaryOp::Ne => truth(a != b),
        BinaryOp::Lt => truth(a < b),
        BinaryOp::Le => truth(a <= b),
        BinaryOp::Gt => truth(a > b),
        BinaryOp::Ge => truth(a >= b),
        BinaryOp::Add => sum(a, b),
        BinaryOp::Sub => difference(a, b),
        BinaryOp::Mul => product(a, b),
        BinaryOp::Div => divided(a, b),
        BinaryOp::Rem => remainder(a, b),
    }
}

/// What an operator gives of two values that are not both numbers.
fn of_others(op: BinaryOp, v: &Value, w: &Value) -> Computed<'static>
    requires { number_in v.now ≡ None ⊎ number_in w.now ≡ None }
    ensures { pure_of result ≡ operator op v.now w.now }
{
    match op {
        BinaryOp::Eq => truth(same_values(v, w)),
        BinaryOp::Ne => truth(!same_values(v, w)),
        _ => Computed::Wrong,
    }
}

/// What an operator between two values gives.
pub fn operator(op: BinaryOp, v: &Value, w: &Value) -> Computed<'static>
    ensures { pure_of result ≡ operator op v.now w.now }
{
    let Some(a) = number_in(v) else {
        return of_others(op, v, w);
    };
    let Some(b) = number_in(w) else {
        return of_others(op, v, w);
    };
    of_numbers(op, a, b)
}

/// What an operator before a value gives.
pub fn prefix(op: UnaryOp, v: &Value) -> Computed<'static>
    ensures { pure_of result ≡ prefix op v.now }
{
    match (op, v) {
        (UnaryOp::Not, Value::Bool(b)) => truth(!*b),
        (UnaryOp::Neg, Value::Int(n)) => number(n.checked_neg()),
        _ => Computed::Wrong,
    }
}

/// An operator between the two top operands.
pub fn between(op: BinaryOp, stack: &Operands) -> OpEffect<'_>
    ensures { (locals : List Value) → did_of result locals stack.now ≡ between op stack.now }
{
    let Some(w) = stack.get(0) else {
        return OpEffect::Breaks;
    };
    let Some(v) = stack.get(1) else {
        return OpEffect::Breaks;
    };
    match operator(op, v, w) {
        Computed::Fine(value_ref) => OpEffect::Puts {
            takes: 2,
            value_ref,
        },
        Computed::Faults(fault) => OpEffect::Fails(fault),
        Computed::Wrong => OpEffect::Breaks,
    }
}

/// An operator before the top operand.
pub fn before(op: UnaryOp, stack: &Operands) -> OpEffect<'_>
    ensures { (locals : List Value) → did_of result locals stack.now ≡ before op stack.now }
{
    let Some(v) = stack.get(0) else {
        return OpEffect::Breaks;
    };
    match prefix(op, v) {
        Computed::Fine(value_ref) => OpEffect::Puts {
            takes: 1,
            value_ref,
        },
        Computed::Faults(fault) => OpEffect::Fails(fault),
        Computed::Wrong => OpEffect::Breaks,
    }
}

fn all_tags(values: &[Value]) -> bool
    ensures { result ≡ list_all (λ v. is_some (tag_in v)) values.now }
{
    values.iter().all(|v| tag_in(v).is_some())
}

/// Whether all values are tags.
fn are_tags(values: &[Value]) -> bool
    ensures { result ≡ is_some (tags_in values.now) }
{
    all_tags(values)
}

fn have_null(secrets: &[Value], vouchers: &[Value]) -> bool
    ensures { result ≡ some_null (secrets.now ++ vouchers.now) }
{
    some_null(secrets) || some_null(vouchers)
}

fn are_all_tags(secrets: &[Value], vouchers: &[Value]) -> bool
    ensures { result ≡ (is_some (tags_in secrets.now) && is_some (tags_in vouchers.now)) }
{
    are_tags(secrets) && are_tags(vouchers)
}

/// The label of tags of secrecy and of integrity.
pub fn label_from<'a>(secrets: &'a [Value], vouchers: &'a [Value]) -> Computed<'a>
    ensures { pure_of result ≡ label_from secrets.now vouchers.now }
{
    if have_null(secrets, vouchers) {
        return Computed::Faults(Fault::Null);
    }
    if are_all_tags(secrets, vouchers) {
        Computed::Fine(ValueRef::OfTags { secrets, vouchers })
    } else {
        Computed::Wrong
    }
}

/// Capabilities with the plus of a tag, or with its minus.
pub fn with_sign<'a>(sign: bool, c: &'a Value, t: &'a Value) -> Computed<'a>
    ensures { pure_of result ≡ with_sign sign c.now t.now }
{
    match c {
        Value::CapV { plus, minus } => match t {
            Value::Tag(tag) => Computed::Fine(ValueRef::Signed {
                sign,
                plus,
                minus,
                tag: *tag,
            }),
            Value::Nothing => Computed::Faults(Fault::Null),
            _ => Computed::Wrong,
        },
        Value::Nothing => match t {
            Value::Tag(_) => Computed::Faults(Fault::Null),
            Value::Nothing => Computed::Faults(Fault::Null),
            _ => Computed::Wrong,
        },
        _ => Computed::Wrong,
    }
}

/// The label of so many tags of secrecy and, above them, so many of integrity.
pub fn make_label(stack: &Operands, secrecy: u32, integrity: u32) -> OpEffect<'_>
    ensures { (locals : List Value) → did_of result locals stack.now ≡ labelled secrecy integrity stack.now }
{
    let takes = secrecy as usize + integrity as usize;
    let Some(tags) = stack.last_many(takes) else {
        return OpEffect::Breaks;
    };
    let (secrets, vouchers) = tags.split_at(secrecy as usize);
    match label_from(secrets, vouchers) {
        Computed::Fine(value_ref) => OpEffect::Puts { takes, value_ref },
        Computed::Faults(fault) => OpEffect::Fails(fault),
        Computed::Wrong => OpEffect::Breaks,
    }
}

/// Capabilities and a tag above them, to capabilities with the tag's plus or its minus.
pub fn add_cap(sign: bool, stack: &Operands) -> OpEffect<'_>
    ensures { (locals : List Value) → did_of result locals stack.now ≡ signs sign stack.now }
{
    let Some(t) = stack.get(0) else {
        return OpEffect::Breaks;
    };
    let Some(c) = stack.get(1) else {
        return OpEffect::Breaks;
    };
    match with_sign(sign, c, t) {
        Computed::Fine(value_ref) => OpEffect::Puts {
            takes: 2,
            value_ref,
        },
        Computed::Faults(fault) => OpEffect::Fails(fault),
        Computed::Wrong => OpEffect::Breaks,
    }
}
