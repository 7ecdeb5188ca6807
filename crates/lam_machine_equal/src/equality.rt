//! Equality of two codes.

ghost use Rattle.std.specs.Prelude.{◌≡◌, ◌↔◌, IsTrue, length};

use lam_bytecode::{ArgKind, ArgKinds, Code, CodeUnit, FunctionName, Kinds, Op, Ops, UnitKind};
use lam_value::{Kind, same_values};

/// Whether two codes are equal. Takes no memory.
pub fn same_code(a: &Code, b: &Code) -> bool
    ensures { IsTrue result ↔ (a.now ≡ b.now) }
{
    same_units(a.units(), b.units())
        && same_values(a.constants(), b.constants())
        && same_classes(a.classes(), b.classes())
}

fn same_units(a: &[CodeUnit], b: &[CodeUnit]) -> bool
    ensures { IsTrue result ↔ (a.now ≡ b.now) }
{
    a.len() == b.len() && begin_with_units(a, b)
}

/// Whether the first units of a list are those of another one that is as long.
fn begin_with_units(a: &[CodeUnit], b: &[CodeUnit]) -> bool
    requires { length a.now ≡ length b.now }
    ensures { IsTrue result ↔ (a.now ≡ b.now) }
{
    for at in 0..a.len() {
        if !same_unit(&a[at], &b[at]) {
            return false;
        }
    }
    true
}

fn same_unit(a: &CodeUnit, b: &CodeUnit) -> bool
    ensures { IsTrue result ↔ (a.now ≡ b.now) }
{
    a.locals == b.locals && same_unit_kind(&a.kind, &b.kind) && same_ops(&a.ops, &b.ops)
}

fn same_unit_kind(a: &UnitKind, b: &UnitKind) -> bool
    ensures { IsTrue result ↔ (a.now ≡ b.now) }
{
    match a {
        UnitKind::Function {
            name,
            takes,
            gives_int,
        } => {
            matches!(b, UnitKind::Function { name: n, takes: t, gives_int: g } if gives_int == g && same_name(name, n) && same_arg_kinds(takes, t))
        }
        UnitKind::Region {
            region,
            captures,
            catch_at,
        } => {
            matches!(b, UnitKind::Region { region: r, captures: c, catch_at: at } if region == r && captures == c && catch_at == at)
        }
    }
}

fn same_name(a: &FunctionName, b: &FunctionName) -> bool
    ensures { IsTrue result ↔ (a.now ≡ b.now) }
{
    a.as_str() == b.as_str()
}

fn same_arg_kinds(a: &ArgKinds, b: &ArgKinds) -> bool
    ensures { IsTrue result ↔ (a.now ≡ b.now) }
{
    let a = a.as_slice();
    let b = b.as_slice();
    a.len() == b.len() && begin_with_arg_kinds(a, b)
}

/// Whether the first kinds of a list are those of another one that is as long.
fn begin_with_arg_kinds(a: &[ArgKind], b: &[ArgKind]) -> bool
    requires { length a.now ≡ length b.now }
    ensures { IsTrue result ↔ (a.now ≡ b.now) }
{
    for at in 0..a.len() {
        if a[at] != b[at] {
            return false;
        }
    }
    true
}

fn same_ops(a: &Ops, b: &Ops) -> bool
    ensures { IsTrue result ↔ (a.now ≡ b.now) }
{
    let a = a.as_slice();
    let b = b.as_slice();
    a.len() == b.len() && begin_with_ops(a, b)
}

/// Whether the first operations of a list are those of another one that is as long.
fn begin_with_ops(a: &[Op], b: &[Op]) -> bool
    requires { length a.now ≡ length b.now }
    ensures { IsTrue result ↔ (a.now ≡ b.now) }
{
    for at in 0..a.len() {
        if !same_op(a[at], b[at]) {
            return false;
        }
    }
    true
}

fn same_op(a: Op, b: Op) -> bool
    ensures { IsTrue result ↔ (a ≡ b) }
{
    match a {
        Op::Const(m) => matches!(b, Op::Const(n) if m == n),
        Op::Load(m) => matches!(b, Op::Load(n) if m == n),
        Op::Store(m) => matches!(b, Op::Store(n) if m == n),
        Op::Pop => matches!(b, Op::Pop),
        Op::Add => matches!(b, Op::Add),
        Op::Sub => matches!(b, Op::Sub),
        Op::Mul => matches!(b, Op::Mul),
        Op::Div => matches!(b, Op::Div),
        Op::Rem => matches!(b, Op::Rem),
        Op::Neg => matches!(b, Op::Neg),
        Op::Not => matches!(b, Op::Not),
        Op::Eq => matches!(b, Op::Eq),
        Op::Ne => matches!(b, Op::Ne),
        Op::Lt => matches!(b, Op::Lt),
        Op::Le => matches!(b, Op::Le),
        Op::Gt => matches!(b, Op::Gt),
        Op::Ge => matches!(b, Op::Ge),
        Op::Jump(m) => matches!(b, Op::Jump(n) if m == n),
        Op::JumpIfFalse(m) => matches!(b, Op::JumpIfFalse(n) if m == n),
        Op::Call(m) => matches!(b, Op::Call(n) if m == n),
        Op::Return => matches!(b, Op::Return),
        Op::Throw => matches!(b, Op::Throw),
        Op::ReadBarrier(m) => matches!(b, Op::ReadBarrier(n) if m == n),
        Op::WriteBarrier(m) => matches!(b, Op::WriteBarrier(n) if m == n),
        Op::GetField(m) => matches!(b, Op::GetField(n) if m == n),
        Op::PutField(m) => matches!(b, Op::PutField(n) if m == n),
        Op::GetElement => matches!(b, Op::GetElement),
        Op::PutElement => matches!(b, Op::PutElement),
        Op::NewObject(m) => matches!(b, Op::NewObject(n) if m == n),
        Op::NewArray(m) => matches!(b, Op::NewArray(n) if m == n),
        Op::MakeLabel { secrecy, integrity } => {
            matches!(b, Op::MakeLabel { secrecy: s, integrity: i } if secrecy == s && integrity == i)
        }
        Op::NoCaps => matches!(b, Op::NoCaps),
        Op::WithPlus => matches!(b, Op::WithPlus),
        Op::WithMinus => matches!(b, Op::WithMinus),
        Op::System(m) => matches!(b, Op::System(n) if m == n),
        Op::EnterMonitor => matches!(b, Op::EnterMonitor),
        Op::LeaveMonitor => matches!(b, Op::LeaveMonitor),
        Op::EnterRegion(m) => matches!(b, Op::EnterRegion(n) if m == n),
        Op::LeaveRegion => matches!(b, Op::LeaveRegion),
        Op::Spawn(m) => matches!(b, Op::Spawn(n) if m == n),
    }
}

fn same_classes(a: &[Kinds], b: &[Kinds]) -> bool
    ensures { IsTrue result ↔ (a.now ≡ b.now) }
{
    a.len() == b.len() && begin_with_classes(a, b)
}

/// Whether the first classes of a list are those of another one that is as long.
fn begin_with_classes(a: &[Kinds], b: &[Kinds]) -> bool
    requires { length a.now ≡ length b.now }
    ensures { IsTrue result ↔ (a.now ≡ b.now) }
{
    for at in 0..a.len() {
        if !same_kinds(&a[at], &b[at]) {
            return false;
        }
    }
    true
}

fn same_kinds(a: &Kinds, b: &Kinds) -> bool
    ensures { IsTrue result ↔ (a.now ≡ b.now) }
{
    let a = a.as_slice();
    let b = b.as_slice();
    a.len() == b.len() && begin_with_kinds(a, b)
}

/// Whether the first kinds of a list are those of another one that is as long.
fn begin_with_kinds(a: &[Kind], b: &[Kind]) -> bool
    requires { length a.now ≡ length b.now }
    ensures { IsTrue result ↔ (a.now ≡ b.now) }
{
    for at in 0..a.len() {
        if a[at] != b[at] {
            return false;
        }
    }
    true
}
