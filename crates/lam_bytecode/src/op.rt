//! The operations of the bytecode.

use lam_builtins::Builtin;
use lam_value::Kind;

/// An operation. `a b -> c` says what is taken from the operand stack, the last one its top, and what is put there.
#[derive(Clone, Copy, Debug, PartialEq, Eq)]
pub enum Op {
    /// `-> v`, the constant with this number.
    Const(u32),
    /// `-> v`, the local with this number.
    Load(u32),
    /// `v ->`, into the local with this number.
    Store(u32),
    /// `v ->`
    Pop,
    /// `a b -> c`, numbers; Overflow.
    Add,
    /// `a b -> c`, numbers; Overflow.
    Sub,
    /// `a b -> c`, numbers; Overflow.
    Mul,
    /// `a b -> c`, numbers, towards zero; Zero, Overflow.
    Div,
    /// `a b -> c`, numbers, with the sign of a; Zero.
    Rem,
    /// `a -> b`, a number; Overflow.
    Neg,
    /// `a -> b`, a truth value.
    Not,
    /// `a b -> c`, whether two values are equal.
    Eq,
    /// `a b -> c`, whether two values differ.
    Ne,
    /// `a b -> c`, numbers.
    Lt,
    /// `a b -> c`, numbers.
    Le,
    /// `a b -> c`, numbers.
    Gt,
    /// `a b -> c`, numbers.
    Ge,
    /// Goes on at this address.
    Jump(u32),
    /// `b ->`, goes on at this address where it is false.
    JumpIfFalse(u32),
    /// `arguments -> result later`, the unit with this number; Deep.
    Call(u32),
    /// `v ->`, the result of the call; of a thread's first call, its end.
    Return,
    /// `n ->`, raises the fault with this number.
    Throw,
    /// Tests that the reference so far below the top may be read; Null.
    ReadBarrier(u32),
    /// Tests that the reference so far below the top may be written; Null.
    WriteBarrier(u32),
    /// `r -> v`, the field with this number.
    GetField(u32),
    /// `r v ->`, the field with this number.
    PutField(u32),
    /// `r i -> v`; Index.
    GetElement,
    /// `r i v ->`; Index.
    PutElement,
    /// `-> r`, an object of the class with this number.
    NewObject(u32),
    /// `n -> r`, an array of elements of this kind; Long.
    NewArray(Kind),
    /// `tags -> l`, a label of so many tags of secrecy and, above them, so many of integrity; Null.
    MakeLabel { secrecy: u32, integrity: u32 },
    /// `-> c`, no capabilities.
    NoCaps,
    /// `c t -> c`, with the plus of a tag; Null.
    WithPlus,
    /// `c t -> c`, with the minus of a tag; Null.
    WithMinus,
    /// `arguments -> result`, a built-in call; null where it has no result.
    System(Builtin),
    /// `r ->`, takes the monitor; Null.
    EnterMonitor,
    /// `r ->`, gives the monitor back; Null.
    LeaveMonitor,
    /// `l c captures ->`, enters the region with this number; Null.
    EnterRegion(u32),
    /// Leaves the region.
    LeaveRegion,
    /// `c arguments -> t`, a new thread that runs the unit with this number; Null.
    Spawn(u32),
}
