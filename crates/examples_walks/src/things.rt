//! Asks for objects, arrays and monitors.

use crate::follows::MAIN;
use crate::tables::Line::{Did, Not};
use crate::tables::{Thread, departs_at_each};
use crate::written::Asks::{CopyTo, Ends, MonEnter, MonLeave, NewArray, NewObject, Read, Write};
use crate::written::Gets::{Done, Gives};
use crate::written::Is;
use crate::written::Is::{Arr, Bool, Int, Obj};
use lam_value::Kind;
use std::test::Fail;

const C: Is = Obj(&[], 0);

const A: Is = Arr(&[], 1, 3);

const COPY: Is = Arr(&[], 2, 3);

/// Makes an object and an array, writes and reads both, and copies the array while it holds the monitor of the object.
const THINGS: Thread = Thread {
    text: "class C { on: bool; n: int; } fn main(): int { let c: C = new C(); let a: [int] = new [int](3); c.n = 7; a[2] = c.n; c.n = a[1]; sync (c) { a = copy(a, label{;}); } return a[0]; }",
    begins: MAIN,
    lines: &[
        Did(NewObject(0, &[Bool(false), Int(0)]), Gives(C)),
        Not(NewObject(1, &[Bool(false), Int(0)])),
        Not(NewObject(0, &[Int(0), Int(0)])),
        Not(NewArray(Kind::Int, 3)),
        Did(NewArray(Kind::Int, 3), Gives(A)),
        Not(NewArray(Kind::Bool, 3)),
        Not(NewArray(Kind::Int, 2)),
        Not(NewObject(0, &[Bool(false), Int(0)])),
        Did(Write(C, 1, Int(7)), Done),
        Not(Write(A, 1, Int(7))),
        Not(Write(C, 0, Int(7))),
        Not(Write(C, 1, Int(8))),
        Not(Read(C, 1)),
        Did(Read(C, 1), Gives(Int(7))),
        Not(Read(A, 1)),
        Not(Read(C, 0)),
        Not(Write(C, 1, Int(7))),
        Did(Write(A, 2, Int(7)), Done),
        Not(Write(C, 2, Int(7))),
        Not(Write(A, 1, Int(7))),
        Not(Write(A, 2, Int(0))),
        Did(Read(A, 1), Gives(Int(4))),
        Not(Read(C, 1)),
        Not(Read(A, 2)),
        Did(Write(C, 1, Int(4)), Done),
        Not(Write(C, 1, Int(7))),
        Did(MonEnter(C), Done),
        Not(MonEnter(A)),
        Not(MonLeave(C)),
        Did(CopyTo(A, &[]), Gives(COPY)),
        Not(CopyTo(C, &[])),
        Not(CopyTo(A, &[0])),
        Did(MonLeave(C), Done),
        Not(MonLeave(A)),
        Not(MonEnter(C)),
        Did(Read(COPY, 0), Gives(Int(9))),
        Not(Read(A, 0)),
        Did(Ends(Int(9)), Done),
        Not(Ends(Int(0))),
    ],
};

#[test]
fn another_ask_for_a_thing_departs(rt: HostRuntime) -> Result<(), Fail> {
    departs_at_each(&rt, THINGS)
}
