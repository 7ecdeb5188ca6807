//! Threads that wait.

use crate::run::{Given, shows};
use crate::worlds::BARE;
use lam_builtins::Builtin;
use lam_bytecode::{ArgKind, Op};
use lam_value::Kind;
use std::test::Fail;
use written_code::{Constant, Unit, UnitHead, Written};

/// Starts a thread that joins the thread in a field, puts it into that field, and joins it.
const JOINS: Written<'static> = Written {
    units: &[
        Unit {
            head: UnitHead::Function {
                name: "kid",
                takes: &[ArgKind::Other],
            },
            locals: 1,
            ops: &[
                Op::Load(0),
                Op::ReadBarrier(0),
                Op::GetField(0),
                Op::Const(0),
                Op::Eq,
                Op::JumpIfFalse(7),
                Op::Jump(0),
                Op::Load(0),
                Op::ReadBarrier(0),
                Op::GetField(0),
                Op::System(Builtin::Join),
                Op::Return,
            ],
        },
        Unit {
            head: UnitHead::Function {
                name: "main",
                takes: &[],
            },
            locals: 2,
            ops: &[
                Op::NewObject(0),
                Op::Store(0),
                Op::NoCaps,
                Op::Load(0),
                Op::Spawn(0),
                Op::Store(1),
                Op::Load(0),
                Op::Load(1),
                Op::WriteBarrier(1),
                Op::PutField(0),
                Op::Load(1),
                Op::System(Builtin::Join),
                Op::Return,
            ],
        },
    ],
    constants: &[Constant::Nothing],
    classes: &[&[Kind::Null]],
};

/// A thread that joins itself waits, and so does the one that joins it.
#[test]
fn living_threads_all_wait(rt: HostRuntime) -> Result<(), Fail> {
    let given = Given {
        code: JOINS,
        world: BARE,
        turns: &[(0, 11), (1, 9)],
    };
    shows(
        &rt,
        given,
        "{}/{}",
        "t0 {}/{} new class 0 = obj<{}/{}|{}/{}|0>\nt0 {}/{} spawn 0 (obj<{}/{}|{}/{}|0>) caps +{}-{} = t1\nt0 {}/{} write obj<{}/{}|{}/{}|0> 0 t1 = done\nt1 {}/{} read obj<{}/{}|{}/{}|0> 0 = t1\nt1 {}/{} read obj<{}/{}|{}/{}|0> 0 = t1\nall wait\n",
    )
}

/// Takes the monitor of a new thing, starts a thread that takes it too, and ends with it in its hands.
const HOLDS: Written<'static> = Written {
    units: &[
        Unit {
            head: UnitHead::Function {
                name: "kid",
                takes: &[ArgKind::Other],
            },
            locals: 1,
            ops: &[Op::Load(0), Op::EnterMonitor, Op::Const(0), Op::Return],
        },
        Unit {
            head: UnitHead::Function {
                name: "main",
                takes: &[],
            },
            locals: 1,
            ops: &[
                Op::NewObject(0),
                Op::Store(0),
                Op::Load(0),
                Op::EnterMonitor,
                Op::NoCaps,
                Op::Load(0),
                Op::Spawn(0),
                Op::Pop,
                Op::Const(0),
                Op::Return,
            ],
        },
    ],
    constants: &[Constant::Int(0)],
    classes: &[&[Kind::Int]],
};

/// The run of these two threads, by so many turns.
fn held(turns: &'static [(u32, u32)]) -> Given<'static> {
    Given {
        code: HOLDS,
        world: BARE,
        turns,
    }
}

/// A thread is not ready while another one holds the monitor that it takes, and is as soon as that one has ended.
#[test]
fn monitors_are_free_when_their_holder_ends(rt: HostRuntime) -> Result<(), Fail> {
    shows(
        &rt,
        held(&[(0, 9), (1, 1)]),
        "{}/{}",
        "t0 {}/{} new class 0 = obj<{}/{}|{}/{}|0>\nt0 {}/{} lock obj<{}/{}|{}/{}|0> = done\nt0 {}/{} spawn 0 (obj<{}/{}|{}/{}|0>) caps +{}-{} = t1\nready 0\n",
    )?;
    shows(
        &rt,
        held(&[(0, 9), (1, 1), (0, 1)]),
        "{}/{}",
        "t0 {}/{} new class 0 = obj<{}/{}|{}/{}|0>\nt0 {}/{} lock obj<{}/{}|{}/{}|0> = done\nt0 {}/{} spawn 0 (obj<{}/{}|{}/{}|0>) caps +{}-{} = t1\nt0 {}/{} end value 0 = done\nready 1\n",
    )
}
