//! Pipes: their contents, their order and their greatest number.

use crate::run::{Given, ends, shows};
use crate::worlds::{BARE, ONE_PIPE};
use lam_builtins::Builtin;
use lam_bytecode::{ArgKind, Op};
use std::test::Fail;
use written_code::{Constant, Unit, UnitHead, Written};

/// Sends the numbers from 0 to 1,024, and then receives for as long as they come in their order: how many came.
const FILLS: Written<'static> = Written {
    units: &[Unit {
        head: UnitHead::Function {
            name: "main",
            takes: &[ArgKind::Pipe],
        },
        locals: 2,
        ops: &[
            Op::Const(0),
            Op::Store(1),
            Op::Load(1),
            Op::Const(1),
            Op::Lt,
            Op::JumpIfFalse(16),
            Op::Load(0),
            Op::Load(1),
            Op::System(Builtin::Text),
            Op::System(Builtin::Send),
            Op::Pop,
            Op::Load(1),
            Op::Const(2),
            Op::Add,
            Op::Store(1),
            Op::Jump(2),
            Op::Const(0),
            Op::Store(1),
            Op::Load(0),
            Op::System(Builtin::Receive),
            Op::Load(1),
            Op::System(Builtin::Text),
            Op::Eq,
            Op::JumpIfFalse(29),
            Op::Load(1),
            Op::Const(2),
            Op::Add,
            Op::Store(1),
            Op::Jump(18),
            Op::Load(1),
            Op::Return,
        ],
    }],
    constants: &[Constant::Int(0), Constant::Int(1025), Constant::Int(1)],
    classes: &[],
};

/// Each of 1,025 sends is done, and 1,024 messages wait: the last one is lost, and nobody is told.
#[test]
fn pipe_keeps_1024_messages(rt: HostRuntime) -> Result<(), Fail> {
    let given = Given {
        code: FILLS,
        world: ONE_PIPE,
        turns: &[(0, 25_630)],
    };
    ends(
        &rt,
        given,
        "t0 {}/{} receive pipe<{}/{}|{}/{}|0> = \"1023\"\nt0 {}/{} receive pipe<{}/{}|{}/{}|0> = null\nt0 {}/{} end value 1024 = done\ndone\n",
    )
}

/// Sends capabilities, and receives bytes and then capabilities.
const SENDS_CAPS: Written<'static> = Written {
    units: &[Unit {
        head: UnitHead::Function {
            name: "main",
            takes: &[ArgKind::Pipe],
        },
        locals: 1,
        ops: &[
            Op::Load(0),
            Op::NoCaps,
            Op::System(Builtin::SendCaps),
            Op::Pop,
            Op::Load(0),
            Op::System(Builtin::Receive),
            Op::Pop,
            Op::Load(0),
            Op::System(Builtin::ReceiveCaps),
            Op::Pop,
            Op::Const(0),
            Op::Return,
        ],
    }],
    constants: &[Constant::Int(0)],
    classes: &[],
};

/// Who receives bytes gets none while capabilities are the first that wait, and these stay for who receives them.
#[test]
fn capabilities_wait_for_their_own_call(rt: HostRuntime) -> Result<(), Fail> {
    let given = Given {
        code: SENDS_CAPS,
        world: ONE_PIPE,
        turns: &[(0, 12)],
    };
    shows(
        &rt,
        given,
        "{}/{}",
        "t0 {}/{} send_caps pipe<{}/{}|{}/{}|0> +{}-{} = done\nt0 {}/{} receive pipe<{}/{}|{}/{}|0> = null\nt0 {}/{} receive_caps pipe<{}/{}|{}/{}|0> = +{}-{}\nt0 {}/{} end value 0 = done\ndone\n",
    )
}

/// Makes pipes without an end.
const MAKES: Written<'static> = Written {
    units: &[Unit {
        head: UnitHead::Function {
            name: "main",
            takes: &[],
        },
        locals: 0,
        ops: &[
            Op::MakeLabel {
                secrecy: 0,
                integrity: 0,
            },
            Op::System(Builtin::MakePipe),
            Op::Pop,
            Op::Jump(0),
        ],
    }],
    constants: &[],
    classes: &[],
};

/// One home has 4,096 pipes.
#[test]
fn home_of_pipes_is_full(rt: HostRuntime) -> Result<(), Fail> {
    let given = Given {
        code: MAKES,
        world: BARE,
        turns: &[(0, 16_387)],
    };
    ends(
        &rt,
        given,
        "t0 {}/{} make_pipe {}/{} = pipe<{}/{}|{}/{}|4095>\nt0 {}/{} make_pipe {}/{} = failed HomeFull\nt0 {}/{} end HomeFull = done\ndone\n",
    )
}
