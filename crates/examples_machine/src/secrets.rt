//! Two worlds that differ in a secret, and look the same.

use crate::run::{Given, shows};
use lam_builtins::Builtin;
use lam_bytecode::{ArgKind, Op};
use lam_value::Kind;
use std::test::Fail;
use written_code::{Constant, Unit, UnitHead, Written};

/// In a region at the tag that it is given, makes as many things as a secret file says, and one more thing after it.
const SECRET_LOOP: Written<'static> = Written {
    units: &[
        Unit {
            head: UnitHead::Function {
                name: "main",
                takes: &[ArgKind::Tag],
            },
            locals: 2,
            ops: &[
                Op::Load(0),
                Op::MakeLabel {
                    secrecy: 1,
                    integrity: 0,
                },
                Op::NoCaps,
                Op::EnterRegion(0),
                Op::NewObject(0),
                Op::Store(1),
                Op::Const(0),
                Op::Return,
            ],
        },
        Unit {
            head: UnitHead::Region {
                captures: 0,
                catch_at: 20,
            },
            locals: 3,
            ops: &[
                Op::System(Builtin::Root),
                Op::Const(3),
                Op::System(Builtin::OpenFile),
                Op::Const(0),
                Op::Const(2),
                Op::System(Builtin::Read),
                Op::System(Builtin::Number),
                Op::Store(0),
                Op::Load(0),
                Op::Const(0),
                Op::Gt,
                Op::JumpIfFalse(19),
                Op::NewObject(0),
                Op::Store(1),
                Op::Load(0),
                Op::Const(1),
                Op::Sub,
                Op::Store(0),
                Op::Jump(8),
                Op::LeaveRegion,
                Op::Store(2),
                Op::LeaveRegion,
            ],
        },
    ],
    constants: &[
        Constant::Int(0),
        Constant::Int(1),
        Constant::Int(9),
        Constant::Bytes("s"),
    ],
    classes: &[&[Kind::Int]],
};

const SECRET_ZERO: &str =
    "{\"version\":1,\"tags\":[\"a\"],\"tree\":[{\"path\":\"s\",\"label\":\"{a}/{}\",\"text\":\"0\"}],\"pipes\":[],\"threads\":[{\"run\":\"main\",\"args\":[{\"tag\":\"a\"}],\"caps\":{\"plus\":[\"a\"],\"minus\":[]}}]}";

const SECRET_THREE: &str =
    "{\"version\":1,\"tags\":[\"a\"],\"tree\":[{\"path\":\"s\",\"label\":\"{a}/{}\",\"text\":\"3\"}],\"pipes\":[],\"threads\":[{\"run\":\"main\",\"args\":[{\"tag\":\"a\"}],\"caps\":{\"plus\":[\"a\"],\"minus\":[]}}]}";

/// The run of the loop from a world, by so many turns.
fn looped(world: &'static str, turns: &'static [(u32, u32)]) -> Given<'static> {
    Given {
        code: SECRET_LOOP,
        world,
        turns,
    }
}

/// Two worlds whose secrets differ look the same, though one run has more turns.
#[test]
fn two_secrets_one_output(rt: HostRuntime) -> Result<(), Fail> {
    let lines =
        "t0 {}/{} enter {a}/{} caps +{}-{} region 0 () = entered\nt0 {}/{} new class 0 = obj<{}/{}|{}/{}|0>\nt0 {}/{} end value 0 = done\ndone\n";
    shows(&rt, looped(SECRET_ZERO, &[(0, 21)]), "{}/{}", lines)?;
    shows(&rt, looped(SECRET_THREE, &[(0, 54)]), "{}/{}", lines)
}

/// A run that stops inside the secret region shows a front of that.
#[test]
fn stopped_runs_show_a_front(rt: HostRuntime) -> Result<(), Fail> {
    let lines = "t0 {}/{} enter {a}/{} caps +{}-{} region 0 () = entered\nready 0\n";
    shows(&rt, looped(SECRET_ZERO, &[(0, 5)]), "{}/{}", lines)?;
    shows(&rt, looped(SECRET_THREE, &[(0, 5)]), "{}/{}", lines)
}
