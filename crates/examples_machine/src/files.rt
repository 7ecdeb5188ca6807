//! Files: their greatest length, and the entries that may be made.

use crate::run::{Given, ends};
use lam_builtins::Builtin;
use lam_bytecode::Op;
use std::test::Fail;
use written_code::{Constant, Unit, UnitHead, Written};

/// Makes a file of 1,048,575 bytes, puts two more behind them, reads its length and its end, cuts it to three, reads
/// these, and makes it once more. Another thread makes an entry that no name has.
const FILLS: Written<'static> = Written {
    units: &[
        Unit {
            head: UnitHead::Function {
                name: "main",
                takes: &[],
            },
            locals: 2,
            ops: &[
                Op::System(Builtin::Root),
                Op::Const(0),
                Op::MakeLabel {
                    secrecy: 0,
                    integrity: 0,
                },
                Op::System(Builtin::MakeFile),
                Op::Store(0),
                Op::Const(1),
                Op::Store(1),
                Op::Load(1),
                Op::System(Builtin::Size),
                Op::Const(2),
                Op::Lt,
                Op::JumpIfFalse(17),
                Op::Load(1),
                Op::Load(1),
                Op::System(Builtin::Cat),
                Op::Store(1),
                Op::Jump(7),
                Op::Load(0),
                Op::System(Builtin::Length),
                Op::Const(3),
                Op::Lt,
                Op::JumpIfFalse(27),
                Op::Load(0),
                Op::Load(1),
                Op::System(Builtin::Append),
                Op::Pop,
                Op::Jump(17),
                Op::Load(0),
                Op::Load(1),
                Op::Const(4),
                Op::Const(2),
                Op::System(Builtin::Slice),
                Op::System(Builtin::Append),
                Op::Pop,
                Op::Load(0),
                Op::Const(5),
                Op::System(Builtin::Append),
                Op::Pop,
                Op::Load(0),
                Op::System(Builtin::Length),
                Op::Pop,
                Op::Load(0),
                Op::Const(6),
                Op::Const(7),
                Op::System(Builtin::Read),
                Op::Pop,
                Op::Load(0),
                Op::Const(8),
                Op::System(Builtin::Cut),
                Op::Pop,
                Op::Load(0),
                Op::Const(9),
                Op::Const(7),
                Op::System(Builtin::Read),
                Op::Pop,
                Op::System(Builtin::Root),
                Op::Const(0),
                Op::MakeLabel {
                    secrecy: 0,
                    integrity: 0,
                },
                Op::System(Builtin::MakeFile),
                Op::Const(9),
                Op::Return,
            ],
        },
        Unit {
            head: UnitHead::Function {
                name: "odd",
                takes: &[],
            },
            locals: 0,
            ops: &[
                Op::System(Builtin::Root),
                Op::Const(10),
                Op::MakeLabel {
                    secrecy: 0,
                    integrity: 0,
                },
                Op::System(Builtin::MakeFile),
                Op::Const(9),
                Op::Return,
            ],
        },
    ],
    constants: &[
        Constant::Bytes("f"),
        Constant::Bytes("z"),
        Constant::Int(65_536),
        Constant::Int(983_040),
        Constant::Int(1),
        Constant::Bytes("xy"),
        Constant::Int(1_048_575),
        Constant::Int(9),
        Constant::Int(3),
        Constant::Int(0),
        Constant::Bytes("a/b"),
    ],
    classes: &[],
};

/// A file has at most 1,048,576 bytes: of two more than one that fit, the first is kept. It can be cut to its first three.
/// An entry that is there is not made again, and none with a name that is no name.
#[test]
fn file_is_full_and_cut(rt: HostRuntime) -> Result<(), Fail> {
    let given = Given {
        code: FILLS,
        world: "{\"version\":1,\"tags\":[],\"tree\":[],\"pipes\":[],\"threads\":[{\"run\":\"main\",\"args\":[],\"caps\":{\"plus\":[],\"minus\":[]}},{\"run\":\"odd\",\"args\":[],\"caps\":{\"plus\":[],\"minus\":[]}}]}",
        turns: &[(0, 360), (1, 5)],
    };
    ends(
        &rt,
        given,
        "t0 {}/{} append file<{}/{}|{}/{}|1> \"xy\" = done\nt0 {}/{} length file<{}/{}|{}/{}|1> = 1048576\nt0 {}/{} read_file file<{}/{}|{}/{}|1> 1048575 9 = \"x\"\nt0 {}/{} cut file<{}/{}|{}/{}|1> 3 = done\nt0 {}/{} read_file file<{}/{}|{}/{}|1> 0 9 = \"zzz\"\nt0 {}/{} make_file dir<{}/{}|{}/{}|0> \"f\" {}/{} = failed Exists\nt0 {}/{} end Exists = done\nt1 {}/{} make_file dir<{}/{}|{}/{}|0> \"a/b\" {}/{} = failed BadName\nt1 {}/{} end BadName = done\ndone\n",
    )
}
