//! The redundant barriers of a code, whose reference is tested already.
//!
//! The first code here has an access without its barrier, which is no break of a description.

use crate::breaks::{FUNCTION, with_constants};
use code_verify::describe;
use lam_bytecode::Op;
use std::test::Fail;
use written_code::{Unit, code_of};

/// The operations of a function of one parameter, and of some addresses whether a redundant barrier stands there.
struct Case {
    units: &'static [Unit<'static>],
    tested: &'static [(u32, bool)],
}

const CASES: [Case; 3] = [
    Case {
        units: &[Unit {
            head: FUNCTION,
            locals: 1,
            ops: &[Op::Load(0), Op::GetField(0), Op::Return],
        }],
        tested: &[(0, false), (1, false)],
    },
    Case {
        units: &[Unit {
            head: FUNCTION,
            locals: 1,
            ops: &[Op::Load(0), Op::ReadBarrier(0), Op::GetField(0), Op::Return],
        }],
        tested: &[(1, false)],
    },
    Case {
        units: &[Unit {
            head: FUNCTION,
            locals: 1,
            ops: &[
                Op::Load(0),
                Op::ReadBarrier(0),
                Op::Pop,
                Op::Load(0),
                Op::ReadBarrier(0),
                Op::GetField(0),
                Op::Return,
            ],
        }],
        tested: &[(1, false), (3, false), (4, true), (5, false), (7, false)],
    },
];

#[test]
fn facts_are_described(rt: HostRuntime) -> Result<(), Fail> {
    for case in &CASES {
        let code = code_of(rt.alloc(), with_constants(case.units))?;
        let described = describe(rt.alloc(), &code)?;
        for (at, tested) in case.tested {
            assert_eq!(rt; described.tested(&code, 0, *at), *tested, "at {at}");
        }
    }
    Ok(())
}
