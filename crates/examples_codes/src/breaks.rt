//! Codes and their first breaks. Such a break is in the least unit that has one, of the first rule that is broken, at
//! its least address.

use code_verify::{VerifyFault, is_guarded, verify};
use lam_bytecode::{ArgKind, Op};
use std::alloc::Global;
use std::test::Fail;
use written_code::{Constant, Unit, UnitHead, Written, code_of};

/// A function of one parameter.
pub const FUNCTION: UnitHead<'static> = UnitHead::Function {
    name: "f",
    takes: &[ArgKind::Other],
};

/// The code of these units, with the constants `true` and 1.
pub fn with_constants(units: &'static [Unit<'static>]) -> Written<'static> {
    Written {
        units,
        constants: &[Constant::Bool(true), Constant::Int(1)],
        classes: &[],
    }
}

/// The units of a code, and its first break.
struct Case {
    says: &'static str,
    units: &'static [Unit<'static>],
    fault: Option<VerifyFault>,
}

const CASES: [Case; 14] = [
    Case {
        says: "a field is read that was not tested",
        units: &[Unit {
            head: FUNCTION,
            locals: 1,
            ops: &[Op::Load(0), Op::GetField(0), Op::Return],
        }],
        fault: Some(VerifyFault::Unguarded { unit: 0, at: 1 }),
    },
    Case {
        says: "it was tested",
        units: &[Unit {
            head: FUNCTION,
            locals: 1,
            ops: &[Op::Load(0), Op::ReadBarrier(0), Op::GetField(0), Op::Return],
        }],
        fault: None,
    },
    Case {
        says: "it was tested for the other access",
        units: &[Unit {
            head: FUNCTION,
            locals: 1,
            ops: &[
                Op::Load(0),
                Op::WriteBarrier(0),
                Op::GetField(0),
                Op::Return,
            ],
        }],
        fault: Some(VerifyFault::Unguarded { unit: 0, at: 2 }),
    },
    Case {
        says: "a jump leads out of the unit",
        units: &[Unit {
            head: FUNCTION,
            locals: 1,
            ops: &[Op::Jump(9)],
        }],
        fault: Some(VerifyFault::BadTarget { unit: 0, at: 0 }),
    },
    Case {
        says: "nothing is there to be added",
        units: &[Unit {
            head: FUNCTION,
            locals: 1,
            ops: &[Op::Add, Op::Return],
        }],
        fault: Some(VerifyFault::Depth { unit: 0, at: 0 }),
    },
    Case {
        says: "a truth value is added",
        units: &[Unit {
            head: FUNCTION,
            locals: 1,
            ops: &[Op::Const(0), Op::Const(1), Op::Add, Op::Return],
        }],
        fault: Some(VerifyFault::Kind { unit: 0, at: 2 }),
    },
    Case {
        says: "at the entry a local that is no parameter is null, and no number",
        units: &[Unit {
            head: FUNCTION,
            locals: 2,
            ops: &[Op::Load(1), Op::Const(1), Op::Add, Op::Return],
        }],
        fault: Some(VerifyFault::Kind { unit: 0, at: 2 }),
    },
    Case {
        says: "a unit has no operation to enter at",
        units: &[Unit {
            head: FUNCTION,
            locals: 1,
            ops: &[],
        }],
        fault: Some(VerifyFault::BadTarget { unit: 0, at: 0 }),
    },
    Case {
        says: "a catch place stands outside of its unit",
        units: &[Unit {
            head: UnitHead::Region {
                captures: 1,
                catch_at: 9,
            },
            locals: 2,
            ops: &[Op::LeaveRegion],
        }],
        fault: Some(VerifyFault::BadTarget { unit: 0, at: 0 }),
    },
    Case {
        says: "in a catch place no local is tested any more",
        units: &[Unit {
            head: UnitHead::Region {
                captures: 1,
                catch_at: 1,
            },
            locals: 2,
            ops: &[
                Op::LeaveRegion,
                Op::Store(1),
                Op::Load(0),
                Op::GetField(0),
                Op::Pop,
                Op::LeaveRegion,
            ],
        }],
        fault: Some(VerifyFault::Unguarded { unit: 0, at: 3 }),
    },
    Case {
        says: "the fault's number stands at a catch place, and nothing at the entry",
        units: &[Unit {
            head: UnitHead::Region {
                captures: 1,
                catch_at: 0,
            },
            locals: 2,
            ops: &[Op::LeaveRegion],
        }],
        fault: Some(VerifyFault::Depth { unit: 0, at: 0 }),
    },
    Case {
        says: "the units before are well",
        units: &[
            Unit {
                head: FUNCTION,
                locals: 1,
                ops: &[Op::Load(0), Op::Return],
            },
            Unit {
                head: FUNCTION,
                locals: 1,
                ops: &[Op::Load(0), Op::Call(0), Op::Return],
            },
            Unit {
                head: FUNCTION,
                locals: 1,
                ops: &[
                    Op::Load(0),
                    Op::Load(0),
                    Op::PutField(0),
                    Op::Load(0),
                    Op::Return,
                ],
            },
        ],
        fault: Some(VerifyFault::Unguarded { unit: 2, at: 2 }),
    },
    Case {
        says: "a kind comes before an access, though it stands behind it",
        units: &[Unit {
            head: FUNCTION,
            locals: 1,
            ops: &[
                Op::Load(0),
                Op::GetField(0),
                Op::Const(0),
                Op::Add,
                Op::Return,
            ],
        }],
        fault: Some(VerifyFault::Kind { unit: 0, at: 3 }),
    },
    Case {
        says: "in the second round of a loop another value is read from",
        units: &[Unit {
            head: FUNCTION,
            locals: 1,
            ops: &[
                Op::Load(0),
                Op::ReadBarrier(0),
                Op::Pop,
                Op::Load(0),
                Op::GetField(0),
                Op::Store(0),
                Op::Jump(3),
            ],
        }],
        fault: Some(VerifyFault::Unguarded { unit: 0, at: 4 }),
    },
];

/// The first break of a code, as `verify` says it, where `is_guarded` agrees that there is one.
fn fault_of(alloc: Global, written: Written<'_>) -> Result<Option<VerifyFault>, Fail> {
    let code = code_of(alloc, written)?;
    let guarded = is_guarded(alloc, &code)?;
    match verify(alloc, code) {
        Ok(_) if guarded => Ok(None),
        Err(fault) if !guarded => Ok(Some(fault)),
        _ => Err(Fail::new("the calls differ")),
    }
}

#[test]
fn verifier_names_the_break(rt: HostRuntime) -> Result<(), Fail> {
    for case in &CASES {
        let fault = fault_of(rt.alloc(), with_constants(case.units))?;
        assert_eq!(rt; fault, case.fault, "where {}", case.says);
    }
    Ok(())
}
