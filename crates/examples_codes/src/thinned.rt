//! A code without barriers, which `thin` leaves as it is.

use barrier_thin::thin;
use code_verify::verify;
use lam_bytecode::{Op, listing};
use std::alloc::Global;
use std::test::Fail;
use written_code::{Constant, Unit, UnitHead, Written, code_of};

/// The code of a function that returns the sum of 1 and 2. Its last two operations would return null.
const SUM: Written<'static> = Written {
    units: &[Unit {
        head: UnitHead::Function {
            name: "main",
            takes: &[],
        },
        locals: 0,
        ops: &[
            Op::Const(0),
            Op::Const(1),
            Op::Add,
            Op::Return,
            Op::Const(2),
            Op::Return,
        ],
    }],
    constants: &[Constant::Int(1), Constant::Int(2), Constant::Nothing],
    classes: &[],
};

/// The listing of a code that was thinned. Fails where the thinned code has a break.
fn listing_of_thinned(alloc: Global, written: Written<'_>) -> Result<String, Fail> {
    let code = thin(alloc, code_of(alloc, written)?)?;
    let text = listing(alloc, &code)?;
    verify(alloc, code)?;
    Ok(text)
}

/// A sum is thinned to itself, and verified.
#[test]
fn sum_is_thinned_and_verified(rt: HostRuntime) -> Result<(), Fail> {
    let text = listing_of_thinned(rt.alloc(), SUM)?;
    assert_eq!(rt;
        text.as_str(),
        "unit 0 main locals 0\n0 const 1\n1 const 2\n2 add\n3 ret\n4 const null\n5 ret\n"
    );
    Ok(())
}
