//! The operations that stay, at their new addresses.

ghost use Rattle.std.specs.Prelude.{◌≡◌, ◌++◌, false, map, get_or, IfOk, OnOk};
ghost use Rattle.thinned_code.specs.Thinned.{moved_op, sifted};
ghost use Rattle.barrier_thin.specs.Addresses.{one_if};

use crate::remainder::Staying;
use lam_bytecode::Op;
use std::alloc::Global;
use want_of_memory::NoMemory;

/// An operation with the address that it names moved.
pub fn moved_op(staying: &Staying, op: Op) -> Op
    ensures { result ≡ moved_op staying.now op }
{
    match op {
        Op::Jump(to) => Op::Jump(staying.moved(to)),
        Op::JumpIfFalse(to) => Op::JumpIfFalse(staying.moved(to)),
        other => other,
    }
}

/// Puts an operation at the end, if the one at its address stays.
fn push_if_stays(out: &mut Vec<Op>, staying: &Staying, at: usize, op: Op) -> Result<(), NoMemory>
    ensures { OnOk result (out.new.items ≡ out.old.items ++ one_if (get_or staying.now at false) (moved_op staying.now op)) }
{
    if staying.stays(at) {
        out.push(moved_op(staying, op))?;
    }
    Ok(())
}

/// The operations that stay, each with the address that it names moved.
///
/// # Errors
///
/// `NoMemory` where memory is refused.
#[tactic(auto, using(crate::proofs::Moving::sift_next, crate::proofs::Moving::sift_end))]
pub fn moved_ops(alloc: Global, staying: &Staying, ops: &[Op]) -> Result<Vec<Op>, NoMemory>
    ensures { IfOk result (λ v. v.items ≡ sifted staying.now (map (moved_op staying.now) ops.now)) }
{
    let mut out = Vec::new(alloc);
    for i in 0..ops.len() {
        push_if_stays(&mut out, staying, i, ops[i])?;
    }
    Ok(out)
}
