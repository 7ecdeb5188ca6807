//! A code that no compiler made, the documents of worlds, and runs of the code.

ghost use Rattle.std.specs.Prelude.{IfOk};
ghost use Rattle.lam_bytecode.specs.Codes.{IsCode};
ghost use Rattle.guarded_code_runs.specs.Worlds.{IsSound};

use code_verify::verify;
use guarded_code::Verified;
use lam_asks::let_go_event;
use lam_builtins::Builtin;
use lam_bytecode::Op;
use lam_machine_world::World;
use std::alloc::Global;
use std::test::Fail;
use thread_host_run::{Run, TURN_LIMIT};
use world_doc::start;
use world_doc_laws::starts_are_entered;
use written_code::{Constant, Unit, UnitHead, Written, code_of};

/// Says a word, and returns 0: five turns, of which the second and the last ask. A compiler would let null be returned after
/// that.
const SAYS: Written<'static> = Written {
    units: &[Unit {
        head: UnitHead::Function {
            name: "main",
            takes: &[],
        },
        locals: 0,
        ops: &[
            Op::Const(0),
            Op::System(Builtin::Say),
            Op::Pop,
            Op::Const(1),
            Op::Return,
        ],
    }],
    constants: &[Constant::Bytes("word"), Constant::Int(0)],
    classes: &[],
};

/// Thread 0 runs `main` on nothing, and holds nothing. A file with the tag `a` of secrecy has the text 0.
pub const ZERO: &str =
    "{\"version\":1,\"tags\":[\"a\"],\"tree\":[{\"path\":\"s\",\"label\":\"{a}/{}\",\"text\":\"0\"}],\"pipes\":[],\"threads\":[{\"run\":\"main\",\"args\":[],\"caps\":{\"plus\":[],\"minus\":[]}}]}";

/// The same, but for the text of the file.
pub const THREE: &str =
    "{\"version\":1,\"tags\":[\"a\"],\"tree\":[{\"path\":\"s\",\"label\":\"{a}/{}\",\"text\":\"3\"}],\"pipes\":[],\"threads\":[{\"run\":\"main\",\"args\":[],\"caps\":{\"plus\":[],\"minus\":[]}}]}";

/// The code, which has no break.
pub fn verified(alloc: Global) -> Result<Verified, Fail>
    ensures { IfOk result IsCode }
{
    verified_of(alloc, SAYS)
}

/// What is written down as a code, where it has no break.
pub fn verified_of(alloc: Global, written: Written<'_>) -> Result<Verified, Fail>
    ensures { IfOk result IsCode }
{
    Ok(verify(alloc, code_of(alloc, written)?)?)
}

/// The world of a document. Runs of the code from there are sound.
pub fn start_of(alloc: Global, code: &Verified, world: &str) -> Result<World, Fail>
    requires { IsCode code.now }
    ensures { IfOk result (IsSound code.now) }
{
    starts_are_entered();
    match start(alloc, world.as_bytes(), code.code()) {
        Ok(start) => Ok(start),
        Err(_) => Err(Fail::new("no world")),
    }
}

/// The run of the code from the world of a document, with no turns.
pub fn opened(alloc: Global, world: &str) -> Result<Run, Fail> {
    let code = verified(alloc)?;
    let start = start_of(alloc, &code, world)?;
    Ok(Run::new(alloc, code, start)?)
}

/// Takes so many turns of thread 0.
pub fn take_turns(run: &mut Run, count: u32) -> Result<(), Fail> {
    for _ in 0..count {
        take_turn(run)?;
    }
    Ok(())
}

fn take_turn(run: &mut Run) -> Result<(), Fail> {
    if run.turns().len() as u64 >= TURN_LIMIT || !run.ready(0) {
        return Err(Fail::new("not ready"));
    }
    let event = run.turn(0)?;
    let_go_event(event);
    Ok(())
}
