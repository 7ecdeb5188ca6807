//! A thread that takes private turns, and between them the answer to its ask.

use crate::given::verified;
use capabilities::Caps;
use guarded_code::Verified;
use lam_asks::{Answer, Ask, let_go};
use lam_value::{ByteText, Values};
use std::alloc::Global;
use std::mem::forget;
use std::test::Fail;
use thread_core::{Standing, private_step, standing};
use thread_core_answers::take_answer;
use thread_core_state::LamThread;
use want_of_memory::NoMemory;

/// A thread asks after its first turn. With the answer it goes on, and it asks again after two more.
#[test]
fn thread_takes_its_answer(rt: HostRuntime) -> Result<(), Fail> {
    let code = verified(rt.alloc())?;
    let well = thread_goes_on(rt.alloc(), &code);
    forget(code);
    well
}

fn thread_goes_on(alloc: Global, code: &Verified) -> Result<(), Fail> {
    let mut thread = first_thread(alloc, code)?;
    let well = asks_twice(alloc, &mut thread, code);
    forget(thread);
    well
}

/// A thread at the first function of the code, without arguments and capabilities.
fn first_thread(alloc: Global, code: &Verified) -> Result<LamThread, NoMemory> {
    let args = Values::new(alloc);
    let caps = Caps::none(alloc);
    LamThread::start(alloc, code.code(), 0, args, caps)
}

fn asks_twice(alloc: Global, thread: &mut LamThread, code: &Verified) -> Result<(), Fail> {
    private_turn(thread, code)?;
    asks_now(thread, code)?;
    answered(alloc, thread, code)?;
    private_turn(thread, code)?;
    private_turn(thread, code)?;
    asks_now(thread, code)
}

/// Takes a private turn.
#[tactic(auto, using(crate::proofs::PrivateTurns::private_there))]
fn private_turn(thread: &mut LamThread, code: &Verified) -> Result<(), Fail> {
    match standing(thread, code) {
        Standing::Private => Ok(private_step(thread, code)?),
        _ => Err(Fail::new("no private turn")),
    }
}

fn asks_now(thread: &LamThread, code: &Verified) -> Result<(), Fail> {
    match standing(thread, code) {
        Standing::Shared => Ok(()),
        _ => Err(Fail::new("no ask")),
    }
}

/// The thread has said its word.
fn answered(alloc: Global, thread: &mut LamThread, code: &Verified) -> Result<(), NoMemory> {
    let bytes = ByteText::from_slice(alloc, b"word")?;
    let ask = Ask::Say { bytes };
    let taken = take_answer(thread, code, &ask, Answer::Done);
    let_go(ask);
    taken
}
