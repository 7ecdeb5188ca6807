//! The opening of shared runs, from a program's and a world document's bytes.
//!
//! It is the first call of a program that embeds such a run. `run_inputs` reads the bytes as it does for the tool, and
//! the code that is run has no redundant barrier. So they are refused for the same faults, and the tool replays the book
//! of the run. `seat_host` has what comes then.
//!
//! A public promise rests on `open_run` (clauses `opened`, `seat`, `refused`): an embedded run starts as the tool's
//! does. Nothing here is a matter of speed.
#![tactic(auto)]

ghost use Rattle.std.specs.Prelude.{◌≡◌, IfOk, IfErr};
ghost use Rattle.lam_bytecode.specs.Codes.{IsCode};
ghost use Rattle.guarded_code_runs.specs.Worlds.{IsSound};
ghost use Rattle.run_inputs.specs.Inputs.{NoStart, NoRun};
ghost use Rattle.seat_host.specs.Seats.{new_seat};
ghost use Rattle.seat_opening.specs.Opens.{IsOpened, RunsFrom, Shares};

use flow_labels::TagNames;
use guarded_code::Verified;
use lam_machine_world::{World, let_go_world};
use run_inputs::{InputFault, run_code_of, start_in};
use seat_host::{Seat, SeatRun, let_go_verified};
use std::alloc::Global;
use want_of_memory::NoMemory;

/// A shared run with no turns, a seat of it that has seen nothing, and the names of its tags.
pub struct Opened {
    pub run: SeatRun,
    pub seat: Seat,
    pub names: TagNames,
}

/// A shared run of the program that bytes spell, from the world of a document.
///
/// # Errors
///
/// The first fault of the program, its first unit that is too long, or the first break of the document, in this order;
/// `NoMemory`.
pub fn open_run(alloc: Global, program: &[u8], world: &[u8]) -> Result<Opened, InputFault>
    ensures opened { IfOk result (IsOpened program.now world.now) }
    ensures seat { IfOk result (λ o. o.seat ≡ new_seat o.run) }
    ensures refused { IfErr result (NoRun program.now world.now) }
{
    match run_code_of(alloc, program) {
        Ok(code) => run_code(alloc, code, world),
        Err(fault) => Err(fault),
    }
}

/// A shared run of a code, from the world of a document.
fn run_code(alloc: Global, code: Verified, world: &[u8]) -> Result<Opened, InputFault>
    requires { IsCode code }
    ensures opened { IfOk result (RunsFrom code world.now) }
    ensures seat { IfOk result (λ o. o.seat ≡ new_seat o.run) }
    ensures refused { IfErr result (NoStart code world.now) }
{
    match start_in(alloc, &code, world) {
        Ok(start) => shared_or_none(alloc, code, start),
        Err(fault) => {
            let_go_verified(code);
            Err(fault)
        }
    }
}

/// A shared run of a code from a world, or want of memory.
fn shared_or_none(alloc: Global, code: Verified, start: World) -> Result<Opened, InputFault>
    requires sound { IsSound code start }
    ensures shares { IfOk result (Shares code start) }
    ensures err { IfErr result (λ fault. fault ≡ InputFault.NoMemory) }
{
    match shared(alloc, code, start) {
        Ok(opened) => Ok(opened),
        Err(_) => Err(InputFault::NoMemory),
    }
}

/// A shared run of a code from a world.
fn shared(alloc: Global, code: Verified, start: World) -> Result<Opened, NoMemory>
    requires sound { IsSound code start }
    ensures { IfOk result (Shares code start) }
{
    match start.stores().names.copy() {
        Ok(names) => seated(alloc, code, start, names),
        Err(error) => {
            let_go_verified(code);
            let_go_world(start);
            Err(error)
        }
    }
}

/// A shared run of a code from a world, with the names of its tags.
fn seated(alloc: Global, code: Verified, start: World, names: TagNames) -> Result<Opened, NoMemory>
    requires sound { IsSound code start }
    requires names { names ≡ start.names }
    ensures { IfOk result (Shares code start) }
{
    match SeatRun::new(alloc, code, start) {
        Ok((run, seat)) => Ok(Opened { run, seat, names }),
        Err(error) => Err(error),
    }
}
