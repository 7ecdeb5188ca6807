//! A program that embeds lam, with four callers on one labelled world.
//!
//! Each caller acts by a seat of its own. Two users have a wage each, which is secret, and a plug-in serves both. It
//! may read what it likes, and holds no capability. It writes each user's tax where that user's wage is, and then tries
//! to carry Ann's wage to Bob. The host's caller starts the three others; these act at once, on threads of their own.
//! `story` has the program and the world that they act in, `callers` takes the turns, and `book_audit` reads the book of
//! what they did.
//!
//! It prints what each caller saw of its own turns, one caller after another, and the audit of the book. The number of
//! a turn depends on the order of the callers, so the audit is printed without it. Nothing is written to a file.
#![tactic(auto)]

mod book_audit;
mod callers;
mod stop;
mod story;

ghost use Rattle.std.specs.Prelude.{◌≡◌};

use crate::book_audit::audited;
use crate::callers::{Done, all_act};
use crate::stop::{Stop, not_opened};
use crate::story::{PROGRAM, WORLD};
use flow_labels::TagNames;
use seat_host::Closed;
use seat_opening::{Opened, open_run};
use std::alloc::Global;
use std::process::ExitCode;
use std::sync::Wait;
use std::thread::Threads;
use std::time::Clock;

fn main(rt: HostRuntime) -> ExitCode {
    match service(&rt, rt.alloc()) {
        Ok(text) => {
            if print!(rt; "{text}").is_ok() {
                ExitCode::SUCCESS
            } else {
                ExitCode::FAILURE
            }
        }
        Err(stop) => {
            let _ = println!(rt; "plugin_service: {}", stop.reason());
            ExitCode::FAILURE
        }
    }
}

/// What the callers saw, and the audit of their book.
fn service<R: Threads + Wait + Clock + Sync>(rt: &R, alloc: Global) -> Result<String, Stop> {
    match open_run(alloc, PROGRAM.as_bytes(), WORLD.as_bytes()) {
        Ok(opened) => served(rt, alloc, opened),
        Err(fault) => Err(not_opened(fault)),
    }
}

/// What the callers of a shared run saw, and the audit of its book.
fn served<R: Threads + Wait + Clock + Sync>(
    rt: &R,
    alloc: Global,
    opened: Opened,
) -> Result<String, Stop>
    requires { opened.seat.of ≡ opened.run }
{
    let Opened { run, seat, names } = opened;
    let Done { seat, lines } = all_act(rt, alloc, &run, &names, seat);
    match run.close(alloc, seat) {
        Ok(closed) => finished(alloc, closed, lines, names),
        Err(_) => Err(Stop::NotClosed),
    }
}

/// The text of a closed run.
fn finished(
    alloc: Global,
    closed: Closed,
    lines: Result<String, Stop>,
    names: TagNames,
) -> Result<String, Stop> {
    let audit = audited(alloc, closed, names)?;
    let mut text = lines?;
    text.push_str(audit.as_str())?;
    Ok(text)
}
