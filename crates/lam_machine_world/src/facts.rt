//! The facts of a world that an ask meets.

ghost use Rattle.std.specs.Prelude.{◌≡◌, ◌≤◌, length, slice_get, IfOk};
ghost use Rattle.std.specs.Option.{option_copied};
ghost use Rattle.thread_core_state.specs.Seen.{phase_of};
ghost use Rattle.lam_machine_rows.specs.Limits.{most_threads};
ghost use Rattle.lam_machine_rows.specs.Worlds.{World, result_in};
ghost use Rattle.lam_machine_rows.specs.Serving.{serve};
ghost use Rattle.lam_machine_rows.specs.Turns as turns;
ghost use Rattle.lam_machine_rows.specs.Turns.{is_bottom, is_living};
ghost use Rattle.lam_machine_rows.specs.Parts.{world_of};
ghost use Rattle.lam_machine_rows.specs.Meaning.{DoesAs};
ghost use Rattle.lam_machine_rows.specs.Acting.{acting_of};
ghost use Rattle.lam_machine_rows.specs.Serves.{Joins};
ghost use Rattle.lam_machine_rows.specs.Waits.{JoinsLiving};

use lam_asks::{Ask, Outcome};
use lam_machine_rows::{Acting, Served, Stores, serve};
use thread_core_state::{Context, LamThread, Phase};
use want_of_memory::NoMemory;

/// How a thread ended, or `None` where it lives or is not there.
pub fn result_of(threads: &[LamThread], thread: u32) -> Option<&Outcome>
    ensures { option_copied result ≡ result_in (slice_get threads.now thread) }
{
    match threads.get(thread as usize) {
        None => None,
        Some(thread) => thread.result(),
    }
}

/// Whether a thread is there and has not ended.
pub fn lives(threads: &[LamThread], thread: u32) -> bool
    ensures { result ≡ is_living (slice_get threads.now thread) }
{
    match threads.get(thread as usize) {
        None => false,
        Some(thread) => thread.result().is_none(),
    }
}

/// A context as the reference monitor sees it.
pub fn acting(c: &Context) -> Acting<'_>
    ensures { result ≡ acting_of c.now }
{
    Acting::new(
        c.label(),
        c.caps(),
        c.depth(),
        is_first(c.phase()),
        c.held(),
    )
}

fn is_first(phase: Phase) -> bool
    ensures { result ≡ is_bottom (phase_of phase) }
{
    matches!(phase, Phase::Bottom)
}

/// What an ask of a context is served by, in the world of stores and threads.
///
/// # Errors
///
/// `NoMemory` where memory is refused.
pub fn served_of(
    stores: &Stores,
    threads: &[LamThread],
    c: &Context,
    ask: &Ask,
) -> Result<Served, NoMemory>
    requires { length threads.now ≤ most_threads }
    ensures { IfOk result (λ d. DoesAs d (serve (world_of stores.now threads.now) c.now ask.now)) }
{
    let who = acting(c);
    let ended = joined(threads, ask);
    serve(stores, threads.len() as u32, ended, &who, ask)
}

/// How the thread ended that an ask joins, where it joins one.
fn joined<'a>(threads: &'a [LamThread], ask: &Ask) -> Option<&'a Outcome>
    ensures { (w : World) → w.threads ≡ threads.now → Joins w ask.now (option_copied result) }
{
    match ask {
        Ask::Join { thread } => result_of(threads, *thread),
        _ => None,
    }
}

/// Whether the thread lives that an ask joins, where it joins one.
fn joins_living(threads: &[LamThread], ask: &Ask) -> bool
    ensures { (w : World) → w.threads ≡ threads.now → JoinsLiving w ask.now result }
{
    match ask {
        Ask::Join { thread } => lives(threads, *thread),
        _ => false,
    }
}

/// Whether a context of a thread may make an ask, and the ask does not wait.
pub fn is_ready(stores: &Stores, threads: &[LamThread], thread: u32, c: &Context, ask: &Ask) -> bool
    ensures { result ≡ turns.is_ready (world_of stores.now threads.now) thread c.now ask.now }
{
    let who = acting(c);
    let living = joins_living(threads, ask);
    lam_machine_rows::is_ready(&stores.monitors, thread, living, &who, ask)
}
