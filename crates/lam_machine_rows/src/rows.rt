//! The dispatch of each ask to its row.

ghost use Rattle.std.specs.Prelude.{IfOk};
ghost use Rattle.std.specs.Option.{option_copied};
ghost use Rattle.thread_steps.specs.Threads.{Context};
ghost use Rattle.lam_machine_effects.specs.Worlds.{World};
ghost use Rattle.lam_machine_effects.specs.Serving.{serve};
ghost use Rattle.lam_machine_effects.specs.Meaning.{DoesAs};
ghost use Rattle.lam_machine_rows.specs.Serves.{ReadsWorld};

use crate::actor::Acting;
use crate::contexts::{done, enter, join, mint, release, spawn};
use crate::files::{
    append, cut, file_length, make_dir, make_file, open_dir, open_file, read_file, remove,
};
use crate::pipes::{make_pipe, receive, receive_caps, send, send_caps};
use crate::things::{copy_to, enter_monitor, leave_monitor, make_thing, read, write};
use lam_asks::{Ask, Outcome};
use lam_machine_effects::{Served, Stores};
use want_of_memory::NoMemory;

/// What an ask of a context is served by: its answer, and its effect on the stores. `threads` is how many threads there
/// are, and `ended` how the thread ended that the ask joins, where it joins one.
///
/// # Errors
///
/// `NoMemory` where memory is refused.
pub fn serve(
    stores: &Stores,
    threads: u32,
    ended: Option<&Outcome>,
    who: &Acting,
    ask: &Ask,
) -> Result<Served, NoMemory>
    ensures { IfOk result (λ d. (w : World) (c : Context) → ReadsWorld w c ask.now stores.now threads (option_copied ended.entry) who.now → DoesAs d (serve w c ask.now)) }
{
    let p = who.label();
    let caps = who.caps();
    let public = &stores.public;
    match ask {
        Ask::Read { r, at } => return read(&stores.heap, p, r, *at),
        Ask::Write { r, at, v } => return write(p, r, *at, v),
        Ask::New { shape } => return make_thing(&stores.heap, p, shape),
        Ask::CopyTo { r, own } => return copy_to(&stores.heap, p, caps, public, r, own),
        Ask::Mint => return Ok(mint(stores.tags, p)),
        Ask::Enter {
            label,
            caps: some,
            ..
        } => return Ok(enter(p, caps, public, who.depth(), label, some)),
        Ask::Leave => return Ok(done()),
        Ask::Barred(_) => return Ok(done()),
        Ask::Say { .. } => return Ok(done()),
        Ask::Caught(_) => return release(p, who.held()),
        Ask::Suppressed(_) => return release(p, who.held()),
        Ask::End(_) => return release(p, who.held()),
        Ask::MonEnter { r } => return enter_monitor(&stores.monitors, p, r),
        Ask::MonLeave { r } => return leave_monitor(r),
        Ask::MakeFile { dir, entry, own } => {
            return make_file(&stores.files, p, caps, public, dir, entry, own);
        }
        Ask::MakeDir { dir, entry, own } => {
            return make_dir(&stores.files, p, caps, public, dir, entry, own);
        }
        Ask::OpenFile { dir, entry } => return open_file(&stores.files, p, dir, entry),
        Ask::OpenDir { dir, entry } => return open_dir(&stores.files, p, dir, entry),
        Ask::Remove { dir, entry } => return remove(&stores.files, p, dir, entry),
        Ask::FileRead { file, at, n } => return read_file(&stores.files, p, file, *at, *n),
        Ask::FileLength { file } => return Ok(file_length(&stores.files, p, file)),
        Ask::Append { file, bytes } => return append(p, file, bytes),
        Ask::Cut { file, len } => return cut(p, file, *len),
        Ask::MakePipe { own } => return make_pipe(&stores.pipes, p, caps, public, own),
        Ask::Send { pipe, bytes } => return send(p, pipe, bytes),
        Ask::SendCaps { pipe, caps: sent } => return send_caps(p, caps, public, pipe, sent),
        Ask::Receive { pipe } => return receive(&stores.pipes, p, pipe),
        Ask::ReceiveCaps { pipe } => return receive_caps(&stores.pipes, p, pipe),
        Ask::Spawn {
            unit,
            args,
            caps: some,
        } => return spawn(threads, p, caps, public, *unit, args, some),
        Ask::Join { .. } => return join(ended, p),
    }
}
