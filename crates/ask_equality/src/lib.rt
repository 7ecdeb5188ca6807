//! Equality of asks, of answers and of outcomes.
//!
//! An ask has thirty forms, and comparing two of them in place would be nine hundred cases in one function. So each
//! form has a test of its own, by family: whether an ask is this form with these parts. [`same_ask`] takes apart only
//! one of the two asks. Nothing allocates.
//!
//! `outcomes` compares faults, outcomes and answers; the other modules have the forms of asks.
//!
//! The promises of `pair` and `walk` rest on the three calls (the one clause of each): they answer whether two are
//! equal. Free to change for speed: in which order parts are compared.
#![tactic(auto)]

mod contexts;
mod entries;
mod files;
mod outcomes;
mod pipes;
mod things;

ghost use Rattle.std.specs.Prelude.{◌≡◌, ◌↔◌, IsTrue};

use crate::contexts::{
    is_barred, is_caught, is_end, is_entering, is_join, is_leaving, is_mint, is_say, is_spawn,
    is_suppressed,
};
use crate::entries::{is_dir_opening, is_file_opening, is_new_dir, is_new_file, is_removal};
use crate::files::{is_append, is_cut, is_file_length, is_file_read};
use crate::pipes::{is_caps_receive, is_caps_send, is_new_pipe, is_receive, is_send};
use crate::things::{is_copy, is_giving, is_new, is_read, is_taking, is_write};
use lam_asks::Ask;
pub use outcomes::{same_answer, same_outcome};

/// Whether two asks are equal.
pub fn same_ask(a: &Ask, b: &Ask) -> bool
    ensures { IsTrue result ↔ (a.now ≡ b.now) }
{
    match a {
        Ask::Read { r, at } => is_read(b, r, *at),
        Ask::Write { r, at, v } => is_write(b, r, *at, v),
        Ask::New { shape } => is_new(b, shape),
        Ask::CopyTo { r, own } => is_copy(b, r, own),
        Ask::MonEnter { r } => is_taking(b, r),
        Ask::MonLeave { r } => is_giving(b, r),
        Ask::MakeFile { dir, entry, own } => is_new_file(b, dir, entry, own),
        Ask::MakeDir { dir, entry, own } => is_new_dir(b, dir, entry, own),
        Ask::OpenFile { dir, entry } => is_file_opening(b, dir, entry),
        Ask::OpenDir { dir, entry } => is_dir_opening(b, dir, entry),
        Ask::Remove { dir, entry } => is_removal(b, dir, entry),
        Ask::FileRead { file, at, n } => is_file_read(b, file, *at, *n),
        Ask::FileLength { file } => is_file_length(b, file),
        Ask::Append { file, bytes } => is_append(b, file, bytes),
        Ask::Cut { file, len } => is_cut(b, file, *len),
        Ask::MakePipe { own } => is_new_pipe(b, own),
        Ask::Send { pipe, bytes } => is_send(b, pipe, bytes),
        Ask::SendCaps { pipe, caps } => is_caps_send(b, pipe, caps),
        Ask::Receive { pipe } => is_receive(b, pipe),
        Ask::ReceiveCaps { pipe } => is_caps_receive(b, pipe),
        Ask::Mint => is_mint(b),
        Ask::Enter {
            label,
            caps,
            region,
            args,
        } => is_entering(b, label, caps, *region, args),
        Ask::Leave => is_leaving(b),
        Ask::Barred(denied) => is_barred(b, *denied),
        Ask::Caught(fault) => is_caught(b, *fault),
        Ask::Suppressed(fault) => is_suppressed(b, *fault),
        Ask::Spawn { unit, args, caps } => is_spawn(b, *unit, args, caps),
        Ask::Join { thread } => is_join(b, *thread),
        Ask::Say { bytes } => is_say(b, bytes),
        Ask::End(outcome) => is_end(b, outcome),
    }
}
