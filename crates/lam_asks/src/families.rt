//! The dropping of asks, family by family.
//!
//! What an ask holds is moved into `drop`, one call each. Dropped in place, each part would have its own drop written
//! out in the function. Then the steps of a function that drops several would multiply.

ghost use Rattle.std.specs.Prelude.{◌≡◌};
ghost use Rattle.lam_asks.specs.Families.{family_of};

use crate::Ask;
use crate::family::{Family, family_of};

/// Lets an ask go.
pub fn let_go(ask: Ask) {
    match family_of(&ask) {
        Family::Thing => let_go_of_thing(ask),
        Family::Entry => let_go_of_entry(ask),
        Family::File => let_go_of_file(ask),
        Family::Pipe => let_go_of_pipe(ask),
        Family::Thread => let_go_of_thread(ask),
        Family::Plain => let_go_of_plain(ask),
    }
}

fn let_go_of_thing(ask: Ask)
    requires { family_of ask ≡ Family.Thing }
{
    match ask {
        Ask::Read { r, .. } => drop(r),
        Ask::Write { r, v, .. } => {
            drop(r);
            drop(v);
        }
        Ask::New { shape } => drop(shape),
        Ask::CopyTo { r, own } => {
            drop(r);
            drop(own);
        }
        Ask::MonEnter { r } => drop(r),
        Ask::MonLeave { r } => drop(r),
        _ => unreachable!(),
    }
}

fn let_go_of_entry(ask: Ask)
    requires { family_of ask ≡ Family.Entry }
{
    match ask {
        Ask::MakeFile { dir, entry, own } => {
            drop(dir);
            drop(entry);
            drop(own);
        }
        Ask::MakeDir { dir, entry, own } => {
            drop(dir);
            drop(entry);
            drop(own);
        }
        Ask::OpenFile { dir, entry } => {
            drop(dir);
            drop(entry);
        }
        Ask::OpenDir { dir, entry } => {
            drop(dir);
            drop(entry);
        }
        Ask::Remove { dir, entry } => {
            drop(dir);
            drop(entry);
        }
        _ => unreachable!(),
    }
}

fn let_go_of_file(ask: Ask)
    requires { family_of ask ≡ Family.File }
{
    match ask {
        Ask::FileRead { file, .. } => drop(file),
        Ask::FileLength { file } => drop(file),
        Ask::Append { file, bytes } => {
            drop(file);
            drop(bytes);
        }
        Ask::Cut { file, .. } => drop(file),
        _ => unreachable!(),
    }
}

fn let_go_of_pipe(ask: Ask)
    requires { family_of ask ≡ Family.Pipe }
{
    match ask {
        Ask::MakePipe { own } => drop(own),
        Ask::Send { pipe, bytes } => {
            drop(pipe);
            drop(bytes);
        }
        Ask::SendCaps { pipe, caps } => {
            drop(pipe);
            drop(caps);
        }
        Ask::Receive { pipe } => drop(pipe),
        Ask::ReceiveCaps { pipe } => drop(pipe),
        _ => unreachable!(),
    }
}

fn let_go_of_thread(ask: Ask)
    requires { family_of ask ≡ Family.Thread }
{
    match ask {
        Ask::Enter {
            label,
            caps,
            args,
            ..
        } => {
            drop(label);
            drop(caps);
            drop(args);
        }
        Ask::Spawn { args, caps, .. } => {
            drop(args);
            drop(caps);
        }
        Ask::Say { bytes } => drop(bytes),
        Ask::End(outcome) => drop(outcome),
        _ => unreachable!(),
    }
}

fn let_go_of_plain(ask: Ask)
    requires { family_of ask ≡ Family.Plain }
{
    match ask {
        Ask::Mint => {}
        Ask::Leave => {}
        Ask::Barred(_) => {}
        Ask::Caught(_) => {}
        Ask::Suppressed(_) => {}
        Ask::Join { .. } => {}
        _ => unreachable!(),
    }
}
