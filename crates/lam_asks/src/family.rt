//! Families of asks.

ghost use Rattle.std.specs.Prelude.{◌≡◌};
ghost use Rattle.lam_asks.specs.Families.{family_of};

use crate::Ask;

/// What an ask is about.
#[derive(Clone, Copy)]
pub enum Family {
    /// An object or an array.
    Thing,
    /// An entry of a directory.
    Entry,
    File,
    Pipe,
    /// A region or a thread that begins or ends, or what is said.
    Thread,
    /// Nothing that it holds.
    Plain,
}

/// What an ask is about.
pub fn family_of(ask: &Ask) -> Family
    ensures { result ≡ family_of ask.now }
{
    match ask {
        Ask::Read { .. } => Family::Thing,
        Ask::Write { .. } => Family::Thing,
        Ask::New { .. } => Family::Thing,
        Ask::CopyTo { .. } => Family::Thing,
        Ask::MonEnter { .. } => Family::Thing,
        Ask::MonLeave { .. } => Family::Thing,
        Ask::MakeFile { .. } => Family::Entry,
        Ask::MakeDir { .. } => Family::Entry,
        Ask::OpenFile { .. } => Family::Entry,
        Ask::OpenDir { .. } => Family::Entry,
        Ask::Remove { .. } => Family::Entry,
        Ask::FileRead { .. } => Family::File,
        Ask::FileLength { .. } => Family::File,
        Ask::Append { .. } => Family::File,
        Ask::Cut { .. } => Family::File,
        Ask::MakePipe { .. } => Family::Pipe,
        Ask::Send { .. } => Family::Pipe,
        Ask::SendCaps { .. } => Family::Pipe,
        Ask::Receive { .. } => Family::Pipe,
        Ask::ReceiveCaps { .. } => Family::Pipe,
        Ask::Enter { .. } => Family::Thread,
        Ask::Spawn { .. } => Family::Thread,
        Ask::Say { .. } => Family::Thread,
        Ask::End(_) => Family::Thread,
        _ => Family::Plain,
    }
}
