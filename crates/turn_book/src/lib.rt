//! A reader and a writer of books, the texts of schedules.
//!
//! A *book* is a schedule: which thread takes each turn of a run. A run can be replayed from its book, turn for turn.
//! The text is the line `lam book 1`, and then a line `THREAD COUNT` for each maximal sequence of turns of one thread.
//! So each book has one text, and each text is that of at most one book.
//!
//! A text that is no book is refused at its least broken line, with what is broken there; the head is line 1. Both ways
//! take time linear in the text and the turns.
//!
//! The promises of runs and replays rest on `read_book` (clauses `ok`, `only`, `broken` and `value`) and on
//! `write_book`. Free to change for speed: how lines are cut, and how the turns are put after one another.
#![tactic(auto)]

mod limits;
mod lines;

ghost use Rattle.std.specs.Prelude.{◌≡◌, ℕ, List, Ok, IfOk, IfErr};
ghost use Rattle.turn_book.specs.Book.{AreTurns, IsBroken, StretchesAreLongest, book};
ghost use Rattle.turn_book.specs.Reading.{Gives, turns_of};
ghost use Rattle.turn_book.specs.declared.BookFault.TheVariants.{NoMemory as no_memory};

pub use crate::limits::{LAST_THREAD, TURN_LIMIT, WORKER_LIMIT};
use crate::lines::{push_line, read_lines, stretch_len};
use std::alloc::{AllocError, AllocFailed, Global};
use std::marker::Model;
use want_of_memory::NoMemory;

/// Why a text is no book. Of several breaks in one line the first in this order is named.
#[derive(Clone, Copy, Debug, PartialEq, Eq)]
pub enum BookFault {
    /// The text does not begin with the head line.
    BadHead,
    /// The line is not a thread from 0 to 4095, a space, and a count from 1, in decimal without leading
    /// zeros and ended by a line feed.
    BadLine { line: u64 },
    /// The line is of the thread of the line before.
    SameThread { line: u64 },
    /// With the line the turns are more than 1,000,000.
    TooMany { line: u64 },
    /// Memory ran out.
    NoMemory,
}

impl From<NoMemory> for BookFault {
    ghost from_gives = { λ _ e. e ≡ no_memory };

    fn from(_e: NoMemory) -> BookFault {
        BookFault::NoMemory
    }
}

impl From<AllocError> for BookFault {
    ghost from_gives = { λ _ e. e ≡ no_memory };

    fn from(_e: AllocError) -> BookFault {
        BookFault::NoMemory
    }
}

impl<T: Drop> From<AllocFailed<T>> for BookFault {
    ghost from_gives = { λ _ e. e ≡ no_memory };

    fn from(_e: AllocFailed<T>) -> BookFault {
        BookFault::NoMemory
    }
}

/// The turns of a book: the number of the thread that takes each, in order.
#[derive(Debug, Drop)]
pub struct Turns {
    turns: Vec<u32>,
}

impl Model for Turns {
    ghost use Rattle.std.specs.Prelude.{List, ℕ};

    ghost Value = { List ℕ };

    ghost view = { λ t. t.turns.items };
}

impl Turns {
    /// The numbers of the threads, in order.
    pub fn as_slice(&self) -> &[u32]
        ensures { result.now ≡ self.now }
    {
        self.turns.as_slice()
    }

    /// The allocator that the turns keep.
    pub fn allocator(&self) -> Global {
        *self.turns.allocator()
    }

    /// Equal turns. NoMemory comes where memory runs out.
    pub fn copy(&self) -> Result<Turns, NoMemory>
        ensures { IfOk result (λ t. t ≡ self.now) }
    {
        let turns = Vec::from_slice(self.allocator(), self.turns.as_slice())?;
        Ok(Turns { turns })
    }
}

/// The line that begins a book.
const HEAD: &[u8; 11] = b"lam book 1\n";

/// The turns whose book a text is. Ok comes exactly for the books of at most 1,000,000 turns of the
/// threads 0 to 4095, unless memory runs out; else the fault names the least broken line.
pub fn read_book(alloc: Global, text: &[u8]) -> Result<Turns, BookFault>
    // What is read is a book.
    ensures ok { IfOk result (λ t. AreTurns t × (text.now ≡ book t)) }
    // Each book is read, unless memory runs out.
    ensures only { (t : List ℕ) → AreTurns t → text.now ≡ book t → Gives (λ u. u) result (Ok t) }
    ensures broken { IfErr result (IsBroken text.now) }
    ensures value { Gives (λ t. t) result (turns_of text.now) }
{
    read_turns(alloc, text)
}

fn read_turns(alloc: Global, text: &[u8]) -> Result<Turns, BookFault>
    ensures { Gives (λ t. t) result (turns_of text.now) }
{
    match text.strip_prefix(HEAD) {
        None => Err(BookFault::BadHead),
        Some(rest) => {
            let turns = read_lines(alloc, rest)?;
            Ok(Turns { turns })
        }
    }
}

/// The book of turns: the text that [`read_book`] reads as them.
pub fn write_book(alloc: Global, t: &[u32]) -> Result<Vec<u8>, NoMemory>
    requires { AreTurns t.now }
    ensures { IfOk result (λ v. v.items ≡ book t.now) }
{
    let mut text = Vec::from_slice(alloc, HEAD)?;
    let mut rest = t;
    while let Some(first) = rest.first() {
        let thread = *first;
        let count = stretch_len(rest, thread);
        push_line(&mut text, thread, count as u64)?;
        let (_, after) = rest.split_at(count);
        rest = after;
    }
    Ok(text)
}

/// A law: the lines of a book are the longest stretches of its turns, and no other list of longest
/// stretches has the same turns.
pub fn stretches_are_longest()
    ensures { StretchesAreLongest }
{}
