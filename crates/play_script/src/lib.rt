//! A parser of play scripts, which declare tags, actors and cells and list steps.
//!
//! A script is at most 65,536 ASCII lines, each ended by a line feed, with one space between two words. First come
//! declarations, each name before its use:
//!
//! - `tag NAME` and `tag NAME KIND`, with a KIND of `read`, `export` and `integrity`; without it the kind is `read`,
//! - `actor NAME LABEL` and `actor NAME LABEL CAPS`; without CAPS it has no capabilities,
//! - `cell NAME LABEL INT`;
//!
//! and then steps, which say what an actor does to a cell:
//!
//! - `ACTOR read CELL`,
//! - `ACTOR write CELL INT`,
//! - `ACTOR copy CELL CELL`, from the first cell to the second.
//!
//! A NAME is an ASCII letter and up to 31 letters, digits or `_`, and none of the six words of the format. Tags, actors
//! and cells share one name space, and a name is declared once. An INT is an `i64` in decimal, as `decimal_text` reads
//! it: without leading zeros and without `-0`. `flow_labels` and `capabilities` read LABEL and CAPS.
//!
//! [`read_script`] returns the script that a text spells, or the least line that breaks it. The definitions that its
//! contract cites follow the order of the code. The laws below it relate them to the format in the format's own words.
//! `play_run` defines what a script does.
//!
//! Public promises of `play` rest on `read_script` (clauses `gives`, `whole`) and the three laws below it: a script is
//! read exactly where lines spell it. Free to change for speed: how lines and words are cut, as long as each is read
//! once.
#![tactic(auto)]

mod declarations;
mod faults;
mod lines;
mod pieces;
mod steps;

ghost use Rattle.play_script.specs.Grammar.{ScriptsAreExact, BreaksAreExact, LinesAreExact};

use capabilities::{Caps, TagKind};
use flow_labels::{Label, TagNames};
pub use lines::read_script;

/// An actor's label and its capabilities.
#[derive(Debug, Drop)]
pub struct Actor {
    pub label: Label,
    pub caps: Caps,
}

/// A cell's label and its number at the start.
#[derive(Debug, Drop)]
pub struct Cell {
    pub label: Label,
    pub value: i64,
}

/// What an actor does. An actor is named by its place in `Script::actors`, a cell by its place
/// in `Script::cells`, both from 0.
#[derive(Clone, Copy, Debug, PartialEq, Eq)]
pub enum Step {
    Read { actor: u64, cell: u64 },
    Write { actor: u64, cell: u64, value: i64 },
    Copy { actor: u64, from: u64, to: u64 },
}

/// A script that was read. The n-th name of `actor_names` is that of the n-th of `actors`, and
/// so with tags and their kinds, and with cells; each list of names is looked up in constant time.
#[derive(Drop)]
pub struct Script {
    pub tags: TagNames,
    pub kinds: Vec<TagKind>,
    pub actor_names: TagNames,
    pub actors: Vec<Actor>,
    pub cell_names: TagNames,
    pub cells: Vec<Cell>,
    pub steps: Vec<Step>,
}

/// Why a text was not read: its least broken line, counted from 1, or want of memory.
#[derive(Clone, Copy, Debug, PartialEq, Eq)]
pub enum ScriptFault {
    Line(u64),
    NoMemory,
}

/// A text is read exactly where it is lines that go on from nothing, as what they come to.
pub fn scripts_are_exact()
    ensures { ScriptsAreExact }
{}

/// A line is named exactly where those before it go on, and it breaks the script: it says
/// nothing, it is line 65,537, or its line feed is missing.
pub fn breaks_are_exact()
    ensures { BreaksAreExact }
{}

/// A line goes on exactly where its words say something, as what they say.
pub fn lines_are_exact()
    ensures { LinesAreExact }
{}
