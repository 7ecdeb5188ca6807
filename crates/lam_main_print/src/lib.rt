//! The printing of a command's text or of a refusal's line, without memory.
//!
//! The programs `lam` and `lam_closed` print by these calls. `specs/Lines` says how a text goes to an output in parts.
//!
//! The promises about what a call prints and about the status of a refusal rest on [`print_text`] and [`print_refusal`]
//! (clauses `printed` and `failed` of each). Free to change for speed: in how many parts the line of a refusal goes out.
#![tactic(auto)]

ghost use Rattle.std.specs.Prelude.{◌≡◌, ◌≤◌, ◌∷◌, [], None, OnErr, decimal};
ghost use Rattle.lam_front.specs.declared.fault.ProgramFault.TheVariants.{At};
ghost use Rattle.lam_io.specs.Outside.{Rose};
ghost use Rattle.lam_main_plan.specs.Refusals.{refused, no_program, no_world, no_turn};
ghost use Rattle.lam_main_plan.specs.Threads.{status_of};
ghost use Rattle.lam_main_print.specs.Lines.{texts, joined, Goes, Prints};
ghost use Rattle.lam_main_replay.specs.Halts.{words_of, refuses};
ghost use Rattle.world_doc_terms.specs.Breaks.{break_seen};

use itoa::Buffer;
use lam_front::Flaw;
use lam_io::{Sink, SinkFault, write_all};
use lam_machine_runs::How;
use lam_main_plan::Status;
use lam_main_replay::{BookBreak, Refusal};
use world_doc_terms::WorldBreak;

/// Prints a command's text, whose run ended so.
pub fn print_text<O: Sink>(out: &mut O, how: How, text: &[u8]) -> Result<Status, SinkFault>
    ensures printed { Prints result (record { status = status_of how; text = text.now; writes = None }) (O.taken out.old) (O.taken out.new) }
    ensures failed { OnErr result (Rose (O.faults out.old) (O.faults out.new)) }
{
    write_all(out, text)?;
    Ok(status_of(how))
}

/// The status of a call whose run ended so.
fn status_of(how: How) -> Status
    ensures { result ≡ status_of how }
{
    match how {
        How::Done => Status::Done,
        How::AllWait => Status::AllWait,
        How::Budget => Status::Budget,
    }
}

/// Prints the line of a refusal, and gives its status.
pub fn print_refusal<O: Sink>(out: &mut O, refusal: &Refusal) -> Result<Status, SinkFault>
    ensures printed { Prints result (refuses refusal.now) (O.taken out.old) (O.taken out.new) }
    ensures failed { OnErr result (Rose (O.faults out.old) (O.faults out.new)) }
{
    match refusal {
        Refusal::Word(index) => print_numbered(out, Status::Words, b"word ", *index),
        Refusal::Script(line) => print_numbered(out, Status::Program, b"Script line ", *line),
        Refusal::NotUtf8 => print_line(out, Status::Program, &[b"NotUtf8".as_slice()]),
        Refusal::Flawed { flaw, at } => print_flaw(out, *flaw, *at),
        Refusal::CodeTooLong(unit) => {
            print_numbered(out, Status::Program, b"CodeTooLong ", *unit as u64)
        }
        Refusal::World(breach) => print_break(out, breach),
        Refusal::Unnamed(tag) => print_numbered(out, Status::World, b"Unnamed #", *tag),
        Refusal::BadText(item) => print_numbered(out, Status::World, b"BadText ", *item),
        Refusal::TooBig(bytes) => print_numbered(out, Status::World, b"TooBig ", *bytes),
        Refusal::Book { flaw, line } => {
            print_numbered(out, Status::Book, line_words(*flaw).as_bytes(), *line)
        }
        Refusal::NotReady { turn, thread } => print_turn(out, *turn, *thread),
        Refusal::Absent(name) => print_named(out, Status::Missing, b"Absent ", name.as_bytes()),
        Refusal::TooLong(name) => print_named(out, Status::Missing, b"TooLong ", name.as_bytes()),
    }
}

/// Prints the line of a program that is flawed.
fn print_flaw<O: Sink>(out: &mut O, flaw: Flaw, at: u64) -> Result<Status, SinkFault>
    ensures printed { Prints result (no_program (At flaw at)) (O.taken out.old) (O.taken out.new) }
    ensures failed { OnErr result (Rose (O.faults out.old) (O.faults out.new)) }
{
    let mut digits = Buffer::new();
    let at = digits.format(at).as_bytes();
    let parts = [flaw.name().as_bytes(), b" at ".as_slice(), at];
    print_line(out, Status::Program, &parts)
}

/// Prints the line of a document that is broken.
fn print_break<O: Sink>(out: &mut O, breach: &WorldBreak) -> Result<Status, SinkFault>
    ensures printed { Prints result (no_world (break_seen breach.now)) (O.taken out.old) (O.taken out.new) }
    ensures failed { OnErr result (Rose (O.faults out.old) (O.faults out.new)) }
{
    match breach {
        WorldBreak::NotJson => print_line(out, Status::World, &[b"NotJson".as_slice()]),
        WorldBreak::NoMember(name) => {
            print_named(out, Status::World, b"NoMember ", name.as_bytes())
        }
        WorldBreak::BadMember(name) => {
            print_named(out, Status::World, b"BadMember ", name.as_bytes())
        }
        WorldBreak::NoTag(name) => print_named(out, Status::World, b"NoTag ", name.as_bytes()),
        WorldBreak::BadPath(index) => print_numbered(out, Status::World, b"BadPath ", *index),
        WorldBreak::PathTwice(index) => {
            print_numbered(out, Status::World, b"PathTwice ", *index)
        }
    }
}

/// Prints the line of a turn whose thread is not ready.
fn print_turn<O: Sink>(out: &mut O, turn: u64, thread: u32) -> Result<Status, SinkFault>
    ensures printed { Prints result (no_turn (record { turn = turn; thread = thread })) (O.taken out.old) (O.taken out.new) }
    ensures failed { OnErr result (Rose (O.faults out.old) (O.faults out.new)) }
{
    let mut turn_digits = Buffer::new();
    let mut thread_digits = Buffer::new();
    let turn = turn_digits.format(turn).as_bytes();
    let thread = thread_digits.format(thread).as_bytes();
    print_line(
        out,
        Status::Book,
        &[
            b"NotReady turn ".as_slice(),
            turn,
            b" thread ".as_slice(),
            thread,
        ],
    )
}

/// What is broken in a line of a book, as it is printed before the line's number.
fn line_words(flaw: BookBreak) -> &'static str
    ensures { result.now ≡ words_of flaw }
{
    match flaw {
        BookBreak::Head => "BadHead line ",
        BookBreak::Line => "BadLine line ",
        BookBreak::SameThread => "SameThread line ",
        BookBreak::TooMany => "TooMany line ",
    }
}

/// Prints the line of a refusal that is words and a number.
fn print_numbered<O: Sink>(
    out: &mut O,
    status: Status,
    words: &[u8],
    number: u64,
) -> Result<Status, SinkFault>
    ensures printed { Prints result (refused status (words.now ∷ decimal number ∷ [])) (O.taken out.old) (O.taken out.new) }
    ensures failed { OnErr result (Rose (O.faults out.old) (O.faults out.new)) }
{
    let mut digits = Buffer::new();
    let number = digits.format(number).as_bytes();
    print_line(out, status, &[words, number])
}

/// Prints the line of a refusal that is words and a name.
fn print_named<O: Sink>(
    out: &mut O,
    status: Status,
    words: &[u8],
    name: &[u8],
) -> Result<Status, SinkFault>
    ensures printed { Prints result (refused status (words.now ∷ name.now ∷ [])) (O.taken out.old) (O.taken out.new) }
    ensures failed { OnErr result (Rose (O.faults out.old) (O.faults out.new)) }
{
    print_line(out, status, &[words, name])
}

/// Prints the line of a refusal from its parts, behind the number of its status, and gives the status.
fn print_line<O: Sink>(out: &mut O, status: Status, parts: &[&[u8]]) -> Result<Status, SinkFault>
    ensures printed { Prints result (refused status (texts parts.now)) (O.taken out.old) (O.taken out.new) }
    ensures failed { OnErr result (Rose (O.faults out.old) (O.faults out.new)) }
{
    let number = [b'0' + status.code(), b' '];
    print_parts(out, &[b"lam: ".as_slice(), number.as_slice()])?;
    print_parts(out, parts)?;
    write_all(out, b"\n")?;
    Ok(status)
}

/// Prints the parts of a text.
fn print_parts<O: Sink>(out: &mut O, parts: &[&[u8]]) -> Result<(), SinkFault>
    ensures goes { Goes result (joined (texts parts.now)) (O.taken out.old) (O.taken out.new) }
    ensures later { O.faults out.old ≤ O.faults out.new }
    ensures failed { OnErr result (Rose (O.faults out.old) (O.faults out.new)) }
{
    for part in parts {
        write_all(out, part)?;
    }
    Ok(())
}
