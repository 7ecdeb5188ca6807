//! The program `lam_closed` as one call, from words, files and output to a status.
//!
//! [`lam_closed`] takes the words of the command line, a file store and an output stream. It returns the status that the
//! process ends with. It starts no thread and waits for none: the closed schedule says who takes each turn. Its contract
//! is the tool's. The *plan* of the words and the files (`lam_closed_plan`) says what is printed, which file is written
//! and how the call ends where nothing fails. There is one. The call answers to it, unless memory runs out or the file
//! store or the output fails. Such a failure is answered only where its count of faults rose in the call.
//!
//! - `lam_closed_words` tells which command is asked.
//! - `lam_closed_rooms` reads the files that it names, takes the turns and makes its text.
//! - `lam_main_print` prints the line of a refusal.
//!
//! A public promise rests on [`lam_closed`] (every clause of it): the call answers to its plan (`answer`, `no_fault`), a
//! refusal comes exactly where it is planned (`refused`), and a call makes up no failure (`shelf_rose`, `sink_rose`). What
//! the closed schedule shows an observer is in `closed`, `broken_off`, `same` and `checked`. Nothing here is a matter of
//! speed.
#![tactic(auto)]

ghost use Rattle.std.specs.Prelude.{◌≡◌, ◌≢◌, [], Ok, Err, IsErr, IfErr, OnErr, map, string_bytes, IsTrue};
ghost use Rattle.lam_io.specs.Outside.{Rose, AllStay, Took};
ghost use Rattle.lam_closed_words.specs.Words.{request_of, asked, InRange, help_lines, commands};
ghost use Rattle.lam_main_plan.specs.Refusals.{prints as lam_prints};
ghost use Rattle.lam_main_plan.specs.Replays.{an_observer};
ghost use Rattle.lam_main_plan.specs.Answer.{OthersKept};
ghost use Rattle.lam_main_replay.specs.Asked.{reader_of};
ghost use Rattle.lam_main_replay.specs.Halts.{refuses, Says};
ghost use Rattle.lam_closed_plan.specs.Outcome.{Plan, status_of};
ghost use Rattle.lam_closed_plan.specs.Closes.{observer_word};
ghost use Rattle.lam_closed_plan.specs.Plan.{plain, no_word, IsPlanOf, IsPlan, written_by};
ghost use Rattle.lam_closed_plan.specs.Answer.{outside, AsPlanned, IsAnswer};
ghost use Rattle.lam_closed_laws.specs.Headline.{Headline, BreaksOff, EndsInOrder, RunsAreComplete};
ghost use Rattle.lam_closed_laws.specs.Shown.{CallsShowSame};
ghost use Rattle.lam_closed_laws.specs.Checked.{ChecksAreTold};
ghost use Rattle.lam_closed_laws.specs.Orderly.{OrderlyCallsEnd, RefusalsAreExact};
ghost use Rattle.lam_closed_main.specs.Ends.{done, Reports, Prints, ended, Ends};

use lam_closed_laws::{
    broken_runs_are_recorded, checks_are_told, closed_calls_show_the_same,
    closed_runs_are_complete, closed_runs_are_recorded, closed_runs_end_in_order,
    orderly_calls_end, refusals_are_exact,
};
pub use lam_closed_plan::Status;
use lam_closed_rooms::{Asked, ClosedFiles, End, Halt, Reader, Report, RunFiles, check, run};
pub use lam_closed_words::{Command, WordFault, help_text, read_words};
use lam_io::{Shelf, Sink, SinkFault, write_all};
use lam_main_print::print_refusal;
use lam_main_replay::Refusal;
use std::alloc::Global;

/// The index of the word that is the observer's label.
const OBSERVER_WORD: u64 = 3;

/// Runs the command of the words, which are those after the program's name.
pub fn lam_closed<H: Shelf, O: Sink>(
    alloc: Global,
    words: &[String],
    shelf: &mut H,
    out: &mut O,
) -> Status
    // Of the words and the files that the shelf tells: how it ended, what was printed and what became of the files. There is
    // at most one plan, and where all is in order there is one.
    ensures answer { IsTrue (H.tells shelf.old) → IsAnswer (written_by (request_of (map string_bytes words.now))) result (IsPlan (map string_bytes words.now) (H.files shelf.old)) (outside (H.files shelf.old) (O.taken out.old)) (outside (H.files shelf.new) (O.taken out.new)) }
    ensures others_kept { IsTrue (H.tells shelf.old) → OthersKept (written_by (request_of (map string_bytes words.now))) (H.files shelf.old) (H.files shelf.new) }

    // Where memory ran out, a file has changed only where the shelf refused its own write for want of memory.
    ensures spared { IsTrue (H.tells shelf.old) → result ≡ Status.NoMemory → ¬ Rose (H.refusals shelf.old) (H.refusals shelf.new) → AllStay (H.files shelf.old) (H.files shelf.new) }

    // Where no count rose it ended as planned, or memory ran out.
    ensures no_fault { IsTrue (H.tells shelf.old) → ¬ Rose (H.faults shelf.old) (H.faults shelf.new) → ¬ Rose (O.faults out.old) (O.faults out.new) → result ≢ Status.NoMemory → (plan : Plan) → IsPlan (map string_bytes words.now) (H.files shelf.old) plan → result ≡ plan.status }

    // A refusal comes exactly where it is planned, with the line of `lam`; and what is in order ends in order. Memory may run
    // out, and the file store or the output may fail.
    ensures refused { IsTrue (H.tells shelf.old) → RefusalsAreExact (map string_bytes words.now) result (outside (H.files shelf.old) (O.taken out.old)) (outside (H.files shelf.new) (O.taken out.new)) }
    ensures orderly { IsTrue (H.tells shelf.old) → OrderlyCallsEnd (map string_bytes words.now) result (outside (H.files shelf.old) (O.taken out.old)) }

    // Over every shelf: the form of the words comes first, and nothing is made up.
    ensures words_first { IfErr (request_of (map string_bytes words.now)) (λ at. AsPlanned result (no_word at) (outside (H.files shelf.old) (O.taken out.old)) (outside (H.files shelf.new) (O.taken out.new))) }
    ensures shelf_untouched { IsErr (request_of (map string_bytes words.now)) → shelf.new ≡ shelf.old }
    ensures no_memory { result ≡ Status.NoMemory → Took (O.taken out.old) (O.taken out.new) [] }
    ensures shelf_fault { result ≡ Status.ShelfFault → Took (O.taken out.old) (O.taken out.new) [] }
    ensures shelf_rose { result ≡ Status.ShelfFault → Rose (H.faults shelf.old) (H.faults shelf.new) }
    ensures sink_rose { result ≡ Status.SinkFault → Rose (O.faults out.old) (O.faults out.new) }

    // The closed headline: what `run` printed for its observer is exactly the visible events of the closed run that the
    // written book records, which ended as the call did. Where the base flows to the observer, it can tell no more of the run
    // than what is released past it: the order of the visible turns is a conclusion. Where the output broke off, the book
    // stands.
    ensures closed { IsTrue (H.tells shelf.old) → Headline (map string_bytes words.now) result (outside (H.files shelf.old) (O.taken out.old)) (outside (H.files shelf.new) (O.taken out.new)) }
    ensures broken_off { IsTrue (H.tells shelf.old) → BreaksOff (map string_bytes words.now) result (outside (H.files shelf.old) (O.taken out.old)) (outside (H.files shelf.new) (O.taken out.new)) }

    // Two worlds agree below an observer's label, and are run closed with the same number of open turns. Where nothing is
    // released past the label and both runs end publicly, both calls print the same, byte for byte, and end the same.
    ensures same { IsTrue (H.tells shelf.old) → CallsShowSame (map string_bytes words.now) result (outside (H.files shelf.old) (O.taken out.old)) (outside (H.files shelf.new) (O.taken out.new)) }

    // A closed run that was taken had its program, its world and its labels in order, and where these are no refusal is
    // planned.
    ensures in_order { IsTrue (H.tells shelf.old) → EndsInOrder (map string_bytes words.now) result (outside (H.files shelf.old) (O.taken out.old)) }
    ensures complete { RunsAreComplete (map string_bytes words.now) (H.files shelf.old) }

    // `check` tells the first turn at which a run is not closed, or that it is closed, where no turn departs.
    ensures checked { ChecksAreTold (map string_bytes words.now) (H.files shelf.old) }
{
    closed_runs_are_recorded();
    broken_runs_are_recorded();
    closed_calls_show_the_same();
    closed_runs_end_in_order();
    closed_runs_are_complete();
    checks_are_told();
    orderly_calls_end();
    refusals_are_exact();
    let answer = answer_of(alloc, words, shelf);
    end_with(out, &answer)
}

/// What the words ask, or why there is none.
fn answer_of<H: Shelf>(alloc: Global, words: &[String], shelf: &mut H) -> Result<Report, Halt>
    ensures gives { IsTrue (H.tells shelf.old) → Reports result (IsPlan (map string_bytes words.now) (H.files shelf.old)) (H.files shelf.old) (H.files shelf.new) }
    ensures kept { IsTrue (H.tells shelf.old) → OthersKept (written_by (request_of (map string_bytes words.now))) (H.files shelf.old) (H.files shelf.new) }
    ensures spared { IsTrue (H.tells shelf.old) → IfErr result (λ halt. halt ≡ Halt.NoMemory → ¬ Rose (H.refusals shelf.old) (H.refusals shelf.new) → AllStay (H.files shelf.old) (H.files shelf.new)) }
    ensures failed { IfErr result (λ halt. halt ≡ Halt.ShelfFailed → Rose (H.faults shelf.old) (H.faults shelf.new)) }
    ensures words_first { IfErr (request_of (map string_bytes words.now)) (λ at. result ≡ Err (Halt.Refused (Refusal.Word at))) }
    ensures untouched { IsErr (request_of (map string_bytes words.now)) → shelf.new ≡ shelf.old }
{
    match read_words(alloc, words) {
        Ok(command) => command_answer(alloc, command, shelf),
        Err(WordFault::Word { at }) => Err(Halt::Refused(Refusal::Word(at))),
        Err(WordFault::NoMemory) => Err(Halt::NoMemory),
    }
}

/// What a command answers.
fn command_answer<H: Shelf>(alloc: Global, command: Command, shelf: &mut H) -> Result<Report, Halt>
    requires ranges { InRange (asked command) }
    ensures gives { IsTrue (H.tells shelf.old) → Reports result (IsPlanOf (Ok (asked command)) (H.files shelf.old)) (H.files shelf.old) (H.files shelf.new) }
    ensures kept { IsTrue (H.tells shelf.old) → OthersKept (written_by (Ok (asked command))) (H.files shelf.old) (H.files shelf.new) }
    ensures spared { IsTrue (H.tells shelf.old) → IfErr result (λ halt. halt ≡ Halt.NoMemory → ¬ Rose (H.refusals shelf.old) (H.refusals shelf.new) → AllStay (H.files shelf.old) (H.files shelf.new)) }
    ensures failed { IfErr result (λ halt. halt ≡ Halt.ShelfFailed → Rose (H.faults shelf.old) (H.faults shelf.new)) }
{
    match command {
        Command::Run {
            program,
            world,
            obs,
            book_out,
            base,
            turns,
        } => {
            let files = ClosedFiles { world, book_out };
            let reader = observer(obs);
            let wanted = Asked {
                reader,
                base,
                turns,
            };
            run(alloc, shelf, program, files, &wanted)
        }
        Command::Check {
            program,
            world,
            book,
            base,
        } => done(check(alloc, shelf, program, RunFiles { world, book }, base)),
        Command::Help => done(help(alloc)),
    }
}

/// The observer at the label of a text.
fn observer(label: String) -> Reader
    ensures { reader_of result ≡ an_observer observer_word (string_bytes label) }
{
    Reader::Observer {
        index: OBSERVER_WORD,
        label,
    }
}

/// The forms of the words.
fn help(alloc: Global) -> Result<String, Halt>
    ensures says { Says result (λ plan. plan ≡ lam_prints (help_lines commands)) }
    ensures no_fault { IfErr result (λ halt. halt ≢ Halt.ShelfFailed) }
{
    Ok(help_text(alloc)?)
}

/// The report of a command that takes no run to its end.
fn done(answer: Result<String, Halt>) -> Result<Report, Halt>
    ensures { result ≡ done answer }
{
    match answer {
        Ok(text) => Ok(Report {
            end: End::Done,
            text,
        }),
        Err(halt) => Err(halt),
    }
}

/// Prints an answer, and says how the call ends.
fn end_with<O: Sink>(out: &mut O, answer: &Result<Report, Halt>) -> Status
    ensures ends { Ends result answer.now (O.taken out.old) (O.taken out.new) }
    ensures rose { result ≡ Status.SinkFault → Rose (O.faults out.old) (O.faults out.new) }
{
    match answer {
        Ok(report) => ended(print_text(out, report.end, report.text.as_bytes())),
        Err(Halt::Refused(refusal)) => ended(print_line(out, refusal)),
        Err(Halt::NoMemory) => Status::NoMemory,
        Err(Halt::ShelfFailed) => Status::ShelfFault,
    }
}

/// Prints a command's text, whose run ended so.
fn print_text<O: Sink>(out: &mut O, end: End, text: &[u8]) -> Result<Status, SinkFault>
    ensures printed { Prints result (status_of end) text.now (O.taken out.old) (O.taken out.new) }
    ensures failed { OnErr result (Rose (O.faults out.old) (O.faults out.new)) }
{
    write_all(out, text)?;
    Ok(Status::of_end(end))
}

/// Prints the line of a refusal, and gives its status.
fn print_line<O: Sink>(out: &mut O, refusal: &Refusal) -> Result<Status, SinkFault>
    ensures printed { Prints result (plain (refuses refusal.now)).status (refuses refusal.now).text (O.taken out.old) (O.taken out.new) }
    ensures failed { OnErr result (Rose (O.faults out.old) (O.faults out.new)) }
{
    match print_refusal(out, refusal) {
        Ok(status) => Ok(Status::of_lam(status)),
        Err(fault) => Err(fault),
    }
}

/// The status of what was printed, or that of a fault of the sink.
fn ended(printed: Result<Status, SinkFault>) -> Status
    ensures { result ≡ ended printed }
{
    match printed {
        Ok(status) => status,
        Err(SinkFault::Failed) => Status::SinkFault,
    }
}
