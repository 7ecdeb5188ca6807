//! The tool as one call, from words, files and output to a status.
//!
//! [`lam`] takes the words of the command line, a file store, an output stream and a scheduler's hook. It returns the
//! status that the process ends with. Its contract is the tool's. The *plan* of the words and the files
//! (`lam_main_plan`) says what is printed, which file is written and how the call ends where nothing fails. The call
//! answers to it, unless memory runs out or the file store or the output fails. Such a failure is answered only where
//! its count of faults rose in the call.
//!
//! - `lam_main_words` tells which command is asked.
//! - `lam_main_replay`, `lam_main_threads`, `lam_main_pair`, `lam_main_next` and `lam_main_walk` read the files that it
//!   names, run its threads and make its text.
//! - `lam_main_print` prints that, or the line of a refusal.
//!
//! The program `lam` calls it with the current folder and standard output, and tests with a store and a stream in
//! memory (`lam_io`).
//!
//! What `format` prints is read again as the same program, and printed the same, under two conditions. The depth sum of
//! the printed text passes its limit at no token, and its length does not pass that of a program file. docs/LANGUAGE.md
//! has both, and how far a text can grow.
//!
//! All promises of the tool are clauses of [`lam`], first `answer`, `planned` and `others_kept`; its laws stand in
//! `lam_main_laws`. Nothing here is a matter of speed: the commands do the work.
#![tactic(auto)]

ghost use Rattle.std.specs.Prelude.{◌≡◌, ◌≢◌, false, [], None, Ok, Err, IsErr, IfErr, map, string_bytes, IsTrue};
ghost use Rattle.lam_io.specs.Outside.{Rose, AllStay, Took};
ghost use Rattle.lam_main_words.specs.Words.{request_of, asked, InRange, help_lines, commands};
ghost use Rattle.lam_main_plan.specs.Refusals.{Plan, prints, no_word};
ghost use Rattle.lam_main_plan.specs.Replays.{an_observer};
ghost use Rattle.lam_main_plan.specs.Plan.{IsPlanOf, IsPlan, TellAll, written_by, PlaysIsolated, FormatIsSteady};
ghost use Rattle.lam_main_plan.specs.Answer.{outside, AsPlanned, IsAnswer, IsPlanned, OthersKept};
ghost use Rattle.lam_main_laws.specs.Calls.{ReplaysAreIsolated, AuditsArePrinted};
ghost use Rattle.lam_main_laws.specs.Fronts.{FrontsArePrinted};
ghost use Rattle.lam_main_laws.specs.Headline.{Headline, BreaksOff, EndsInOrder, RunsAreComplete, GeneratedRuns, MakesBreakOff};
ghost use Rattle.lam_main_laws.specs.Complete.{MakesAreComplete};
ghost use Rattle.lam_main_laws.specs.Orderly.{OrderlyCallsAreDone, OrderlyRunsEnd, MakesEnd, RefusalsAreExact};
ghost use Rattle.lam_main_laws.specs.Meant.{CallsRunAsMeant};
ghost use Rattle.lam_main_laws.specs.Pairs.{PairsAreTold};
ghost use Rattle.lam_main_laws.specs.Saves.{SavesAreTold, NextWorldsAreRead};
ghost use Rattle.lam_main_laws.specs.Walks.{WalksAreTold};
ghost use Rattle.lam_main_replay.specs.Halts.{Says, Gives, Reports};
ghost use Rattle.lam_main_threads.specs.Asked.{reader_of};
ghost use Rattle.lam_main.specs.Ends.{Ends};
ghost use Rattle.lam_main_print.specs.Lines.{ended};

use lam_io::{Gate, Shelf, Sink, SinkFault};
use lam_main_laws::{
    audits_are_printed, broken_makes_are_recorded, broken_runs_are_recorded, calls_run_as_meant,
    fronts_are_printed, generated_runs_are_recorded, makes_are_complete, makes_end,
    next_worlds_are_read, orderly_calls_are_done, orderly_runs_end, pairs_are_told,
    refusals_are_exact, replays_are_isolated, runs_are_complete, runs_are_recorded,
    runs_end_in_order, saves_are_told, walks_are_told,
};
use lam_main_next::next;
use lam_main_pair::pair;
pub use lam_main_plan::Status;
use lam_main_print::{print_refusal, print_text};
use lam_main_replay::{Halt, Refusal, Report, check, code, done, format, play};
use lam_main_threads::{Bounds, Reader, RunFiles, ThreadFiles, make, replay, run};
use lam_main_walk::walk;
pub use lam_main_words::{Command, WordFault, help_text, read_words};
use lam_print_laws::{
    canonical_text_is_lexed, canonical_text_is_read_as_the_tree, canonical_text_is_steady,
};
use play_run::scripts_are_isolated;
use std::alloc::Global;
use std::sync::Wait;
use std::thread::Threads;

/// The indices of the words that are the observer's label.
const REPLAY_OBSERVER: u64 = 4;

const RUN_OBSERVER: u64 = 3;

const PAIR_OBSERVER: u64 = 6;

/// Runs the command of the words, which are those after the program's name.
pub fn lam<R: Threads + Wait + Sync, H: Shelf, O: Sink, G: Gate + Sync>(
    rt: &R,
    alloc: Global,
    words: &[String],
    shelf: &mut H,
    out: &mut O,
    gate: &G,
) -> Status
    // Of the words and the files that the shelf tells: how it ended, what was printed and what became of the files.
    ensures answer { IsTrue (H.tells shelf.old) → TellAll (request_of (map string_bytes words.now)) (H.files shelf.old) → (plan : Plan) → IsPlan (map string_bytes words.now) (H.files shelf.old) plan → IsAnswer (written_by (request_of (map string_bytes words.now))) result plan (outside (H.files shelf.old) (O.taken out.old)) (outside (H.files shelf.new) (O.taken out.new)) }
    ensures planned { IsTrue (H.tells shelf.old) → IsPlanned result (IsPlan (map string_bytes words.now) (H.files shelf.old)) (outside (H.files shelf.old) (O.taken out.old)) (outside (H.files shelf.new) (O.taken out.new)) }
    ensures others_kept { IsTrue (H.tells shelf.old) → OthersKept (written_by (request_of (map string_bytes words.now))) (H.files shelf.old) (H.files shelf.new) }

    // Where memory ran out, a file has changed only where the shelf refused its own write for want of memory.
    ensures spared { IsTrue (H.tells shelf.old) → result ≡ Status.NoMemory → ¬ Rose (H.refusals shelf.old) (H.refusals shelf.new) → AllStay (H.files shelf.old) (H.files shelf.new) }

    // Where no count rose it ended as planned, or memory ran out.
    ensures no_fault { IsTrue (H.tells shelf.old) → TellAll (request_of (map string_bytes words.now)) (H.files shelf.old) → ¬ Rose (H.faults shelf.old) (H.faults shelf.new) → ¬ Rose (O.faults out.old) (O.faults out.new) → result ≢ Status.NoMemory → (plan : Plan) → IsPlan (map string_bytes words.now) (H.files shelf.old) plan → result ≡ plan.status }

    // A refusal comes exactly where it is planned, whatever the command; and what is in order ends in order. Memory may run
    // out, and the file store or the output may fail.
    ensures refused { IsTrue (H.tells shelf.old) → RefusalsAreExact (map string_bytes words.now) result (outside (H.files shelf.old) (O.taken out.old)) (outside (H.files shelf.new) (O.taken out.new)) }
    ensures orderly { IsTrue (H.tells shelf.old) → OrderlyCallsAreDone (map string_bytes words.now) result (outside (H.files shelf.old) (O.taken out.old)) }
    ensures orderly_run { IsTrue (H.tells shelf.old) → OrderlyRunsEnd (map string_bytes words.now) result (outside (H.files shelf.old) (O.taken out.old)) }
    ensures orderly_make { IsTrue (H.tells shelf.old) → MakesEnd (map string_bytes words.now) result }

    // Over every shelf: the form of the words comes first, and nothing is made up.
    ensures words_first { IfErr (request_of (map string_bytes words.now)) (λ at. AsPlanned result (no_word at) (outside (H.files shelf.old) (O.taken out.old)) (outside (H.files shelf.new) (O.taken out.new))) }
    ensures shelf_untouched { IsErr (request_of (map string_bytes words.now)) → shelf.new ≡ shelf.old }
    ensures no_memory { result ≡ Status.NoMemory → Took (O.taken out.old) (O.taken out.new) [] }
    ensures shelf_fault { result ≡ Status.ShelfFault → Took (O.taken out.old) (O.taken out.new) [] }
    ensures shelf_rose { result ≡ Status.ShelfFault → Rose (H.faults shelf.old) (H.faults shelf.new) }
    ensures sink_rose { result ≡ Status.SinkFault → Rose (O.faults out.old) (O.faults out.new) }

    // What is printed of a script tells its observer nothing of what it does not see.
    ensures isolated { PlaysIsolated (map string_bytes words.now) (H.files shelf.old) }

    // What is printed of a run tells its observer nothing of what it does not see, but for the releases past it.
    ensures replays_isolated { ReplaysAreIsolated (map string_bytes words.now) (H.files shelf.old) }

    // Of a front of a run it prints the first of the lines of the run.
    ensures fronts { FrontsArePrinted (map string_bytes words.now) (H.files shelf.old) }

    // The headline: what `run` printed for its observer is exactly the visible events of the run that the written book
    // records, and any other run that agrees below the observer's label, with the same visible turns and the same
    // releases past it, has the same. Where the output broke off, the book stands.
    ensures headline { IsTrue (H.tells shelf.old) → Headline (map string_bytes words.now) result (outside (H.files shelf.old) (O.taken out.old)) (outside (H.files shelf.new) (O.taken out.new)) }
    ensures broken_off { IsTrue (H.tells shelf.old) → BreaksOff (map string_bytes words.now) result (outside (H.files shelf.old) (O.taken out.old)) (outside (H.files shelf.new) (O.taken out.new)) }

    // A run that was taken had its program, its world and its observer in order, and where these are no refusal is planned.
    ensures in_order { IsTrue (H.tells shelf.old) → EndsInOrder (map string_bytes words.now) result (outside (H.files shelf.old) (O.taken out.old)) }
    ensures complete { RunsAreComplete (map string_bytes words.now) (H.files shelf.old) }

    // The same of the run of what `make` makes: its book is written, and its summary printed, or a front of it where the
    // output broke off. What it makes is always in order.
    ensures generated { IsTrue (H.tells shelf.old) → GeneratedRuns (map string_bytes words.now) result (outside (H.files shelf.old) (O.taken out.old)) (outside (H.files shelf.new) (O.taken out.new)) }
    ensures make_broken_off { IsTrue (H.tells shelf.old) → MakesBreakOff (map string_bytes words.now) result (outside (H.files shelf.old) (O.taken out.old)) (outside (H.files shelf.new) (O.taken out.new)) }
    ensures makes_complete { MakesAreComplete (map string_bytes words.now) (H.files shelf.old) }

    // Runs mean what the source means: in every run of `replay`, `audit` and `run` no thread is ever stuck, and each asks
    // what the source of its function asks.
    ensures meant { CallsRunAsMeant (map string_bytes words.now) (H.files shelf.old) }

    // An audit tells of every release past any observer, with the capabilities that it took.
    ensures audited { AuditsArePrinted (map string_bytes words.now) (H.files shelf.old) }

    // What is said of two runs is the one answer that is to be given of them, and up to its number they look the same to the
    // observer.
    ensures paired { PairsAreTold (map string_bytes words.now) (H.files shelf.old) }

    // What `next` writes is the document of the files at the end of its run, with how many items it has; or it tells why
    // there is no such document.
    ensures saved { SavesAreTold (map string_bytes words.now) (H.files shelf.old) }

    // The world that `next` writes is read as a start that goes on from the end of its run.
    ensures read_back { NextWorldsAreRead (map string_bytes words.now) (H.files shelf.old) }

    // What `walk` prints is how many asks stand in its run, and the source of the program makes each of them.
    ensures walked { WalksAreTold (map string_bytes words.now) (H.files shelf.old) }

    // What is printed of a program is read as that program.
    ensures steady { FormatIsSteady (map string_bytes words.now) (H.files shelf.old) }
{
    scripts_are_isolated();
    replays_are_isolated();
    fronts_are_printed();
    audits_are_printed();
    runs_are_recorded();
    broken_runs_are_recorded();
    runs_end_in_order();
    runs_are_complete();
    generated_runs_are_recorded();
    makes_are_complete();
    broken_makes_are_recorded();
    makes_end();
    orderly_runs_end();
    orderly_calls_are_done();
    refusals_are_exact();
    calls_run_as_meant();
    pairs_are_told();
    saves_are_told();
    next_worlds_are_read();
    walks_are_told();
    canonical_text_is_lexed();
    canonical_text_is_read_as_the_tree();
    canonical_text_is_steady();
    let answer = answer_of(rt, alloc, words, shelf, gate);
    end_with(out, &answer)
}

/// What the words ask, or why there is none.
fn answer_of<R: Threads + Wait + Sync, H: Shelf, G: Gate + Sync>(
    rt: &R,
    alloc: Global,
    words: &[String],
    shelf: &mut H,
    gate: &G,
) -> Result<Report, Halt>
    ensures gives { IsTrue (H.tells shelf.old) → Reports result (IsPlan (map string_bytes words.now) (H.files shelf.old)) (H.files shelf.old) (H.files shelf.new) }
    ensures kept { IsTrue (H.tells shelf.old) → OthersKept (written_by (request_of (map string_bytes words.now))) (H.files shelf.old) (H.files shelf.new) }
    ensures spared { IsTrue (H.tells shelf.old) → IfErr result (λ halt. halt ≡ Halt.NoMemory → ¬ Rose (H.refusals shelf.old) (H.refusals shelf.new) → AllStay (H.files shelf.old) (H.files shelf.new)) }
    ensures failed { IfErr result (λ halt. halt ≡ Halt.ShelfFailed → Rose (H.faults shelf.old) (H.faults shelf.new)) }
    ensures words_first { IfErr (request_of (map string_bytes words.now)) (λ at. result ≡ Err (Halt.Refused (Refusal.Word at))) }
    ensures untouched { IsErr (request_of (map string_bytes words.now)) → shelf.new ≡ shelf.old }
{
    match read_words(alloc, words) {
        Ok(command) => command_answer(rt, alloc, command, shelf, gate),
        Err(WordFault::Word { at }) => Err(Halt::Refused(Refusal::Word(at))),
        Err(WordFault::NoMemory) => Err(Halt::NoMemory),
    }
}

/// What a command answers.
fn command_answer<R: Threads + Wait + Sync, H: Shelf, G: Gate + Sync>(
    rt: &R,
    alloc: Global,
    command: Command,
    shelf: &mut H,
    gate: &G,
) -> Result<Report, Halt>
    requires ranges { InRange (asked command) }
    ensures gives { IsTrue (H.tells shelf.old) → Reports result (IsPlanOf (Ok (asked command)) (H.files shelf.old)) (H.files shelf.old) (H.files shelf.new) }
    ensures kept { IsTrue (H.tells shelf.old) → OthersKept (written_by (Ok (asked command))) (H.files shelf.old) (H.files shelf.new) }
    ensures spared { IsTrue (H.tells shelf.old) → IfErr result (λ halt. halt ≡ Halt.NoMemory → ¬ Rose (H.refusals shelf.old) (H.refusals shelf.new) → AllStay (H.files shelf.old) (H.files shelf.new)) }
    ensures failed { IfErr result (λ halt. halt ≡ Halt.ShelfFailed → Rose (H.faults shelf.old) (H.faults shelf.new)) }
{
    match command {
        Command::Run { .. } | Command::Make { .. } | Command::Next { .. } => {
            written_answer(rt, alloc, command, shelf, gate)
        }
        _ => done(shown_answer(alloc, command, shelf)),
    }
}

/// What a command answers that writes a file.
fn written_answer<R: Threads + Wait + Sync, H: Shelf, G: Gate + Sync>(
    rt: &R,
    alloc: Global,
    command: Command,
    shelf: &mut H,
    gate: &G,
) -> Result<Report, Halt>
    requires ranges { InRange (asked command) }
    requires writes { written_by (Ok (asked command)) ≢ None }
    ensures gives { IsTrue (H.tells shelf.old) → Reports result (IsPlanOf (Ok (asked command)) (H.files shelf.old)) (H.files shelf.old) (H.files shelf.new) }
    ensures kept { IsTrue (H.tells shelf.old) → OthersKept (written_by (Ok (asked command))) (H.files shelf.old) (H.files shelf.new) }
    ensures spared { IsTrue (H.tells shelf.old) → IfErr result (λ halt. halt ≡ Halt.NoMemory → ¬ Rose (H.refusals shelf.old) (H.refusals shelf.new) → AllStay (H.files shelf.old) (H.files shelf.new)) }
    ensures failed { IfErr result (λ halt. halt ≡ Halt.ShelfFailed → Rose (H.faults shelf.old) (H.faults shelf.new)) }
{
    match command {
        Command::Run {
            program,
            world,
            obs,
            book_out,
            workers,
            turns,
        } => {
            let files = ThreadFiles { world, book_out };
            let reader = observer(RUN_OBSERVER, obs);
            let bounds = Bounds { workers, turns };
            run(rt, alloc, shelf, program, files, &reader, bounds, gate)
        }
        Command::Make {
            seed,
            threads,
            book_out,
        } => make(rt, alloc, shelf, seed, threads, book_out, gate),
        Command::Next {
            program,
            world,
            book,
            next_world,
        } => next(alloc, shelf, program, RunFiles { world, book }, next_world),
        _ => unreachable!(),
    }
}

/// What a command answers that writes no file.
fn shown_answer<H: Shelf>(alloc: Global, command: Command, shelf: &mut H) -> Result<String, Halt>
    requires { written_by (Ok (asked command)) ≡ None }
    ensures gives { IsTrue (H.tells shelf.old) → Gives result (IsPlanOf (Ok (asked command)) (H.files shelf.old)) (H.files shelf.old) (H.files shelf.new) }
    ensures stay { IsTrue (H.tells shelf.old) → AllStay (H.files shelf.old) (H.files shelf.new) }
    ensures failed { IfErr result (λ halt. halt ≡ Halt.ShelfFailed → Rose (H.faults shelf.old) (H.faults shelf.new)) }
{
    match command {
        Command::Play { file, obs } => play(alloc, shelf, file, obs.as_str()),
        Command::Check { program } => check(alloc, shelf, program),
        Command::Format { program } => format(alloc, shelf, program),
        Command::Code { program } => code(alloc, shelf, program),
        Command::Replay {
            program,
            world,
            book,
            obs,
        } => {
            let reader = observer(REPLAY_OBSERVER, obs);
            replay(alloc, shelf, program, RunFiles { world, book }, &reader)
        }
        Command::Audit {
            program,
            world,
            book,
        } => replay(
            alloc,
            shelf,
            program,
            RunFiles { world, book },
            &Reader::Auditor,
        ),
        Command::Help => help(alloc),
        Command::Pair {
            program,
            first_world,
            first_book,
            second_world,
            second_book,
            obs,
        } => {
            let first = run_files(first_world, first_book);
            let second = run_files(second_world, second_book);
            pair(alloc, shelf, program, first, second, PAIR_OBSERVER, obs)
        }
        Command::Walk {
            program,
            world,
            book,
        } => walk(alloc, shelf, program, RunFiles { world, book }),
        _ => unreachable!(),
    }
}

/// The files of a run, but for its program.
fn run_files(world: String, book: String) -> RunFiles
    ensures { result ≡ record { world = world; book = book } }
{
    RunFiles { world, book }
}

/// The observer at the label of a text, which is the word of an index.
fn observer(index: u64, label: String) -> Reader
    ensures { reader_of result ≡ an_observer index (string_bytes label) }
{
    Reader::Observer { index, label }
}

/// The forms of the words.
fn help(alloc: Global) -> Result<String, Halt>
    ensures says { Says result (λ plan. plan ≡ prints (help_lines commands)) }
    ensures no_fault { IfErr result (λ halt. halt ≢ Halt.ShelfFailed) }
{
    Ok(help_text(alloc)?)
}

/// Prints an answer, and says how the call ends.
fn end_with<O: Sink>(out: &mut O, answer: &Result<Report, Halt>) -> Status
    ensures ends { Ends result answer.now (O.taken out.old) (O.taken out.new) }
    ensures rose { result ≡ Status.SinkFault → Rose (O.faults out.old) (O.faults out.new) }
{
    match answer {
        Ok(report) => ended(print_text(out, report.how, report.text.as_bytes())),
        Err(Halt::Refused(refusal)) => ended(print_refusal(out, refusal)),
        Err(Halt::NoMemory) => Status::NoMemory,
        Err(Halt::ShelfFailed) => Status::ShelfFault,
    }
}

/// The status of what was printed, or that of a fault of the sink.
fn ended(printed: Result<Status, SinkFault>) -> Status
    ensures { result ≡ ended printed }
{
    match printed {
        Ok(status) => status,
        Err(SinkFault::Failed) => Status::SinkFault,
    }
}
