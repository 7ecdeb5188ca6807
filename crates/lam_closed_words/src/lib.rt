//! The words of the command line of `lam_closed`, their forms, and the commands that they ask.
//!
//! The forms are a table, `Form::kinds`, with a line for each way to write a command's options. Words that are in no form
//! are refused at the least index at which no form agrees with them. A base label with integrity is in no form. Words are
//! read by such a table as those of `lam` are (`lam_main_words`).
//!
//! A public promise rests on [`read_words`] (clauses `value` and `ranges`) and on [`help_text`]: status 2 with the index of
//! the word comes exactly where words are in no form. That no base has integrity is why what is public flows to it
//! (`lam_closed_laws`). Free to change for speed: in which order the words are copied.
#![tactic(auto)]

ghost use Rattle.std.specs.Prelude.{◌≡◌, ◌≤◌, Ok, IfOk, map, string_bytes};
ghost use Rattle.lam_main_words.specs.Forms.{Reads};
ghost use Rattle.lam_closed_words.specs.Words.{commands, help_lines, kinds, forms, base_in, turns_in, asks_run, asks_check, requested, request_of, asked, InRange};
ghost use Rattle.turn_book.specs.Limits.{most_turns};

pub use lam_main_words::WordFault;
use lam_main_words::{Kind, Literal, WordForm, form_of, number_at, word_at};
use std::alloc::Global;
use turn_book::TURN_LIMIT;
use want_of_memory::NoMemory;

/// How many open turns `run` takes at most where the words do not say.
const USUAL_TURNS: u64 = 100_000;

/// A form of the words.
#[derive(Clone, Copy)]
enum Form {
    /// `run P W OBS BOOKOUT`
    Run,
    /// `run P W OBS BOOKOUT --base LABEL`
    RunOnBase,
    /// `run P W OBS BOOKOUT --turns N`
    RunOfTurns,
    /// `run P W OBS BOOKOUT --base LABEL --turns N`
    RunOfBoth,
    /// `check P W BOOK`
    Check,
    /// `check P W BOOK --base LABEL`
    CheckOnBase,
    /// `help`
    Help,
}

impl WordForm for Form {
    ghost kinds = { kinds };

    fn kinds(self) -> &'static [Kind]
        ensures { result.now ≡ kinds self }
    {
        match self {
            Form::Run => &[RUN, Kind::File, Kind::File, Kind::Observer, Kind::File],
            Form::RunOnBase => &[
                RUN,
                Kind::File,
                Kind::File,
                Kind::Observer,
                Kind::File,
                BASE,
                Kind::Base,
            ],
            Form::RunOfTurns => &[
                RUN,
                Kind::File,
                Kind::File,
                Kind::Observer,
                Kind::File,
                TURNS,
                OPEN_TURNS,
            ],
            Form::RunOfBoth => &[
                RUN,
                Kind::File,
                Kind::File,
                Kind::Observer,
                Kind::File,
                BASE,
                Kind::Base,
                TURNS,
                OPEN_TURNS,
            ],
            Form::Check => &[CHECK, Kind::File, Kind::File, Kind::File],
            Form::CheckOnBase => &[CHECK, Kind::File, Kind::File, Kind::File, BASE, Kind::Base],
            Form::Help => &[Kind::Literal(Literal::Help)],
        }
    }
}

/// The name of `run`.
const RUN: Kind = Kind::Literal(Literal::Run);

/// The name of `check`.
const CHECK: Kind = Kind::Literal(Literal::Check);

/// The option `--base`.
const BASE: Kind = Kind::Literal(Literal::Base);

/// The option `--turns`.
const TURNS: Kind = Kind::Literal(Literal::Turns);

/// How many open turns `run` takes at most.
const OPEN_TURNS: Kind = Kind::Number(1, TURN_LIMIT);

fn forms() -> &'static [Form]
    ensures { result.now ≡ forms }
{
    &[
        Form::Run,
        Form::RunOnBase,
        Form::RunOfTurns,
        Form::RunOfBoth,
        Form::Check,
        Form::CheckOnBase,
        Form::Help,
    ]
}

/// What the words ask, with its parts as texts of its own.
#[derive(Drop)]
pub enum Command {
    /// `run P W OBS BOOKOUT [--base LABEL] [--turns N]`: what an observer sees of the closed run of a program, from the
    /// world of a document, whose book is written. The base is `{}/{}` where the words do not say; its open turns are at
    /// most N, from 1 to 1,000,000, and 100,000 where the words do not say.
    Run {
        program: String,
        world: String,
        obs: String,
        book_out: String,
        base: String,
        turns: u64,
    },
    /// `check P W BOOK [--base LABEL]`: whether the run of a program, from the world of a document and in the order of a
    /// book, is closed, and if not, where it departs.
    Check {
        program: String,
        world: String,
        book: String,
        base: String,
    },
    /// `help`: the forms of the words.
    Help,
}

/// Reads the words of the command line, those after the program's name.
///
/// # Errors
///
/// `Word` exactly where the words are in no form, tested before any memory is taken; `NoMemory` where memory runs out.
pub fn read_words(alloc: Global, words: &[String]) -> Result<Command, WordFault>
    ensures value { Reads asked result (request_of (map string_bytes words.now)) }
    ensures ranges { IfOk result (λ c. InRange (asked c)) }
{
    match form_of(forms(), words) {
        Ok(form) => read_form(alloc, words, form),
        Err(at) => Err(WordFault::Word { at }),
    }
}

/// What words in a form ask.
fn read_form(alloc: Global, words: &[String], form: Form) -> Result<Command, WordFault>
    ensures value { Reads asked result (Ok (requested (map string_bytes words.now) form)) }
    ensures ranges { IfOk result (λ c. InRange (asked c)) }
{
    match form {
        Form::Run | Form::RunOnBase | Form::RunOfTurns | Form::RunOfBoth => {
            run_command(alloc, words, form)
        }
        Form::Check | Form::CheckOnBase => check_command(alloc, words, form),
        Form::Help => Ok(Command::Help),
    }
}

fn run_command(alloc: Global, words: &[String], form: Form) -> Result<Command, WordFault>
    ensures value { Reads asked result (Ok (asks_run (map string_bytes words.now) form)) }
    ensures ranges { IfOk result (λ c. InRange (asked c)) }
{
    Ok(Command::Run {
        program: String::from_str(alloc, word_at(words, 1))?,
        world: String::from_str(alloc, word_at(words, 2))?,
        obs: String::from_str(alloc, word_at(words, 3))?,
        book_out: String::from_str(alloc, word_at(words, 4))?,
        base: String::from_str(alloc, base_in(words, form))?,
        turns: turns_in(words, form),
    })
}

fn check_command(alloc: Global, words: &[String], form: Form) -> Result<Command, WordFault>
    ensures value { Reads asked result (Ok (asks_check (map string_bytes words.now) form)) }
    ensures ranges { IfOk result (λ c. InRange (asked c)) }
{
    Ok(Command::Check {
        program: String::from_str(alloc, word_at(words, 1))?,
        world: String::from_str(alloc, word_at(words, 2))?,
        book: String::from_str(alloc, word_at(words, 3))?,
        base: String::from_str(alloc, base_in(words, form))?,
    })
}

/// The text of the base label that the words ask: `{}/{}` where they name none.
fn base_in(words: &[String], form: Form) -> &str
    ensures { result.now ≡ base_in (map string_bytes words.now) form }
{
    match form {
        Form::RunOnBase | Form::RunOfBoth => word_at(words, 6),
        Form::CheckOnBase => word_at(words, 5),
        _ => "{}/{}",
    }
}

/// The open turns that the words ask.
fn turns_in(words: &[String], form: Form) -> u64
    ensures value { result ≡ turns_in (map string_bytes words.now) form }
    ensures some { 1 ≤ result }
    ensures most { result ≤ most_turns }
{
    match form {
        Form::RunOfTurns => number_at(words, 6, 1, TURN_LIMIT),
        Form::RunOfBoth => number_at(words, 8, 1, TURN_LIMIT),
        _ => USUAL_TURNS,
    }
}

/// The forms of the words, a line for each command.
///
/// # Errors
///
/// `NoMemory` where memory runs out.
pub fn help_text(alloc: Global) -> Result<String, NoMemory>
    ensures { IfOk result (λ text. string_bytes text ≡ help_lines commands) }
{
    Ok(String::from_str(
        alloc,
        "lam_closed run P W OBS BOOKOUT [--base LABEL] [--turns N]\nlam_closed check P W BOOK [--base LABEL]\nlam_closed help\n",
    )?)
}
