//! The words of the command line, their forms, and the commands that they ask.
//!
//! The forms are a table, `Form::kinds`. A command adds a line to it, or one for each way to write its options. It also
//! adds its name, a line of [`help_text`], and a case of [`read_words`]. Words that are in no form are refused at the
//! least index at which no form agrees with them. [`form_of`] reads words by such a table, and other programs read theirs
//! by it too (`lam_closed_words`).
//!
//! A public promise rests on [`read_words`] (clauses `value` and `ranges`) and on [`help_text`]: status 2 with the index of
//! the word comes exactly where words are in no form, and the help text has a line for each command. Free to change for
//! speed: how a form is found, and in which order its words are copied.
#![tactic(auto)]

mod arguments;
mod word_forms;

ghost use Rattle.std.specs.Prelude.{◌≡◌, ◌≤◌, Ok, IfOk, map, string_bytes};
ghost use Rattle.lam_main_words.specs.Forms.{Reads};
ghost use Rattle.lam_main_words.specs.Words.{commands, help_lines, kinds, run_kinds, forms, workers_in, turns_in, requested, request_of, asked, InRange};
ghost use Rattle.lam_main_words.specs.declared.WordFault.TheVariants.{NoMemory as no_memory};
ghost use Rattle.turn_book.specs.Limits.{most_turns, most_workers};

pub use arguments::words_of;
use lam_make::MADE_THREADS_LIMIT;
use std::alloc::{AllocError, AllocFailed, Global};
use turn_book::{TURN_LIMIT, WORKER_LIMIT};
use want_of_memory::NoMemory;
pub use word_forms::{Kind, Literal, WordForm, form_of, number_at, word_at};

/// How many workers `run` has where the words do not say.
const USUAL_WORKERS: u64 = 4;

/// How many turns `run` takes at most where the words do not say.
const USUAL_TURNS: u64 = 100_000;

/// The greatest seed that `make` may name.
const MOST_SEED: u64 = u64::MAX;

/// The name of `run`.
const RUN: Kind = Kind::Literal(Literal::Run);

/// A form of the words.
#[derive(Clone, Copy)]
enum Form {
    /// `play FILE OBS`
    Play,
    /// `check P`
    Check,
    /// `format P`
    Format,
    /// `code P`
    Code,
    /// `replay P W BOOK OBS`
    Replay,
    /// `run P W OBS BOOKOUT`, and its options
    Run(Options),
    /// `audit P W BOOK`
    Audit,
    /// `make SEED THREADS BOOKOUT`
    Make,
    /// `help`
    Help,
    /// `next P W BOOK W2`
    Next,
    /// `pair P W1 BOOK1 W2 BOOK2 OBS`
    Pair,
    /// `walk P W BOOK`
    Walk,
}

/// The options of `run` that the words have, in this order.
#[derive(Clone, Copy)]
enum Options {
    /// None.
    Neither,
    /// `--workers N`
    Workers,
    /// `--turns N`
    Turns,
    /// `--workers N --turns N`
    Both,
}

impl WordForm for Form {
    ghost kinds = { kinds };

    fn kinds(self) -> &'static [Kind]
        ensures { result.now ≡ kinds self }
    {
        match self {
            Form::Play => &[Kind::Literal(Literal::Play), Kind::File, Kind::Observer],
            Form::Check => &[Kind::Literal(Literal::Check), Kind::File],
            Form::Format => &[Kind::Literal(Literal::Format), Kind::File],
            Form::Code => &[Kind::Literal(Literal::Code), Kind::File],
            Form::Replay => &[
                Kind::Literal(Literal::Replay),
                Kind::File,
                Kind::File,
                Kind::File,
                Kind::Observer,
            ],
            Form::Run(options) => options.kinds(),
            Form::Audit => &[
                Kind::Literal(Literal::Audit),
                Kind::File,
                Kind::File,
                Kind::File,
            ],
            Form::Make => &[
                Kind::Literal(Literal::Make),
                Kind::Number(0, MOST_SEED),
                Kind::Number(1, MADE_THREADS_LIMIT),
                Kind::File,
            ],
            Form::Help => &[Kind::Literal(Literal::Help)],
            Form::Next => &[
                Kind::Literal(Literal::Next),
                Kind::File,
                Kind::File,
                Kind::File,
                Kind::File,
            ],
            Form::Pair => &[
                Kind::Literal(Literal::Pair),
                Kind::File,
                Kind::File,
                Kind::File,
                Kind::File,
                Kind::File,
                Kind::Observer,
            ],
            Form::Walk => &[
                Kind::Literal(Literal::Walk),
                Kind::File,
                Kind::File,
                Kind::File,
            ],
        }
    }
}

impl Options {
    /// The words of `run` with these options.
    fn kinds(self) -> &'static [Kind]
        ensures { result.now ≡ run_kinds self }
    {
        match self {
            Options::Neither => &[RUN, Kind::File, Kind::File, Kind::Observer, Kind::File],
            Options::Workers => &[
                RUN,
                Kind::File,
                Kind::File,
                Kind::Observer,
                Kind::File,
                Kind::Literal(Literal::Workers),
                Kind::Number(1, WORKER_LIMIT),
            ],
            Options::Turns => &[
                RUN,
                Kind::File,
                Kind::File,
                Kind::Observer,
                Kind::File,
                Kind::Literal(Literal::Turns),
                Kind::Number(1, TURN_LIMIT),
            ],
            Options::Both => &[
                RUN,
                Kind::File,
                Kind::File,
                Kind::Observer,
                Kind::File,
                Kind::Literal(Literal::Workers),
                Kind::Number(1, WORKER_LIMIT),
                Kind::Literal(Literal::Turns),
                Kind::Number(1, TURN_LIMIT),
            ],
        }
    }
}

fn forms() -> &'static [Form]
    ensures { result.now ≡ forms }
{
    &[
        Form::Play,
        Form::Check,
        Form::Format,
        Form::Code,
        Form::Replay,
        Form::Run(Options::Neither),
        Form::Run(Options::Workers),
        Form::Run(Options::Turns),
        Form::Run(Options::Both),
        Form::Audit,
        Form::Make,
        Form::Help,
        Form::Next,
        Form::Pair,
        Form::Walk,
    ]
}

/// What the words ask, with its parts as texts of its own.
#[derive(Drop)]
pub enum Command {
    /// `play FILE OBS`: the steps of a script as an observer sees them.
    Play {
        file: String,
        obs: String,
    },
    /// `check P`: whether a program keeps the type rules and the region rules, and has code.
    Check {
        program: String,
    },
    /// `format P`: a program in canonical text.
    Format {
        program: String,
    },
    /// `code P`: the listing of a program's code.
    Code {
        program: String,
    },
    /// `replay P W BOOK OBS`: what an observer sees of the run of a program, from the world of a document, in the
    /// order of a book.
    Replay {
        program: String,
        world: String,
        book: String,
        obs: String,
    },
    /// `run P W OBS BOOKOUT [--workers N] [--turns N]`: what an observer sees of a run of a program by worker threads,
    /// from the world of a document, whose book is written. Workers are from 1 to 16, and 4 where the words do not say;
    /// turns from 1 to 1,000,000, and 100,000 where they do not.
    Run {
        program: String,
        world: String,
        obs: String,
        book_out: String,
        workers: u64,
        turns: u64,
    },
    /// `audit P W BOOK`: the releases and the refusals of such a run.
    Audit {
        program: String,
        world: String,
        book: String,
    },
    /// `make SEED THREADS BOOKOUT`: a book that a seed makes for threads, of which there are from 1 to 64, is written.
    Make {
        seed: u64,
        threads: u64,
        book_out: String,
    },
    /// `help`: the forms of the words.
    Help,
    /// `next P W BOOK W2`: the document of the world of the next run is written, with the files at the end of a run of a
    /// program, from the world of a document, in the order of a book.
    Next {
        program: String,
        world: String,
        book: String,
        next_world: String,
    },
    /// `pair P W1 BOOK1 W2 BOOK2 OBS`: whether an observer may expect to see the same of two runs of a program, each with
    /// the document of its world and its book, and if not, in what they differ first.
    Pair {
        program: String,
        first_world: String,
        first_book: String,
        second_world: String,
        second_book: String,
        obs: String,
    },
    /// `walk P W BOOK`: how many asks stand in such a run, each of which the source of the program makes.
    Walk {
        program: String,
        world: String,
        book: String,
    },
}

/// Why words are no command.
#[derive(Clone, Copy, Debug, PartialEq, Eq)]
pub enum WordFault {
    /// The words are in no form. `at` is the index, from 0, of the first word at which they agree with
    /// no form, or their number where they only stop short of one.
    Word { at: u64 },
    /// Memory ran out.
    NoMemory,
}

impl From<NoMemory> for WordFault {
    ghost from_gives = { λ _ e. e ≡ no_memory };

    fn from(_e: NoMemory) -> WordFault {
        WordFault::NoMemory
    }
}

impl From<AllocError> for WordFault {
    ghost from_gives = { λ _ e. e ≡ no_memory };

    fn from(_e: AllocError) -> WordFault {
        WordFault::NoMemory
    }
}

impl<T: Drop> From<AllocFailed<T>> for WordFault {
    ghost from_gives = { λ _ e. e ≡ no_memory };

    fn from(_e: AllocFailed<T>) -> WordFault {
        WordFault::NoMemory
    }
}

/// Reads the words of the command line, those after the program's name.
///
/// # Errors
///
/// `Word` exactly where the words are in no form, tested before any memory is taken; `NoMemory` where memory runs out.
pub fn read_words(alloc: Global, words: &[String]) -> Result<Command, WordFault>
    ensures value { Reads asked result (request_of (map string_bytes words.now)) }
    ensures ranges { IfOk result (λ c. InRange (asked c)) }
{
    match form_of(forms(), words) {
        Ok(form) => read_form(alloc, words, form),
        Err(at) => Err(WordFault::Word { at }),
    }
}

/// What words in a form ask.
fn read_form(alloc: Global, words: &[String], form: Form) -> Result<Command, WordFault>
    ensures value { Reads asked result (Ok (requested (map string_bytes words.now) form)) }
    ensures ranges { IfOk result (λ c. InRange (asked c)) }
{
    match form {
        Form::Play => Ok(Command::Play {
            file: String::from_str(alloc, word_at(words, 1))?,
            obs: String::from_str(alloc, word_at(words, 2))?,
        }),
        Form::Check => Ok(Command::Check {
            program: String::from_str(alloc, word_at(words, 1))?,
        }),
        Form::Format => Ok(Command::Format {
            program: String::from_str(alloc, word_at(words, 1))?,
        }),
        Form::Code => Ok(Command::Code {
            program: String::from_str(alloc, word_at(words, 1))?,
        }),
        Form::Replay => Ok(Command::Replay {
            program: String::from_str(alloc, word_at(words, 1))?,
            world: String::from_str(alloc, word_at(words, 2))?,
            book: String::from_str(alloc, word_at(words, 3))?,
            obs: String::from_str(alloc, word_at(words, 4))?,
        }),
        Form::Audit => Ok(Command::Audit {
            program: String::from_str(alloc, word_at(words, 1))?,
            world: String::from_str(alloc, word_at(words, 2))?,
            book: String::from_str(alloc, word_at(words, 3))?,
        }),
        Form::Run(options) => run_command(alloc, words, options),
        Form::Make => make_command(alloc, words),
        Form::Help => Ok(Command::Help),
        Form::Next => next_command(alloc, words),
        Form::Pair => pair_command(alloc, words),
        Form::Walk => walk_command(alloc, words),
    }
}

fn run_command(alloc: Global, words: &[String], options: Options) -> Result<Command, WordFault>
    ensures value { Reads asked result (Ok (requested (map string_bytes words.now) (Form.Run options))) }
    ensures ranges { IfOk result (λ c. InRange (asked c)) }
{
    Ok(Command::Run {
        program: String::from_str(alloc, word_at(words, 1))?,
        world: String::from_str(alloc, word_at(words, 2))?,
        obs: String::from_str(alloc, word_at(words, 3))?,
        book_out: String::from_str(alloc, word_at(words, 4))?,
        workers: workers_in(words, options),
        turns: turns_in(words, options),
    })
}

fn make_command(alloc: Global, words: &[String]) -> Result<Command, WordFault>
    ensures value { Reads asked result (Ok (requested (map string_bytes words.now) Form.Make)) }
    ensures ranges { IfOk result (λ c. InRange (asked c)) }
{
    Ok(Command::Make {
        seed: number_at(words, 1, 0, MOST_SEED),
        threads: number_at(words, 2, 1, MADE_THREADS_LIMIT),
        book_out: String::from_str(alloc, word_at(words, 3))?,
    })
}

fn next_command(alloc: Global, words: &[String]) -> Result<Command, WordFault>
    ensures value { Reads asked result (Ok (requested (map string_bytes words.now) Form.Next)) }
    ensures ranges { IfOk result (λ c. InRange (asked c)) }
{
    Ok(Command::Next {
        program: String::from_str(alloc, word_at(words, 1))?,
        world: String::from_str(alloc, word_at(words, 2))?,
        book: String::from_str(alloc, word_at(words, 3))?,
        next_world: String::from_str(alloc, word_at(words, 4))?,
    })
}

fn pair_command(alloc: Global, words: &[String]) -> Result<Command, WordFault>
    ensures value { Reads asked result (Ok (requested (map string_bytes words.now) Form.Pair)) }
    ensures ranges { IfOk result (λ c. InRange (asked c)) }
{
    Ok(Command::Pair {
        program: String::from_str(alloc, word_at(words, 1))?,
        first_world: String::from_str(alloc, word_at(words, 2))?,
        first_book: String::from_str(alloc, word_at(words, 3))?,
        second_world: String::from_str(alloc, word_at(words, 4))?,
        second_book: String::from_str(alloc, word_at(words, 5))?,
        obs: String::from_str(alloc, word_at(words, 6))?,
    })
}

fn walk_command(alloc: Global, words: &[String]) -> Result<Command, WordFault>
    ensures value { Reads asked result (Ok (requested (map string_bytes words.now) Form.Walk)) }
    ensures ranges { IfOk result (λ c. InRange (asked c)) }
{
    Ok(Command::Walk {
        program: String::from_str(alloc, word_at(words, 1))?,
        world: String::from_str(alloc, word_at(words, 2))?,
        book: String::from_str(alloc, word_at(words, 3))?,
    })
}

/// The workers that words of `run` ask.
fn workers_in(words: &[String], options: Options) -> u64
    ensures value { result ≡ workers_in (map string_bytes words.now) options }
    ensures some { 1 ≤ result }
    ensures most { result ≤ most_workers }
{
    match options {
        Options::Workers | Options::Both => number_at(words, 6, 1, WORKER_LIMIT),
        Options::Neither | Options::Turns => USUAL_WORKERS,
    }
}

/// The turns that words of `run` ask.
fn turns_in(words: &[String], options: Options) -> u64
    ensures value { result ≡ turns_in (map string_bytes words.now) options }
    ensures some { 1 ≤ result }
    ensures most { result ≤ most_turns }
{
    match options {
        Options::Turns => number_at(words, 6, 1, TURN_LIMIT),
        Options::Both => number_at(words, 8, 1, TURN_LIMIT),
        Options::Neither | Options::Workers => USUAL_TURNS,
    }
}

/// The forms of the words, a line for each command.
///
/// # Errors
///
/// `NoMemory` where memory runs out.
pub fn help_text(alloc: Global) -> Result<String, NoMemory>
    ensures { IfOk result (λ text. string_bytes text ≡ help_lines commands) }
{
    Ok(String::from_str(
        alloc,
        "lam play FILE OBS\nlam check P\nlam format P\nlam code P\nlam replay P W BOOK OBS\nlam run P W OBS BOOKOUT [--workers N] [--turns N]\nlam audit P W BOOK\nlam make SEED THREADS BOOKOUT\nlam help\nlam next P W BOOK W2\nlam pair P W1 BOOK1 W2 BOOK2 OBS\nlam walk P W BOOK\n",
    )?)
}
