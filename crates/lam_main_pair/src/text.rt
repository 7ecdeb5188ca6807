//! The line of an answer.

ghost use Rattle.std.specs.Prelude.{◌≡◌, ◌∷◌, [], IfOk, IfErr, decimal, string_bytes};
ghost use Rattle.lam_main_replay.specs.Refusals.{line};
ghost use Rattle.lam_main_replay.specs.Pairs.{part_name, pair_line};
ghost use Rattle.lam_main_pair.specs.Halves.{IsAnswered};

use crate::half::{Half, let_go_half};
use decimal_text::push_number;
use flow_labels::Label;
use lam_main_replay::Halt;
use pair_check::{PairAnswer, Part, answer_of_starts};
use std::alloc::Global;
use want_of_memory::NoMemory;

/// The line of the answer to two runs. Both are let go.
///
/// # Errors
///
/// `NoMemory` where memory is refused.
pub(crate) fn answered(
    alloc: Global,
    first: Half,
    second: Half,
    observer: &Label,
) -> Result<String, Halt>
    ensures ok { IfOk result (IsAnswered observer.now first second) }
    ensures err { IfErr result (λ halt. halt ≡ Halt.NoMemory) }
{
    let answer = answer_of_starts(
        &first.start,
        &first.noted,
        &second.start,
        &second.noted,
        observer,
    );
    let_go_half(first);
    let_go_half(second);
    match pair_text(alloc, answer) {
        Ok(text) => Ok(text),
        Err(NoMemory) => Err(Halt::NoMemory),
    }
}

/// The line of an answer.
fn pair_text(alloc: Global, answer: PairAnswer) -> Result<String, NoMemory>
    ensures { IfOk result (λ text. string_bytes text ≡ pair_line answer) }
{
    match answer {
        PairAnswer::WorldsDiffer { what } => part_text(alloc, what),
        PairAnswer::TurnsDiffer { n } => number_text(alloc, "turns differ ", n),
        PairAnswer::ReleaseDiffers { n } => number_text(alloc, "releases differ ", n),
        PairAnswer::Agree { n } => number_text(alloc, "agree ", n),
    }
}

/// The line of a part in which the worlds differ.
fn part_text(alloc: Global, part: Part) -> Result<String, NoMemory>
    ensures { IfOk result (λ text. string_bytes text ≡ pair_line (PairAnswer.WorldsDiffer part)) }
{
    let mut text = String::new(alloc);
    text.push_str("worlds differ ")?;
    text.push_str(part_name(part))?;
    text.push('\n')?;
    Ok(text)
}

/// A line of words and a number.
fn number_text(alloc: Global, words: &str, n: u64) -> Result<String, NoMemory>
    ensures { IfOk result (λ text. string_bytes text ≡ line (words.now ∷ decimal n ∷ [])) }
{
    let mut text = String::new(alloc);
    text.push_str(words)?;
    push_number(&mut text, n)?;
    text.push('\n')?;
    Ok(text)
}

/// A part of a world by its name.
fn part_name(part: Part) -> &'static str
    ensures { result.now ≡ part_name part }
{
    match part {
        Part::Tags => "Tags",
        Part::Public => "Public",
        Part::Heap => "Heap",
        Part::Files => "Files",
        Part::Pipes => "Pipes",
        Part::Counters => "Counters",
        Part::Threads => "Threads",
    }
}
