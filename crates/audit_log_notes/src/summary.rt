//! The text of a summary.

ghost use Rattle.std.specs.Prelude.{◌≡◌, ◌++◌, IfOk, OnOk, string_bytes};
ghost use Rattle.audit_log_notes.specs.Sums.{made_line, sum_line, summary_of};

use crate::Sums;
use decimal_text::push_number;
use std::alloc::Global;
use want_of_memory::NoMemory;

/// The summary of a run in a world that a seed made for so many threads: four lines, of the world, and of what was said,
/// released and refused.
///
/// # Errors
///
/// `NoMemory` where memory is refused, and no other.
pub fn summary_text(alloc: Global, seed: u64, threads: u64, sums: &Sums) -> Result<String, NoMemory>
    ensures { IfOk result (λ t. string_bytes t ≡ summary_of seed threads sums.now) }
{
    let mut text = String::new(alloc);
    push_made(&mut text, seed, threads)?;
    push_sum(&mut text, "said", sums.said)?;
    push_sum(&mut text, "releases", sums.releases)?;
    push_sum(&mut text, "refused", sums.refused)?;
    Ok(text)
}

/// Writes from which seed, and with how many threads, the world was made.
fn push_made(text: &mut String, seed: u64, threads: u64) -> Result<(), NoMemory>
    ensures { OnOk result (string_bytes text.new ≡ string_bytes text.old ++ made_line seed threads) }
{
    text.push_str("made ")?;
    push_number(text, seed)?;
    text.push(' ')?;
    push_number(text, threads)?;
    text.push('\n')?;
    Ok(())
}

/// Writes a word, and what was counted.
fn push_sum(text: &mut String, word: &str, n: u64) -> Result<(), NoMemory>
    ensures { OnOk result (string_bytes text.new ≡ string_bytes text.old ++ sum_line word.now n) }
{
    text.push_str(word)?;
    text.push(' ')?;
    push_number(text, n)?;
    text.push('\n')?;
    Ok(())
}
