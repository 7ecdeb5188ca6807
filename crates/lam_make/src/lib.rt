//! A generator of large inputs from a seed, for timing and for many threads.
//!
//! The program is always the same. Each thread sums the numbers up to its own in a region with its own tag, and says
//! the sum in a public region inside. The world has the wanted number of threads. Each has a tag, the capabilities of
//! that tag, and a number below 1000 that is drawn from the seed. So a seed and a number of threads make one input, on
//! every machine.
//!
//! What `make` prints rests on `make` (its one clause): the same texts for the same seed and number. Free to change
//! for speed: how the texts are put together.
#![tactic(auto)]

mod document;
mod draws;

ghost use Rattle.std.specs.Prelude.{◌≡◌, ◌≤◌, IfOk, string_bytes};
ghost use Rattle.lam_make.specs.Made.{program_text, world_text, most_made_threads};

use crate::document::push_world;
use std::alloc::Global;
use want_of_memory::NoMemory;

/// The most threads of a made world.
pub const MADE_THREADS_LIMIT: u64 = 64;

/// The text of the program.
const PROGRAM: &str = "fn work(a: tag, n: int): int {
  region (label{a;}, caps{a-}) [n] {
    let s: int = 0;
    while (n > 0) {
      s = s + n;
      n = n - 1;
    }
    region (label{;}, caps{}) [s] {
      say(text(s));
    } catch (e) { }
  } catch (f) { }
  return 0;
}
";

/// The text of the program, and the text of the world's document, that a number makes for so many threads.
///
/// A world has 1 to 64 threads. It takes time and memory linear in their number.
///
/// # Errors
///
/// `NoMemory` where memory is refused, and no other.
pub fn make(alloc: Global, seed: u64, threads: u64) -> Result<(String, String), NoMemory>
    requires { (1 ≤ threads) × (threads ≤ most_made_threads) }
    ensures { IfOk result (λ texts. (string_bytes texts.0 ≡ program_text) × (string_bytes texts.1 ≡ world_text seed threads)) }
{
    let program = program(alloc)?;
    let world = world(alloc, seed, threads)?;
    Ok((program, world))
}

fn program(alloc: Global) -> Result<String, NoMemory>
    ensures { IfOk result (λ text. string_bytes text ≡ program_text) }
{
    Ok(String::from_str(alloc, PROGRAM)?)
}

fn world(alloc: Global, seed: u64, threads: u64) -> Result<String, NoMemory>
    requires { threads ≤ most_made_threads }
    ensures { IfOk result (λ text. string_bytes text ≡ world_text seed threads) }
{
    let mut text = String::new(alloc);
    push_world(&mut text, seed, threads)?;
    Ok(text)
}
