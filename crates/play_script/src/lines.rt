//! The line-by-line reader of a script.

ghost use Rattle.std.specs.Prelude.{◌≡◌, IfOk};
ghost use Rattle.play_script.specs.Pieces.{texts};
ghost use Rattle.play_script.specs.Script.{read_script, play_of, after_line, after_words, after_step, is_ascii, Gives, Adds};
ghost use Rattle.play_script.specs.Whole.{IsWhole};

use crate::declarations::{take_actor, take_cell, take_tag};
use crate::faults::LineFault;
use crate::pieces::{cut_line, words_of};
use crate::steps::step_of;
use crate::{Script, ScriptFault};
use flow_labels::TagNames;
use std::alloc::Global;
use std::str;

/// The most lines of a script.
const LINE_LIMIT: u64 = 65_536;

/// The script that a text spells, or its least broken line. In a script that was read each name
/// was declared once, each step's actor and cells are declared, and at most 65,536 lines stand.
pub fn read_script(alloc: Global, text: &[u8]) -> Result<Script, ScriptFault>
    ensures gives { Gives play_of result (read_script text.now) }
    ensures whole { IfOk result (λ s. IsWhole (play_of s)) }
{
    let mut script = Script {
        tags: TagNames::new(alloc),
        kinds: Vec::new(alloc),
        actor_names: TagNames::new(alloc),
        actors: Vec::new(alloc),
        cell_names: TagNames::new(alloc),
        cells: Vec::new(alloc),
        steps: Vec::new(alloc),
    };
    let mut rest = text;
    let mut number = 1u64;
    while let Some((line, after)) = cut_line(rest) {
        if number > LINE_LIMIT {
            return Err(ScriptFault::Line(number));
        }
        match take_line(alloc, &mut script, line) {
            Ok(()) => {}
            Err(LineFault::Broken) => return Err(ScriptFault::Line(number)),
            Err(LineFault::NoMemory) => return Err(ScriptFault::NoMemory),
        }
        rest = after;
        number += 1;
    }
    if rest.is_empty() {
        Ok(script)
    } else {
        Err(ScriptFault::Line(number))
    }
}

fn is_ascii(text: &[u8]) -> bool
    ensures { result ≡ is_ascii text.now }
{
    text.iter().all(|b| *b < 128)
}

fn take_line(alloc: Global, script: &mut Script, line: &[u8]) -> Result<(), LineFault>
    ensures { Adds result (play_of script.new) (after_line (play_of script.old) line.now) }
{
    if !is_ascii(line) {
        return Err(LineFault::Broken);
    }
    match str::from_utf8(line) {
        Err(_) => Err(LineFault::Broken),
        Ok(line) => {
            let words = words_of(alloc, line)?;
            take_words(alloc, script, words.as_slice())
        }
    }
}

fn take_words(alloc: Global, script: &mut Script, words: &[&str]) -> Result<(), LineFault>
    ensures { Adds result (play_of script.new) (after_words (play_of script.old) (texts words.now)) }
{
    match words.split_first() {
        None => Err(LineFault::Broken),
        Some((word, rest)) => match *word {
            "tag" => take_tag(script, rest),
            "actor" => take_actor(alloc, script, rest),
            "cell" => take_cell(script, rest),
            _ => take_step(script, words),
        },
    }
}

fn take_step(script: &mut Script, words: &[&str]) -> Result<(), LineFault>
    ensures { Adds result (play_of script.new) (after_step (play_of script.old) (texts words.now)) }
{
    match step_of(script, words) {
        None => Err(LineFault::Broken),
        Some(step) => {
            script.steps.push(step)?;
            Ok(())
        }
    }
}
