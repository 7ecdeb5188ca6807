//! The reader of steps: an actor's action on a cell, from a line's words.

ghost use Rattle.std.specs.Prelude.{◌≡◌};
ghost use Rattle.flow_labels.specs.Names.{place_of};
ghost use Rattle.play_script.specs.Pieces.{texts};
ghost use Rattle.play_script.specs.Script.{play_of, step_of, read_of, write_of, copy_of};

use crate::declarations::int_of;
use crate::{Script, Step};
use flow_labels::TagNames;

/// The step that a line's words say, if its actor and its cells are declared.
pub fn step_of(script: &Script, words: &[&str]) -> Option<Step>
    ensures { result ≡ step_of (play_of script.now) (texts words.now) }
{
    match words {
        [actor, verb, rest @ ..] => {
            let actor = place_of(&script.actor_names, *actor)?;
            match *verb {
                "read" => read_of(&script.cell_names, actor, rest),
                "write" => write_of(&script.cell_names, actor, rest),
                "copy" => copy_of(&script.cell_names, actor, rest),
                _ => None,
            }
        }
        _ => None,
    }
}

/// A name's place in a list of names.
fn place_of(names: &TagNames, name: &str) -> Option<u64>
    ensures { result ≡ place_of names.now name.now }
{
    match names.find(name) {
        None => None,
        Some(place) => Some(place.0),
    }
}

fn read_of(cells: &TagNames, actor: u64, words: &[&str]) -> Option<Step>
    ensures { result ≡ read_of cells.now actor (texts words.now) }
{
    match words {
        [cell] => {
            let cell = place_of(cells, *cell)?;
            Some(Step::Read { actor, cell })
        }
        _ => None,
    }
}

fn write_of(cells: &TagNames, actor: u64, words: &[&str]) -> Option<Step>
    ensures { result ≡ write_of cells.now actor (texts words.now) }
{
    match words {
        [cell, value] => {
            let cell = place_of(cells, *cell)?;
            let value = int_of(*value)?;
            Some(Step::Write { actor, cell, value })
        }
        _ => None,
    }
}

fn copy_of(cells: &TagNames, actor: u64, words: &[&str]) -> Option<Step>
    ensures { result ≡ copy_of cells.now actor (texts words.now) }
{
    match words {
        [from, to] => {
            let from = place_of(cells, *from)?;
            let to = place_of(cells, *to)?;
            Some(Step::Copy { actor, from, to })
        }
        _ => None,
    }
}
