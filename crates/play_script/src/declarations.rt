//! Declarations of tags, actors and cells, each name declared once and before its use.

ghost use Rattle.std.specs.Prelude.{◌≡◌, ◌++◌, ◌∷◌, [], true, is_none, Some};
ghost use Rattle.capabilities.specs.CapsText.{caps_of};
ghost use Rattle.capabilities.specs.Kinds.{kind_of};
ghost use Rattle.flow_labels.specs.Names.{is_name, place_of};
ghost use Rattle.flow_labels.specs.LabelText.{label_of};
ghost use Rattle.decimal_text.specs.Decimal.{int_of};
ghost use Rattle.play_script.specs.Pieces.{texts};
ghost use Rattle.play_script.specs.Script.{play_of, after_tag, after_actor, after_cell, kind_in, actor_in, caps_in, cell_in, may_declare, is_free, is_reserved, Adds, GivesSome, ok_of, with_tag, with_actor, with_cell};

use crate::faults::LineFault;
use crate::{Actor, Cell, Script};
use capabilities::{Caps, CapsFault, TagKind, parse_caps};
use decimal_text::read_int;
use flow_labels::{Label, LabelFault, NameFault, TagNames, is_name, parse_label};
use std::alloc::Global;

fn is_reserved(word: &str) -> bool
    ensures { result ≡ is_reserved word.now }
{
    matches!(word, "tag" | "actor" | "cell" | "read" | "write" | "copy")
}

fn is_free(script: &Script, name: &str) -> bool
    ensures { result ≡ is_free (play_of script.now) name.now }
{
    script.tags.find(name).is_none()
        && script.actor_names.find(name).is_none()
        && script.cell_names.find(name).is_none()
}

fn may_declare(script: &Script, name: &str) -> bool
    ensures { result ≡ may_declare (play_of script.now) name.now }
{
    script.steps.is_empty()
        && is_name(name.as_bytes())
        && !is_reserved(name)
        && is_free(script, name)
}

#[tactic(auto, using(crate::proofs::WordLemmas::no_tag))]
pub fn take_tag(script: &mut Script, words: &[&str]) -> Result<(), LineFault>
    ensures { Adds result (play_of script.new) (after_tag (play_of script.old) (texts words.now)) }
{
    match words {
        [name, rest @ ..] if may_declare(script, *name) => {
            let kind = kind_in(rest)?;
            add_tag(script, *name, kind)
        }
        _ => Err(LineFault::Broken),
    }
}

fn kind_in(words: &[&str]) -> Result<TagKind, LineFault>
    ensures { GivesSome (λ k. k) result (kind_in (texts words.now)) }
{
    match words {
        [] => Ok(TagKind::Read),
        [word] => kind_of(*word),
        _ => Err(LineFault::Broken),
    }
}

fn kind_of(word: &str) -> Result<TagKind, LineFault>
    ensures { GivesSome (λ k. k) result (kind_of word.now) }
{
    match capabilities::kind_of(word) {
        None => Err(LineFault::Broken),
        Some(kind) => Ok(kind),
    }
}

fn add_tag(script: &mut Script, name: &str, kind: TagKind) -> Result<(), LineFault>
    requires { may_declare (play_of script.old) name.now ≡ true }
    ensures { Adds result (play_of script.new) (Some (with_tag (play_of script.old) name.now kind)) }
{
    script.kinds.push(kind)?;
    add_name(&mut script.tags, name)
}

/// Adds a name that is none of these.
fn add_name(names: &mut TagNames, name: &str) -> Result<(), LineFault>
    requires named { is_name name.now ≡ true }
    requires new { is_none (place_of names.old name.now) ≡ true }
    ensures { Adds result names.new (Some (names.old ++ name.now ∷ [])) }
{
    match names.add(name) {
        Ok(_) => Ok(()),
        Err(NameFault::NoMemory) => Err(LineFault::NoMemory),
        Err(_) => unreachable!(),
    }
}

#[tactic(auto, using(crate::proofs::WordLemmas::no_actor))]
pub fn take_actor(alloc: Global, script: &mut Script, words: &[&str]) -> Result<(), LineFault>
    ensures { Adds result (play_of script.new) (after_actor (play_of script.old) (texts words.now)) }
{
    match words {
        [name, label, rest @ ..] if may_declare(script, *name) => {
            let actor = actor_of(alloc, *label, rest, &script.tags)?;
            add_actor(script, *name, actor)
        }
        _ => Err(LineFault::Broken),
    }
}

fn actor_of(alloc: Global, label: &str, rest: &[&str], names: &TagNames) -> Result<Actor, LineFault>
    ensures { GivesSome (λ a. a) result (actor_in names.now label.now (texts rest.now)) }
{
    let label = label_of(label, names)?;
    let caps = caps_in(alloc, rest, names)?;
    Ok(Actor { label, caps })
}

fn caps_in(alloc: Global, words: &[&str], names: &TagNames) -> Result<Caps, LineFault>
    ensures { GivesSome (λ c. c) result (caps_in names.now (texts words.now)) }
{
    match words {
        [] => Ok(Caps::none(alloc)),
        [text] => caps_of(*text, names),
        _ => Err(LineFault::Broken),
    }
}

fn caps_of(text: &str, names: &TagNames) -> Result<Caps, LineFault>
    ensures { GivesSome (λ c. c) result (ok_of (caps_of names.now text.now)) }
{
    match parse_caps(text, names) {
        Ok(caps) => Ok(caps),
        Err(CapsFault::NoMemory) => Err(LineFault::NoMemory),
        Err(_) => Err(LineFault::Broken),
    }
}

fn add_actor(script: &mut Script, name: &str, actor: Actor) -> Result<(), LineFault>
    requires { may_declare (play_of script.old) name.now ≡ true }
    ensures { Adds result (play_of script.new) (Some (with_actor (play_of script.old) name.now actor)) }
{
    script.actors.push(actor)?;
    add_name(&mut script.actor_names, name)
}

#[tactic(auto, using(crate::proofs::WordLemmas::short_cell, crate::proofs::WordLemmas::long_cell))]
pub fn take_cell(script: &mut Script, words: &[&str]) -> Result<(), LineFault>
    ensures { Adds result (play_of script.new) (after_cell (play_of script.old) (texts words.now)) }
{
    match words {
        [name, label, value] if may_declare(script, *name) => {
            let cell = cell_of(*label, *value, &script.tags)?;
            add_cell(script, *name, cell)
        }
        _ => Err(LineFault::Broken),
    }
}

fn cell_of(label: &str, value: &str, names: &TagNames) -> Result<Cell, LineFault>
    ensures { GivesSome (λ c. c) result (cell_in names.now label.now value.now) }
{
    let label = label_of(label, names)?;
    let value = number_of(value)?;
    Ok(Cell { label, value })
}

fn label_of(text: &str, names: &TagNames) -> Result<Label, LineFault>
    ensures { GivesSome (λ l. l) result (ok_of (label_of names.now text.now)) }
{
    match parse_label(text, names) {
        Ok(label) => Ok(label),
        Err(LabelFault::NoMemory) => Err(LineFault::NoMemory),
        Err(_) => Err(LineFault::Broken),
    }
}

fn add_cell(script: &mut Script, name: &str, cell: Cell) -> Result<(), LineFault>
    requires { may_declare (play_of script.old) name.now ≡ true }
    ensures { Adds result (play_of script.new) (Some (with_cell (play_of script.old) name.now cell)) }
{
    script.cells.push(cell)?;
    add_name(&mut script.cell_names, name)
}

/// The number that a word writes.
pub fn int_of(word: &str) -> Option<i64>
    ensures { result ≡ int_of word.now }
{
    read_int(word.as_bytes())
}

fn number_of(text: &str) -> Result<i64, LineFault>
    ensures { GivesSome (λ n. n) result (int_of text.now) }
{
    match int_of(text) {
        None => Err(LineFault::Broken),
        Some(value) => Ok(value),
    }
}
