//! Scripts that are read, broken scripts, and the text of an observer's view.

ghost use Rattle.std.specs.Prelude.{◌≤◌, length};

use flow_labels::parse_label;
use play_run::play_text;
use play_script::{Actor, Cell, Script, ScriptFault, Step, read_script};
use std::alloc::Global;

/// Whether the second actor and the second cell are found by their names.
fn has_names(script: &Script) -> bool {
    let actor = matches!(script.actor_names.find("q"), Some(place) if place.0 == 1);
    actor & matches!(script.cell_names.find("d"), Some(place) if place.0 == 1)
}

/// Whether an actor has one secret tag, which it may drop and not add.
fn may_drop(actor: &Actor) -> bool {
    let label = actor.label.s.tags().len() == 1;
    label & (actor.caps.plus.tags().len() == 0) & (actor.caps.minus.tags().len() == 1)
}

/// Whether the first actor may drop its tag.
fn has_actor(script: &Script) -> bool {
    match script.actors.get(0) {
        Some(actor) => may_drop(actor),
        None => false,
    }
}

/// Whether a number stands in the first cell.
fn has_cell(script: &Script) -> bool {
    matches!(script.cells.get(0), Some(Cell { value: -7, .. }))
}

/// Whether the steps are a copy, a read and a write.
fn has_steps(script: &Script) -> bool {
    let steps = [
        Step::Copy {
            actor: 0,
            from: 0,
            to: 1,
        },
        Step::Read { actor: 1, cell: 1 },
        Step::Write {
            actor: 1,
            cell: 1,
            value: 9223372036854775807,
        },
    ];
    script.steps.as_slice() == steps.as_slice()
}

/// Whether a script with one tag has its parts.
fn has_parts(script: &Script) -> bool {
    let heads = (script.tags.count() == 1) & has_names(script) & has_actor(script);
    heads & has_cell(script) & has_steps(script)
}

/// Whether a text is read as the script of a copy.
fn is_read(alloc: Global, text: &str) -> Option<bool> {
    let script = read_script(alloc, text.as_bytes()).ok()?;
    Some(has_parts(&script))
}

#[test]
fn script_with_a_copy_is_read(rt: HostRuntime) {
    let text =
        "tag a\nactor p {a}/{} +{}-{a}\nactor q {}/{}\ncell c {a}/{} -7\ncell d {}/{} 0\np copy c d\nq read d\nq write d 9223372036854775807\n";
    assert!(rt; is_read(rt.alloc(), text) == Some(true));
}

/// Whether a script is broken first at a line.
fn is_broken_at(alloc: Global, text: &str, line: u64) -> bool {
    read_script(alloc, text.as_bytes()).err() == Some(ScriptFault::Line(line))
}

#[test]
fn broken_lines_are_named(rt: HostRuntime) {
    let broken = [
        ("tag a", 1),
        ("\n", 1),
        ("tag  a\n", 1),
        ("tag a \n", 1),
        ("tag a\r\n", 1),
        ("tag a write\n", 1),
        ("tag a read read\n", 1),
        ("tag a Export\n", 1),
        ("tag copy\n", 1),
        ("tag a\nactor a {}/{}\n", 2),
        ("tag a\ncell c {}/{} 01\n", 2),
        ("cell c {}/{} -0\n", 1),
        ("cell c {}/{} 9223372036854775808\n", 1),
        ("cell c {a}/{} 5\n", 1),
        ("actor p {}/{}\ncell c {}/{} 5\np read c\ntag a\n", 4),
        ("actor p {}/{}\np read c\n", 2),
        ("cell c {}/{} 5\nc read c\n", 2),
    ];
    for (text, line) in broken {
        assert!(rt; is_broken_at(rt.alloc(), text, line), "{text}");
    }
}

/// Whether this is what an observer reads of the run of a script.
fn plays(alloc: Global, script: &Script, observer: &str, want: &str) -> Option<bool>
    requires { length script.now.cells.items ≤ 65536 }
{
    let label = parse_label(observer, &script.tags).ok()?;
    let text = play_text(alloc, script, &label).ok()?;
    Some(text.as_str() == want)
}

/// Whether this is what an observer reads of the run of a script that is read.
fn shows(alloc: Global, text: &str, observer: &str, want: &str) -> Option<bool> {
    let script = read_script(alloc, text.as_bytes()).ok()?;
    plays(alloc, &script, observer, want)
}

#[test]
fn copy_down_prints_its_release(rt: HostRuntime) {
    let text =
        "tag a\nactor p {a}/{} +{}-{a}\nactor q {}/{}\ncell c {a}/{} 7\ncell d {}/{} 0\np copy c d\nq read d\n";
    let release = "release p copy c d = 7 by +{}-{a}\nq read d = 7\n";
    assert!(rt; shows(rt.alloc(), text, "{}/{}", release) == Some(true));
    let copy = "p copy c d = 7\nq read d = 7\n";
    assert!(rt; shows(rt.alloc(), text, "{a}/{}", copy) == Some(true));
}

#[test]
fn copy_down_needs_its_minus(rt: HostRuntime) {
    let text =
        "tag a\nactor p {a}/{}\nactor q {}/{}\ncell c {a}/{} 7\ncell d {}/{} 0\np copy c d\nq read d\n";
    let refused = "p copy c d refused DropS a\nq read d = 0\n";
    assert!(rt; shows(rt.alloc(), text, "{a}/{}", refused) == Some(true));
}

#[test]
fn public_minus_in_a_script(rt: HostRuntime) {
    let free = "tag t integrity\nactor p {}/{t}\ncell c {}/{t} 5\ncell d {}/{} 0\np copy c d\n";
    assert!(rt; shows(rt.alloc(), free, "{}/{}", "p copy c d = 5\n") == Some(true));
    let bound = "tag t\nactor p {}/{t}\ncell c {}/{t} 5\ncell d {}/{} 0\np copy c d\n";
    let refused = "p copy c d refused DropI t\n";
    assert!(rt; shows(rt.alloc(), bound, "{}/{}", refused) == Some(true));
    let read = "tag t read\nactor p {}/{t}\ncell c {}/{t} 5\ncell d {}/{} 0\np copy c d\n";
    assert!(rt; shows(rt.alloc(), read, "{}/{}", refused) == Some(true));
}

#[test]
fn public_plus_in_a_script(rt: HostRuntime) {
    let text =
        "tag a export\nactor p {}/{}\ncell c {}/{} 5\ncell d {a}/{} 0\np copy c d\np copy d c\n";
    let lines = "p copy c d = 5\np copy d c refused ReadS a\n";
    assert!(rt; shows(rt.alloc(), text, "{}/{}", lines) == Some(true));
}
