//! The list of files and directories.

ghost use Rattle.std.specs.Prelude.{◌≡◌, length, map, [], OnOk, true, false};
ghost use Rattle.serde_json.specs.Written.{members_text};
ghost use Rattle.json.specs.Print.{escape, quoted};
ghost use Rattle.labelled_files.specs.Trees.{bytes_at};
ghost use Rattle.world_save_terms.specs.Items.{items_of};
ghost use Rattle.world_save_terms.specs.Document.{place_members, item_data, list_text};
ghost use Rattle.world_save_items.specs.Measures.{capped};
ghost use Rattle.world_save_items.specs.Steps.{IsWalk, AreMeasured, found, items_from};
ghost use Rattle.world_save_text.specs.Writing.{Wrote};
ghost use Rattle.world_save_text.specs.Pieces.{item_text, items_left, bytes_text, head_text};

use crate::rows::comma;
use crate::{JsonWriter, digits, label, number, quoted, raw};
use flow_labels::{NoMemory, TagNames};
use labelled_files::{EntryKind, Files};
use lam_value::Name;
use std::alloc::Global;
use world_save_items::{Step, lengthen, more};

/// Writes a path in quotes. A writer that counts does not go over the path: how many bytes it takes is known.
fn write_path(writer: &mut JsonWriter, path: &[u8], bytes: u64) -> Result<(), NoMemory>
    requires { bytes ≡ capped (length (escape path.now)) }
    ensures { OnOk result (Wrote writer.old writer.new (quoted path.now)) }
{
    if writer.kept.is_some() {
        return quoted(writer, path);
    }
    writer.count = more(more(writer.count, bytes), 2);
    Ok(())
}

/// Writes what is said of a file or directory after what it is.
fn write_place(
    writer: &mut JsonWriter,
    names: &TagNames,
    name: &Name,
    path: &[u8],
    bytes: u64,
) -> Result<(), NoMemory>
    requires { bytes ≡ capped (length (escape path.now)) }
    ensures { OnOk result (Wrote writer.old writer.new (members_text true (place_members names.now path.now name.now))) }
{
    raw(writer, b",\"label\":")?;
    label(writer, name.own(), names)?;
    raw(writer, b",\"maker\":")?;
    label(writer, name.maker(), names)?;
    raw(writer, b",\"number\":")?;
    number(writer, name.n())?;
    raw(writer, b",\"path\":")?;
    write_path(writer, path, bytes)?;
    raw(writer, b"}")
}

fn contents<'a>(files: &'a Files, name: &Name) -> &'a [u8]
    ensures { result.now ≡ bytes_at files.now name.now }
{
    files.read(name, 0, files.length(name))
}

/// Writes the bytes of a file.
fn write_bytes(alloc: Global, writer: &mut JsonWriter, bytes: &[u8]) -> Result<(), NoMemory>
    ensures { OnOk result (Wrote writer.old writer.new (bytes_text bytes.now)) }
{
    raw(writer, b"{\"hex\":")?;
    digits(alloc, writer, bytes)
}

/// Writes whether it is a directory, or the bytes of a file.
fn write_head(
    alloc: Global,
    writer: &mut JsonWriter,
    files: &Files,
    kind: EntryKind,
    name: &Name,
) -> Result<(), NoMemory>
    ensures { OnOk result (Wrote writer.old writer.new (head_text files.now name.now kind)) }
{
    match kind {
        EntryKind::File => write_bytes(alloc, writer, contents(files, name)),
        EntryKind::Dir => raw(writer, b"{\"dir\":true"),
    }
}

fn write_item(
    alloc: Global,
    writer: &mut JsonWriter,
    later: bool,
    names: &TagNames,
    files: &Files,
    path: &[u8],
    step: &Step,
) -> Result<(), NoMemory>
    requires { step.now.bytes ≡ capped (length (escape path.now)) }
    ensures { OnOk result (Wrote writer.old writer.new (item_text later (item_data names.now files.now (record { path = path.now; target = record { kind = step.now.kind; name = step.now.name.now } })))) }
{
    comma(writer, later)?;
    write_head(alloc, writer, files, step.kind, step.name)?;
    write_place(writer, names, step.name, path, step.bytes)
}

fn write_each(
    alloc: Global,
    writer: &mut JsonWriter,
    names: &TagNames,
    files: &Files,
    steps: &[Step],
) -> Result<(), NoMemory>
    requires { AreMeasured [] (map found steps.now) }
    ensures { OnOk result (Wrote writer.old writer.new (items_left false (map (item_data names.now files.now) (items_from [] (map found steps.now))))) }
{
    let _count = writer.count;
    let mut path: Vec<u8> = Vec::new(alloc);
    let mut later = false;
    for step in steps {
        path.truncate(step.cut);
        lengthen(&mut path, step.entry)?;
        write_item(alloc, writer, later, names, files, path.as_slice(), step)?;
        later = true;
    }
    raw(writer, b"]")
}

/// Writes the list of files and directories.
pub fn write_tree(
    alloc: Global,
    writer: &mut JsonWriter,
    names: &TagNames,
    files: &Files,
    steps: &[Step],
) -> Result<(), NoMemory>
    requires { IsWalk files.now steps.now }
    ensures { OnOk result (Wrote writer.old writer.new (list_text (map (item_data names.now files.now) (items_of files.now)))) }
{
    raw(writer, b"[")?;
    write_each(alloc, writer, names, files, steps)
}
