//! The list of tags.

ghost use Rattle.std.specs.Prelude.{◌≡◌, nat_lt, slice_get, Some, OnOk, false};
ghost use Rattle.flow_labels.specs.TwoLists.{Text};
ghost use Rattle.world_save_terms.specs.Document.{kind_at, kind_word, tag_data, tags_from, list_text};
ghost use Rattle.world_save_text.specs.Writing.{Wrote};
ghost use Rattle.world_save_text.specs.Pieces.{item_text, items_left};

use crate::rows::comma;
use crate::{JsonWriter, quoted, raw};
use capabilities::{Caps, TagKind};
use flow_labels::{NoMemory, TagId, TagNames};

/// The kind that makes public of a tag what is public.
fn kind_at(public: &Caps, tag: TagId) -> TagKind
    ensures { result ≡ kind_at public.now tag }
{
    if public.plus.contains(tag) {
        TagKind::Export
    } else if public.minus.contains(tag) {
        TagKind::Integrity
    } else {
        TagKind::Read
    }
}

fn kind_word(kind: TagKind) -> &'static str
    ensures { result.now ≡ kind_word kind }
{
    match kind {
        TagKind::Read => "read",
        TagKind::Export => "export",
        TagKind::Integrity => "integrity",
    }
}

fn write_tag(
    writer: &mut JsonWriter,
    later: bool,
    name: &str,
    kind: TagKind,
) -> Result<(), NoMemory>
    ensures { OnOk result (Wrote writer.old writer.new (item_text later (tag_data name.now kind))) }
{
    comma(writer, later)?;
    raw(writer, b"{\"kind\":")?;
    quoted(writer, kind_word(kind).as_bytes())?;
    raw(writer, b",\"name\":")?;
    quoted(writer, name.as_bytes())?;
    raw(writer, b"}")
}

/// Writes the tag of a number, where it has a name.
fn write_tag_at(
    writer: &mut JsonWriter,
    names: &TagNames,
    public: &Caps,
    at: u64,
) -> Result<(), NoMemory>
    ensures { OnOk result ((name : Text) → Some name ≡ slice_get names.now at → Wrote writer.old writer.new (item_text (nat_lt 0 at) (tag_data name (kind_at public.now at)))) }
{
    match names.name(TagId(at)) {
        Some(name) => write_tag(writer, 0 < at, name, kind_at(public, TagId(at))),
        None => Ok(()),
    }
}

fn write_each(writer: &mut JsonWriter, names: &TagNames, public: &Caps) -> Result<(), NoMemory>
    ensures { OnOk result (Wrote writer.old writer.new (items_left false (tags_from public.now 0 names.now))) }
{
    let _count = writer.count;
    for at in 0..names.count() {
        write_tag_at(writer, names, public, at)?;
    }
    raw(writer, b"]")
}

/// Writes the list of tags: the name of each, and its kind.
pub fn write_tags(writer: &mut JsonWriter, names: &TagNames, public: &Caps) -> Result<(), NoMemory>
    ensures { OnOk result (Wrote writer.old writer.new (list_text (tags_from public.now 0 names.now))) }
{
    raw(writer, b"[")?;
    write_each(writer, names, public)
}
