//! The items of the tree of versions 1 and 2.

ghost use Rattle.std.specs.Prelude.{◌≡◌, codes, MatchResult, OnOk, None, unwrap_or};
ghost use Rattle.lam_value.specs.Homes.{home_of};
ghost use Rattle.labelled_files.specs.Trees.{first_fault};
ghost use Rattle.labelled_files.specs.declared.files.FileFault.TheVariants.{NoMemory as no_memory};
ghost use Rattle.serde_json.specs.View.{view, items_view};
ghost use Rattle.serde_json.specs.Find.{get_member};
ghost use Rattle.world_doc_terms.specs.Breaks.{formed};
ghost use Rattle.world_doc_terms.specs.Stores.{as_dir, as_text, content_of, with_content, unless_full, with_items};
ghost use Rattle.world_doc_stores.specs.Meaning.{Gives, GivesOnto};
ghost use Rattle.world_doc_stores.specs.Seen.{members};
ghost use Rattle.world_doc_stores.specs.Contents.{spot, content_seen, path_fault, placed, item_in, tree_onto};

use crate::path::open_spot;
use crate::{WorldFault, array_member, bad_member, no_member, object, read_label, str_member};
use flow_labels::{Label, TagNames};
use labelled_files::{FILE_LIMIT, FileFault, Files};
use lam_value::Name;
use serde_json::Value;
use std::alloc::Global;
use world_doc_terms::WorldBreak;

// What an item of the tree has.
#[derive(Clone, Copy)]
enum Content<'a> {
    Dir,
    Text(&'a str),
}

fn dir_content<'a>(alloc: Global, dir: &'a Value) -> Result<Content<'a>, WorldFault>
    ensures { Gives content_seen result (formed (codes "dir") (as_dir (view dir.now))) }
{
    match dir.as_bool() {
        Some(true) => Ok(Content::Dir),
        _ => Err(bad_member(alloc, "dir")),
    }
}

fn text_content<'a>(alloc: Global, text: &'a Value) -> Result<Content<'a>, WorldFault>
    ensures { Gives content_seen result (formed (codes "text") (as_text (view text.now))) }
{
    match text.as_str() {
        Some(text) if text.len() <= FILE_LIMIT => Ok(Content::Text(text)),
        _ => Err(bad_member(alloc, "text")),
    }
}

fn read_content<'a>(alloc: Global, item: &'a Value) -> Result<Content<'a>, WorldFault>
    ensures { Gives content_seen result (content_of (get_member (codes "dir") (members (view item.now))) (get_member (codes "text") (members (view item.now)))) }
{
    match (item.get("dir"), item.get("text")) {
        (Some(_), Some(_)) => Err(bad_member(alloc, "dir")),
        (Some(dir), None) => dir_content(alloc, dir),
        (None, Some(text)) => text_content(alloc, text),
        (None, None) => Err(no_member(alloc, "text")),
    }
}

// A file that is full, and a directory or a home that has no room, is a break of the item's path.
pub fn path_fault(fault: FileFault, index: u64) -> WorldFault
    ensures { result ≡ path_fault fault index }
{
    match fault {
        FileFault::NoMemory => WorldFault::NoMemory,
        _ => WorldFault::Broken(WorldBreak::BadPath(index)),
    }
}

// Makes a directory, or a file with its text.
fn make(
    files: &mut Files,
    dir: &Name,
    text: &[u8],
    label: &Label,
    content: Content,
) -> Result<(), FileFault>
    ensures fault { MatchResult result (λ _. first_fault files.old dir.now text.now (home_of label.now label.now) ≡ None) (λ e. e ≡ unwrap_or (first_fault files.old dir.now text.now (home_of label.now label.now)) no_memory) }
    ensures ok { OnOk result (files.new ≡ with_content files.old (spot dir.now text.now) (home_of label.now label.now) (content_seen content.entry)) }
{
    match content {
        Content::Dir => {
            files.make_dir(dir, text, label, label)?;
        }
        Content::Text(bytes) => {
            let name = files.make_file(dir, text, label, label)?;
            files.append(&name, bytes.as_bytes())?;
        }
    }
    Ok(())
}

// Puts what an item has at its place.
fn put(
    files: &mut Files,
    index: u64,
    dir: &Name,
    text: &[u8],
    label: &Label,
    content: Content,
) -> Result<(), WorldFault>
    ensures { GivesOnto result files.new (unless_full index (first_fault files.old dir.now text.now (home_of label.now label.now)) (with_content files.old (spot dir.now text.now) (home_of label.now label.now) (content_seen content.entry))) }
{
    match make(files, dir, text, label, content) {
        Ok(()) => Ok(()),
        Err(fault) => Err(path_fault(fault, index)),
    }
}

// Puts an item, with its label and its content, at its path.
fn place(
    alloc: Global,
    names: &TagNames,
    files: &mut Files,
    index: u64,
    path: &[u8],
    item: &Value,
) -> Result<(), WorldFault>
    ensures { GivesOnto result files.new (placed names.now index files.old (members (view item.now)) path.now) }
{
    let (dir, text) = open_spot(files, index, path)?;
    let label = read_label(alloc, item, names)?;
    let content = read_content(alloc, item)?;
    put(files, index, &dir, text, &label, content)
}

fn place_item(
    alloc: Global,
    names: &TagNames,
    files: &mut Files,
    index: u64,
    item: &Value,
) -> Result<(), WorldFault>
    ensures { GivesOnto result files.new (item_in names.now index files.old (view item.now)) }
{
    object(alloc, item, "tree")?;
    let path = str_member(alloc, item, "path")?;
    place(alloc, names, files, index, path.as_bytes(), item)
}

/// Puts the items of a list into the files.
fn place_items(
    alloc: Global,
    names: &TagNames,
    files: &mut Files,
    items: &[Value],
) -> Result<(), WorldFault>
    ensures { GivesOnto result files.new (with_items names.now 0 files.old (items_view items.now)) }
{
    for (index, item) in items.iter().enumerate() {
        place_item(alloc, names, files, index as u64, item)?;
    }
    Ok(())
}

/// Makes the directories and files of the member `tree` of a document.
///
/// # Errors
///
/// The first break of the items, in their order: `NoMember` or `BadMember` with a member's name, or with `tree` where an
/// item is no object; `BadPath` where a path leads to no place, or where the directory or the label has no room;
/// `PathTwice` where something stands at the path; `NoTag` with the first name in a label that is no tag's.
pub fn read_tree(
    alloc: Global,
    document: &Value,
    names: &TagNames,
    files: &mut Files,
) -> Result<(), WorldFault>
    ensures { GivesOnto result files.new (tree_onto names.now files.old (members (view document.now))) }
{
    let items = array_member(alloc, document, "tree")?;
    place_items(alloc, names, files, items)
}
