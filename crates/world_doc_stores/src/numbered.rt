//! The items of the tree of version 3.
//!
//! Each says its own name, and the bytes of a file by digits.

ghost use Rattle.std.specs.Prelude.{◌≡◌, ◌<◌, ◌&&◌, not, true, false, codes, MatchResult, OnOk, IfOk, None, unwrap_or};
ghost use Rattle.std.specs.List.{list_any};
ghost use Rattle.lam_value.specs.Homes.{home_of, count_in};
ghost use Rattle.labelled_files.specs.Trees.{root_alone, lives_as, place_fault};
ghost use Rattle.labelled_files.specs.declared.directory.EntryKind.{EntryKind as Kind};
ghost use Rattle.labelled_files.specs.declared.files.FileFault.TheVariants.{NoMemory as no_memory};
ghost use Rattle.serde_json.specs.View.{view, items_view};
ghost use Rattle.serde_json.specs.Find.{get_member};
ghost use Rattle.world_doc_terms.specs.Breaks.{only_if, formed};
ghost use Rattle.world_doc_terms.specs.Stores.{as_dir, unless_full};
ghost use Rattle.world_doc_terms.specs.Numbered.{is_capital, bytes_of_hex, as_hex, hex_content_of, is_open, name_in, with_named, with_numbered_items};
ghost use Rattle.world_doc_stores.specs.Meaning.{Gives, GivesOnto};
ghost use Rattle.world_doc_stores.specs.Seen.{members};
ghost use Rattle.world_doc_stores.specs.Contents.{spot, saved_seen, numbered_placed, numbered_item_in, numbered_onto};

use crate::counts::read_counts;
use crate::path::open_spot;
use crate::tree::path_fault;
use crate::{
    WorldFault, array_member, bad_member, member, no_member, object, read_label, read_label_as,
    str_member,
};
use flow_labels::{Label, TagNames};
use hex::FromHexError;
use labelled_files::{EntryKind, FILE_LIMIT, FileFault, Files};
use lam_value::Name;
use serde_json::Value;
use std::alloc::Global;

/// The number of digits that the bytes of a file may have.
const DIGIT_LIMIT: usize = 2 * FILE_LIMIT;

// What an item of the tree has.
#[derive(Drop)]
enum Saved {
    Dir,
    Bytes(Vec<u8>),
}

fn is_capital(byte: u8) -> bool
    ensures { result ≡ is_capital byte }
{
    b'A' <= byte && byte <= b'Z'
}

fn has_capital(text: &[u8]) -> bool
    ensures { result ≡ list_any is_capital text.now }
{
    text.iter().any(|b| is_capital(*b))
}

// The bytes that digits spell, of which none may be a capital.
fn decode(alloc: Global, digits: &str) -> Result<Vec<u8>, WorldFault>
    ensures { Gives (λ v. v.items) result (formed (codes "hex") (bytes_of_hex digits.now)) }
{
    if has_capital(digits.as_bytes()) {
        return Err(bad_member(alloc, "hex"));
    }
    match hex::decode(alloc, digits) {
        Ok(bytes) => Ok(bytes),
        Err(FromHexError::OutOfMemory) => Err(WorldFault::NoMemory),
        Err(_) => Err(bad_member(alloc, "hex")),
    }
}

fn hex_bytes(alloc: Global, digits: &Value) -> Result<Vec<u8>, WorldFault>
    ensures { Gives (λ v. saved_seen (Saved.Bytes v)) result (formed (codes "hex") (as_hex (view digits.now))) }
{
    let Some(digits) = digits.as_str() else {
        return Err(bad_member(alloc, "hex"));
    };
    if digits.len() > DIGIT_LIMIT {
        return Err(bad_member(alloc, "hex"));
    }
    decode(alloc, digits)
}

fn saved_dir(alloc: Global, dir: &Value) -> Result<Saved, WorldFault>
    ensures { Gives saved_seen result (formed (codes "dir") (as_dir (view dir.now))) }
{
    match dir.as_bool() {
        Some(true) => Ok(Saved::Dir),
        _ => Err(bad_member(alloc, "dir")),
    }
}

fn read_saved(alloc: Global, item: &Value) -> Result<Saved, WorldFault>
    ensures { Gives saved_seen result (hex_content_of (get_member (codes "dir") (members (view item.now))) (get_member (codes "hex") (members (view item.now)))) }
{
    match (item.get("dir"), item.get("hex")) {
        (Some(_), Some(_)) => Err(bad_member(alloc, "dir")),
        (Some(dir), None) => saved_dir(alloc, dir),
        (None, Some(digits)) => Ok(Saved::Bytes(hex_bytes(alloc, digits)?)),
        (None, None) => Err(no_member(alloc, "hex")),
    }
}

// Whether nothing has a name.
fn is_unused(files: &Files, name: &Name) -> bool
    ensures { result ≡ (not (lives_as Kind.File files.now name.now) && not (lives_as Kind.Dir files.now name.now)) }
{
    !files.lives(name, EntryKind::File) && !files.lives(name, EntryKind::Dir)
}

fn unused_name(alloc: Global, files: &Files, name: Name) -> Result<Name, WorldFault>
    requires { name.n < count_in files.now.counts (home_of name.maker name.own) }
    ensures gives { Gives (λ n. n) result (formed (codes "number") (only_if (is_open files.now name) name)) }
    ensures unused { IfOk result (λ n. is_open files.now n ≡ true) }
{
    if is_unused(files, &name) {
        Ok(name)
    } else {
        Err(bad_member(alloc, "number"))
    }
}

// The name of an item of a home, by its number.
fn read_name(
    alloc: Global,
    files: &Files,
    maker: &Label,
    own: &Label,
    item: &Value,
) -> Result<Name, WorldFault>
    ensures gives { Gives (λ n. n) result (name_in files.now (home_of maker.now own.now) (members (view item.now))) }
    ensures unused { IfOk result (λ n. is_open files.now n ≡ true) }
{
    let number = member(alloc, item, "number")?;
    match number.as_u64() {
        Some(number) if number < files.next(maker, own) => {
            let name = Name::of(maker, own, number)?;
            unused_name(alloc, files, name)
        }
        _ => Err(bad_member(alloc, "number")),
    }
}

// Makes a directory, or a file with its bytes, under a name, which is given twice.
fn make_named(
    files: &mut Files,
    dir: &Name,
    text: &[u8],
    name: &Name,
    again: Name,
    content: &Saved,
) -> Result<(), FileFault>
    requires unused { is_open files.old name.now ≡ true }
    requires same { again ≡ name.now }
    ensures fault { MatchResult result (λ _. place_fault files.old dir.now text.now ≡ None) (λ e. e ≡ unwrap_or (place_fault files.old dir.now text.now) no_memory) }
    ensures ok { OnOk result (files.new ≡ with_named files.old (spot dir.now text.now) name.now (saved_seen content.now)) }
{
    match content {
        Saved::Dir => files.place(dir, text, EntryKind::Dir, again),
        Saved::Bytes(bytes) => {
            files.place(dir, text, EntryKind::File, again)?;
            files.append(name, bytes.as_slice())?;
            Ok(())
        }
    }
}

// Puts what an item has at its place.
fn put_named(
    files: &mut Files,
    index: u64,
    dir: &Name,
    text: &[u8],
    name: &Name,
    content: &Saved,
) -> Result<(), WorldFault>
    requires { is_open files.old name.now ≡ true }
    ensures { GivesOnto result files.new (unless_full index (place_fault files.old dir.now text.now) (with_named files.old (spot dir.now text.now) name.now (saved_seen content.now))) }
{
    let again = name.copy()?;
    match make_named(files, dir, text, name, again, content) {
        Ok(()) => Ok(()),
        Err(fault) => Err(path_fault(fault, index)),
    }
}

// Puts an item, with its labels, its number and its content, at its path.
fn place_named(
    alloc: Global,
    names: &TagNames,
    files: &mut Files,
    index: u64,
    path: &[u8],
    item: &Value,
) -> Result<(), WorldFault>
    ensures { GivesOnto result files.new (numbered_placed names.now index files.old (members (view item.now)) path.now) }
{
    let (dir, text) = open_spot(files, index, path)?;
    let own = read_label(alloc, item, names)?;
    let maker = read_label_as(alloc, item, "maker", names)?;
    let name = read_name(alloc, files, &maker, &own, item)?;
    let content = read_saved(alloc, item)?;
    put_named(files, index, &dir, text, &name, &content)
}

fn place_numbered(
    alloc: Global,
    names: &TagNames,
    files: &mut Files,
    index: u64,
    item: &Value,
) -> Result<(), WorldFault>
    ensures { GivesOnto result files.new (numbered_item_in names.now index files.old (view item.now)) }
{
    object(alloc, item, "tree")?;
    let path = str_member(alloc, item, "path")?;
    place_named(alloc, names, files, index, path.as_bytes(), item)
}

fn place_all(
    alloc: Global,
    names: &TagNames,
    files: &mut Files,
    items: &[Value],
) -> Result<(), WorldFault>
    ensures { GivesOnto result files.new (with_numbered_items names.now 0 files.old (items_view items.now)) }
{
    for (index, item) in items.iter().enumerate() {
        place_numbered(alloc, names, files, index as u64, item)?;
    }
    Ok(())
}

/// Makes the directories and files of the members `counts` and `tree` of a document, where no home has made more than the
/// root.
///
/// # Errors
///
/// The first break of `counts`, and then of the items of `tree` in their order: `NoMember` or `BadMember` with a member's
/// name, or with `tree` where an item is no object; `BadMember` with `number` where the home of an item has not given its
/// number, or something has its name; `BadPath` where a path leads to no place, or where the directory has no room;
/// `PathTwice` where something stands at the path; `NoTag` with the first name in a label that is no tag's.
pub fn read_numbered(
    alloc: Global,
    document: &Value,
    names: &TagNames,
    files: &mut Files,
) -> Result<(), WorldFault>
    requires { files.old.counts ≡ root_alone.counts }
    ensures { GivesOnto result files.new (numbered_onto names.now files.old (members (view document.now))) }
{
    read_counts(alloc, document, names, files)?;
    let items = array_member(alloc, document, "tree")?;
    place_all(alloc, names, files, items)
}
