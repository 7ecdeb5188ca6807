//! The allocation counters of homes, by the member `counts` of a version 3 document.
//!
//! The counters of the files cannot tell whether the home of the root was named, since it has made the root. So there
//! is a table of the homes that were named beside them.

ghost use Rattle.std.specs.Prelude.{◌≡◌, ◌≤◌, ◌<◌, OnOk, IfOk};
ghost use Rattle.std.specs.FinMap.{empty, insert};
ghost use Rattle.lam_value.specs.Homes.{home_of, count_in, raised};
ghost use Rattle.labelled_files.specs.Trees.{root_alone, public_home, most_files};
ghost use Rattle.serde_json.specs.View.{view, items_view};
ghost use Rattle.world_doc_terms.specs.Numbered.{has_made, next_in, with_root, with_counts};
ghost use Rattle.world_doc_stores.specs.Meaning.{Gives, GivesOnto};
ghost use Rattle.world_doc_stores.specs.Seen.{members};
ghost use Rattle.world_doc_stores.specs.Contents.{counted_as, count_in_item, with_next, counts_onto};

use crate::{WorldFault, array_member, bad_member, member, object, read_label_as};
use flow_labels::{Label, NoMemory, TagNames};
use labelled_files::{Files, HOME_LIMIT};
use lam_value::Counters;
use serde_json::Value;
use std::alloc::Global;

// The member `next` of an item.
fn read_next(alloc: Global, item: &Value) -> Result<u64, WorldFault>
    ensures gives { Gives (λ n. n) result (next_in (members (view item.now))) }
    ensures some { IfOk result (λ n. 0 < n) }
    ensures few { IfOk result (λ n. n ≤ most_files) }
{
    let next = member(alloc, item, "next")?;
    match next.as_u64() {
        Some(next) if 1 <= next && next <= HOME_LIMIT => Ok(next),
        _ => Err(bad_member(alloc, "next")),
    }
}

fn has_made(counts: &Counters, maker: &Label, own: &Label) -> bool
    ensures { result ≡ has_made counts.now (home_of maker.now own.now) }
{
    counts.next(maker, own) > 0
}

// Lets a home that was not named have made so many, in the table and in the files.
fn put_count(
    files: &mut Files,
    counts: &mut Counters,
    maker: &Label,
    own: &Label,
    next: u64,
) -> Result<(), NoMemory>
    requires new { count_in counts.old (home_of maker.now own.now) ≡ 0 }
    requires some { 0 < next }
    requires few { next ≤ most_files }
    requires both { files.old.counts ≡ raised counts.old public_home 1 }
    ensures counts { OnOk result (counts.new ≡ insert counts.old (home_of maker.now own.now) next) }
    ensures files { OnOk result (files.new ≡ counted_as files.old (raised counts.new public_home 1)) }
{
    counts.raise(maker, own, next)?;
    files.raise_counter(maker, own, next)?;
    Ok(())
}

// The home of an item, and how many it has made.
fn count_home(
    alloc: Global,
    files: &mut Files,
    counts: &mut Counters,
    maker: &Label,
    own: &Label,
    item: &Value,
) -> Result<(), WorldFault>
    requires { files.old.counts ≡ raised counts.old public_home 1 }
    ensures gives { GivesOnto result counts.new (with_next counts.old (home_of maker.now own.now) (members (view item.now))) }
    ensures files { OnOk result (files.new ≡ counted_as files.old (raised counts.new public_home 1)) }
{
    if has_made(counts, maker, own) {
        return Err(bad_member(alloc, "counts"));
    }
    let next = read_next(alloc, item)?;
    put_count(files, counts, maker, own, next)?;
    Ok(())
}

fn add_count(
    alloc: Global,
    names: &TagNames,
    files: &mut Files,
    counts: &mut Counters,
    item: &Value,
) -> Result<(), WorldFault>
    requires { files.old.counts ≡ raised counts.old public_home 1 }
    ensures gives { GivesOnto result counts.new (count_in_item names.now counts.old (view item.now)) }
    ensures files { OnOk result (files.new ≡ counted_as files.old (raised counts.new public_home 1)) }
{
    object(alloc, item, "counts")?;
    let maker = read_label_as(alloc, item, "maker", names)?;
    let own = read_label_as(alloc, item, "own", names)?;
    count_home(alloc, files, counts, &maker, &own, item)
}

fn add_counts(
    alloc: Global,
    names: &TagNames,
    files: &mut Files,
    counts: &mut Counters,
    items: &[Value],
) -> Result<(), WorldFault>
    requires { files.old.counts ≡ raised counts.old public_home 1 }
    ensures gives { GivesOnto result counts.new (with_counts names.now counts.old (items_view items.now)) }
    ensures files { OnOk result (files.new ≡ counted_as files.old (raised counts.new public_home 1)) }
{
    for item in items {
        add_count(alloc, names, files, counts, item)?;
    }
    Ok(())
}

// That the home of the root was named.
fn need_root(alloc: Global, counts: &Counters) -> Result<(), WorldFault>
    ensures { Gives (λ _. counts.now) result (with_root counts.now) }
{
    let public = Label::public(alloc);
    if has_made(counts, &public, &public) {
        Ok(())
    } else {
        Err(bad_member(alloc, "counts"))
    }
}

/// Lets the homes of files have made as many as the member `counts` of a document says, where none has made more than the
/// root.
///
/// # Errors
///
/// `NoMember` or `BadMember` with a member's name, and with `counts` where an item is no object, where a home comes again, or
/// where the home of the root is not there; `NoTag` with the first name in a label that is no tag's.
pub fn read_counts(
    alloc: Global,
    document: &Value,
    names: &TagNames,
    files: &mut Files,
) -> Result<(), WorldFault>
    requires { files.old.counts ≡ root_alone.counts }
    ensures { GivesOnto result files.new (counts_onto names.now files.old (members (view document.now))) }
{
    let items = array_member(alloc, document, "counts")?;
    let mut counts = Counters::new(alloc);
    add_counts(alloc, names, files, &mut counts, items)?;
    need_root(alloc, &counts)
}
