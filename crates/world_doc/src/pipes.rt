//! The pipes of a document.

ghost use Rattle.std.specs.Prelude.{◌≡◌, codes, None, option_copied};
ghost use Rattle.lam_value.specs.Homes.{home_of};
ghost use Rattle.serde_json.specs.View.{view, items_view};
ghost use Rattle.world_doc_terms.specs.Breaks.{member_as};
ghost use Rattle.world_doc_terms.specs.Stores.{pipe_called, new_name, with_called, with_pipes};
ghost use Rattle.world_doc_stores.specs.Meaning.{Gives, GivesOnto};
ghost use Rattle.world_doc_stores.specs.Seen.{members};
ghost use Rattle.world_doc.specs.Called.{called_of, pipes_of, pipe_in, pipes_onto};

use flow_labels::{Label, TagNames};
use indexmap::IndexMap;
use labelled_pipes::{HOME_LIMIT, Pipes};
use lam_value::Name;
use serde_json::Value;
use std::alloc::Global;
use world_doc_stores::{WorldFault, array_member, bad_member, object, read_label, str_member};

/// What a document calls its pipes, in their order.
pub type PipeNames<'a> = IndexMap<&'a str, Name>;

/// The pipe that a document calls by a name.
pub fn find_pipe<'a>(called: &'a PipeNames, name: &str) -> Option<&'a Name>
    ensures { option_copied result ≡ pipe_called (called_of called.now.entries) name.now }
{
    called.get(name)
}

// A name that no pipe before has.
fn new_name<'a>(alloc: Global, called: &PipeNames, item: &'a Value) -> Result<&'a str, WorldFault>
    ensures { Gives (λ s. s.now) result (member_as (codes "name") (new_name (called_of called.now.entries)) (members (view item.now))) }
{
    let name = str_member(alloc, item, "name")?;
    if called.contains_key(name) {
        return Err(bad_member(alloc, "name"));
    }
    Ok(name)
}

// Makes a pipe of a label, and calls it by a name that no pipe has.
fn add_pipe<'a>(
    alloc: Global,
    pipes: &mut Pipes,
    called: &mut PipeNames<'a>,
    name: &'a str,
    label: &Label,
) -> Result<(), WorldFault>
    requires { pipe_called (called_of called.old.entries) name.now ≡ None }
    ensures { GivesOnto result (pipes_of pipes.new called.new.entries) (with_called (pipes_of pipes.old called.old.entries) name.now (home_of label.now label.now)) }
{
    if pipes.next(label, label) == HOME_LIMIT {
        return Err(bad_member(alloc, "pipes"));
    }
    match pipes.make(label, label) {
        Ok(pipe) => {
            called.insert(name, pipe)?;
            Ok(())
        }
        Err(_) => Err(WorldFault::NoMemory),
    }
}

fn read_pipe<'a>(
    alloc: Global,
    names: &TagNames,
    pipes: &mut Pipes,
    called: &mut PipeNames<'a>,
    item: &'a Value,
) -> Result<(), WorldFault>
    ensures { GivesOnto result (pipes_of pipes.new called.new.entries) (pipe_in names.now (pipes_of pipes.old called.old.entries) (view item.now)) }
{
    object(alloc, item, "pipes")?;
    let name = new_name(alloc, called, item)?;
    let label = read_label(alloc, item, names)?;
    add_pipe(alloc, pipes, called, name, &label)
}

fn read_all<'a>(
    alloc: Global,
    names: &TagNames,
    pipes: &mut Pipes,
    called: &mut PipeNames<'a>,
    items: &'a [Value],
) -> Result<(), WorldFault>
    ensures { GivesOnto result (pipes_of pipes.new called.new.entries) (with_pipes names.now (pipes_of pipes.old called.old.entries) (items_view items.now)) }
{
    for item in items {
        read_pipe(alloc, names, pipes, called, item)?;
    }
    Ok(())
}

/// Makes the pipes of the member `pipes` of a document, and notes what it calls them.
///
/// # Errors
///
/// The first break of the items, in their order: `NoMember` or `BadMember` with a member's name, also of a name that
/// another pipe has, and with `pipes` where an item is no object or its label has 4,096 pipes; `NoTag` with the first
/// name in a label that is no tag's.
pub fn read_pipes<'a>(
    alloc: Global,
    document: &'a Value,
    names: &TagNames,
    pipes: &mut Pipes,
    called: &mut PipeNames<'a>,
) -> Result<(), WorldFault>
    ensures { GivesOnto result (pipes_of pipes.new called.new.entries) (pipes_onto names.now (pipes_of pipes.old called.old.entries) (members (view document.now))) }
{
    let items = array_member(alloc, document, "pipes")?;
    read_all(alloc, names, pipes, called, items)
}
