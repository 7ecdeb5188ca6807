//! The threads of a document.

ghost use Rattle.std.specs.Prelude.{◌≡◌, ◌≤◌, ◌&&◌, nat_lt, nat_le, length, IfOk};
ghost use Rattle.serde_json.specs.View.{view, items_view};
ghost use Rattle.world_doc_terms.specs.Entries.{most_starting, threads_of, threads_in};
ghost use Rattle.world_doc_stores.specs.Meaning.{Gives};
ghost use Rattle.world_doc_stores.specs.Seen.{members};
ghost use Rattle.world_doc.specs.Called.{called_of};
ghost use Rattle.world_doc.specs.Found.{thread_of};

use crate::args::read_args;
use crate::entry::read_entry;
use crate::pipes::PipeNames;
use flow_labels::TagNames;
use lam_bytecode::Code;
use serde_json::Value;
use std::alloc::Global;
use thread_core_state::LamThread;
use world_doc_stores::{WorldFault, array_member, bad_member, object, read_caps};

/// The number of threads that a document may have.
const STARTING_LIMIT: usize = 64;

// Whether a document may have so many threads.
fn may_be(count: usize) -> bool
    ensures { result ≡ (nat_lt 0 count && nat_le count most_starting) }
{
    count > 0 && count <= STARTING_LIMIT
}

fn read_thread(
    alloc: Global,
    item: &Value,
    code: &Code,
    names: &TagNames,
    called: &PipeNames,
) -> Result<LamThread, WorldFault>
    ensures { Gives (λ th. th) result (thread_of code.now names.now (called_of called.now.entries) (view item.now)) }
{
    object(alloc, item, "threads")?;
    let entry = read_entry(alloc, item, code)?;
    let args = read_args(alloc, item, names, called, entry.takes)?;
    let caps = read_caps(alloc, item, names)?;
    let thread = LamThread::start(alloc, code, entry.unit, args, caps)?;
    Ok(thread)
}

fn read_all(
    alloc: Global,
    items: &[Value],
    code: &Code,
    names: &TagNames,
    called: &PipeNames,
) -> Result<Vec<LamThread>, WorldFault>
    ensures gives { Gives (λ v. v.items) result (threads_of code.now names.now (called_of called.now.entries) (items_view items.now)) }
    ensures count { IfOk result (λ v. length v.items ≡ length items.now) }
{
    let mut threads = Vec::new(alloc);
    for item in items {
        let thread = read_thread(alloc, item, code, names, called)?;
        threads.push(thread)?;
    }
    Ok(threads)
}

/// The threads of the member `threads` of a document: one to 64, each numbered by its index.
///
/// # Errors
///
/// `NoMember` where it is not there, and `BadMember` where it is no list of one to 64 objects; else the first break of
/// the threads in their order, each looked at in the order `run`, `args`, `caps`.
pub fn read_threads(
    alloc: Global,
    document: &Value,
    code: &Code,
    names: &TagNames,
    called: &PipeNames,
) -> Result<Vec<LamThread>, WorldFault>
    ensures gives { Gives (λ v. v.items) result (threads_in code.now names.now (called_of called.now.entries) (members (view document.now))) }
    ensures few { IfOk result (λ v. length v.items ≤ most_starting) }
{
    let items = array_member(alloc, document, "threads")?;
    if may_be(items.len()) {
        read_all(alloc, items, code, names, called)
    } else {
        Err(bad_member(alloc, "threads"))
    }
}
