//! The functions that a thread may run.

ghost use Rattle.std.specs.Prelude.{◌≡◌, codes, option_map, option_and_then};
ghost use Rattle.serde_json.specs.View.{view};
ghost use Rattle.serde_json.specs.Find.{as_str};
ghost use Rattle.world_doc_terms.specs.Breaks.{member_as};
ghost use Rattle.world_doc_terms.specs.Entries.{entry_named};
ghost use Rattle.world_doc_stores.specs.Meaning.{Gives};
ghost use Rattle.world_doc_stores.specs.Seen.{members};
ghost use Rattle.world_doc.specs.Found.{entry_seen};

use lam_bytecode::{ArgKind, Code, UnitKind};
use serde_json::Value;
use std::alloc::Global;
use world_doc_stores::{WorldFault, bad_member, str_member};

/// A function whose result is a number: its unit, and what it takes.
#[derive(Clone, Copy)]
pub struct Entry<'a> {
    pub unit: u32,
    pub takes: &'a [ArgKind],
}

fn entry_named<'a>(code: &'a Code, name: &str) -> Option<Entry<'a>>
    ensures { option_map entry_seen result ≡ entry_named code.now name.now }
{
    let Some(unit) = code.function(name) else {
        return None;
    };
    let Some(it) = code.units().get(unit as usize) else {
        return None;
    };
    match &it.kind {
        UnitKind::Function {
            takes,
            gives_int,
            ..
        } if *gives_int => Some(Entry {
            unit,
            takes: takes.as_slice(),
        }),
        _ => None,
    }
}

/// The function that the member `run` of a thread names.
///
/// # Errors
///
/// `NoMember` where it is not there, and `BadMember` where it names no function whose result is a number.
pub fn read_entry<'a>(
    alloc: Global,
    thread: &Value,
    code: &'a Code,
) -> Result<Entry<'a>, WorldFault>
    ensures { Gives entry_seen result (member_as (codes "run") (λ d. option_and_then (entry_named code.now) (as_str d)) (members (view thread.now))) }
{
    let name = str_member(alloc, thread, "run")?;
    match entry_named(code, name) {
        Some(entry) => Ok(entry),
        None => Err(bad_member(alloc, "run")),
    }
}
