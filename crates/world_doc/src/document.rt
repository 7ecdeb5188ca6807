//! The whole document, member after member.

ghost use Rattle.std.specs.Prelude.{◌≡◌, IfOk};
ghost use Rattle.serde_json.specs.View.{view};
ghost use Rattle.serde_json.specs.Read.{read};
ghost use Rattle.capabilities.specs.Kinds.{public_of};
ghost use Rattle.labelled_files.specs.Trees.{root_alone};
ghost use Rattle.lam_machine_effects.specs.Parts.{first_stores};
ghost use Rattle.world_doc_terms.specs.Start.{version_in, world_of, world_or, start_of};
ghost use Rattle.world_doc_stores.specs.Meaning.{Gives, GivesOnto};
ghost use Rattle.world_doc_stores.specs.Seen.{members, tags_seen};
ghost use Rattle.world_doc.specs.Called.{called_of};
ghost use Rattle.world_doc.specs.Document.{document_or, filled, with_threads, world_onto, after_tags};

use crate::pipes::{PipeNames, read_pipes};
use crate::threads::read_threads;
use capabilities::public_of;
use flow_labels::NoMemory;
use indexmap::IndexMap;
use lam_bytecode::Code;
use lam_machine_effects::Stores;
use lam_machine_world::{World, let_go_stores};
use serde_json::Value;
use serde_json::error::Category;
use std::alloc::Global;
use std::str;
use world_doc_stores::{FirstTags, WorldFault, bad_member, member, object, read_files, read_tags};
use world_doc_terms::{Version, WorldBreak};

fn read_version(alloc: Global, document: &Value) -> Result<Version, WorldFault>
    ensures { Gives (λ v. v) result (version_in (members (view document.now))) }
{
    let version = member(alloc, document, "version")?;
    match version.as_u64() {
        Some(1) => Ok(Version::One),
        Some(2) => Ok(Version::Two),
        Some(3) => Ok(Version::Three),
        _ => Err(bad_member(alloc, "version")),
    }
}

// Puts the files and the pipes of a document of a version into the stores, where no home has made more than the root.
fn fill<'a>(
    alloc: Global,
    version: Version,
    document: &'a Value,
    stores: &mut Stores,
    called: &mut PipeNames<'a>,
) -> Result<(), WorldFault>
    requires { stores.old.files.counts ≡ root_alone.counts }
    ensures { GivesOnto result (stores.new, called_of called.new.entries) (filled version stores.old (called_of called.old.entries) (members (view document.now))) }
{
    read_files(alloc, version, document, &stores.names, &mut stores.files)?;
    read_pipes(alloc, document, &stores.names, &mut stores.pipes, called)
}

// The world of stores and the threads of a document.
fn with_threads(
    alloc: Global,
    document: &Value,
    code: &Code,
    stores: Stores,
    called: &PipeNames,
) -> Result<World, WorldFault>
    ensures { Gives (λ w. w) result (with_threads code.now (members (view document.now)) (stores, called_of called.now.entries)) }
{
    match read_threads(alloc, document, code, &stores.names, called) {
        Ok(threads) => Ok(World::new(stores, threads)),
        Err(fault) => {
            let_go_stores(stores);
            Err(fault)
        }
    }
}

// The world of stores with the files, the pipes and the threads of a document.
fn world_onto<'a>(
    alloc: Global,
    version: Version,
    document: &'a Value,
    code: &Code,
    stores: Stores,
    called: &mut PipeNames<'a>,
) -> Result<World, WorldFault>
    requires { stores.files.counts ≡ root_alone.counts }
    ensures { Gives (λ w. w) result (world_onto code.now version (members (view document.now)) stores (called_of called.old.entries)) }
{
    let mut stores = stores;
    match fill(alloc, version, document, &mut stores, called) {
        Ok(()) => with_threads(alloc, document, code, stores, called),
        Err(fault) => {
            let_go_stores(stores);
            Err(fault)
        }
    }
}

// The stores of a world with these tags.
fn first_stores(alloc: Global, tags: FirstTags) -> Result<Stores, NoMemory>
    ensures { IfOk result (λ s. s ≡ first_stores tags.names (public_of tags.kinds.items)) }
{
    let FirstTags { names, kinds } = tags;
    let public = public_of(alloc, kinds.as_slice())?;
    Stores::new(alloc, names, public)
}

// The world of tags and of all that is looked at after them.
fn after_tags(
    alloc: Global,
    version: Version,
    document: &Value,
    code: &Code,
    tags: FirstTags,
) -> Result<World, WorldFault>
    ensures { Gives (λ w. w) result (after_tags code.now version (members (view document.now)) (tags_seen tags)) }
{
    let stores = first_stores(alloc, tags)?;
    let mut called: PipeNames = IndexMap::new(alloc);
    world_onto(alloc, version, document, code, stores, &mut called)
}

fn read_world(alloc: Global, document: &Value, code: &Code) -> Result<World, WorldFault>
    ensures { Gives (λ w. w) result (world_of (view document.now) code.now) }
{
    object(alloc, document, "version")?;
    let version = read_version(alloc, document)?;
    let tags = read_tags(alloc, version, document)?;
    after_tags(alloc, version, document, code, tags)
}

fn read_document(alloc: Global, text: &str) -> Result<Value, WorldFault>
    ensures { Gives (λ v. view v) result (document_or (read text.now)) }
{
    match Value::from_str(alloc, text) {
        Ok(document) => Ok(document),
        Err(error) => match error.classify() {
            Category::Memory => Err(WorldFault::NoMemory),
            _ => Err(WorldFault::Broken(WorldBreak::NotJson)),
        },
    }
}

// The world of a document that is text.
fn start_text(alloc: Global, text: &str, code: &Code) -> Result<World, WorldFault>
    ensures { Gives (λ w. w) result (world_or (read text.now) code.now) }
{
    let document = read_document(alloc, text)?;
    read_world(alloc, &document, code)
}

/// The world at the start of a run of a code, from a document.
///
/// # Errors
///
/// The first break of the document: `NotJson` where the bytes are not UTF-8 or no JSON text, else the first of the
/// members in the order `version`, `tags`, in version 3 `counts`, `tree`, `pipes`, `threads`. `NoMemory` where memory is
/// refused.
pub fn start(alloc: Global, text: &[u8], code: &Code) -> Result<World, WorldFault>
    ensures { Gives (λ w. w) result (start_of text.now code.now) }
{
    match str::from_utf8(text) {
        Ok(text) => start_text(alloc, text, code),
        Err(_) => Err(WorldFault::Broken(WorldBreak::NotJson)),
    }
}
