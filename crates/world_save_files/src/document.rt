//! The refusals, and the document.

ghost use Rattle.std.specs.Prelude.{◌≡◌, ◌≤◌, IfOk, IfErr, map, length, MatchOption};
ghost use Rattle.flow_labels.specs.TwoLists.{Text};
ghost use Rattle.capabilities.specs.declared.Caps.{Caps};
ghost use Rattle.lam_value.specs.Homes.{IsListing};
ghost use Rattle.world_forest.specs.Forest.{IsForest};
ghost use Rattle.world_save_items.specs.Steps.{IsWalk};
ghost use Rattle.world_save_rows.specs.Seen.{home_seen};
ghost use Rattle.world_save_terms.specs.Document.{most_document};
ghost use Rattle.world_save_files.specs.Saved.{CanBeKept, HaveText, IsTextOf, IsSavedText, IsSaveFault};
ghost use Rattle.world_save_files.specs.Bounds.{IsBounded, IsUnbounded};

use crate::kept::{KeptTexts, kept_texts};
use capabilities::Caps;
use flow_labels::{NoMemory, TagId, TagNames};
use labelled_files::Files;
use std::alloc::Global;
use world_save_items::{Step, walk};
use world_save_rows::{HomeCount, homes, least_unnamed, rows};
use world_save_text::{Contents, count_document, first_bad_path, write_document};

/// The number of bytes that a document may have.
pub const DOCUMENT_LIMIT: u64 = 16_777_216;

/// Why nothing is saved.
#[derive(Clone, Copy, Debug, PartialEq, Eq)]
pub enum SaveFault {
    /// A tag that has no name stands in a label of an item or of a home that is counted; this is the least such tag.
    Unnamed { tag: TagId },
    /// The path of an item is not UTF-8; this is the first such item, counted from 0.
    BadText { item: u64 },
    /// The document would have more than [`DOCUMENT_LIMIT`] bytes: so many, or the greatest number where they are more.
    TooBig { bytes: u64 },
    /// Memory ran out.
    NoMemory,
}

impl From<NoMemory> for SaveFault {
    ghost use Rattle.world_save_files.specs.declared.document.SaveFault.TheVariants.{NoMemory as no_memory};

    ghost from_gives = { λ _ e. e ≡ no_memory };

    fn from(_e: NoMemory) -> SaveFault {
        SaveFault::NoMemory
    }
}

/// A document that is saved.
#[derive(Drop)]
pub struct Saved {
    /// Its text.
    pub text: Vec<u8>,
    /// How many files and directories it has.
    pub items: u64,
}

// Why files and directories have no text, the first of the two causes.
fn refusal(
    names: &TagNames,
    files: &Files,
    homes: &[HomeCount],
    steps: &[Step],
) -> Option<SaveFault>
    requires homes { IsListing (map home_seen homes.now) files.now.counts }
    requires walk { IsWalk files.now steps.now }
    ensures { MatchOption result (HaveText names.now files.now) (λ e. (public : Caps) (old : Text) → IsSaveFault names.now public files.now old e) }
{
    match least_unnamed(names, files, homes) {
        Some(tag) => Some(SaveFault::Unnamed { tag }),
        None => match first_bad_path(files, steps) {
            Some(item) => Some(SaveFault::BadText { item }),
            None => None,
        },
    }
}

// The document, where it is not too long: its bytes are counted before it is built.
fn bounded(alloc: Global, contents: &Contents, homes: &[HomeCount]) -> Result<Vec<u8>, SaveFault>
    requires { IsWalk contents.now.files.now contents.now.steps.now }
    ensures ok { IfOk result (λ text. IsBounded contents.now (map home_seen homes.now) text.items) }
    ensures err { IfErr result (IsUnbounded contents.now (map home_seen homes.now)) }
{
    let bytes = count_document(alloc, contents, homes)?;
    if DOCUMENT_LIMIT < bytes {
        return Err(SaveFault::TooBig { bytes });
    }
    let rows = rows(alloc, contents.names, homes)?;
    let text = write_document(alloc, contents, rows.as_slice())?;
    Ok(text)
}

// The text that is saved of files and directories that have one.
fn saved_text(
    alloc: Global,
    names: &TagNames,
    public: &Caps,
    files: &Files,
    homes: &[HomeCount],
    steps: &[Step],
    old: &[u8],
) -> Result<Vec<u8>, SaveFault>
    requires homes { IsListing (map home_seen homes.now) files.now.counts }
    requires walk { IsWalk files.now steps.now }
    requires text { HaveText names.now files.now }
    requires kept { CanBeKept old.now }
    ensures ok { IfOk result (λ text. IsTextOf names.now public.now files.now old.now text.items × (length text.items ≤ most_document)) }
    ensures err { IfErr result (IsSaveFault names.now public.now files.now old.now) }
{
    let kept = kept_texts(alloc, old)?;
    let contents = Contents {
        names,
        public,
        files,
        steps,
        pipes: kept.pipes.as_slice(),
        threads: kept.threads.as_slice(),
    };
    bounded(alloc, &contents, homes)
}

// The text, and the number of its items.
fn saved_document(
    alloc: Global,
    names: &TagNames,
    public: &Caps,
    files: &Files,
    homes: &[HomeCount],
    steps: &[Step],
    old: &[u8],
) -> Result<Saved, SaveFault>
    requires homes { IsListing (map home_seen homes.now) files.now.counts }
    requires walk { IsWalk files.now steps.now }
    requires text { HaveText names.now files.now }
    requires kept { CanBeKept old.now }
    ensures ok { IfOk result (λ s. IsSavedText names.now public.now files.now old.now s.text.items s.items) }
    ensures err { IfErr result (IsSaveFault names.now public.now files.now old.now) }
{
    files.hold_bytes();
    let text = saved_text(alloc, names, public, files, homes, steps, old)?;
    Ok(Saved {
        text,
        items: steps.len() as u64,
    })
}

/// The document of the next run: of the files and directories as they are now, of the names of the first tags and of what is
/// public by their kinds, and of the document that the run began with, which has the pipes and the threads.
///
/// It takes time and memory by the number of files and directories and by the length of the text.
///
/// # Errors
///
/// The first of these that holds, in this order: `Unnamed`, `BadText`, `TooBig`. `NoMemory` where memory is refused.
pub fn save_files(
    alloc: Global,
    names: &TagNames,
    public: &Caps,
    files: &Files,
    old: &[u8],
) -> Result<Saved, SaveFault>
    requires forest { IsForest files.now }
    requires kept { CanBeKept old.now }
    ensures ok { IfOk result (λ s. IsSavedText names.now public.now files.now old.now s.text.items s.items) }
    ensures err { IfErr result (IsSaveFault names.now public.now files.now old.now) }
{
    let listed = homes(alloc, files)?;
    let found = walk(alloc, files)?;
    let homes = listed.as_slice();
    let steps = found.as_slice();
    match refusal(names, files, homes, steps) {
        Some(fault) => Err(fault),
        None => saved_document(alloc, names, public, files, homes, steps, old),
    }
}
