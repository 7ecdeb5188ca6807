//! The traversal of items from the root down, with an explicit stack.

ghost use Rattle.std.specs.Prelude.{◌≡◌, ◌+◌, ◌<◌, ◌≤◌, ℕ, List, ◌∷◌, [], ◌++◌, length, map, take, IfOk, OnOk};
ghost use Rattle.json.specs.Print.{escape};
ghost use Rattle.world_forest.specs.Forest.{IsForest};
ghost use Rattle.world_save_terms.specs.Items.{below};
ghost use Rattle.world_save_items.specs.Measures.{capped};
ghost use Rattle.world_save_items.specs.Steps.{IsWalk, found, found_at, todo, todo_after, whole_dir};
ghost use Rattle.labelled_files.specs.Trees.{most_entries};

use crate::measure::{escaped_len, more};
use flow_labels::NoMemory;
use labelled_files::{EntryKind, Files};
use lam_value::Name;
use std::alloc::Global;

/// An item: the entry that leads to it, and its path by that of the item before it.
#[derive(Clone, Copy)]
pub struct Step<'a> {
    /// How many bytes of the path before it are the path of its directory.
    pub cut: usize,
    /// How many bytes its path takes in a document, at most the greatest number.
    pub bytes: u64,
    /// The name of its entry.
    pub entry: &'a [u8],
    /// Whether it is a file or a directory.
    pub kind: EntryKind,
    /// Its name.
    pub name: &'a Name,
}

/// A directory whose entries from a place on are still to be listed.
#[derive(Clone, Copy)]
pub struct Frame<'a> {
    /// The directory.
    pub dir: &'a Name,
    /// The place.
    pub next: u64,
    /// The length of its path.
    pub cut: usize,
    /// How many bytes its path takes in a document, at most the greatest number.
    pub bytes: u64,
}

/// Where a walk is: what was found, what is still to be done, the last on top, and the path of what was found last.
#[derive(Drop)]
pub struct Trail<'a> {
    pub steps: Vec<Step<'a>>,
    pub stack: Vec<Frame<'a>>,
    pub path: Vec<u8>,
}

/// The files and directories that can be reached from the root, each directory followed by what it holds.
///
/// # Errors
///
/// `NoMemory` where memory is refused.
pub fn walk<'a>(alloc: Global, files: &'a Files) -> Result<Vec<Step<'a>>, NoMemory>
    requires { IsForest files.now }
    ensures { IfOk result (λ steps. IsWalk files.now steps.items) }
{
    files.facts();
    let mut trail = Trail {
        steps: Vec::new(alloc),
        stack: Vec::new(alloc),
        path: Vec::new(alloc),
    };
    trail.stack.push(Frame {
        dir: files.root(),
        next: 0,
        cut: 0,
        bytes: 0,
    })?;
    while let Some(frame) = trail.stack.pop() {
        match files.entry_at(frame.dir, frame.next) {
            None => {}
            Some((entry, kind, name)) => find(&mut trail, &frame, entry, kind, name)?,
        }
    }
    Ok(trail.steps)
}

/// One item more, the entry at the place of a frame: what is still to be done is then what comes after it, and first what it
/// holds.
fn find<'a>(
    trail: &mut Trail<'a>,
    frame: &Frame<'a>,
    entry: &'a [u8],
    kind: EntryKind,
    name: &'a Name,
) -> Result<(), NoMemory>
    requires cut { frame.now.cut ≤ length trail.old.path.items }
    requires room { frame.now.next < most_entries }
    requires bytes { frame.now.bytes ≡ capped (length (escape (take frame.now.cut trail.old.path.items))) }
    ensures path { OnOk result (trail.new.path.items ≡ below (take frame.now.cut trail.old.path.items) entry.now) }
    ensures steps { OnOk result (map found trail.new.steps.items ≡ map found trail.old.steps.items ++ found_at (todo frame.now) (below (take frame.now.cut trail.old.path.items) entry.now) entry.now kind name.now ∷ []) }
    ensures stack { OnOk result (map todo trail.new.stack.items ≡ map todo trail.old.stack.items ++ todo_after (todo frame.now) kind (whole_dir name.now (below (take frame.now.cut trail.old.path.items) entry.now))) }
{
    let bytes = path_len(frame.bytes, frame.cut, entry);
    trail.path.truncate(frame.cut);
    lengthen(&mut trail.path, entry)?;
    trail.steps.push(Step {
        cut: frame.cut,
        bytes,
        entry,
        kind,
        name,
    })?;
    let cut = trail.path.len();
    go_on(&mut trail.stack, frame, kind, name, cut, bytes)
}

/// What is to be done after an entry: what comes after it, and first, on top, what it holds.
fn go_on<'a>(
    stack: &mut Vec<Frame<'a>>,
    frame: &Frame<'a>,
    kind: EntryKind,
    name: &'a Name,
    cut: usize,
    bytes: u64,
) -> Result<(), NoMemory>
    requires { frame.now.next < most_entries }
    ensures { OnOk result (map todo stack.new.items ≡ map todo stack.old.items ++ todo_after (todo frame.now) kind (record { dir = name.now; next = 0; cut = cut; bytes = bytes })) }
{
    stack.push(Frame {
        dir: frame.dir,
        next: frame.next + 1,
        cut: frame.cut,
        bytes: frame.bytes,
    })?;
    match kind {
        EntryKind::File => Ok(()),
        EntryKind::Dir => {
            stack.push(Frame {
                dir: name,
                next: 0,
                cut,
                bytes,
            })?;
            Ok(())
        }
    }
}

/// Puts an entry's name at the end of the path of its directory.
pub fn lengthen(path: &mut Vec<u8>, entry: &[u8]) -> Result<(), NoMemory>
    ensures { OnOk result (path.new.items ≡ below path.old.items entry.now) }
{
    if !path.is_empty() {
        path.push(b'/')?;
    }
    path.extend_from_slice(entry)?;
    Ok(())
}

/// How many bytes the path of an entry takes in a document, by those of its directory's path and by the length of that.
fn path_len(bytes: u64, cut: usize, entry: &[u8]) -> u64
    ensures { (path : List ℕ) → length path ≡ cut → bytes ≡ capped (length (escape path)) → result ≡ capped (length (escape (below path entry.now))) }
{
    let own = escaped_len(entry);
    if cut == 0 {
        own
    } else {
        more(more(bytes, 1), own)
    }
}
