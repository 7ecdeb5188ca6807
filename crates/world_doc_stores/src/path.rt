//! Paths: entry names joined by `/`.

ghost use Rattle.std.specs.Prelude.{◌≡◌, ◌∷◌, [], ◌<◌, length, not, nat_eq, MatchOption, is_some, option_map};
ghost use Rattle.std.specs.List.{prefix_len};
ghost use Rattle.labelled_files.specs.Trees.{target_at};
ghost use Rattle.world_doc_terms.specs.Stores.{parts, spot_from, spot_of};
ghost use Rattle.world_doc_stores.specs.Contents.{spot, spot_seen};
ghost use Rattle.world_doc_stores.specs.Meaning.{Gives};

use crate::WorldFault;
use labelled_files::{EntryKind, Files, is_entry_name};
use lam_value::Name;
use world_doc_terms::WorldBreak;

fn part_len(path: &[u8]) -> usize
    ensures { result ≡ prefix_len (λ b. not (nat_eq b 47)) path.now }
{
    path.iter().take_while(|b| **b != b'/').count()
}

// The first part of a path of two or more, and those after it.
fn cut_part(path: &[u8]) -> Option<(&[u8], &[u8])>
    ensures { MatchOption result (parts path.now ≡ path.now ∷ []) (λ p. (parts path.now ≡ p.0.now ∷ parts p.1.now) × (length p.1.now < length path.now)) }
{
    let end = part_len(path);
    if end < path.len() {
        Some((&path[..end], &path[end + 1..]))
    } else {
        None
    }
}

// The place of a path: its directory, and the name that an entry has there. `None` where something before the last part
// is no directory, or the last part is no name of an entry.
fn find_spot<'a, 'b>(files: &'a Files, path: &'b [u8]) -> Option<(&'a Name, &'b [u8])>
    ensures { option_map spot_seen result ≡ spot_from files.now files.now.root (parts path.now) }
{
    let mut dir = files.root();
    let mut rest = path;
    while let Some((part, after)) = cut_part(rest) {
        let Some(below) = files.look_up(dir, part, EntryKind::Dir) else {
            return None;
        };
        dir = below;
        rest = after;
    }
    if is_entry_name(rest) {
        Some((dir, rest))
    } else {
        None
    }
}

// Whether a directory has an entry of a name, whatever it leads to.
fn is_taken(files: &Files, dir: &Name, text: &[u8]) -> bool
    ensures { result ≡ is_some (target_at files.now dir.now text.now) }
{
    files.look_up(dir, text, EntryKind::Dir).is_some()
        || files.look_up(dir, text, EntryKind::File).is_some()
}

/// The place of an item's path, where nothing stands yet.
///
/// # Errors
///
/// `BadPath` where the path leads to no place, and `PathTwice` where something stands there.
pub fn open_spot<'a>(
    files: &Files,
    index: u64,
    path: &'a [u8],
) -> Result<(Name, &'a [u8]), WorldFault>
    ensures { Gives (λ p. spot p.0 p.1.now) result (spot_of index files.now path.now) }
{
    let Some((dir, text)) = find_spot(files, path) else {
        return Err(WorldFault::Broken(WorldBreak::BadPath(index)));
    };
    if is_taken(files, dir, text) {
        return Err(WorldFault::Broken(WorldBreak::PathTwice(index)));
    }
    Ok((dir.copy()?, text))
}
