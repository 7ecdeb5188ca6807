//! The files and directories of a document, by its version.

ghost use Rattle.std.specs.Prelude.{◌≡◌};
ghost use Rattle.labelled_files.specs.Trees.{root_alone};
ghost use Rattle.serde_json.specs.View.{view};
ghost use Rattle.world_doc_stores.specs.Meaning.{GivesOnto};
ghost use Rattle.world_doc_stores.specs.Seen.{members};
ghost use Rattle.world_doc_stores.specs.Contents.{files_onto};

use crate::WorldFault;
use crate::numbered::read_numbered;
use crate::tree::read_tree;
use flow_labels::TagNames;
use labelled_files::Files;
use serde_json::Value;
use std::alloc::Global;
use world_doc_terms::Version;

/// Makes the directories and files of a document of a version, where no home has made more than the root.
///
/// # Errors
///
/// The first break of the members: in version 3 of `counts`, and then in each version of `tree`. `NoMember` or `BadMember`
/// with a member's name, or with `counts` or `tree` where an item is no object; `BadMember` with `counts` where a home comes
/// again or the root's is not there, and with `number` where the home of an item has not given its number, or something has
/// its name; `BadPath` where a path leads to no place, or where the directory, or in versions 1 and 2 the label, has no room;
/// `PathTwice` where something stands at the path; `NoTag` with the first name in a label that is no tag's.
pub fn read_files(
    alloc: Global,
    version: Version,
    document: &Value,
    names: &TagNames,
    files: &mut Files,
) -> Result<(), WorldFault>
    requires { files.old.counts ≡ root_alone.counts }
    ensures { GivesOnto result files.new (files_onto version names.now files.old (members (view document.now))) }
{
    match version {
        Version::One => read_tree(alloc, document, names, files),
        Version::Two => read_tree(alloc, document, names, files),
        Version::Three => read_numbered(alloc, document, names, files),
    }
}
