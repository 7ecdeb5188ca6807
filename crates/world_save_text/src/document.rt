//! The whole document, piece after piece.

ghost use Rattle.std.specs.Prelude.{◌≡◌, ℕ, List, Some, map, length, IsPermutation, IfOk, OnOk};
ghost use Rattle.serde_json.specs.Data.{Data};
ghost use Rattle.world_save_terms.specs.Rows.{Row as RowOfTexts, row_of};
ghost use Rattle.world_save_items.specs.Measures.{capped};
ghost use Rattle.world_save_items.specs.Steps.{IsWalk};
ghost use Rattle.world_save_text.specs.Writing.{Wrote, kept};
ghost use Rattle.world_save_rows.specs.Seen.{home_seen, row_seen};
ghost use Rattle.world_save_text.specs.Pieces.{after_counts};
ghost use Rattle.world_save_text.specs.Texts.{parts_with, text_with};

use crate::rows::{write_homes, write_rows};
use crate::tags::write_tags;
use crate::tree::write_tree;
use crate::{JsonWriter, raw};
use capabilities::Caps;
use flow_labels::{NoMemory, TagNames};
use labelled_files::Files;
use std::alloc::Global;
use world_save_items::Step;
use world_save_rows::{HomeCount, Row};

/// What a document is made of, but for its counters.
#[derive(Clone, Copy)]
pub struct Contents<'a> {
    /// The names of the first tags.
    pub names: &'a TagNames,
    /// What is public by their kinds.
    pub public: &'a Caps,
    pub files: &'a Files,
    /// The files and directories that can be reached from the root.
    pub steps: &'a [Step<'a>],
    /// The text of the pipes.
    pub pipes: &'a [u8],
    /// The text of the threads.
    pub threads: &'a [u8],
}

fn write_after_counts(
    alloc: Global,
    writer: &mut JsonWriter,
    contents: &Contents,
) -> Result<(), NoMemory>
    requires { IsWalk contents.now.files.now contents.now.steps.now }
    ensures { OnOk result ((rows : List RowOfTexts) (pipes threads : Data) → Wrote writer.old writer.new (after_counts (parts_with contents.now rows pipes threads) contents.now.pipes.now contents.now.threads.now)) }
{
    raw(writer, b",\"pipes\":")?;
    raw(writer, contents.pipes)?;
    raw(writer, b",\"tags\":")?;
    write_tags(writer, contents.names, contents.public)?;
    raw(writer, b",\"threads\":")?;
    raw(writer, contents.threads)?;
    raw(writer, b",\"tree\":")?;
    write_tree(
        alloc,
        writer,
        contents.names,
        contents.files,
        contents.steps,
    )?;
    raw(writer, b",\"version\":3}")
}

fn write_by_homes(
    alloc: Global,
    writer: &mut JsonWriter,
    contents: &Contents,
    homes: &[HomeCount],
) -> Result<(), NoMemory>
    requires { IsWalk contents.now.files.now contents.now.steps.now }
    ensures { OnOk result ((pipes threads : Data) → Wrote writer.old writer.new (text_with contents.now (map (row_of contents.now.names.now) (map home_seen homes.now)) pipes threads)) }
{
    raw(writer, b"{\"counts\":")?;
    write_homes(writer, contents.names, homes)?;
    write_after_counts(alloc, writer, contents)
}

fn write_by_rows(
    alloc: Global,
    writer: &mut JsonWriter,
    contents: &Contents,
    rows: &[Row],
) -> Result<(), NoMemory>
    requires { IsWalk contents.now.files.now contents.now.steps.now }
    ensures { OnOk result ((pipes threads : Data) → Wrote writer.old writer.new (text_with contents.now (map row_seen rows.now) pipes threads)) }
{
    raw(writer, b"{\"counts\":")?;
    write_rows(writer, rows)?;
    write_after_counts(alloc, writer, contents)
}

/// How many bytes the document of these contents and homes takes, at most the greatest number. Only a row or a file's
/// digits are built at a time.
///
/// # Errors
///
/// `NoMemory` where memory is refused.
pub fn count_document(
    alloc: Global,
    contents: &Contents,
    homes: &[HomeCount],
) -> Result<u64, NoMemory>
    requires { IsWalk contents.now.files.now contents.now.steps.now }
    ensures { IfOk result (λ n. (rows : List RowOfTexts) (pipes threads : Data) → IsPermutation (map (row_of contents.now.names.now) (map home_seen homes.now)) rows → n ≡ capped (length (text_with contents.now rows pipes threads))) }
{
    let mut writer = JsonWriter::counting();
    write_by_homes(alloc, &mut writer, contents, homes)?;
    Ok(writer.count)
}

/// The text that a writer kept, empty where it kept none.
fn text_kept(alloc: Global, writer: JsonWriter) -> Vec<u8>
    ensures { (text : List ℕ) → kept writer ≡ Some text → result.items ≡ text }
{
    writer.kept.unwrap_or(Vec::new(alloc))
}

/// The document of these contents and rows.
///
/// # Errors
///
/// `NoMemory` where memory is refused.
pub fn write_document(alloc: Global, contents: &Contents, rows: &[Row]) -> Result<Vec<u8>, NoMemory>
    requires { IsWalk contents.now.files.now contents.now.steps.now }
    ensures { IfOk result (λ text. (pipes threads : Data) → text.items ≡ text_with contents.now (map row_seen rows.now) pipes threads) }
{
    let mut writer = JsonWriter::writing(alloc);
    write_by_rows(alloc, &mut writer, contents, rows)?;
    Ok(text_kept(alloc, writer))
}
