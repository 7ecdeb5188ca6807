//! The list of counters.

ghost use Rattle.std.specs.Prelude.{◌≡◌, map, OnOk, false};
ghost use Rattle.serde_json.specs.Written.{comma_if};
ghost use Rattle.world_save_terms.specs.Rows.{row_of};
ghost use Rattle.world_save_terms.specs.Document.{row_data, list_text};
ghost use Rattle.world_save_text.specs.Writing.{Wrote};
ghost use Rattle.world_save_rows.specs.Seen.{home_seen, row_seen};
ghost use Rattle.world_save_text.specs.Pieces.{item_text, items_left};

use crate::{JsonWriter, number, quoted, raw};
use flow_labels::{NoMemory, TagNames};
use world_save_rows::{HomeCount, Row, row_of};

/// Writes the comma before an item of a list, where others stand before it.
pub fn comma(writer: &mut JsonWriter, later: bool) -> Result<(), NoMemory>
    ensures { OnOk result (Wrote writer.old writer.new (comma_if later)) }
{
    if later {
        raw(writer, b",")
    } else {
        raw(writer, b"")
    }
}

fn write_row(writer: &mut JsonWriter, later: bool, row: &Row) -> Result<(), NoMemory>
    ensures { OnOk result (Wrote writer.old writer.new (item_text later (row_data (row_seen row.now)))) }
{
    comma(writer, later)?;
    raw(writer, b"{\"maker\":")?;
    quoted(writer, row.maker.as_bytes())?;
    raw(writer, b",\"next\":")?;
    number(writer, row.next)?;
    raw(writer, b",\"own\":")?;
    quoted(writer, row.own.as_bytes())?;
    raw(writer, b"}")
}

/// Writes the row of a home.
fn write_home(
    writer: &mut JsonWriter,
    later: bool,
    names: &TagNames,
    home: HomeCount,
) -> Result<(), NoMemory>
    ensures { OnOk result (Wrote writer.old writer.new (item_text later (row_data (row_of names.now (home_seen home.entry))))) }
{
    let row = row_of(names, home)?;
    write_row(writer, later, &row)
}

fn write_each_row(writer: &mut JsonWriter, rows: &[Row]) -> Result<(), NoMemory>
    ensures { OnOk result (Wrote writer.old writer.new (items_left false (map row_data (map row_seen rows.now)))) }
{
    let _count = writer.count;
    let mut later = false;
    for row in rows {
        write_row(writer, later, row)?;
        later = true;
    }
    raw(writer, b"]")
}

fn write_each_home(
    writer: &mut JsonWriter,
    names: &TagNames,
    homes: &[HomeCount],
) -> Result<(), NoMemory>
    ensures { OnOk result (Wrote writer.old writer.new (items_left false (map row_data (map (row_of names.now) (map home_seen homes.now))))) }
{
    let _count = writer.count;
    let mut later = false;
    for home in homes {
        write_home(writer, later, names, *home)?;
        later = true;
    }
    raw(writer, b"]")
}

/// Writes the list of rows.
pub fn write_rows(writer: &mut JsonWriter, rows: &[Row]) -> Result<(), NoMemory>
    ensures { OnOk result (Wrote writer.old writer.new (list_text (map row_data (map row_seen rows.now)))) }
{
    raw(writer, b"[")?;
    write_each_row(writer, rows)
}

/// Writes the list of the rows of homes, in the order of the list of homes.
pub fn write_homes(
    writer: &mut JsonWriter,
    names: &TagNames,
    homes: &[HomeCount],
) -> Result<(), NoMemory>
    ensures { OnOk result (Wrote writer.old writer.new (list_text (map row_data (map (row_of names.now) (map home_seen homes.now))))) }
{
    raw(writer, b"[")?;
    write_each_home(writer, names, homes)
}
