//! The rows, in order.

ghost use Rattle.std.specs.Prelude.{◌≡◌, map, IfOk, IsPermutation, IsSorted};
ghost use Rattle.world_save_terms.specs.Rows.{row_of, row_cmp};
ghost use Rattle.world_save_rows.specs.Seen.{home_seen, row_seen};

use crate::home_list::HomeCount;
use flow_labels::{NoMemory, TagNames, label_text};
use std::alloc::Global;

/// A home by the texts of its labels, and its counter. Rows are ordered by the maker's text, then the own text, byte by
/// byte.
#[derive(Drop, PartialEq, Eq, PartialOrd, Ord)]
pub struct Row {
    /// The text of the maker's label.
    pub maker: String,
    /// The text of the label of what is made.
    pub own: String,
    /// How many files and directories the home has made.
    pub next: u64,
}

/// The row of a home.
///
/// # Errors
///
/// `NoMemory` where memory is refused.
pub fn row_of(names: &TagNames, home: HomeCount) -> Result<Row, NoMemory>
    ensures { IfOk result (λ r. row_seen r ≡ row_of names.now (home_seen home.entry)) }
{
    let maker = label_text(home.maker, names)?;
    let own = label_text(home.own, names)?;
    Ok(Row {
        maker,
        own,
        next: home.next,
    })
}

/// The rows of homes, in the order of the list.
fn unsorted(alloc: Global, names: &TagNames, homes: &[HomeCount]) -> Result<Vec<Row>, NoMemory>
    ensures { IfOk result (λ rs. map row_seen rs.items ≡ map (row_of names.now) (map home_seen homes.now)) }
{
    let mut rows: Vec<Row> = Vec::new(alloc);
    for home in homes {
        rows.push(row_of(names, *home)?)?;
    }
    Ok(rows)
}

/// The rows of homes, in the byte order of their texts.
///
/// # Errors
///
/// `NoMemory` where memory is refused.
pub fn rows(alloc: Global, names: &TagNames, homes: &[HomeCount]) -> Result<Vec<Row>, NoMemory>
    ensures same { IfOk result (λ rs. IsPermutation (map (row_of names.now) (map home_seen homes.now)) (map row_seen rs.items)) }
    ensures ordered { IfOk result (λ rs. IsSorted row_cmp (map row_seen rs.items)) }
{
    let mut rows = unsorted(alloc, names, homes)?;
    rows.sort_unstable();
    Ok(rows)
}
