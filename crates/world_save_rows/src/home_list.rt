//! The homes that have made files or directories, as a list.

ghost use Rattle.std.specs.Prelude.{◌≡◌, map, IfOk};
ghost use Rattle.lam_value.specs.Homes.{IsListing};
ghost use Rattle.lam_value_homes.specs.Homes.{listed_home};
ghost use Rattle.world_save_rows.specs.Seen.{home_seen};

use flow_labels::{Label, NoMemory};
use labelled_files::Files;
use std::alloc::Global;

/// A home that has made files or directories, and how many.
#[derive(Clone, Copy)]
pub struct HomeCount<'a> {
    /// The label of the maker.
    pub maker: &'a Label,
    /// The label of what is made.
    pub own: &'a Label,
    /// How many it has made: the number of the next one.
    pub next: u64,
}

/// The homes of a list of makers' labels, own labels and counters, in its order.
fn home_counts<'a>(
    alloc: Global,
    listed: &[(&'a Label, &'a Label, u64)],
) -> Result<Vec<HomeCount<'a>>, NoMemory>
    ensures { IfOk result (λ hs. map home_seen hs.items ≡ map listed_home listed.now) }
{
    let mut homes: Vec<HomeCount<'a>> = Vec::new(alloc);
    for home in listed {
        homes.push(HomeCount {
            maker: home.0,
            own: home.1,
            next: home.2,
        })?;
    }
    Ok(homes)
}

/// The homes that have made a file or directory or whose counter was raised, each once, with their counters. It takes time
/// and memory by their number.
///
/// # Errors
///
/// `NoMemory` where memory is refused.
pub fn homes<'a>(alloc: Global, files: &'a Files) -> Result<Vec<HomeCount<'a>>, NoMemory>
    ensures { IfOk result (λ hs. IsListing (map home_seen hs.items) files.now.counts) }
{
    let counters = files.counters();
    let listed = counters.list(alloc)?;
    let homes = home_counts(alloc, listed.as_slice())?;
    Ok(homes)
}
