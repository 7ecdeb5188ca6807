//! The least tag without a name.

ghost use Rattle.std.specs.Prelude.{◌≡◌, map, nat_le, find, MatchOption};
ghost use Rattle.flow_labels.specs.Tags.{lesser, tags_of};
ghost use Rattle.lam_value.specs.Homes.{IsListing};
ghost use Rattle.world_save_terms.specs.Refusals.{AllNamed, IsLeastUnnamed};
ghost use Rattle.world_save_rows.specs.Least.{IsLeastOf, IsFrom, IsInLabel, IsInHome, IsAmong};
ghost use Rattle.world_save_rows.specs.Seen.{home_seen};

use crate::home_list::HomeCount;
use flow_labels::{Label, TagId, TagNames, TagSet};
use labelled_files::Files;

/// The lesser of two tags, where there are any.
fn lesser(a: Option<TagId>, b: Option<TagId>) -> Option<TagId>
    ensures { result ≡ lesser a b }
{
    match (a, b) {
        (Some(x), Some(y)) => Some(if y < x { y } else { x }),
        (Some(x), None) => Some(x),
        (None, other) => other,
    }
}

/// The first of some tags that is not below a number.
fn find_from(tags: &[TagId], count: u64) -> Option<TagId>
    ensures { result ≡ find (nat_le count) tags.now }
{
    for tag in tags {
        if count <= tag.0 {
            return Some(*tag);
        }
    }
    None
}

/// The least tag of a set that is not below a number.
fn least_from(set: &TagSet, count: u64) -> Option<TagId>
    ensures { IsLeastOf (IsFrom count set.now) result }
{
    find_from(set.tags(), count)
}

fn least_in_label(label: &Label, count: u64) -> Option<TagId>
    ensures { IsLeastOf (IsInLabel count label.now) result }
{
    lesser(least_from(&label.s, count), least_from(&label.i, count))
}

fn least_in_home(home: HomeCount, count: u64) -> Option<TagId>
    ensures { IsLeastOf (IsInHome count home.entry) result }
{
    lesser(
        least_in_label(home.maker, count),
        least_in_label(home.own, count),
    )
}

fn least_among(homes: &[HomeCount], count: u64) -> Option<TagId>
    ensures { IsLeastOf (IsAmong count homes.now) result }
{
    let mut least = None;
    for home in homes {
        least = lesser(least, least_in_home(*home, count));
    }
    least
}

/// The least tag that stands in a label of a home, or of a file or directory that can be reached from the root, and has no
/// name. It is given the list of the homes that are counted.
pub fn least_unnamed(names: &TagNames, files: &Files, homes: &[HomeCount]) -> Option<TagId>
    requires { IsListing (map home_seen homes.now) files.now.counts }
    ensures { MatchOption result (AllNamed names.now files.now) (IsLeastUnnamed names.now files.now) }
{
    files.facts();
    least_among(homes, names.count())
}
