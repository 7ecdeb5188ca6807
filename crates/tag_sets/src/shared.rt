//! Tag lists whose copies share their tags.
//!
//! A `TagSet` is made once and copied often, and most sets have one tag or none. A single tag stands in the list itself
//! and takes no memory. More tags stand in one slice that all copies share.

ghost use Rattle.std.specs.Prelude.{◌≡◌, ◌↔◌, not, [], ◌∷◌, find, IsTrue, IfOk};
ghost use Rattle.std.specs.Arc.{arc_slice_items};
ghost use Rattle.tag_sets.specs.Kept.{kept};
ghost use Rattle.tag_sets.specs.Rising.{IsRising, has};

use crate::rising::{equal_tags, find_missing, has_tag};
use crate::{NoMemory, TagId};
use std::alloc::Global;
use std::marker::Model;
use std::slice::from_ref;
use std::sync::ArcSlice;

/// A list of tags, with the allocator for what is made beside it, which has no bytes.
#[derive(Debug, Drop)]
pub(crate) struct SharedTags {
    alloc: Global,
    held: Held<ArcSlice<TagId>>,
}

/// How many tags there are, and where they stand.
#[derive(Debug, Drop)]
enum Held<S> {
    /// None.
    Empty,
    /// One, which stands here.
    One(TagId),
    /// Those of a slice.
    Shared(S),
}

impl Model for SharedTags {
    ghost use Rattle.std.specs.Prelude.{ℕ, List};
    ghost use Rattle.std.specs.Arc.{arc_slice_items};
    ghost use Rattle.tag_sets.specs.Kept.{kept};

    ghost Value = { List ℕ };

    ghost view = { λ s. kept arc_slice_items s.held };
}

impl SharedTags {
    /// No tags. Takes no memory.
    pub(crate) fn empty(alloc: Global) -> SharedTags
        ensures { result ≡ [] }
    {
        SharedTags {
            alloc,
            held: Held::Empty,
        }
    }

    /// One tag. Takes no memory.
    pub(crate) fn one(alloc: Global, tag: TagId) -> SharedTags
        ensures { result ≡ tag ∷ [] }
    {
        SharedTags {
            alloc,
            held: Held::One(tag),
        }
    }

    /// The tags of a vector. Two or more are not copied.
    pub(crate) fn from_vec(tags: Vec<TagId>) -> Result<SharedTags, NoMemory>
        ensures { IfOk result (λ s. s ≡ tags.items) }
    {
        let alloc = *tags.allocator();
        let held = held_tags(tags)?;
        Ok(SharedTags { alloc, held })
    }

    /// The allocator that the list keeps.
    pub(crate) fn allocator(&self) -> Global {
        self.alloc
    }

    /// The tags.
    pub(crate) fn as_slice(&self) -> &[TagId]
        ensures { result.now ≡ self.now }
    {
        tags_of_held(&self.held)
    }

    /// Whether a tag is in the list.
    pub(crate) fn holds(&self, tag: TagId) -> bool
        requires { IsRising self.now }
        ensures { result ≡ has self.now tag }
    {
        holds_tag(&self.held, tag)
    }

    /// The first of the tags that is not among the others.
    pub(crate) fn first_missing(&self, others: &SharedTags) -> Option<TagId>
        requires tags { IsRising self.now }
        requires others { IsRising others.now }
        ensures { result ≡ find (λ t. not (has others.now t)) self.now }
    {
        missing_tag(&self.held, &others.held)
    }

    /// Whether two lists are equal.
    pub(crate) fn same(&self, others: &SharedTags) -> bool
        ensures { IsTrue result ↔ (self.now ≡ others.now) }
    {
        same_tags(&self.held, &others.held)
    }

    /// An equal list, which takes no memory.
    ///
    /// # Errors
    ///
    /// `NoMemory` where the slice has 2 ^ 63 owners.
    pub(crate) fn copy(&self) -> Result<SharedTags, NoMemory>
        ensures { IfOk result (λ s. s ≡ self.now) }
    {
        let held = held_again(&self.held)?;
        Ok(SharedTags {
            alloc: self.alloc,
            held,
        })
    }
}

fn held_tags(tags: Vec<TagId>) -> Result<Held<ArcSlice<TagId>>, NoMemory>
    ensures { IfOk result (λ h. kept arc_slice_items h ≡ tags.items) }
{
    match tags.as_slice() {
        [] => Ok(Held::Empty),
        [tag] => Ok(Held::One(*tag)),
        _ => Ok(Held::Shared(ArcSlice::from_vec(tags)?)),
    }
}

#[inline(always)]
fn tags_of_held(tags: &Held<ArcSlice<TagId>>) -> &[TagId]
    ensures { result.now ≡ kept arc_slice_items tags.now }
{
    match tags {
        Held::Empty => &[],
        Held::One(tag) => from_ref(tag),
        Held::Shared(slice) => slice.as_slice(),
    }
}

#[inline(always)]
fn holds_tag(tags: &Held<ArcSlice<TagId>>, tag: TagId) -> bool
    requires { IsRising (kept arc_slice_items tags.now) }
    ensures { result ≡ has (kept arc_slice_items tags.now) tag }
{
    match tags {
        Held::Empty => false,
        Held::One(only) => *only == tag,
        Held::Shared(slice) => has_tag(slice.as_slice(), tag),
    }
}

#[inline(always)]
fn missing_tag(tags: &Held<ArcSlice<TagId>>, others: &Held<ArcSlice<TagId>>) -> Option<TagId>
    requires tags { IsRising (kept arc_slice_items tags.now) }
    requires others { IsRising (kept arc_slice_items others.now) }
    ensures { result ≡ find (λ t. not (has (kept arc_slice_items others.now) t)) (kept arc_slice_items tags.now) }
{
    match tags {
        Held::Empty => None,
        Held::One(tag) => {
            if holds_tag(others, *tag) {
                None
            } else {
                Some(*tag)
            }
        }
        Held::Shared(slice) => find_missing(slice.as_slice(), tags_of_held(others)),
    }
}

#[inline(always)]
fn same_tags(tags: &Held<ArcSlice<TagId>>, others: &Held<ArcSlice<TagId>>) -> bool
    ensures { IsTrue result ↔ (kept arc_slice_items tags.now ≡ kept arc_slice_items others.now) }
{
    match tags {
        Held::Empty => tags_of_held(others).is_empty(),
        Held::One(tag) => is_only(*tag, others),
        Held::Shared(slice) => equal_tags(slice.as_slice(), tags_of_held(others)),
    }
}

/// Whether a tag is the only one.
fn is_only(tag: TagId, tags: &Held<ArcSlice<TagId>>) -> bool
    ensures { IsTrue result ↔ (tag ∷ [] ≡ kept arc_slice_items tags.now) }
{
    match tags {
        Held::Empty => false,
        Held::One(only) => tag == *only,
        Held::Shared(slice) => equal_tags(from_ref(&tag), slice.as_slice()),
    }
}

#[inline(always)]
fn held_again(tags: &Held<ArcSlice<TagId>>) -> Result<Held<ArcSlice<TagId>>, NoMemory>
    ensures { IfOk result (λ h. kept arc_slice_items h ≡ kept arc_slice_items tags.now) }
{
    match tags {
        Held::Empty => Ok(Held::Empty),
        Held::One(tag) => Ok(Held::One(*tag)),
        Held::Shared(slice) => Ok(Held::Shared(slice.clone()?)),
    }
}
