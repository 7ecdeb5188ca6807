//! Finite sets of tags.
//!
//! A *tag* names one secret or one source of trust; labels and capabilities are made of sets of tags.
//! A `TagSet` keeps its tags in increasing order, each once (`rising`), so two sets are compared in one
//! walk over both. Contracts see it as the finite set of its tags: two sets with the same tags are
//! equal, however they were made.
//!
//! The promises about rules and labels in `flow_labels` and `capabilities` rest on what each call of `TagSet` gives
//! (its first clause). Free to change for speed: how a set is shared, and each walk and search. `tags` lends all tags
//! in increasing order, so a set keeps them in one slice.

#![tactic(auto)]

mod rising;
mod shared;

ghost use Rattle.std.specs.Prelude.{◌≡◌, nat_eq, ◌↔◌, Some, IsTrue, IsNone, IfSome, IfOk, OnOk, OnErr};
ghost use Rattle.std.specs.FinSet as set;
ghost use Rattle.std.proofs.Common.{rules, refl};
ghost use Rattle.std.specs.Cmp.Rules.{comparing, hashing};
ghost use Rattle.std.specs.Cmp.Lexicographic.{pointwise, slice_cmp};
ghost use Rattle.std.specs.Ordering.{on, nat_cmp, as_partial_cmp};
ghost use Rattle.std.specs.Hash as fed;
ghost use Rattle.tag_sets.specs.Rising.{IsRising};
ghost use Rattle.tag_sets.specs.Tags.{IsLeast, tags_of, least, lesser, apart};

use rising::{
    find_missing_both, find_missing_three, merged_tags, missing_tags, sorted_tags, tags_with,
};
use shared::SharedTags;
use std::alloc::Global;
use std::cmp::Ordering;
use std::hash::{Hash, Hasher};
use std::marker::Model;
pub use want_of_memory::NoMemory;

/// A tag, named by its number. The smaller number is the lesser tag.
#[derive(Clone, Copy, Debug, PartialEq, Eq, PartialOrd, Ord, Hash)]
pub struct TagId(pub u64);

impl Model for TagId {
    ghost use Rattle.std.specs.Prelude.{ℕ};

    ghost Value = { ℕ };

    ghost view = { λ t. t.0 };

    ghost inverse = { λ n. record { 0 = n } };
}

/// A finite set of tags, compared and hashed by its tags in increasing order.
#[derive(Debug, Drop)]
pub struct TagSet {
    tags: SharedTags,
}

impl Model for TagSet {
    ghost use Rattle.std.specs.FinSet.{from_list};
    ghost use Rattle.tag_sets.specs.Rising.{IsRising};
    ghost use Rattle.tag_sets.specs.Tags.{Tags, coded_tags};

    ghost Value = { Tags };

    ghost coded = { coded_tags };

    ghost view = { λ s. from_list s.tags };

    ghost invariant = { λ s. IsRising s.tags };
}

impl PartialEq for TagSet {
    ghost eq = { on tags_of (pointwise nat_eq) };

    ghost laws = { Prim.search (comparing, rules) };

    fn eq(&self, other: &TagSet) -> bool {
        self.same(other)
    }
}

impl Eq for TagSet {
    ghost laws = { Prim.search (comparing, rules) };
}

impl PartialOrd for TagSet {
    ghost partial_cmp = { as_partial_cmp (on tags_of (slice_cmp nat_cmp)) };

    ghost laws = { Prim.search (comparing, rules) };

    fn partial_cmp(&self, other: &TagSet) -> Option<Ordering> {
        Some(self.tags().cmp(other.tags()))
    }
}

impl Ord for TagSet {
    ghost cmp = { on tags_of (slice_cmp nat_cmp) };

    ghost total = { Prim.search (comparing, rules) };

    ghost matches_partial_cmp = { λ x y. refl };

    ghost matches_eq = { Prim.search (comparing, rules) };

    fn cmp(&self, other: &TagSet) -> Ordering {
        self.tags().cmp(other.tags())
    }
}

impl Hash for TagSet {
    ghost hash_input = { λ s. fed.slice fed.u64 (tags_of s) };

    ghost respects_eq = { Prim.search (hashing, rules) };

    fn hash<H: Hasher>(&self, state: &mut H) {
        self.tags().hash(state);
    }
}

impl TagSet {
    /// The set of no tags.
    pub fn empty(alloc: Global) -> TagSet
        ensures { result ≡ set.empty }
    {
        TagSet {
            tags: SharedTags::empty(alloc),
        }
    }

    /// The set of one tag. Takes no memory.
    pub fn one(alloc: Global, tag: TagId) -> TagSet
        ensures { result ≡ set.insert set.empty tag }
    {
        TagSet {
            tags: SharedTags::one(alloc, tag),
        }
    }

    /// The set of the given tags, in time `n log n`. Repeats count once, and the order does not matter.
    ///
    /// # Errors
    ///
    /// `NoMemory` where memory is refused.
    pub fn from_slice(alloc: Global, tags: &[TagId]) -> Result<TagSet, NoMemory>
        ensures { IfOk result (λ s. s ≡ set.from_list tags.now) }
    {
        if let [tag] = tags {
            return Ok(TagSet::one(alloc, *tag));
        }
        let tags = sorted_tags(alloc, tags)?;
        let set = TagSet::made(tags)?;
        Ok(set)
    }

    /// The tags, in increasing order.
    pub fn tags(&self) -> &[TagId]
        ensures { result.now ≡ tags_of self.now }
    {
        self.tags.as_slice()
    }

    /// The allocator that the set keeps, for what is made beside it.
    pub fn allocator(&self) -> Global {
        self.tags.allocator()
    }

    /// Whether a tag is in the set, by a binary search.
    pub fn contains(&self, tag: TagId) -> bool
        ensures { result ≡ set.contains self.now tag }
    {
        self.tags.holds(tag)
    }

    /// Whether each tag of this set is in the other.
    pub fn is_subset(&self, other: &TagSet) -> bool
        ensures { result ≡ set.is_subset self.now other.now }
    {
        self.first_missing(other).is_none()
    }

    /// Whether the two sets have the same tags.
    pub fn same(&self, other: &TagSet) -> bool
        ensures { IsTrue result ↔ (self.now ≡ other.now) }
    {
        self.tags.same(&other.tags)
    }

    /// The least tag, where the set has one.
    pub fn first(&self) -> Option<TagId>
        ensures value { result ≡ least self.now }
        ensures none { IsNone result ↔ (self.now ≡ set.empty) }
    {
        self.tags.as_slice().first().copied()
    }

    /// The least tag of this set that the other lacks: `None` exactly where this is a subset of the other.
    pub fn first_missing(&self, other: &TagSet) -> Option<TagId>
        ensures value { result ≡ least (set.difference self.now other.now) }
        ensures none { IsNone result ↔ IsTrue (set.is_subset self.now other.now) }
        ensures least { IfSome result (IsLeast (set.difference self.now other.now)) }
    {
        self.tags.first_missing(&other.tags)
    }

    /// The least tag of this set that is in neither of the others.
    pub fn first_missing_both(&self, first: &TagSet, second: &TagSet) -> Option<TagId>
        ensures value { result ≡ least (set.difference self.now (set.union first.now second.now)) }
        ensures none { IsNone result ↔ IsTrue (set.is_subset self.now (set.union first.now second.now)) }
    {
        find_missing_both(
            self.tags.as_slice(),
            first.tags.as_slice(),
            second.tags.as_slice(),
        )
    }

    /// The least tag of this set that is in none of the three others.
    pub fn first_missing_three(
        &self,
        first: &TagSet,
        second: &TagSet,
        third: &TagSet,
    ) -> Option<TagId>
        ensures value { result ≡ least (set.difference (set.difference self.now first.now) (set.union second.now third.now)) }
        ensures none { IsNone result ↔ IsTrue (set.is_subset (set.difference self.now first.now) (set.union second.now third.now)) }
    {
        find_missing_three(
            self.tags.as_slice(),
            first.tags.as_slice(),
            second.tags.as_slice(),
            third.tags.as_slice(),
        )
    }

    /// The least tag that is in one of the two sets only: `None` exactly where they are equal.
    pub fn first_apart(&self, other: &TagSet) -> Option<TagId>
        ensures value { result ≡ least (apart self.now other.now) }
        ensures none { IsNone result ↔ (self.now ≡ other.now) }
    {
        lesser(self.first_missing(other), other.first_missing(self))
    }

    /// The tags that are in this set, in the other or in both. Where one of the two is a subset of the other, the
    /// answer shares the other's tags.
    ///
    /// # Errors
    ///
    /// `NoMemory` where memory is refused.
    pub fn union(&self, other: &TagSet) -> Result<TagSet, NoMemory>
        ensures { IfOk result (λ s. s ≡ set.union self.now other.now) }
    {
        if other.is_subset(self) {
            return self.copy();
        }
        if self.is_subset(other) {
            return other.copy();
        }
        let tags = merged_tags(
            self.tags.allocator(),
            self.tags.as_slice(),
            other.tags.as_slice(),
        )?;
        let set = TagSet::made(tags)?;
        Ok(set)
    }

    /// The tags of this set that the other lacks.
    ///
    /// # Errors
    ///
    /// `NoMemory` where memory is refused.
    pub fn minus(&self, other: &TagSet) -> Result<TagSet, NoMemory>
        ensures { IfOk result (λ s. s ≡ set.difference self.now other.now) }
    {
        let tags = missing_tags(
            self.tags.allocator(),
            self.tags.as_slice(),
            other.tags.as_slice(),
        )?;
        let set = TagSet::made(tags)?;
        Ok(set)
    }

    /// An equal set, which shares its tags with this one: no memory is taken.
    ///
    /// # Errors
    ///
    /// `NoMemory` where the set has 2 ^ 63 copies.
    pub fn copy(&self) -> Result<TagSet, NoMemory>
        ensures { IfOk result (λ s. s ≡ self.now) }
    {
        let tags = self.tags.copy()?;
        Ok(TagSet { tags })
    }

    /// Adds a tag. A tag that is there already counts once.
    ///
    /// # Errors
    ///
    /// `NoMemory` where memory is refused; the set is then as it was.
    pub fn insert(&mut self, tag: TagId) -> Result<(), NoMemory>
        ensures ok { OnOk result (self.new ≡ set.insert self.old tag) }
        ensures err { OnErr result (self.new ≡ self.old) }
    {
        if self.contains(tag) {
            return Ok(());
        }
        let set = self.with_tag(tag)?;
        *self = set;
        Ok(())
    }

    /// The set with one more tag.
    fn with_tag(&self, tag: TagId) -> Result<TagSet, NoMemory>
        ensures { IfOk result (λ s. s ≡ set.insert self.now tag) }
    {
        if self.tags.as_slice().is_empty() {
            return Ok(TagSet::one(self.tags.allocator(), tag));
        }
        let tags = tags_with(self.tags.allocator(), self.tags.as_slice(), tag)?;
        let set = TagSet::made(tags)?;
        Ok(set)
    }

    /// The set whose tags in increasing order are these, which are not copied.
    fn made(tags: Vec<TagId>) -> Result<TagSet, NoMemory>
        requires { IsRising tags.items }
        ensures { IfOk result (λ s. s ≡ set.from_list tags.items) }
    {
        let tags = SharedTags::from_vec(tags)?;
        Ok(TagSet { tags })
    }
}

/// The lesser of two tags, where there are any.
fn lesser(a: Option<TagId>, b: Option<TagId>) -> Option<TagId>
    ensures { result ≡ lesser a b }
{
    match (a, b) {
        (None, b) => b,
        (Some(x), None) => Some(x),
        (Some(x), Some(y)) => { if y < x { Some(y) } else { Some(x) } }
    }
}
