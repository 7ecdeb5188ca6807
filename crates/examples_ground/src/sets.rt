//! Sets of no tag, of one and of more, with their making and their copies.

use std::alloc::Global;
use tag_sets::{NoMemory, TagId, TagSet};

/// Whether these are the tags of a set, the least first.
pub(crate) fn has(set: &TagSet, tags: &[TagId]) -> bool {
    set.tags() == tags
}

/// Whether two sets have these tags together.
fn have_together(set: &TagSet, other: &TagSet, tags: &[TagId]) -> Result<bool, NoMemory> {
    let union = set.union(other)?;
    Ok(has(&union, tags))
}

/// Whether tag 2 is put between 1 and 3.
fn takes_two(set: &TagSet) -> Result<bool, NoMemory> {
    let two = TagSet::one(set.allocator(), TagId(2));
    have_together(set, &two, &[TagId(1), TagId(2), TagId(3)])
}

/// Whether 3 is left without 1.
fn loses_one(set: &TagSet) -> Result<bool, NoMemory> {
    let one = TagSet::from_slice(set.allocator(), &[TagId(1)])?;
    let rest = set.minus(&one)?;
    Ok(has(&rest, &[TagId(3)]))
}

/// Whether a set is that of 1 and 3, also for what is made of it.
fn has_one_and_three(set: &TagSet) -> Result<bool, NoMemory> {
    let made = takes_two(set)? & loses_one(set)?;
    Ok(made & has(set, &[TagId(1), TagId(3)]))
}

/// Whether the set of 3, 1 and 3 is that of 1 and 3.
fn is_one_and_three(alloc: Global) -> Result<bool, NoMemory> {
    let set = TagSet::from_slice(alloc, &[TagId(3), TagId(1), TagId(3)])?;
    has_one_and_three(&set)
}

#[test]
fn three_one_three_is_the_set_of_one_and_three(rt: HostRuntime) {
    assert!(rt; is_one_and_three(rt.alloc()) == Ok(true));
}

/// Whether a set takes a tag, and a copy has so many tags, which are the set's.
fn takes(set: &mut TagSet, tag: TagId, copy: &TagSet, count: usize) -> Result<bool, NoMemory> {
    set.insert(tag)?;
    Ok((copy.tags().len() == count) & copy.is_subset(set) & set.contains(tag))
}

/// Whether a set takes a tag, and its copy keeps as many tags as it had.
fn grows_alone(set: &mut TagSet, tag: TagId, count: usize) -> Result<bool, NoMemory> {
    let copy = set.copy()?;
    takes(set, tag, &copy, count)
}

/// Whether a set takes four tags, of which the last was there.
fn grows(set: &mut TagSet) -> Result<bool, NoMemory> {
    let two = grows_alone(set, TagId(5), 0)? & grows_alone(set, TagId(2), 1)?;
    Ok(two & grows_alone(set, TagId(9), 2)? & grows_alone(set, TagId(2), 3)?)
}

/// Whether a set that grew has its three tags.
fn has_three(set: &TagSet) -> bool {
    has(set, &[TagId(2), TagId(5), TagId(9)]) & (set.first() == Some(TagId(2)))
}

/// Whether an empty set grows, and has its three tags.
fn empty_grows(alloc: Global) -> Result<bool, NoMemory> {
    let mut set = TagSet::empty(alloc);
    let grew = grows(&mut set);
    let all = has_three(&set);
    Ok(grew? & all)
}

#[test]
fn a_copy_keeps_its_tags_when_its_source_grows(rt: HostRuntime) {
    assert!(rt; empty_grows(rt.alloc()) == Ok(true));
}

/// Whether what is missing of the tags 4 and 7 is named, where 4, 6 and 8 are.
fn names_missing(few: &TagSet, more: &TagSet) -> bool {
    let one = few.first_missing(more) == Some(TagId(7));
    let apart = few.first_apart(more) == Some(TagId(6));
    let both = few.first_missing_both(more, few).is_none();
    let three = more.first_missing_three(few, few, few) == Some(TagId(6));
    one & apart & both & three
}

/// Whether a set is the same as its copy, and not as another.
fn is_same(few: &TagSet, more: &TagSet) -> Result<bool, NoMemory> {
    let copy = few.copy()?;
    Ok(few.same(&copy) & !few.same(more))
}

/// Whether two sets are told apart.
fn are_apart(few: &TagSet, more: &TagSet) -> Result<bool, NoMemory> {
    Ok(names_missing(few, more) & is_same(few, more)?)
}

/// Whether a set is told apart from that of 4, 6 and 8.
fn is_apart(alloc: Global, few: &TagSet) -> Result<bool, NoMemory> {
    let more = TagSet::from_slice(alloc, &[TagId(4), TagId(6), TagId(8)])?;
    are_apart(few, &more)
}

/// Whether the set of 4 and 7 is told apart from that of 4, 6 and 8.
fn differ(alloc: Global) -> Result<bool, NoMemory> {
    let few = TagSet::from_slice(alloc, &[TagId(4), TagId(7)])?;
    is_apart(alloc, &few)
}

#[test]
fn the_least_tag_that_is_missing_is_named(rt: HostRuntime) {
    assert!(rt; differ(rt.alloc()) == Ok(true));
}
