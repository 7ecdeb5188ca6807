//! Allocation counters by home.

use crate::values::secret;
use flow_labels::Label;
use lam_value::Counters;
use std::alloc::Global;
use tag_sets::NoMemory;

/// Takes the next number of a home, which is this one.
fn draw(counters: &mut Counters, maker: &Label, own: &Label, number: u64) -> bool {
    number < 100 && counters.next(maker, own) == number && counters.draw(maker, own, number).is_ok()
}

/// Whether two homes of one maker count apart.
fn count_apart(counters: &mut Counters, maker: &Label, own: &Label) -> bool {
    let first = draw(counters, maker, own, 0);
    let second = draw(counters, maker, own, 1);
    first & second & draw(counters, maker, maker, 0)
}

/// Whether two have equal counters, and equal ones where the public observer sees.
fn are_same(a: &Counters, b: &Counters, public: &Label) -> bool {
    a.facts();
    a.same(b) & a.same_seen(b, public)
}

/// Whether a public home and a secret one of a public maker count apart.
fn homes_count_apart(counters: &mut Counters, public: &Label) -> Result<bool, NoMemory> {
    let secret = secret(public.allocator())?;
    Ok(count_apart(counters, public, &secret))
}

/// Raises the counter of the public home.
fn raise(counters: &mut Counters, public: &Label) -> bool {
    counters.raise(public, public, 9).is_ok() && counters.next(public, public) == 9
}

/// Whether counters are equal to their copy until one of the two is raised.
fn are_copied(counters: &mut Counters, public: &Label) -> Result<bool, NoMemory> {
    let copy = counters.copy()?;
    let before = are_same(counters, &copy, public);
    let raised = raise(counters, public);
    Ok(before & raised & !are_same(counters, &copy, public))
}

/// Whether homes count apart, and the counters are copied.
fn count(counters: &mut Counters, public: &Label) -> Result<bool, NoMemory> {
    Ok(homes_count_apart(counters, public)? & are_copied(counters, public)?)
}

/// Whether new counters count.
fn new_count(alloc: Global) -> Result<bool, NoMemory> {
    let mut counters = Counters::new(alloc);
    count(&mut counters, &Label::public(alloc))
}

#[test]
fn each_home_counts_for_itself(rt: HostRuntime) {
    assert!(rt; new_count(rt.alloc()) == Ok(true));
}
