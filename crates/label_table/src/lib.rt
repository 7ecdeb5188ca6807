//! A table of numbered labels, with a memo of the flows between them.
//!
//! It numbers each label that it meets, from 0 on, and remembers whether information flows between labels that were
//! asked about. A rule that is tested often is then a look-up in place of a walk over two tag sets.
//!
//! `intern` and `remember` allocate, and no other function does. `remember` makes the room in which `flows` keeps its
//! answers. Where that is full, `flows` answers as before and keeps nothing.
//!
//! No public promise rests on this crate alone: no crate of the tool uses it. An answer of `flows` is the one of
//! `flow_labels` (clause `answer`). Free to change for speed: how labels are found, and how answers are kept.
#![tactic(auto)]

ghost use Rattle.std.specs.Prelude.{◌≡◌, ◌+◌, ◌<◌, ◌≤◌, ◌↔◌, length, cond, slice_get, Some, None, IsNone, IfSome, IfOk, OnOk, OnErr};
ghost use Rattle.std.specs.FinMap.{get, len};
ghost use Rattle.std.specs.HashMap.{IsUnique, get as at_key, spare};
ghost use Rattle.std.specs.HashSet.{IsUnique as AreDistinct};
ghost use Rattle.flow_labels.specs.declared.Label.{Label};
ghost use Rattle.lam_value_homes.specs.Homes.{label_eq};
ghost use Rattle.label_table.specs.Tables.{pair_of, pair_eq, no_labels, number_of, number_for, interned, with_labels, answer_of, with_room, asked, IsSound};

use flow_labels::{Label, NoMemory, flows};
use indexmap::{IndexMap, IndexSet};
use std::alloc::Global;
use std::marker::Model;

/// The number of a label in one table.
#[derive(Clone, Copy, Debug, PartialEq, Eq, PartialOrd, Ord, Hash)]
pub struct LabelNo(pub u64);

impl Model for LabelNo {
    ghost use Rattle.std.specs.Prelude.{ℕ};

    ghost Value = { ℕ };

    ghost view = { λ n. n.0 };

    ghost inverse = { λ n. record { 0 = n } };
}

/// Two labels by number, in the order in which a flow between them is asked about.
#[derive(Clone, Copy, Debug, PartialEq, Eq, Hash)]
struct Pair {
    from: u64,
    to: u64,
}

/// Labels with their numbers, and answers that are remembered.
#[derive(Drop)]
pub struct LabelTable {
    labels: IndexSet<Label>,
    answers: IndexMap<Pair, bool>,
    room: u64,
}

impl Model for LabelTable {
    ghost use Rattle.std.specs.FinMap.{from_entries};
    ghost use Rattle.label_table.specs.Tables.{Table, coded_table, IsKept};

    ghost Value = { Table };

    ghost coded = { coded_table };

    ghost view = { λ t. record { labels = t.labels.keys; answers = from_entries t.answers.entries; room = t.room } };

    ghost invariant = { λ t. IsKept t.labels t.answers t.room };
}

impl LabelTable {
    /// No label has a number, and there is no room for a pair. No memory is taken.
    pub fn new(alloc: Global) -> LabelTable
        ensures { result ≡ no_labels }
    {
        LabelTable {
            labels: IndexSet::new(alloc),
            answers: IndexMap::new(alloc),
            room: 0,
        }
    }

    /// The number of a label: the one that it has, else the next.
    ///
    /// # Errors
    ///
    /// `NoMemory` where memory is refused; no label gets a number then.
    pub fn intern(&mut self, l: Label) -> Result<LabelNo, NoMemory>
        ensures number { IfOk result (λ n. n ≡ number_for self.old.labels l) }
        ensures stands { IfOk result (λ n. slice_get self.new.labels n ≡ Some l) }
        ensures ok { OnOk result (self.new ≡ with_labels self.old (interned self.old.labels l)) }
        ensures err { OnErr result (self.new ≡ self.old) }
    {
        put_label(&mut self.labels, l)
    }

    /// Makes room for so many more pairs.
    ///
    /// # Errors
    ///
    /// `NoMemory` where memory is refused; there is as much room as before then.
    pub fn remember(&mut self, pairs: u64) -> Result<(), NoMemory>
        ensures ok { OnOk result (self.new ≡ with_room self.old pairs) }
        ensures err { OnErr result (self.new ≡ self.old) }
    {
        let Some(room) = self.room.checked_add(pairs) else {
            return Err(NoMemory);
        };
        make_room(&mut self.answers, room)?;
        self.room = room;
        Ok(())
    }

    /// The number of a label, or `None` exactly where it has none.
    pub fn find(&self, l: &Label) -> Option<LabelNo>
        ensures number { result ≡ number_of self.now.labels l.now }
        ensures stands { IfSome result (λ n. slice_get self.now.labels n ≡ Some l.now) }
    {
        find_number(&self.labels, l)
    }

    /// The label of a number.
    pub fn label(&self, n: LabelNo) -> &Label
        requires { n < length self.now.labels }
        ensures { slice_get self.now.labels n ≡ Some result.now }
    {
        label_at(&self.labels, n)
    }

    /// Whether information may flow from the label of one number to that of another. The pair is remembered, unless
    /// it is already or there is no room.
    pub fn flows(&mut self, a: LabelNo, b: LabelNo) -> bool
        requires first { a < length self.old.labels }
        requires second { b < length self.old.labels }
        ensures answer { result ≡ answer_of self.old.labels (pair_of a b) }
        ensures asked { self.new ≡ asked self.old (pair_of a b) }
    {
        let pair = Pair { from: a.0, to: b.0 };
        if let Some(answer) = recalled(&self.answers, pair) {
            return answer;
        }
        let answer = flows_at(&self.labels, pair);
        if (self.answers.len() as u64) < self.room {
            put_answer(&mut self.answers, pair, answer);
        }
        answer
    }

    /// What `flows` answers of two numbers, or `None` exactly where the pair is not remembered.
    pub fn recall(&self, a: LabelNo, b: LabelNo) -> Option<bool>
        ensures remembered { result ≡ get self.now.answers (pair_of a b) }
        ensures answer { IfSome result (λ answer. answer ≡ answer_of self.now.labels (pair_of a b)) }
    {
        recalled(&self.answers, Pair { from: a.0, to: b.0 })
    }

    /// How many pairs are remembered.
    pub fn remembered(&self) -> u64
        ensures count { result ≡ len self.now.answers }
        ensures within { result ≤ self.now.room }
    {
        self.answers.len() as u64
    }

    /// What holds of all tables. The call does nothing: its clause is for its caller's proof.
    pub fn facts(&self)
        ensures { IsSound self.now }
    {
        let _ = &self.labels;
    }
}

/// Gives a label its number.
fn put_label(labels: &mut IndexSet<Label>, l: Label) -> Result<LabelNo, NoMemory>
    ensures number { IfOk result (λ n. n ≡ number_for labels.old.keys l) }
    ensures stands { IfOk result (λ n. slice_get labels.new.keys n ≡ Some l) }
    ensures ok { OnOk result (labels.new.keys ≡ interned labels.old.keys l) }
    ensures err { OnErr result (labels.new.keys ≡ labels.old.keys) }
    ensures distinct { AreDistinct label_eq labels.new }
{
    let (at, _) = labels.insert_full(l)?;
    Ok(LabelNo(at as u64))
}

/// Lets as many pairs be put in without memory as leave so many in all.
fn make_room(answers: &mut IndexMap<Pair, bool>, room: u64) -> Result<(), NoMemory>
    requires { length answers.old.entries ≤ room }
    ensures entries { answers.new.entries ≡ answers.old.entries }
    ensures unique { IsUnique pair_eq answers.new }
    ensures room { spare answers.old ≤ spare answers.new }
    ensures ok { OnOk result (room ≤ length answers.new.entries + spare answers.new) }
{
    let more = room as usize - answers.len();
    answers.reserve(more)?;
    Ok(())
}

fn find_number(labels: &IndexSet<Label>, l: &Label) -> Option<LabelNo>
    ensures { result ≡ number_of labels.now.keys l.now }
{
    match labels.get_index_of(l) {
        None => None,
        Some(at) => Some(LabelNo(at as u64)),
    }
}

fn label_at(labels: &IndexSet<Label>, n: LabelNo) -> &Label
    requires { n < length labels.now.keys }
    ensures { slice_get labels.now.keys n ≡ Some result.now }
{
    match labels.get_index(n.0 as usize) {
        None => unreachable!(),
        Some(l) => l,
    }
}

fn flows_at(labels: &IndexSet<Label>, pair: Pair) -> bool
    requires first { pair.from < length labels.now.keys }
    requires second { pair.to < length labels.now.keys }
    ensures { result ≡ answer_of labels.now.keys pair }
{
    let from = label_at(labels, LabelNo(pair.from));
    flows(from, label_at(labels, LabelNo(pair.to)))
}

fn recalled(answers: &IndexMap<Pair, bool>, pair: Pair) -> Option<bool>
    ensures { result ≡ at_key pair_eq answers.now pair }
{
    answers.get(&pair).copied()
}

/// Remembers the answer of a pair.
fn put_answer(answers: &mut IndexMap<Pair, bool>, pair: Pair, answer: bool)
    requires absent { at_key pair_eq answers.old pair ≡ None }
    requires spare { 0 < spare answers.old }
    ensures answers { (q : Pair) → at_key pair_eq answers.new q ≡ cond (pair_eq pair q) (Some answer) (at_key pair_eq answers.old q) }
    ensures count { length answers.new.entries ≡ length answers.old.entries + 1 }
    ensures spare { spare answers.old ≤ spare answers.new + 1 }
    ensures unique { IsUnique pair_eq answers.new }
{
    match answers.insert(pair, answer) {
        Ok(_) => {}
        Err(_) => unreachable!(),
    }
}
