//! Labels of secrecy and integrity, and the rules of information flow between them.
//!
//! A label is a pair of tag sets. A thing's secrecy says whose secrets are in it, and its integrity says who vouches
//! for it. Information may flow from x to y where y is at least as secret as x, and at most as trusted. This is the
//! lattice of Denning (CACM 1976), with the two tag sets of Flume (SOSP 2007) and Laminar (PLDI 2009).
//!
//! A reference monitor tests these rules before each access. A rule function returns `None` where the access is
//! allowed. Otherwise it returns the first rule that forbids it, with that rule's least tag; secrecy comes before
//! integrity. The rules for label changes, which involve capabilities, are in the crate `capabilities`. Their variants
//! of [`Rule`] stand here with the others.
//!
//! - `names`: the names of tags.
//! - `name_lists`: equality of two lists of tag names.
//! - `texts`: the text of a label, `{a,b}/{t}`, both ways.
//! - `two_lists`: two lists of tag names in braces, both ways. Labels and capabilities (`+{a}-{a,b}`) are layouts of
//!   it.
//!
//! Each text has a function that returns a `String`, and one named `push_..` that appends to a given text. Functions
//! without a `Result` allocate nothing.
//!
//! A public promise rests on `flows`, on the rule functions (clauses `value` and `none`) and on the texts of labels
//! (both ways): who may read, write and see what. Free to change for speed: the walks behind them, as long as the
//! first failing rule and its least tag stay.
#![tactic(auto)]

mod name_lists;
mod names;
mod texts;
mod two_lists;

ghost use Rattle.std.specs.Prelude.{◌≡◌, IsTrue, IsNone, ◌↔◌, IfOk};
ghost use Rattle.std.specs.FinSet as set;
ghost use Rattle.flow_labels.specs.Flow.{flows, seen, public_label};
ghost use Rattle.flow_labels.specs.Failing.{denied_or, first_failing, read_test, write_test, mint_test, same_test};

pub use decimal_text::{push_int, push_number};
pub use name_lists::same_names;
pub use names::{NameFault, TagNames, is_letter, is_name, is_word};
use std::alloc::Global;
pub use tag_sets::{NoMemory, TagId, TagSet};
pub use texts::{
    LabelFault, label_form, label_text, labels_are_read, parse_label, push_label, rule_text,
    texts_are_read,
};
pub use two_lists::{
    Form, TagFault, TwoSets, bad_place, lists_are_read, push_sets, push_tag, read_sets,
    sets_are_read, sets_text, tag_text,
};

/// The tags of a thing's secrecy, `s`, and of its integrity, `i`.
///
/// Two labels are equal, and hash alike, exactly where both sets have the same tags. The order is that
/// of the tags in increasing order, secrecy first; it means nothing for the flow of information.
#[derive(Debug, PartialEq, Eq, PartialOrd, Ord, Hash, Drop)]
pub struct Label {
    pub s: TagSet,
    pub i: TagSet,
}

/// A rule of the reference monitor, which a tag can break.
#[derive(Clone, Copy, Debug, PartialEq, Eq)]
pub enum Rule {
    /// Reading: what is read has a secret that the reader's label lacks.
    ReadS,
    /// Reading: the reader is vouched for by a tag that what is read lacks.
    ReadI,
    /// Writing: the writer has a secret that what is written lacks.
    WriteS,
    /// Writing: what is written is vouched for by a tag that the writer lacks.
    WriteI,
    /// A change of label adds a secret without its plus capability.
    AddS,
    /// A change of label drops a secret without its minus capability: a declassification.
    DropS,
    /// A change of label adds an integrity tag without its plus capability: an endorsement.
    AddI,
    /// A change of label drops an integrity tag without its minus capability.
    DropI,
    /// A capability that is asked for is not held.
    Caps,
    /// A tag is made at a label that is not the public one.
    Mint,
    /// Two labels that must be equal differ.
    Same,
}

/// The first rule that failed, with the least tag that breaks it.
#[derive(Clone, Copy, Debug, PartialEq, Eq)]
pub struct Denied {
    /// The rule that forbids.
    pub rule: Rule,
    /// Its least tag.
    pub tag: TagId,
}

impl Label {
    /// The label `{}/{}`, of what is neither secret nor vouched for. Takes no memory.
    pub fn public(alloc: Global) -> Label
        ensures { result ≡ public_label }
    {
        Label {
            s: TagSet::empty(alloc),
            i: TagSet::empty(alloc),
        }
    }

    /// The allocator that the label keeps.
    pub fn allocator(&self) -> Global {
        self.s.allocator()
    }

    /// An equal label. NoMemory comes where memory runs out.
    pub fn copy(&self) -> Result<Label, NoMemory>
        ensures { IfOk result (λ l. l ≡ self.now) }
    {
        let s = self.s.copy()?;
        let i = self.i.copy()?;
        Ok(Label { s, i })
    }
}

/// Whether information may flow from x to y: each secret of x is one of y, and each tag that vouches
/// for y vouches for x.
pub fn flows(x: &Label, y: &Label) -> bool
    ensures { result ≡ flows x.now y.now }
{
    x.s.is_subset(&y.s) && y.i.is_subset(&x.i)
}

/// Whether an observer at the label o sees a thing at the label x: information may flow from x to o.
pub fn seen(x: &Label, o: &Label) -> bool
    ensures { result ≡ seen x.now o.now }
{
    flows(x, o)
}

/// Whether two labels are equal: both sets have the same tags.
pub fn same(x: &Label, y: &Label) -> bool
    ensures { IsTrue result ↔ (x.now ≡ y.now) }
{
    x.s.same(&y.s) && x.i.same(&y.i)
}

/// The rule with the tag that breaks it, or what the later rules answer where no tag breaks it.
pub fn denied_or(rule: Rule, tag: Option<TagId>, rest: Option<Denied>) -> Option<Denied>
    ensures { result ≡ denied_or rule tag rest }
{
    match tag {
        None => rest,
        Some(tag) => Some(Denied { rule, tag }),
    }
}

/// The first rule that forbids an actor at the label p to read a thing at the label x. None exactly
/// where information may flow from x to p.
pub fn read_rule(p: &Label, x: &Label) -> Option<Denied>
    ensures value { result ≡ first_failing (read_test p.now x.now) }
    ensures none { IsNone result ↔ IsTrue (flows x.now p.now) }
{
    let integrity = denied_or(Rule::ReadI, p.i.first_missing(&x.i), None);
    denied_or(Rule::ReadS, x.s.first_missing(&p.s), integrity)
}

/// The first rule that forbids an actor at the label p to write a thing at the label x. None exactly
/// where information may flow from p to x.
pub fn write_rule(p: &Label, x: &Label) -> Option<Denied>
    ensures value { result ≡ first_failing (write_test p.now x.now) }
    ensures none { IsNone result ↔ IsTrue (flows p.now x.now) }
{
    let integrity = denied_or(Rule::WriteI, x.i.first_missing(&p.i), None);
    denied_or(Rule::WriteS, p.s.first_missing(&x.s), integrity)
}

/// The first rule that forbids to make a tag at the label p. None exactly at the public label.
pub fn mint_rule(p: &Label) -> Option<Denied>
    ensures value { result ≡ first_failing (mint_test p.now) }
    ensures none { IsNone result ↔ (p.now ≡ public_label) }
{
    let integrity = denied_or(Rule::Mint, p.i.first(), None);
    denied_or(Rule::Mint, p.s.first(), integrity)
}

/// The first rule by which p and x are not the same label. None exactly where they are equal; its tag
/// is the least that is in one of the two sets only.
pub fn same_rule(p: &Label, x: &Label) -> Option<Denied>
    ensures value { result ≡ first_failing (same_test p.now x.now) }
    ensures none { IsNone result ↔ (p.now ≡ x.now) }
{
    let integrity = denied_or(Rule::Same, p.i.first_apart(&x.i), None);
    denied_or(Rule::Same, p.s.first_apart(&x.s), integrity)
}
