//! Capabilities, and the changes of a label that they allow.
//!
//! Information flows by labels alone, and to change a label takes *capabilities* (Flume, SOSP 2007). `t+` lets its
//! holder add the tag t to a label, and `t-` lets it remove t. So `t-` declassifies where t is a secret, and `t+`
//! endorses where t vouches for a thing.
//!
//! `change_rule` is the safe label change. Each added tag needs a plus and each dropped tag a minus, held by the
//! changer or *public*, which means everybody's. Like the flow rules of `flow_labels`, it returns the first rule that
//! forbids the change, with that rule's least tag.
//!
//! - `kinds`: which capabilities are public.
//! - `texts`: the text of capabilities, `+{a}-{a,b}`, both ways.
//!
//! Functions without a `Result` allocate nothing.
//!
//! A public promise rests on `Caps::change_rule` and `covers` (clauses `value` and `none`), on `Caps::used` and on
//! `public_of`: which label changes are allowed, and what a release took. Free to change for speed: the walks behind
//! them.

#![tactic(auto)]

mod kinds;
mod texts;

ghost use Rattle.std.specs.Prelude.{◌≡◌, IsTrue, IsNone, ◌↔◌, IfOk};
ghost use Rattle.flow_labels.specs.Failing.{first_failing};
ghost use Rattle.capabilities.specs.Changes.{no_caps, with_both, joined, used, MayChange, Covers, change_test, covers_test};

pub use flow_labels::same as flow_labels_same;
use flow_labels::{Denied, Label, NoMemory, Rule, TagId, TagSet, denied_or};
pub use kinds::{TagKind, kind_of, public_of};
use std::alloc::Global;
pub use texts::{
    CapsFault, caps_are_read, caps_form, caps_text, parse_caps, push_caps, texts_are_read,
};

/// Capabilities: the tags that their holder may add to a label, and those that it may drop.
#[derive(Debug, Drop)]
pub struct Caps {
    pub plus: TagSet,
    pub minus: TagSet,
}

impl Caps {
    /// No capabilities.
    pub fn none(alloc: Global) -> Caps
        ensures { result ≡ no_caps }
    {
        Caps {
            plus: TagSet::empty(alloc),
            minus: TagSet::empty(alloc),
        }
    }

    /// The capabilities to add the tags of `plus` and to drop those of `minus`.
    pub fn of(plus: TagSet, minus: TagSet) -> Caps
        ensures plus { result.plus ≡ plus }
        ensures minus { result.minus ≡ minus }
    {
        Caps { plus, minus }
    }

    /// The allocator that the capabilities keep, for what is made beside them.
    pub fn allocator(&self) -> Global {
        self.plus.allocator()
    }

    /// Equal capabilities.
    ///
    /// # Errors
    ///
    /// `NoMemory` where memory is refused.
    pub fn copy(&self) -> Result<Caps, NoMemory>
        ensures { IfOk result (λ c. c ≡ self.now) }
    {
        let plus = self.plus.copy()?;
        let minus = self.minus.copy()?;
        Ok(Caps { plus, minus })
    }

    /// Whether two capabilities are equal.
    pub fn same(&self, other: &Caps) -> bool
        ensures { IsTrue result ↔ (self.now ≡ other.now) }
    {
        self.plus.same(&other.plus) && self.minus.same(&other.minus)
    }

    /// The first rule that forbids a change from one label to another: `None` exactly where each tag that
    /// is added has its plus, and each that is dropped its minus, held here or public. Secrecy comes before
    /// integrity, adding before dropping.
    pub fn change_rule(&self, public: &Caps, from: &Label, to: &Label) -> Option<Denied>
        ensures value { result ≡ first_failing (change_test (joined self.now public.now) from.now to.now) }
        ensures none { IsNone result ↔ MayChange (joined self.now public.now) from.now to.now }
    {
        let drop_i = from
            .i
            .first_missing_three(&to.i, &self.minus, &public.minus);
        let add_i = to.i.first_missing_three(&from.i, &self.plus, &public.plus);
        let drop_s = from
            .s
            .first_missing_three(&to.s, &self.minus, &public.minus);
        let add_s = to.s.first_missing_three(&from.s, &self.plus, &public.plus);
        let fourth = denied_or(Rule::DropI, drop_i, None);
        let third = denied_or(Rule::AddI, add_i, fourth);
        let second = denied_or(Rule::DropS, drop_s, third);
        denied_or(Rule::AddS, add_s, second)
    }

    /// The first capability of `other` that is neither held here nor public, as a denial by the rule Caps:
    /// the least plus, else the least minus. `None` exactly where there is none.
    pub fn covers(&self, public: &Caps, other: &Caps) -> Option<Denied>
        ensures value { result ≡ first_failing (covers_test (joined self.now public.now) other.now) }
        ensures none { IsNone result ↔ Covers (joined self.now public.now) other.now }
    {
        let plus = other.plus.first_missing_both(&self.plus, &public.plus);
        let minus = other.minus.first_missing_both(&self.minus, &public.minus);
        denied_or(Rule::Caps, plus, denied_or(Rule::Caps, minus, None))
    }

    /// These capabilities with the plus and the minus of a tag, as the maker of the tag holds them.
    ///
    /// # Errors
    ///
    /// `NoMemory` where memory is refused.
    pub fn with_both(&self, t: TagId) -> Result<Caps, NoMemory>
        ensures { IfOk result (λ c. c ≡ with_both self.now t) }
    {
        let mut caps = self.copy()?;
        caps.plus.insert(t)?;
        caps.minus.insert(t)?;
        Ok(caps)
    }

    /// What is held here, in `other` or in both.
    ///
    /// # Errors
    ///
    /// `NoMemory` where memory is refused.
    pub fn join(&self, other: &Caps) -> Result<Caps, NoMemory>
        ensures { IfOk result (λ c. c ≡ joined self.now other.now) }
    {
        let plus = self.plus.union(&other.plus)?;
        let minus = self.minus.union(&other.minus)?;
        Ok(Caps { plus, minus })
    }

    /// The capabilities that a release from one label to another uses: the minus of each secret that is
    /// dropped, and the plus of each integrity tag that is added.
    ///
    /// # Errors
    ///
    /// `NoMemory` where memory is refused.
    pub fn used(from: &Label, to: &Label) -> Result<Caps, NoMemory>
        ensures { IfOk result (λ c. c ≡ used from.now to.now) }
    {
        let plus = to.i.minus(&from.i)?;
        let minus = from.s.minus(&to.s)?;
        Ok(Caps { plus, minus })
    }
}
