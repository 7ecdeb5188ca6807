//! The homes of things, and look-up in a map by home.

ghost use Rattle.std.specs.Prelude.{◌≡◌, nat_eq, IfOk};
ghost use Rattle.std.proofs.Common.{rules, ap};
ghost use Rattle.std.specs.Cmp.Rules.{comparing, hashing};
ghost use Rattle.std.specs.Cmp.Lexicographic.{pointwise};
ghost use Rattle.std.specs.Ordering.{on, eq_of_both};
ghost use Rattle.std.specs.Hash as fed;
ghost use Rattle.std.specs.HashMap.{get as at_key};
ghost use Rattle.std.specs.Option.{option_copied};
ghost use Rattle.lam_value_homes.specs.Tags.{tags_of};
ghost use Rattle.lam_value_homes.specs.Alike.{second};
ghost use Rattle.lam_value.specs.NameParts.{home_writes, home_input, folded};
ghost use Rattle.lam_value.specs.Homes.{label_eq, home_eq};

use indexmap::IndexMap;
use lam_value_homes::{Label, Labelled, NoMemory};
use std::hash::{FoldHasher, Hash, Hasher};
use std::marker::Model;

/// A home: the label of a maker and an own label. What is made at a home is numbered there, from 0.
///
/// A home is made once and looked up often, so it keeps its hash, and the place where a map has it. Contracts see the
/// record of its two labels.
#[derive(Drop)]
pub struct Home {
    maker: Label,
    own: Label,
    digest: u64,
    place: usize,
}

impl Model for Home {
    ghost use Rattle.std.specs.Prelude.{◌≡◌};
    ghost use Rattle.lam_value.specs.NameParts.{Home as Labels, coded_home, home_writes, folded};

    ghost Value = { Labels };

    ghost coded = { coded_home };

    ghost view = { λ h. record { maker = h.maker; own = h.own } };

    ghost invariant = { λ h. h.digest ≡ folded (home_writes (record { maker = h.maker; own = h.own })) };
}

impl PartialEq for Home {
    ghost eq = { eq_of_both (eq_of_both (on (λ h. tags_of h.maker.s) (pointwise nat_eq)) (on (λ h. tags_of h.maker.i) (pointwise nat_eq))) (eq_of_both (on (λ h. tags_of h.own.s) (pointwise nat_eq)) (on (λ h. tags_of h.own.i) (pointwise nat_eq))) };

    ghost laws = { Prim.search (comparing, rules) depth 9 };

    fn eq(&self, other: &Home) -> bool {
        self.maker == other.maker && self.own == other.own
    }
}

impl Eq for Home {
    ghost laws = { Prim.search (comparing, rules) depth 9 };
}

impl Hash for Home {
    ghost hash_input = { home_input };

    ghost respects_eq = { λ x y h. ap (λ ws. fed.u64 (folded ws)) (Prim.search (hashing, rules) depth 9) };

    fn hash<H: Hasher>(&self, state: &mut H) {
        state.write_u64(self.digest);
    }
}

impl Home {
    /// The home of a maker's label and an own label.
    pub fn new(maker: Label, own: Label) -> Home
        ensures { result ≡ record { maker = maker; own = own } }
    {
        let digest = digest_of(&maker, &own);
        Home {
            maker,
            own,
            digest,
            place: 0,
        }
    }

    /// The home of a maker's label and an own label, which are copied.
    ///
    /// # Errors
    ///
    /// `NoMemory` where memory is refused.
    pub fn of(maker: &Label, own: &Label) -> Result<Home, NoMemory>
        ensures { IfOk result (λ h. h ≡ record { maker = maker.now; own = own.now }) }
    {
        let (maker, own) = copied_labels(maker, own)?;
        Ok(Home::new(maker, own))
    }

    /// The same home, which remembers that a map has it at this place. That is a hint for [`at_home`], which looks there
    /// first, and no part of the home.
    pub fn placed(self, place: usize) -> Home
        ensures { result ≡ self }
    {
        let Home {
            maker,
            own,
            digest,
            place: _,
        } = self;
        Home {
            maker,
            own,
            digest,
            place,
        }
    }

    /// The label of the maker.
    pub fn maker(&self) -> &Label
        ensures { result.now ≡ self.now.maker }
    {
        &self.maker
    }

    /// The label of what is made.
    pub fn own(&self) -> &Label
        ensures { result.now ≡ self.now.own }
    {
        &self.own
    }

    /// An equal home.
    ///
    /// # Errors
    ///
    /// `NoMemory` where memory is refused.
    pub fn copy(&self) -> Result<Home, NoMemory>
        ensures { IfOk result (λ h. h ≡ self.now) }
    {
        let (maker, own) = copied_labels(&self.maker, &self.own)?;
        Ok(Home {
            maker,
            own,
            digest: self.digest,
            place: self.place,
        })
    }
}

impl Labelled for Home {
    ghost label_of = { λ h. h.own };

    fn label(&self) -> &Label {
        self.own()
    }

    ghost label_follows = { λ x y e. second (label_eq x.maker y.maker) (label_eq x.own y.own) e };
}

/// What a map has at a home.
///
/// The map is asked first for what stands at the place that the home remembers, which costs one comparison of homes.
/// Only where another home stands there, or none, is the home found by its hash.
pub fn at_home<'a, V>(map: &'a IndexMap<Home, V>, home: &Home) -> Option<&'a V>
    ensures { option_copied result ≡ at_key home_eq map.now home.now }
{
    if let Some((there, value)) = map.get_index(home.place) {
        if there == home {
            return Some(value);
        }
    }
    map.get(home)
}

/// Two labels equal to these.
pub(crate) fn copied_labels(maker: &Label, own: &Label) -> Result<(Label, Label), NoMemory>
    ensures { IfOk result (λ p. p ≡ (maker.now, own.now)) }
{
    let maker = maker.copy()?;
    let own = own.copy()?;
    Ok((maker, own))
}

/// The hash of the labels of a home.
#[tactic(auto, unfolding(crate::specs::NameParts::folded))]
fn digest_of(maker: &Label, own: &Label) -> u64
    ensures { result ≡ folded (home_writes (record { maker = maker.now; own = own.now })) }
{
    let mut state = FoldHasher::default();
    maker.hash(&mut state);
    own.hash(&mut state);
    state.finish()
}
