//! The names of things.

ghost use Rattle.std.specs.Prelude.{◌≡◌, nat_eq, IsTrue, ◌↔◌, IfOk};
ghost use Rattle.std.proofs.Common.{rules, refl};
ghost use Rattle.std.specs.Cmp.{partial_order_from_own_ties};
ghost use Rattle.std.specs.Cmp.Rules.{comparing, hashing};
ghost use Rattle.std.specs.Cmp.Lexicographic.{pointwise, slice_cmp};
ghost use Rattle.std.specs.Ordering.{on, eq_of_both, then_cmp, nat_cmp, as_partial_cmp};
ghost use Rattle.lam_value_homes.specs.Tags.{tags_of};
ghost use Rattle.lam_value_homes.specs.Alike.{middle};
ghost use Rattle.lam_value.specs.NameParts.{name_input, same_input};
ghost use Rattle.lam_value.specs.Names.{name_cmp};
ghost use Rattle.lam_value.specs.Homes.{home_of, label_eq};

use crate::homes::{Home, copied_labels};
use lam_value_homes::{Label, Labelled, NoMemory, same};
use std::alloc::Global;
use std::cmp::Ordering;
use std::hash::{Hash, Hasher};
use std::marker::Model;
use std::sync::Arc;

/// The name of a thing: the label of its maker, its own label, and a number that no other thing of these
/// two labels and of its kind has.
///
/// A name is made once, and copied and looked up often. So its copies share one block with its home, and a name that
/// is made beside another one of that home shares it too: neither takes memory, and a look-up hashes two numbers.
/// Contracts see the record of the three parts.
///
/// Names are ordered by the maker's label, then the own label, then the number.
#[derive(Drop)]
pub struct Name {
    home: Arc<Home>,
    n: u64,
}

impl Model for Name {
    ghost use Rattle.std.specs.Arc.{arc_value};
    ghost use Rattle.lam_value.specs.NameParts.{NameParts, coded_parts};

    ghost Value = { NameParts };

    ghost coded = { coded_parts };

    ghost view = { λ m. record { maker = (arc_value m.home).maker; own = (arc_value m.home).own; n = m.n } };
}

impl PartialEq for Name {
    ghost eq = { eq_of_both (eq_of_both (on (λ m. tags_of m.maker.s) (pointwise nat_eq)) (on (λ m. tags_of m.maker.i) (pointwise nat_eq))) (eq_of_both (eq_of_both (on (λ m. tags_of m.own.s) (pointwise nat_eq)) (on (λ m. tags_of m.own.i) (pointwise nat_eq))) (on (λ m. m.n) nat_eq)) };

    ghost laws = { Prim.search (comparing, rules) depth 9 };

    fn eq(&self, other: &Name) -> bool {
        self.maker() == other.maker() && self.own() == other.own() && self.n() == other.n()
    }
}

impl Eq for Name {
    ghost laws = { Prim.search (comparing, rules) depth 9 };
}

impl PartialOrd for Name {
    ghost partial_cmp = { as_partial_cmp (then_cmp (then_cmp (on (λ m. tags_of m.maker.s) (slice_cmp nat_cmp)) (on (λ m. tags_of m.maker.i) (slice_cmp nat_cmp))) (then_cmp (then_cmp (on (λ m. tags_of m.own.s) (slice_cmp nat_cmp)) (on (λ m. tags_of m.own.i) (slice_cmp nat_cmp))) (on (λ m. m.n) nat_cmp))) };

    ghost laws = { partial_order_from_own_ties (Prim.search (comparing, rules) depth 9) (Prim.search (comparing, rules) depth 9) };

    fn partial_cmp(&self, other: &Name) -> Option<Ordering> {
        Some(self.cmp(other))
    }
}

impl Ord for Name {
    ghost cmp = { then_cmp (then_cmp (on (λ m. tags_of m.maker.s) (slice_cmp nat_cmp)) (on (λ m. tags_of m.maker.i) (slice_cmp nat_cmp))) (then_cmp (then_cmp (on (λ m. tags_of m.own.s) (slice_cmp nat_cmp)) (on (λ m. tags_of m.own.i) (slice_cmp nat_cmp))) (on (λ m. m.n) nat_cmp)) };

    ghost total = { Prim.search (comparing, rules) depth 9 };

    ghost matches_partial_cmp = { λ x y. refl };

    ghost matches_eq = { Prim.search (comparing, rules) depth 9 };

    fn cmp(&self, other: &Name) -> Ordering {
        self.maker()
            .cmp(other.maker())
            .then(self.own().cmp(other.own()))
            .then(self.n().cmp(&other.n()))
    }
}

impl Hash for Name {
    ghost hash_input = { name_input };

    ghost respects_eq = { λ x y h. same_input (home_of x.maker x.own) (home_of y.maker y.own) x.n y.n (Prim.search (hashing, rules) depth 9) (Prim.search (hashing, rules) depth 9) };

    fn hash<H: Hasher>(&self, state: &mut H) {
        self.home.hash(state);
        self.n.hash(state);
    }
}

impl Name {
    /// The name of two labels and a number.
    ///
    /// # Errors
    ///
    /// `NoMemory` where memory is refused.
    pub fn new(maker: Label, own: Label, n: u64) -> Result<Name, NoMemory>
        ensures { IfOk result (λ m. m ≡ record { maker = maker; own = own; n = n }) }
    {
        Name::at(Home::new(maker, own), n)
    }

    /// The name of a home and a number.
    ///
    /// # Errors
    ///
    /// `NoMemory` where memory is refused.
    pub fn at(home: Home, n: u64) -> Result<Name, NoMemory>
        ensures { IfOk result (λ m. m ≡ record { maker = home.maker; own = home.own; n = n }) }
    {
        let alloc = home.own().allocator();
        let home = Arc::new(alloc, home)?;
        Ok(Name { home, n })
    }

    /// The name of a home and a number. Where this name is of the same home it shares that with the new one, which
    /// takes no memory then.
    ///
    /// # Errors
    ///
    /// `NoMemory` where memory is refused, or where 2 ^ 63 names share the home.
    pub fn beside(&self, home: Home, n: u64) -> Result<Name, NoMemory>
        ensures { IfOk result (λ m. m ≡ record { maker = home.maker; own = home.own; n = n }) }
    {
        if same(self.own(), home.own()) && same(self.maker(), home.maker()) {
            return self.numbered(n);
        }
        Name::at(home, n)
    }

    /// The name of the same home with a number.
    fn numbered(&self, n: u64) -> Result<Name, NoMemory>
        ensures { IfOk result (λ m. m ≡ record { maker = self.now.maker; own = self.now.own; n = n }) }
    {
        let home = Arc::try_clone(&self.home)?;
        Ok(Name { home, n })
    }

    /// The name of two labels, which are copied, and a number.
    ///
    /// # Errors
    ///
    /// `NoMemory` where memory is refused.
    pub fn of(maker: &Label, own: &Label, n: u64) -> Result<Name, NoMemory>
        ensures { IfOk result (λ m. m ≡ record { maker = maker.now; own = own.now; n = n }) }
    {
        let (maker, own) = copied_labels(maker, own)?;
        Name::new(maker, own, n)
    }

    /// The home of the thing: its maker's label and its own.
    pub fn home(&self) -> &Home
        ensures { result.now ≡ home_of self.now.maker self.now.own }
    {
        &self.home
    }

    /// The label of the thing's maker.
    pub fn maker(&self) -> &Label
        ensures { result.now ≡ self.now.maker }
    {
        self.home.maker()
    }

    /// The thing's own label.
    pub fn own(&self) -> &Label
        ensures { result.now ≡ self.now.own }
    {
        self.home.own()
    }

    /// The thing's number among those of its two labels and its kind.
    pub fn n(&self) -> u64
        ensures { result ≡ self.now.n }
    {
        self.n
    }

    /// The allocator that the name keeps.
    pub fn allocator(&self) -> Global {
        self.own().allocator()
    }

    /// An equal name, which shares its home with this one: no memory is taken.
    ///
    /// # Errors
    ///
    /// `NoMemory` where 2 ^ 63 names share the home.
    pub fn copy(&self) -> Result<Name, NoMemory>
        ensures { IfOk result (λ n. n ≡ self.now) }
    {
        self.numbered(self.n)
    }

    /// Which of two names comes first.
    pub fn order(&self, other: &Name) -> Ordering
        ensures { result ≡ name_cmp self.now other.now }
    {
        self.cmp(other)
    }

    /// Whether two names are equal.
    pub fn same(&self, other: &Name) -> bool
        ensures { IsTrue result ↔ (self.now ≡ other.now) }
    {
        self.n() == other.n() && same(self.own(), other.own()) && same(self.maker(), other.maker())
    }
}

impl Labelled for Name {
    ghost label_of = { λ n. n.own };

    fn label(&self) -> &Label {
        self.own()
    }

    ghost label_follows = { λ x y e. middle (label_eq x.maker y.maker) (label_eq x.own y.own) (nat_eq x.n y.n) e };
}
