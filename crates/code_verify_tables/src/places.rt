//! An operation's row of the table: the operands that it takes, and what it leaves.

ghost use Rattle.std.specs.Prelude.{◌≡◌, ◌≤◌, ◌<◌, ◌+◌, length, slice_get, MatchOption};
ghost use Rattle.guarded_code.specs.Changes.{wanted};
ghost use Rattle.code_verify_tables.specs.Seen.{places_of_option, few_seen, places_seen, change_seen};

use guarded_code::{Access, ValueKind};

/// What an operation wants of an operand: any value, or one of a kind.
#[derive(Clone, Copy, Debug, PartialEq, Eq)]
pub enum Place {
    Any,
    Only(ValueKind),
}

/// At most three places.
#[derive(Clone, Copy, Debug, PartialEq, Eq)]
pub enum FewPlaces {
    Zero,
    One(Place),
    Two(Place, Place),
    Three(Place, Place, Place),
}

/// Places, that of the top operand first: one of them so many times, and then a few.
#[derive(Clone, Copy, Debug, PartialEq, Eq)]
pub struct Places {
    pub each: Place,
    pub count: usize,
    pub few: FewPlaces,
}

/// What an operation does.
#[derive(Clone, Copy, Debug, PartialEq, Eq)]
pub enum OpChange {
    /// A copy of a local is put on top.
    Loads(u32),
    /// The top goes into a local.
    Stores(u32),
    /// The reference so far below the top is tested.
    Tests(Access, u32),
    /// Operands are taken, and a value of that kind is put there, or none.
    Trades(Places, Option<ValueKind>),
}

impl FewPlaces {
    fn count(self) -> usize
        ensures count { result ≡ length (few_seen self) }
        ensures few { result ≤ 3 }
    {
        match self {
            FewPlaces::Zero => 0,
            FewPlaces::One(_) => 1,
            FewPlaces::Two(_, _) => 2,
            FewPlaces::Three(_, _, _) => 3,
        }
    }

    fn at(self, index: usize) -> Option<Place>
        ensures { places_of_option result ≡ slice_get (few_seen self) index }
    {
        match self {
            FewPlaces::Zero => None,
            FewPlaces::One(a) => if index == 0 { Some(a) } else { None },
            FewPlaces::Two(a, b) => match index {
                0 => Some(a),
                1 => Some(b),
                _ => None,
            },
            FewPlaces::Three(a, b, c) => match index {
                0 => Some(a),
                1 => Some(b),
                2 => Some(c),
                _ => None,
            },
        }
    }
}

impl Places {
    /// How many there are, `None` where they are more than so many.
    pub fn count_within(self, most: usize) -> Option<usize>
        ensures { MatchOption result (most < length (places_seen self)) (λ n. (n ≡ length (places_seen self)) × (n ≤ most)) }
    {
        let few = self.few.count();
        if few <= most && self.count <= most - few {
            Some(self.count + few)
        } else {
            None
        }
    }

    /// The place of the operand so far below the top, where there is one.
    pub fn at(self, index: usize) -> Option<Place>
        ensures { places_of_option result ≡ slice_get (places_seen self) index }
    {
        if index < self.count {
            Some(self.each)
        } else {
            self.few.at(index - self.count)
        }
    }
}

impl OpChange {
    /// The operands that an operation finds, and what it wants of them.
    pub fn wanted(self) -> Places
        ensures { places_seen result ≡ wanted (change_seen self) }
    {
        match self {
            OpChange::Loads(_) => repeated(Place::Any, 0, FewPlaces::Zero),
            OpChange::Stores(_) => repeated(Place::Any, 0, FewPlaces::One(Place::Any)),
            OpChange::Tests(_, depth) => repeated(
                Place::Any,
                depth as usize,
                FewPlaces::One(Place::Only(ValueKind::Other)),
            ),
            OpChange::Trades(takes, _) => takes,
        }
    }
}

/// One place so many times, and then a few.
pub fn repeated(each: Place, count: usize, few: FewPlaces) -> Places
    ensures { result ≡ record { each = each; count = count; few = few } }
{
    Places { each, count, few }
}
