//! Knowledge about one local, in one byte.

ghost use Rattle.std.specs.Prelude.{◌≡◌, true};
ghost use Rattle.code_verify_tables.specs.Packed.{chosen, state_for, known_of};

use guarded_code::{Known, ValueKind};
use std::marker::Model;

/// A kind, with the rules that a value of it was tested by.
#[derive(Clone, Copy, Debug, PartialEq, Eq)]
pub enum KnownState {
    Number,
    NumberRead,
    NumberWrite,
    NumberBoth,
    Truth,
    TruthRead,
    TruthWrite,
    TruthBoth,
    Other,
    OtherRead,
    OtherWrite,
    OtherBoth,
    Unknown,
    UnknownRead,
    UnknownWrite,
    UnknownBoth,
}

/// What is known of a value, in one byte.
#[derive(Clone, Copy)]
pub struct PackedKnown {
    state: KnownState,
}

impl Model for PackedKnown {
    ghost use Rattle.guarded_code.specs.declared.known.Known.{Known as Unpacked};
    ghost use Rattle.guarded_code.specs.contracts.known.Known as unpacked;

    ghost Value = { Unpacked };

    ghost coded = { unpacked.the_row.coded };

    ghost use Rattle.code_verify_tables.specs.Packed.{known_of, state_of, state_back};

    ghost view = { λ p. known_of p.state };

    ghost inverse = { λ k. record { state = state_of k } };

    ghost inverse_ok = { λ p h. state_back p };
}

impl PackedKnown {
    /// What is known, packed.
    pub fn of(known: Known) -> PackedKnown
        ensures { result ≡ known }
    {
        PackedKnown {
            state: state_for(known.kind, known.read, known.write),
        }
    }

    /// What is known.
    pub fn known(self) -> Known
        ensures { result ≡ self }
    {
        known_of(self.state)
    }

    /// Whether the same is known; a fast test before two are compared part by part.
    pub fn is_same(self, other: PackedKnown) -> bool
        ensures { result ≡ true → self ≡ other }
    {
        self.state == other.state
    }
}

const _: () = prove!(size_of::<PackedKnown>() == 1);

fn state_for(kind: ValueKind, read: bool, write: bool) -> KnownState
    ensures { result ≡ state_for kind read write }
{
    match kind {
        ValueKind::Number => chosen(
            read,
            write,
            KnownState::Number,
            KnownState::NumberRead,
            KnownState::NumberWrite,
            KnownState::NumberBoth,
        ),
        ValueKind::Truth => chosen(
            read,
            write,
            KnownState::Truth,
            KnownState::TruthRead,
            KnownState::TruthWrite,
            KnownState::TruthBoth,
        ),
        ValueKind::Other => chosen(
            read,
            write,
            KnownState::Other,
            KnownState::OtherRead,
            KnownState::OtherWrite,
            KnownState::OtherBoth,
        ),
        ValueKind::Unknown => chosen(
            read,
            write,
            KnownState::Unknown,
            KnownState::UnknownRead,
            KnownState::UnknownWrite,
            KnownState::UnknownBoth,
        ),
    }
}

/// The state with these facts.
fn chosen(
    read: bool,
    write: bool,
    neither: KnownState,
    by_read: KnownState,
    by_write: KnownState,
    both: KnownState,
) -> KnownState
    ensures { result ≡ chosen read write neither by_read by_write both }
{
    if read {
        if write { both } else { by_read }
    } else if write {
        by_write
    } else {
        neither
    }
}

fn known_of(state: KnownState) -> Known
    ensures { result ≡ known_of state }
{
    match state {
        KnownState::Number => known_with(ValueKind::Number, false, false),
        KnownState::NumberRead => known_with(ValueKind::Number, true, false),
        KnownState::NumberWrite => known_with(ValueKind::Number, false, true),
        KnownState::NumberBoth => known_with(ValueKind::Number, true, true),
        KnownState::Truth => known_with(ValueKind::Truth, false, false),
        KnownState::TruthRead => known_with(ValueKind::Truth, true, false),
        KnownState::TruthWrite => known_with(ValueKind::Truth, false, true),
        KnownState::TruthBoth => known_with(ValueKind::Truth, true, true),
        KnownState::Other => known_with(ValueKind::Other, false, false),
        KnownState::OtherRead => known_with(ValueKind::Other, true, false),
        KnownState::OtherWrite => known_with(ValueKind::Other, false, true),
        KnownState::OtherBoth => known_with(ValueKind::Other, true, true),
        KnownState::Unknown => known_with(ValueKind::Unknown, false, false),
        KnownState::UnknownRead => known_with(ValueKind::Unknown, true, false),
        KnownState::UnknownWrite => known_with(ValueKind::Unknown, false, true),
        KnownState::UnknownBoth => known_with(ValueKind::Unknown, true, true),
    }
}

fn known_with(kind: ValueKind, read: bool, write: bool) -> Known
    ensures { result ≡ record { kind = kind; read = read; write = write } }
{
    Known { kind, read, write }
}
