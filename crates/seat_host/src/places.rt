//! The law that places of different seats differ.

ghost use Rattle.seat_host.specs.Laws.{PlacesDiffer};

/// At every moment the places of different seats differ, and each seat's places are below the ticket word.
pub fn places_differ()
    ensures { PlacesDiffer }
{}
