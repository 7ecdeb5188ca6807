//! The operations of a unit that stay, and the new place of each address.

ghost use Rattle.std.specs.Prelude.{◌≡◌, ◌+◌, ◌<◌, ◌^◌, false, get_or, length, IfOk};
ghost use Rattle.thinned_code.specs.Thinned.{moved};
ghost use Rattle.barrier_thin.specs.Addresses.{addresses, counted};

use std::alloc::Global;
use std::marker::Model;
use want_of_memory::NoMemory;

/// Of each operation of a unit whether it stays, with the new address of each address.
#[derive(Drop)]
pub struct Staying {
    stays: Vec<bool>,
    /// As many as there are operations, and that of the unit's end.
    addresses: Vec<u32>,
}

impl Model for Staying {
    ghost use Rattle.std.specs.Prelude.{◌≡◌, ◌<◌, ◌^◌, Bool, List, length};
    ghost use Rattle.barrier_thin.specs.Addresses.{addresses as new_addresses};

    ghost Value = { List Bool };

    ghost view = { λ s. s.stays.items };

    ghost invariant = { λ s. (s.addresses.items ≡ new_addresses s.stays.items) × (length s.stays.items < 2 ^ 32) };
}

impl Staying {
    /// The operations that stay.
    ///
    /// # Errors
    ///
    /// `NoMemory` where memory is refused.
    pub fn of(stays: Vec<bool>) -> Result<Staying, NoMemory>
        requires { length stays.items < 2 ^ 32 }
        ensures { IfOk result (λ s. s ≡ stays.items) }
    {
        let addresses = new_addresses(*stays.allocator(), stays.as_slice())?;
        Ok(Staying { stays, addresses })
    }

    /// Whether the operation at an address stays; there is none past the end.
    pub fn stays(&self, at: usize) -> bool
        ensures { result ≡ get_or self.now at false }
    {
        stays_at(self.stays.as_slice(), at)
    }

    /// Where an address goes.
    pub fn moved(&self, to: u32) -> u32
        ensures { result ≡ moved self.now to }
    {
        moved_to(self.stays.as_slice(), self.addresses.as_slice(), to)
    }
}

fn stays_at(stays: &[bool], at: usize) -> bool
    ensures { result ≡ get_or stays.now at false }
{
    match stays.get(at) {
        Some(stays) => *stays,
        None => false,
    }
}

/// What goes past the end goes to the new end.
#[tactic(auto, using(crate::proofs::Moving::moved_within, crate::proofs::Moving::moved_past, crate::proofs::Moving::addresses_long))]
fn moved_to(stays: &[bool], places: &[u32], to: u32) -> u32
    requires { places.now ≡ addresses stays.now }
    ensures { result ≡ moved stays.now to }
{
    let end = stays.len();
    let place = to as usize;
    if place < end {
        places[place]
    } else {
        places[end]
    }
}

fn counted(stays: bool, kept: u32) -> u32
    requires { kept + 1 < 2 ^ 32 }
    ensures { result ≡ counted stays kept }
{
    if stays { kept + 1 } else { kept }
}

#[tactic(auto, using(crate::proofs::Moving::placed, crate::proofs::Moving::count_low, crate::proofs::Moving::at_the_end))]
fn new_addresses(alloc: Global, stays: &[bool]) -> Result<Vec<u32>, NoMemory>
    requires { length stays.now < 2 ^ 32 }
    ensures { IfOk result (λ v. v.items ≡ addresses stays.now) }
{
    let mut places = Vec::new(alloc);
    let mut kept: u32 = 0;
    for i in 0..stays.len() {
        places.push(kept)?;
        kept = counted(stays[i], kept);
    }
    places.push(kept)?;
    Ok(places)
}
