//! Descriptions of one address of a unit, with their transfer and meet.
//!
//! A verifier keeps such a description for each address that a path reaches, so a local takes one byte in it.
//!
//! - `packed`: what is known of a local, in a byte.
//! - `changes`: the table of what each operation takes and gives.
//! - `description`: a description, and what an operation leaves of it.
//! - `current`: a description that operations change in place.
//! - `joins`: what two paths leave where they meet.
//! - `kinds`: whether an operation finds operands that it takes, and an access a tested reference.
//!
//! `guarded_code` defines all of it; this crate computes it.
//!
//! No public promise rests on it directly: `code_verify`'s does. Free to change for speed: how knowledge is packed, and
//! how a description is changed in place.
#![tactic(auto)]

mod changes;
mod current;
mod description;
mod joins;
mod kinds;
mod packed;
mod places;
mod transfer;

pub use changes::change_of;
pub use current::Current;
pub use description::Description;
pub use kinds::{is_guarded, takes_kinds, tests_again};
pub use packed::PackedKnown;
pub use places::{FewPlaces, OpChange, Place, Places};
pub use transfer::{fresh, untested};
