//! The dropping of worlds and codes.
//!
//! A world holds the stores and the threads of a run. A function that drops one in place has the drop of each of their
//! parts in it, once for each place. That is the longest part of its proof. So callers pass worlds that they are done
//! with, and their codes, to this module, where the drop is proved once.

use crate::world::World;
use lam_bytecode::Code;
use lam_machine_rows::Stores;

/// Lets a world go.
pub fn let_go_world(world: World) {
    drop(world);
}

/// Lets stores go, in which no thread stands yet.
pub fn let_go_stores(stores: Stores) {
    drop(stores);
}

/// Lets a code go.
pub fn let_go_code(code: Code) {
    drop(code);
}
