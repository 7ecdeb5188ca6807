//! Worlds of the machine, which are the stores and the threads.
//!
//! A [`World`] is seen as the plain record of `lam_machine_terms`. [`served_of`] serves an ask in a world for the
//! context that makes it. It reads how many threads there are and how another one ended, and leaves the rest to
//! `lam_machine_rows`. It takes the parts of a world, so that a turn can go on to change them.
//!
//! `letting_go` drops worlds, stores and codes.
//!
//! A public promise rests on [`served_of`] and on [`is_ready`]: an ask in a world is served by its row, and waits where
//! the definition says. Free to change for speed: how the parts of a world are held, and how they are dropped.
#![tactic(auto)]

mod facts;
mod letting_go;
mod world;

pub use facts::{acting, is_ready, lives, result_of, served_of};
pub use letting_go::{let_go_code, let_go_stores, let_go_world};
pub use world::World;
