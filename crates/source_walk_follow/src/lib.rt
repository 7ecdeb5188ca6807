//! The walk of one thread over its source, turn by turn.
//!
//! A walk begins with the body of the thread's function (`begins`). Between two asks it takes the steps that ask
//! nothing (`steps`), until it stands at an ask, or makes none any more. There it compares the ask that the thread made
//! with the source's (`compares`, `turns`), and takes in the answer that the thread got (`answers`). The first ask that
//! is not the source's ends it. It looks at no code, and deep programs take no machine stack.
//!
//! A [`Follower`] is how far a thread came: the state of its walk, or the place where it departed (`followers`). It
//! keeps nothing of the turns before. [`follow`] takes one along a whole history (`follows`).
//!
//! The promise of `walk` (`source_walk`) rests on `follow_turn`: a turn's ask is compared with the next one of its
//! source. Free to change for speed: how many steps `steps` takes at once.
#![tactic(auto)]

mod answers;
mod begins;
mod compares;
mod followers;
mod follows;
mod steps;
mod turns;

pub use followers::{Follower, begin_following, departure, follow_turn};
pub use follows::follow;
