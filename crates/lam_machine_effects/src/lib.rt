//! The stores of a world, and services, the monitor's answers with their effects.
//!
//! A service is data. The monitor makes one by reading alone, so nothing has changed until [`apply`] is called with the
//! service's effect. That changes one store in one call, or nothing where memory is refused. So a turn of the machine
//! can prepare the acting thread first, and apply the effect last.
//!
//! - `stores`: one of each store, which the threads of the machine share, with its copy.
//! - `served`: services, and short ways to write them.
//! - `effect`: effects, made of what an ask names.
//! - `application`: their application.
//!
//! A world is its stores and its threads (`specs/Parts`). `specs/Meaning` says what services mean: an effect is one of
//! the definitions', and `effect_of` there says what it does.
//!
//! A public promise rests on [`apply`] (clauses `ok`, `err`): the stores change by exactly the effect, or not at all.
//! Free to change for speed: how an effect is applied.
#![tactic(auto)]

mod application;
mod effect;
mod served;
mod stores;

pub use application::apply;
pub use effect::Effect;
pub use lam_value::TAG_LIMIT;
pub use served::Served;
pub use stores::{Stores, THREAD_LIMIT};
