//! The continuation of a walk's frames with a value, a fault or a `return`.
//!
//! A frame that has its value becomes a control again (`values`, `blocks`). A fault and a `return` drop frames down to
//! the next delimiter, the end of a call or of a region (`delimiters`). `uses` calls functions and built-in calls with the values
//! of their arguments.
//!
//! The promise of `walk` (`source_walk`) rests on the one clause each of `give`, `raise`, `leave` and `use_all`: such a
//! step leaves what is asked as it is. Nothing here is a matter of speed.
#![tactic(auto)]

mod blocks;
mod delimiters;
mod uses;
mod values;

pub use delimiters::{leave, raise};
pub use uses::use_all;
pub use values::give;
