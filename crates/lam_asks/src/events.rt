//! The dropping of events.

use crate::families::let_go;
use crate::{Event, What};

/// Lets go of what an event tells of.
pub fn let_go_what(what: What) {
    match what {
        What::Private => {}
        What::Asked { ask, answer } => {
            drop(answer);
            let_go(ask);
        }
    }
}

/// Lets an event go.
pub fn let_go_event(event: Event) {
    let Event { label, what, .. } = event;
    drop(label);
    let_go_what(what);
}
