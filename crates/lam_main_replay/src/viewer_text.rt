//! The text of a run, kept as its turns are taken.

ghost use Rattle.std.specs.Prelude.{◌≡◌, string_bytes};
ghost use Rattle.lam_main_replay.specs.Asked.{lines_for};

use crate::viewer::{NamedViewer, Viewer};
use audit_log_lines::{
    Keeps, World, audits_leave_private, push_audit, push_view, views_leave_private,
};
use lam_asks::Event;
use std::alloc::Global;
use want_of_memory::NoMemory;

/// A viewer keeps the text that it is shown.
impl Keeps<String> for NamedViewer {
    ghost AreKept = { λ viewer ms text. string_bytes text ≡ lines_for viewer.who viewer.names ms };

    fn keep(
        &self,
        alloc: Global,
        kept: &mut String,
        turn: u64,
        event: Event,
        world: &World,
    ) -> Result<(), NoMemory> {
        match &self.who {
            Viewer::Observer(label) => push_view(alloc, kept, event, world, label, &self.names),
            Viewer::Auditor => push_audit(kept, turn, event, world, &self.names),
        }
    }

    fn leaves_private(&self) {
        views_leave_private();
        audits_leave_private();
    }
}
