//! The hook of the program, and which hooks may wait.

ghost use Rattle.std.specs.Prelude.{◌≡◌, ◌/◌};

use lam_io::Gate;
use std::mem::size_of_val;

/// The program's gate: by turns of 64, as `OpenGate`, and further on for each further worker, so that they spread over the
/// ready threads. It does nothing between.
#[derive(Clone, Copy, Debug)]
pub struct SpreadGate;

impl Gate for SpreadGate {
    fn pick(&self, worker: u64, turn: u64, _ready: &[u32]) -> u64
        ensures { worker ≡ 0 → result ≡ turn / 64 }
    {
        if worker == 0 {
            return turn / 64;
        }
        (turn / 64).saturating_add(worker)
    }

    fn between(&self, _worker: u64, _thread: u32) {}
}

/// Whether a hook may wait between turns for what other workers do. It sees of them what its own calls left in it, so one that
/// holds nothing waits for nobody.
pub fn may_wait<G: Gate>(gate: &G) -> bool {
    size_of_val(gate) > 0
}
