//! The report of a command that prints its text.

ghost use Rattle.std.specs.Prelude.{◌≡◌};
ghost use Rattle.lam_main_replay.specs.Halts.{done};

use crate::halt::Halt;
use lam_machine_runs::How;

/// The text of a command, and how the run ended that it is of.
#[derive(Drop)]
pub struct Report {
    /// How the run ended: `Done` of a command that starts no thread.
    pub how: How,
    /// What is printed.
    pub text: String,
}

/// The report of a command that starts no thread.
pub fn done(answer: Result<String, Halt>) -> Result<Report, Halt>
    ensures { result ≡ done answer }
{
    match answer {
        Ok(text) => Ok(Report {
            how: How::Done,
            text,
        }),
        Err(halt) => Err(halt),
    }
}
