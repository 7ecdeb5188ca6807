//! The type of stretches.

ghost use Rattle.std.specs.Prelude.{◌≡◌, ◌+◌, ◌≤◌, IfOk, OnErr};
ghost use Rattle.thread_core_stretches.specs.Stretches.{StretchStands, begun, goes_further, IsFurther};

use crate::privately::go_privately;
use guarded_code::Verified;
use thread_core::{Standing, go_on};
use thread_core_state::LamThread;
use want_of_memory::NoMemory;

/// The most private turns to which [`Stretch::step`] takes a stretch.
pub const STRETCH_LIMIT: u64 = 64;

/// A thread by its number, what it was when the stretch began, what it is after so many private turns, and how many.
#[derive(Drop)]
pub struct Stretch {
    pub thread: u32,
    pub before: LamThread,
    pub after: LamThread,
    pub count: u64,
}

/// Lets a stretch go.
pub fn let_go_stretch(stretch: Stretch) {
    drop(stretch);
}

impl Stretch {
    /// A stretch of no turn, from copies of a thread. It stands with every code.
    ///
    /// # Errors
    ///
    /// `NoMemory` where memory is refused.
    pub fn begin(thread: u32, at: &LamThread) -> Result<Stretch, NoMemory>
        ensures { IfOk result (λ s. s ≡ begun thread at.now) }
    {
        let before = at.copy()?;
        match at.copy() {
            Ok(after) => Ok(Stretch {
                thread,
                before,
                after,
                count: 0,
            }),
            Err(error) => {
                let_go_thread(before);
                Err(error)
            }
        }
    }

    /// Takes the next turn of the thread, where it is private and the stretch has fewer than [`STRETCH_LIMIT`]; else nothing
    /// changes, and the answer is `false`.
    ///
    /// # Errors
    ///
    /// `NoMemory` where memory is refused; the stretch is then as it was.
    #[tactic(auto, using(crate::proofs::Rows::near_private))]
    pub fn step(&mut self, code: &Verified) -> Result<bool, NoMemory>
        ensures taken { IfOk result (λ b. b ≡ goes_further code.now self.old) }
        ensures ok { IfOk result (λ b. IsFurther code.now self.old b self.new) }
        ensures err { OnErr result (self.new ≡ self.old) }
        ensures stands { StretchStands code.now self.old → StretchStands code.now self.new }
    {
        if self.count >= STRETCH_LIMIT {
            return Ok(false);
        }
        match go_on(&mut self.after, code)? {
            Standing::Private => {
                self.count += 1;
                Ok(true)
            }
            Standing::Shared => Ok(false),
            Standing::Stuck => Ok(false),
            Standing::Ended => Ok(false),
        }
    }

    /// Takes private turns, at most `most` more; the contract leaves open how many.
    ///
    /// # Errors
    ///
    /// `NoMemory` where memory is refused for the first of them; the stretch is then as it was. Where it is refused for a
    /// later one, the stretch stands as far as it came.
    pub fn go_for(&mut self, code: &Verified, most: u64) -> Result<(), NoMemory>
        ensures few { self.new.count ≤ self.old.count + most }
        ensures same { (self.new.thread ≡ self.old.thread) × (self.new.before ≡ self.old.before) }
        ensures stands { StretchStands code.now self.old → StretchStands code.now self.new }
        ensures err { OnErr result (self.new ≡ self.old) }
    {
        let left = u64::MAX - self.count;
        let taken = go_privately(&mut self.after, code, most.min(left))?;
        self.count += taken;
        Ok(())
    }
}

/// Lets a thread go.
fn let_go_thread(thread: LamThread) {
    drop(thread);
}
