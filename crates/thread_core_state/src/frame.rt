//! Suspended calls, which wait for another one.

ghost use Rattle.std.specs.Prelude.{◌≡◌, ◌↔◌, IsTrue, IfOk};

use crate::operands::Operands;
use std::alloc::Global;
use std::marker::Model;
use thread_steps::Values;
use want_of_memory::NoMemory;

/// A call that is open and waits: where it goes on in which unit, its locals and its operands.
#[derive(Drop)]
pub struct Frame {
    pub unit: usize,
    pub at: usize,
    pub locals: Values,
    pub stack: Operands,
}

impl Model for Frame {
    ghost use Rattle.thread_steps.specs.Threads.{Frame as Plain};
    ghost use Rattle.thread_core_state.specs.Coding.{coded_frame};

    ghost Value = { Plain };

    ghost coded = { coded_frame };

    ghost view = { λ f. record { unit = f.unit; at = f.at; locals = f.locals; stack = f.stack } };
}

impl Frame {
    /// An equal frame.
    ///
    /// # Errors
    ///
    /// `NoMemory` where memory is refused.
    pub fn copy(&self) -> Result<Frame, NoMemory>
        ensures { IfOk result (λ f. f ≡ self.now) }
    {
        let locals = self.locals.copy()?;
        let stack = self.stack.copy()?;
        Ok(Frame {
            unit: self.unit,
            at: self.at,
            locals,
            stack,
        })
    }

    /// Whether two frames are equal.
    pub fn same(&self, other: &Frame) -> bool
        ensures { IsTrue result ↔ (self.now ≡ other.now) }
    {
        self.unit == other.unit
            && self.at == other.at
            && self.locals.same(&other.locals)
            && self.stack.same(&other.stack)
    }
}
