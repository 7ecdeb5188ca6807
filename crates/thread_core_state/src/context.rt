//! The security contexts of a thread.

ghost use Rattle.std.specs.Prelude.{◌≡◌, IfOk, reverse};
ghost use Rattle.thread_core_state.specs.Seen.{phase_of};

use crate::frame::Frame;
use crate::operands::Operands;
use crate::phase::Phase;
use std::alloc::Global;
use std::marker::Model;
use thread_steps::{Caps, Fault, Label, Name, Values, same};
use want_of_memory::NoMemory;

/// What one region of a thread works with: its label and capabilities, how deep it stands, what it is, the monitors
/// that it took, its acting call, the calls that wait, and a fault that was raised and is not handled yet.
#[derive(Drop)]
pub struct Context {
    pub label: Label,
    pub caps: Caps,
    pub depth: u32,
    pub phase: Phase,
    /// The last one taken stands last, each as often as it was taken.
    pub held: Vec<Name>,
    pub unit: usize,
    pub at: usize,
    pub locals: Values,
    pub stack: Operands,
    /// The inmost stands last.
    pub callers: Vec<Frame>,
    pub fault: Option<Fault>,
}

impl Model for Context {
    ghost use Rattle.thread_steps.specs.Threads.{Context as Plain};
    ghost use Rattle.thread_core_state.specs.Coding.{coded_context};

    ghost Value = { Plain };

    ghost coded = { coded_context };

    ghost use Rattle.thread_core_state.specs.Seen.{context_of, frame_of};

    ghost view = { λ c. context_of c.label c.caps c.depth c.phase c.held.items (frame_of c.unit c.at c.locals c.stack) c.callers.items c.fault };
}

impl Context {
    /// The label at which it acts.
    pub fn label(&self) -> &Label
        ensures { result.now ≡ self.now.label }
    {
        &self.label
    }

    /// Its capabilities.
    pub fn caps(&self) -> &Caps
        ensures { result.now ≡ self.now.caps }
    {
        &self.caps
    }

    /// How many regions it stands in.
    pub fn depth(&self) -> u32
        ensures { result ≡ self.now.depth }
    {
        self.depth
    }

    /// What it is.
    pub fn phase(&self) -> Phase
        ensures { phase_of result ≡ self.now.phase }
    {
        self.phase
    }

    /// The monitors that it took, the last one last.
    pub fn held(&self) -> &[Name]
        ensures { result.now ≡ reverse self.now.held }
    {
        self.held.as_slice()
    }

    /// An equal context.
    ///
    /// # Errors
    ///
    /// `NoMemory` where memory is refused.
    pub fn copy(&self) -> Result<Context, NoMemory>
        ensures { IfOk result (λ c. c ≡ self.now) }
    {
        let label = self.label.copy()?;
        let caps = self.caps.copy()?;
        let held = copied_names(*self.held.allocator(), self.held.as_slice())?;
        let locals = self.locals.copy()?;
        let stack = self.stack.copy()?;
        let callers = copied_frames(*self.callers.allocator(), self.callers.as_slice())?;
        Ok(Context {
            label,
            caps,
            depth: self.depth,
            phase: self.phase,
            held,
            unit: self.unit,
            at: self.at,
            locals,
            stack,
            callers,
            fault: self.fault,
        })
    }
}

fn copied_names(alloc: Global, names: &[Name]) -> Result<Vec<Name>, NoMemory>
    ensures { IfOk result (λ v. v.items ≡ names.now) }
{
    let mut out = Vec::with_capacity(alloc, names.len())?;
    for name in names {
        out.push(name.copy()?)?;
    }
    Ok(out)
}

fn copied_frames(alloc: Global, frames: &[Frame]) -> Result<Vec<Frame>, NoMemory>
    ensures { IfOk result (λ v. v.items ≡ frames.now) }
{
    let mut out = Vec::with_capacity(alloc, frames.len())?;
    for frame in frames {
        out.push(frame.copy()?)?;
    }
    Ok(out)
}
