//! The type of threads.

ghost use Rattle.std.specs.Prelude.{◌≡◌, IfOk, [], None, Some, reverse, length, slice_get};
ghost use Rattle.std.specs.Option.{option_copied};
ghost use Rattle.thread_steps.specs.Next.{started, locals_in};
ghost use Rattle.thread_core_state.specs.Stacked.{IsThread};
ghost use Rattle.thread_steps.specs.Flow.{public_label};
ghost use Rattle.thread_core_state.specs.Seen.{context_of, frame_of};

use crate::context::Context;
use crate::operands::{Operands, filled};
use crate::phase::Phase;
use std::alloc::Global;
use std::marker::Model;
use thread_steps::{Caps, Code, Label, Outcome, Values};
use want_of_memory::NoMemory;

/// A thread: its contexts, and how it ended, if it did.
#[derive(Drop)]
pub struct LamThread {
    /// The acting one stands last.
    pub contexts: Vec<Context>,
    pub result: Option<Outcome>,
}

impl Model for LamThread {
    ghost use Rattle.thread_steps.specs.Threads.{Thread as Plain};
    ghost use Rattle.thread_core_state.specs.Coding.{coded_thread};

    ghost Value = { Plain };

    ghost coded = { coded_thread };

    ghost use Rattle.thread_core_state.specs.Seen.{thread_of};

    ghost view = { λ t. thread_of t.contexts.items t.result };
}

impl LamThread {
    /// A thread at the entry of a unit: at the public label, with these capabilities and arguments.
    ///
    /// # Errors
    ///
    /// `NoMemory` where memory is refused.
    pub fn start(
        alloc: Global,
        code: &Code,
        unit: u32,
        args: Values,
        caps: Caps,
    ) -> Result<LamThread, NoMemory>
        ensures started { IfOk result (λ t. t ≡ started code.now unit args caps) }
        ensures kept { IfOk result (λ t. IsThread t) }
    {
        let locals = filled(alloc, args.as_slice(), locals_of(code, unit as usize))?;
        let mut contexts = Vec::with_capacity(alloc, 1)?;
        contexts.push(first_context(alloc, unit as usize, locals, caps))?;
        Ok(LamThread {
            contexts,
            result: None,
        })
    }

    /// A thread that ended so. Takes no memory.
    pub fn ended(alloc: Global, outcome: Outcome) -> LamThread
        ensures contexts { result.contexts ≡ [] }
        ensures result { result.result ≡ Some outcome }
        ensures kept { IsThread result }
    {
        LamThread {
            contexts: Vec::new(alloc),
            result: Some(outcome),
        }
    }

    /// The acting context, or `None` where the thread has ended.
    pub fn top(&self) -> Option<&Context>
        ensures { option_copied result ≡ slice_get self.now.contexts 0 }
    {
        last_context(self.contexts.as_slice())
    }

    /// The contexts, the acting one last.
    pub fn contexts(&self) -> &[Context]
        ensures { result.now ≡ reverse self.now.contexts }
    {
        self.contexts.as_slice()
    }

    /// How many contexts there are.
    pub fn count(&self) -> usize
        ensures { result ≡ length self.now.contexts }
    {
        self.contexts.len()
    }

    /// How the thread ended, or `None` where it has not.
    pub fn result(&self) -> Option<&Outcome>
        ensures { option_copied result ≡ self.now.result }
    {
        self.result.as_ref()
    }

    /// An equal thread.
    ///
    /// # Errors
    ///
    /// `NoMemory` where memory is refused.
    pub fn copy(&self) -> Result<LamThread, NoMemory>
        ensures { IfOk result (λ t. t ≡ self.now) }
    {
        let contexts = copied_contexts(*self.contexts.allocator(), self.contexts.as_slice())?;
        let result = copied_outcome(self.result.as_ref())?;
        Ok(LamThread { contexts, result })
    }
}

/// How many locals a unit has, 0 where there is no such unit.
pub fn locals_of(code: &Code, unit: usize) -> usize
    ensures { result ≡ locals_in (slice_get code.now.units unit) }
{
    match code.units().get(unit) {
        None => 0,
        Some(unit) => unit.locals as usize,
    }
}

fn first_context(alloc: Global, unit: usize, locals: Values, caps: Caps) -> Context
    ensures { result ≡ context_of public_label caps 0 Phase.Bottom [] (frame_of unit 0 locals []) [] None }
{
    Context {
        label: Label::public(alloc),
        caps,
        depth: 0,
        phase: Phase::Bottom,
        held: Vec::new(alloc),
        unit,
        at: 0,
        locals,
        stack: Operands::new(alloc),
        callers: Vec::new(alloc),
        fault: None,
    }
}

fn last_context(contexts: &[Context]) -> Option<&Context>
    ensures { option_copied result ≡ slice_get (reverse contexts.now) 0 }
{
    contexts.last()
}

fn copied_contexts(alloc: Global, contexts: &[Context]) -> Result<Vec<Context>, NoMemory>
    ensures { IfOk result (λ v. v.items ≡ contexts.now) }
{
    let mut out = Vec::with_capacity(alloc, contexts.len())?;
    for context in contexts {
        out.push(context.copy()?)?;
    }
    Ok(out)
}

fn copied_outcome(outcome: Option<&Outcome>) -> Result<Option<Outcome>, NoMemory>
    ensures { IfOk result (λ o. o ≡ option_copied outcome.entry) }
{
    match outcome {
        None => Ok(None),
        Some(outcome) => Ok(Some(outcome.copy()?)),
    }
}
