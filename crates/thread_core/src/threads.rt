//! Threads, with their standing, their asks and their private turns.

ghost use Rattle.std.specs.Prelude.{◌≡◌, ◌↔◌, IsTrue, Some, None, is_some, reverse, IfOk, OnOk, OnErr};
ghost use Rattle.thread_core_state.specs.Stacked.{IsThread};
ghost use Rattle.thread_steps.specs.Next.{standing, is_private, is_shared};
ghost use Rattle.thread_core.specs.Turning.{turn_of, stepped, stepped_in, standing_of, ask_of, awaited_of, awaited_by};
ghost use Rattle.thread_core.specs.Untested.{untested_standing, untested_standing_in, ThreadFinds, StandsAs};

use crate::steps::{context_ask, context_outlook, go_on_in};
use crate::turn::{Outlook, Standing, Turn, Waits};
use guarded_code_threads::Verified;
use lam_asks::Ask;
use lam_bytecode::Code;
use thread_core_state::{Context, LamThread};
use want_of_memory::NoMemory;

/// How a thread stands: ended exactly where it has a result. At an access no rule is tested: it stands shared there also where
/// the rule fails, which no run of guarded code meets. Where an operand of an access is missing, or is no reference, it is
/// stuck.
pub fn standing(thread: &LamThread, code: &Verified) -> Standing
    ensures near { StandsAs code.now thread.now (standing_of result) }
    ensures standing { ThreadFinds code.now thread.now → standing_of result ≡ standing code.now thread.now }
    ensures ended { IsThread thread.now → IsTrue (is_some thread.now.result) ↔ (result ≡ Standing.Ended) }
{
    outlook(thread, code).standing
}

/// What a thread's next ask waits for, where that is not free or lives: the monitor that it is to take, where the acting
/// label is that of the monitor's thing, or the end of the thread that it joins, where the acting label may read what is
/// public. It waits for nobody where it asks anything else, or where the rule fails: the answer is then a refusal.
pub fn waits_for<'a>(thread: &'a LamThread, code: &'a Verified) -> Waits<'a>
    ensures { awaited_by result ≡ awaited_of code.now thread.now }
{
    outlook(thread, code).waits
}

/// How a thread stands, as [`standing`], and what its next ask waits for, as [`waits_for`]: what comes next is read once.
pub fn outlook<'a>(thread: &'a LamThread, code: &'a Verified) -> Outlook<'a>
    ensures near { StandsAs code.now thread.now (standing_of result.standing) }
    ensures standing { ThreadFinds code.now thread.now → standing_of result.standing ≡ standing code.now thread.now }
    ensures ended { IsThread thread.now → IsTrue (is_some thread.now.result) ↔ (result.standing ≡ Standing.Ended) }
    ensures waits { awaited_by result.waits ≡ awaited_of code.now thread.now }
{
    seen_ahead(thread, code.code())
}

fn seen_ahead<'a>(thread: &'a LamThread, code: &'a Code) -> Outlook<'a>
    ensures standing { standing_of result.standing ≡ untested_standing code.now thread.now }
    ensures waits { awaited_by result.waits ≡ awaited_of code.now thread.now }
{
    match thread.top() {
        None => Outlook {
            standing: Standing::Ended,
            waits: Waits::Nobody,
        },
        Some(c) => context_outlook(c, code),
    }
}

fn asked(thread: &LamThread, code: &Code) -> Result<Option<Ask>, NoMemory>
    ensures shared { IfOk result (λ a. standing code.now thread.now ≡ is_shared → a ≡ ask_of code.now thread.now) }
    ensures finds { IfOk result (λ a. ThreadFinds code.now thread.now → a ≡ ask_of code.now thread.now) }
{
    match thread.top() {
        None => Ok(None),
        Some(c) => context_ask(c, code),
    }
}

/// What a thread asks next.
///
/// # Errors
///
/// `NoMemory` where memory is refused.
#[tactic(auto, using(crate::proofs::Cases::shared_asks))]
pub fn ask(thread: &LamThread, code: &Verified) -> Result<Ask, NoMemory>
    requires { standing code.now thread.now ≡ is_shared }
    ensures { IfOk result (λ a. ask_of code.now thread.now ≡ Some a) }
{
    match asked(thread, code.code())? {
        Some(ask) => Ok(ask),
        None => unreachable!(),
    }
}

#[tactic(auto, using(crate::proofs::Tops::standing_top, crate::proofs::Tops::stepped_top, crate::proofs::Tops::kept_top))]
fn go_on_last(contexts: &mut Vec<Context>, code: &Code) -> Result<Standing, NoMemory>
    ensures stands { IfOk result (λ s. standing_of s ≡ untested_standing_in code.now (reverse contexts.old.items)) }
    ensures new { OnOk result (reverse contexts.new.items ≡ stepped_in code.now (reverse contexts.old.items)) }
    ensures err { OnErr result (contexts.new.items ≡ contexts.old.items) }
{
    if contexts.is_empty() {
        return Ok(Standing::Ended);
    }
    let last = contexts.len() - 1;
    let standing = go_on_in(&mut contexts[last], code)?;
    Ok(standing)
}

fn go_on_by(thread: &mut LamThread, code: &Code) -> Result<Standing, NoMemory>
    ensures stands { IfOk result (λ s. standing_of s ≡ untested_standing code.now thread.old) }
    ensures ok { OnOk result (thread.new ≡ stepped code.now thread.old) }
    ensures err { OnErr result (thread.new ≡ thread.old) }
{
    go_on_last(&mut thread.contexts, code)
}

/// Takes the next turn of a thread where it is private, and says how the thread stood before it, as [`standing`] does.
///
/// # Errors
///
/// `NoMemory` where memory is refused; the thread is then as it was.
pub fn go_on(thread: &mut LamThread, code: &Verified) -> Result<Standing, NoMemory>
    ensures near { IfOk result (λ s. StandsAs code.now thread.old (standing_of s)) }
    ensures stands { IfOk result (λ s. ThreadFinds code.now thread.old → standing_of s ≡ standing code.now thread.old) }
    ensures ok { OnOk result (thread.new ≡ stepped code.now thread.old) }
    ensures err { OnErr result (thread.new ≡ thread.old) }
    ensures kept { IsThread thread.old → IsThread thread.new }
{
    go_on_by(thread, code.code())
}

/// The next turn of a thread, which finds a reference that the rule allows where it is an access: a private one is taken, and an
/// ask is handed out.
///
/// # Errors
///
/// `NoMemory` where memory is refused; the thread is then as it was.
pub fn advance(thread: &mut LamThread, code: &Verified) -> Result<Turn, NoMemory>
    requires finds { ThreadFinds code.now thread.old }
    ensures turn { IfOk result (λ t. t ≡ turn_of code.now thread.old) }
    ensures ok { OnOk result (thread.new ≡ stepped code.now thread.old) }
    ensures err { OnErr result (thread.new ≡ thread.old) }
    ensures kept { IsThread thread.old → IsThread thread.new }
{
    match asked(thread, code.code())? {
        Some(ask) => Ok(Turn::Asks(ask)),
        None => advance_alone(thread, code),
    }
}

/// The next turn of a thread that does not ask.
#[tactic(auto, using(crate::proofs::Cases::turn_private, crate::proofs::Cases::turn_stuck, crate::proofs::Cases::turn_ended, crate::proofs::Cases::shared_asks))]
fn advance_alone(thread: &mut LamThread, code: &Verified) -> Result<Turn, NoMemory>
    requires finds { ThreadFinds code.now thread.old }
    requires alone { ask_of code.now thread.old ≡ None }
    ensures turn { IfOk result (λ t. t ≡ turn_of code.now thread.old) }
    ensures ok { OnOk result (thread.new ≡ stepped code.now thread.old) }
    ensures err { OnErr result (thread.new ≡ thread.old) }
    ensures kept { IsThread thread.old → IsThread thread.new }
{
    match go_on(thread, code)? {
        Standing::Private => Ok(Turn::Private),
        Standing::Shared => unreachable!(),
        Standing::Stuck => Ok(Turn::Stuck),
        Standing::Ended => Ok(Turn::Ended),
    }
}

/// A private turn.
///
/// # Errors
///
/// `NoMemory` where memory is refused; the thread is then as it was.
pub fn private_step(thread: &mut LamThread, code: &Verified) -> Result<(), NoMemory>
    requires { standing code.now thread.old ≡ is_private }
    ensures ok { OnOk result (thread.new ≡ stepped code.now thread.old) }
    ensures err { OnErr result (thread.new ≡ thread.old) }
    ensures kept { IsThread thread.old → IsThread thread.new }
{
    let _ = go_on(thread, code)?;
    Ok(())
}
