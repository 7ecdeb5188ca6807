//! Equality of two threads.

ghost use Rattle.std.specs.Prelude.{◌≡◌, ◌↔◌, IsTrue, length};

use crate::contexts::same_contexts;
use crate::outcomes::same_result;
use thread_core_state::LamThread;

/// Whether two threads are equal: all their contexts, with the calls that are open in them, and how they ended, if they
/// did. Takes no memory.
pub fn same_thread(a: &LamThread, b: &LamThread) -> bool
    ensures { IsTrue result ↔ (a.now ≡ b.now) }
{
    same_standing(a, b) && same_end(a, b)
}

fn same_standing(a: &LamThread, b: &LamThread) -> bool
    ensures { IsTrue result ↔ (a.now.contexts ≡ b.now.contexts) }
{
    same_contexts(a.contexts(), b.contexts())
}

fn same_end(a: &LamThread, b: &LamThread) -> bool
    ensures { IsTrue result ↔ (a.now.result ≡ b.now.result) }
{
    same_result(a.result(), b.result())
}

/// Whether two lists have equal threads, place by place.
pub(crate) fn same_threads(a: &[LamThread], b: &[LamThread]) -> bool
    ensures { IsTrue result ↔ (a.now ≡ b.now) }
{
    a.len() == b.len() && begin_alike(a, b)
}

fn begin_alike(a: &[LamThread], b: &[LamThread]) -> bool
    requires { length a.now ≡ length b.now }
    ensures { IsTrue result ↔ (a.now ≡ b.now) }
{
    for at in 0..a.len() {
        if !same_thread(&a[at], &b[at]) {
            return false;
        }
    }
    true
}
