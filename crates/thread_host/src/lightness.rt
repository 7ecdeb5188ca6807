//! Light threads, which cost little to copy.
//!
//! Copying such a thread, and comparing the copy with it, costs little beside the private turns that are taken of the
//! copy. Turns of other threads are taken under the lock, one at a time. It is a matter of speed alone, so no clause
//! speaks of it.

use lam_value::Value;
use thread_core_state::{Context, Frame, LamThread, Operands};

/// The most contexts of a light thread, and the most calls that wait in one of them.
const MOST_CALLS: usize = 4;

/// The most locals of a call, operands of a call and monitors of a context.
const MOST_VALUES: usize = 32;

/// The most bytes of a value.
const MOST_BYTES: usize = 1024;

/// Whether a thread is light.
pub fn is_light(thread: &LamThread) -> bool {
    let contexts = thread.contexts();
    contexts.len() <= MOST_CALLS && contexts.iter().all(|context| is_light_context(context))
}

fn is_light_context(context: &Context) -> bool {
    context.held.len() <= MOST_VALUES
        && context.callers.len() <= MOST_CALLS
        && are_light(context.locals.as_slice())
        && are_light_operands(&context.stack)
        && context.callers.iter().all(|frame| is_light_frame(frame))
}

fn is_light_frame(frame: &Frame) -> bool {
    are_light(frame.locals.as_slice()) && are_light_operands(&frame.stack)
}

fn are_light_operands(stack: &Operands) -> bool {
    match stack.last_many(stack.len()) {
        None => false,
        Some(values) => are_light(values),
    }
}

fn are_light(values: &[Value]) -> bool {
    values.len() <= MOST_VALUES && values.iter().all(|value| is_light_value(value))
}

fn is_light_value(value: &Value) -> bool {
    match value {
        Value::Bytes(text) => text.bytes().len() <= MOST_BYTES,
        _ => true,
    }
}
