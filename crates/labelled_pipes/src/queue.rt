//! The queue of one pipe's waiting messages, first in, first out.

ghost use Rattle.std.specs.Prelude.{◌≡◌, ◌↔◌, IsTrue, length, [], IfOk, OnOk, OnErr};
ghost use Rattle.std.specs.Option.{option_copied};
ghost use Rattle.labelled_pipes.specs.Messages.{joined, front_of, rest_of};

use crate::message::{Message, MessageKind};
use lam_value::NoMemory;
use std::alloc::Global;
use std::collections::VecDeque;
use std::marker::Model;

/// The number of messages that may wait in one pipe.
pub const QUEUE_LIMIT: u64 = 1024;

/// The messages that wait in one pipe, seen as a list, the front first.
#[derive(Drop)]
pub struct Queue {
    messages: VecDeque<Message>,
}

impl Model for Queue {
    ghost use Rattle.std.specs.Prelude.{List};
    ghost use Rattle.std.specs.Coded.{coded_list};
    ghost use Rattle.labelled_pipes.specs.declared.message.Message.{Message as Item};
    ghost use Rattle.labelled_pipes.specs.contracts.message.Message as item;

    ghost Value = { List Item };

    ghost coded = { coded_list item.the_row.coded };

    ghost view = { λ q. q.messages.items };
}

impl Queue {
    /// Nothing waits.
    pub fn new(alloc: Global) -> Queue
        ensures { result ≡ [] }
    {
        Queue {
            messages: VecDeque::new(alloc),
        }
    }

    /// Puts a message at the end. Where the queue is full it is dropped.
    ///
    /// # Errors
    ///
    /// `NoMemory` where memory is refused; the queue is then as it was.
    pub fn join(&mut self, message: Message) -> Result<(), NoMemory>
        ensures ok { OnOk result (self.new ≡ joined message self.old) }
        ensures err { OnErr result (self.new ≡ self.old) }
    {
        put_last(&mut self.messages, message)
    }

    /// The front message where it is of this kind.
    pub fn front(&self, kind: MessageKind) -> Option<&Message>
        ensures { option_copied result ≡ front_of kind self.now }
    {
        first(&self.messages, kind)
    }

    /// Takes the front message where it is of this kind. Else the answer is `None`, and nothing changes.
    pub fn take(&mut self, kind: MessageKind) -> Option<Message>
        ensures value { result ≡ front_of kind self.old }
        ensures new { self.new ≡ rest_of kind self.old }
    {
        take_first(&mut self.messages, kind)
    }

    /// Whether the same messages wait in two queues.
    pub fn same(&self, other: &Queue) -> bool
        ensures { IsTrue result ↔ (self.now ≡ other.now) }
    {
        same_messages(&self.messages, &other.messages)
    }

    /// An equal queue.
    ///
    /// # Errors
    ///
    /// `NoMemory` where memory is refused.
    pub fn copy(&self) -> Result<Queue, NoMemory>
        ensures { IfOk result (λ q. q ≡ self.now) }
    {
        let messages = copied(&self.messages)?;
        Ok(Queue { messages })
    }
}

fn put_last(messages: &mut VecDeque<Message>, message: Message) -> Result<(), NoMemory>
    ensures ok { OnOk result (messages.new.items ≡ joined message messages.old.items) }
    ensures err { OnErr result (messages.new.items ≡ messages.old.items) }
{
    if (messages.len() as u64) < QUEUE_LIMIT {
        messages.push_back(message)?;
    }
    Ok(())
}

fn first(messages: &VecDeque<Message>, kind: MessageKind) -> Option<&Message>
    ensures { option_copied result ≡ front_of kind messages.now.items }
{
    match messages.front() {
        Some(message) if message.kind() == kind => Some(message),
        _ => None,
    }
}

fn take_first(messages: &mut VecDeque<Message>, kind: MessageKind) -> Option<Message>
    ensures value { result ≡ front_of kind messages.old.items }
    ensures new { messages.new.items ≡ rest_of kind messages.old.items }
{
    if first(messages, kind).is_none() {
        return None;
    }
    messages.pop_front()
}

fn same_messages(a: &VecDeque<Message>, b: &VecDeque<Message>) -> bool
    ensures { IsTrue result ↔ (a.now.items ≡ b.now.items) }
{
    a.len() == b.len() && begin_alike(a, b)
}

/// Whether the first messages of a queue are those of another one that is as long.
fn begin_alike(a: &VecDeque<Message>, b: &VecDeque<Message>) -> bool
    requires { length a.now.items ≡ length b.now.items }
    ensures { IsTrue result ↔ (a.now.items ≡ b.now.items) }
{
    for at in 0..a.len() {
        if !a[at].same(&b[at]) {
            return false;
        }
    }
    true
}

fn copied(messages: &VecDeque<Message>) -> Result<VecDeque<Message>, NoMemory>
    ensures { IfOk result (λ q. q.items ≡ messages.now.items) }
{
    let mut out = VecDeque::with_capacity(*messages.allocator(), messages.len())?;
    for message in messages.iter() {
        out.push_back(message.copy()?)?;
    }
    Ok(out)
}
