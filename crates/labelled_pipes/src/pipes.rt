//! Pipes by name, with a counter for each home.
//!
//! The waiting messages of all pipes are one finite map from names. New pipes are numbered per home (the maker's label
//! and the pipe's own) and never globally, so that a name tells of no other label.

ghost use Rattle.std.specs.Prelude.{◌≡◌, ◌≤◌, ◌<◌, ◌↔◌, IsTrue, IsOk, IfOk, OnOk, OnErr, IfNone, IsErrOf, [], cond, Some};
ghost use Rattle.std.specs.Option.{option_copied};
ghost use Rattle.std.specs.FinMap as map;
ghost use Rattle.std.specs.HashMap.{get as at_key};
ghost use Rattle.lam_value.specs.Homes as homes;
ghost use Rattle.lam_value.specs.Homes.{home_of, name_of, count_in, counted};
ghost use Rattle.lam_value.specs.declared.names.Name.{Name};
ghost use Rattle.lam_value.specs.Names.{name_eq};
ghost use Rattle.labelled_pipes.specs.Messages.{joined, front_of, rest_of};
ghost use Rattle.labelled_pipes.specs.Queues.{no_pipes, waiting_at, with_pipe, with_sent, with_received, most_pipes, IsSound, AreSeenAlike};
ghost use Rattle.labelled_pipes.specs.declared.pipes.PipeFault.TheVariants.{NoMemory as no_memory};

use crate::message::{Message, MessageKind};
use crate::queue::Queue;
use indexmap::IndexMap;
use lam_value::{Counters, Label, Name, NoMemory, Same, Whole, same_maps};
use std::alloc::{AllocError, AllocFailed, Global};
use std::marker::Model;

/// The number of pipes that one home may make.
pub const HOME_LIMIT: u64 = 4096;

/// Why no pipe is made. The pipes are then as they were.
#[derive(Clone, Copy, Debug, PartialEq, Eq)]
pub enum PipeFault {
    /// The home has made 4,096 pipes.
    HomeFull,
    /// Memory ran out.
    NoMemory,
}

impl From<NoMemory> for PipeFault {
    ghost from_gives = { λ _ e. e ≡ no_memory };

    fn from(_e: NoMemory) -> PipeFault {
        PipeFault::NoMemory
    }
}

impl From<AllocError> for PipeFault {
    ghost from_gives = { λ _ e. e ≡ no_memory };

    fn from(_e: AllocError) -> PipeFault {
        PipeFault::NoMemory
    }
}

impl<T: Drop> From<AllocFailed<T>> for PipeFault {
    ghost from_gives = { λ _ e. e ≡ no_memory };

    fn from(_e: AllocFailed<T>) -> PipeFault {
        PipeFault::NoMemory
    }
}

/// Pipes by name, with a counter for each home.
///
/// A pipe lives from its making on; a call with a name that does not live changes nothing.
#[derive(Drop)]
pub struct Pipes {
    queues: IndexMap<Name, Queue>,
    counters: Counters,
}

impl Model for Pipes {
    ghost use Rattle.labelled_pipes.specs.Queues.{Queues, coded_queues, IsSound};

    ghost Value = { Queues };

    ghost coded = { coded_queues };

    ghost use Rattle.labelled_pipes.specs.Seen.{queues_of};

    ghost view = { λ p. queues_of p.queues.entries p.counters };

    ghost invariant = { λ p. IsSound (queues_of p.queues.entries p.counters) };
}

impl Pipes {
    /// No pipe lives.
    pub fn new(alloc: Global) -> Pipes
        ensures { result ≡ no_pipes }
    {
        Pipes {
            queues: IndexMap::new(alloc),
            counters: Counters::new(alloc),
        }
    }

    /// Whether a pipe of this name lives.
    pub fn lives(&self, p: &Name) -> bool
        ensures { result ≡ map.contains_key self.now.waiting p.now }
    {
        self.queues.contains_key(p)
    }

    /// The number that the next pipe of a home gets: how many it has made, at most `HOME_LIMIT`.
    pub fn next(&self, maker: &Label, own: &Label) -> u64
        ensures value { result ≡ count_in self.now.counts (home_of maker.now own.now) }
        ensures bound { result ≤ most_pipes }
    {
        self.counters.next(maker, own)
    }

    /// Makes a pipe of a home, at the home's next number. Nothing waits in it.
    ///
    /// # Errors
    ///
    /// `HomeFull` exactly where the home has made 4,096 pipes, and `NoMemory` where memory is refused.
    pub fn make(&mut self, maker: &Label, own: &Label) -> Result<Name, PipeFault>
        ensures name { IfOk result (λ n. n ≡ name_of (home_of maker.now own.now) (count_in self.old.counts (home_of maker.now own.now))) }
        ensures ok { OnOk result (self.new ≡ with_pipe self.old (home_of maker.now own.now)) }
        ensures err { OnErr result (self.new ≡ self.old) }
        ensures full { IsErrOf result PipeFault.HomeFull ↔ (count_in self.old.counts (home_of maker.now own.now) ≡ most_pipes) }
    {
        let number = self.next(maker, own);
        if number == HOME_LIMIT {
            return Err(PipeFault::HomeFull);
        }
        let name = add_pipe(&mut self.queues, &mut self.counters, maker, own, number)?;
        Ok(name)
    }

    /// Sends a message: it joins the end of the pipe where fewer than 1,024 messages wait there. In a full
    /// pipe, or where the pipe does not live, it is dropped, nothing changes and nobody is told.
    ///
    /// # Errors
    ///
    /// `NoMemory` where memory is refused; the pipes are then as they were.
    pub fn send(&mut self, p: &Name, m: Message) -> Result<(), NoMemory>
        ensures ok { OnOk result (self.new ≡ with_sent self.old p.now m) }
        ensures err { OnErr result (self.new ≡ self.old) }
    {
        match self.queues.get_mut(p) {
            None => return nothing_sent(m),
            Some(queue) => return join_queue(queue, m),
        }
    }

    /// Takes the front message of a pipe where it is of this kind.
    ///
    /// `None` exactly where nothing waits, the front is of the other kind or the pipe does not live, and
    /// then nothing changes.
    pub fn receive(&mut self, p: &Name, kind: MessageKind) -> Option<Message>
        ensures value { result ≡ front_of kind (waiting_at self.old p.now) }
        ensures new { self.new ≡ with_received self.old p.now kind }
        ensures none { IfNone result (self.new ≡ self.old) }
    {
        match self.queues.get_mut(p) {
            None => return None,
            Some(queue) => return take_from(queue, kind),
        }
    }

    /// What `receive` would give, left in its place.
    pub fn front(&self, p: &Name, kind: MessageKind) -> Option<&Message>
        ensures { option_copied result ≡ front_of kind (waiting_at self.now p.now) }
    {
        match self.queues.get(p) {
            None => None,
            Some(queue) => front_in(queue, kind),
        }
    }

    /// Whether two have equal pipes and counters.
    pub fn same(&self, other: &Pipes) -> bool
        ensures { IsTrue result ↔ (self.now ≡ other.now) }
    {
        self.counters.same(&other.counters)
            && same_maps::<_, _, Whole>(&self.queues, &other.queues, None)
    }

    /// Whether the same messages wait in each pipe whose label flows to the observer's.
    pub fn same_seen(&self, other: &Pipes, observer: &Label) -> bool
        ensures { IsTrue result ↔ AreSeenAlike observer.now self.now other.now }
    {
        same_maps::<_, _, Whole>(&self.queues, &other.queues, Some(observer))
    }

    /// Whether two have equal counters at each home whose maker's label flows to the observer's.
    pub fn same_counters(&self, other: &Pipes, observer: &Label) -> bool
        ensures { IsTrue result ↔ homes.AreSeenAlike observer.now self.now.counts other.now.counts }
    {
        self.counters.same_seen(&other.counters, observer)
    }

    /// What holds of all pipes. The call does nothing: its clause is for its caller's proof.
    pub fn facts(&self)
        ensures { IsSound self.now }
    {
        let _ = &self.queues;
    }

    /// What holds of the counters. The call does nothing: its clause is for its caller's proof.
    pub fn counter_facts(&self)
        ensures { homes.IsAboveZero self.now.counts }
    {
        self.counters.facts();
    }

    /// Equal pipes.
    ///
    /// # Errors
    ///
    /// `NoMemory` where memory is refused.
    pub fn copy(&self) -> Result<Pipes, NoMemory>
        ensures { IfOk result (λ p. p ≡ self.now) }
    {
        let queues = copied(&self.queues)?;
        let counters = self.counters.copy()?;
        Ok(Pipes { queues, counters })
    }
}

impl Same<Whole> for Queue {
    ghost IsSame = { λ x y. x ≡ y };

    fn same(&self, other: &Queue) -> bool {
        Queue::same(self, other)
    }
}

/// Lets a message go that has no pipe.
fn nothing_sent(_m: Message) -> Result<(), NoMemory>
    ensures { IsOk result }
{
    Ok(())
}

fn join_queue(queue: &mut Queue, m: Message) -> Result<(), NoMemory>
    ensures ok { OnOk result (queue.new ≡ joined m queue.old) }
    ensures err { OnErr result (queue.new ≡ queue.old) }
{
    queue.join(m)
}

fn take_from(queue: &mut Queue, kind: MessageKind) -> Option<Message>
    ensures value { result ≡ front_of kind queue.old }
    ensures new { queue.new ≡ rest_of kind queue.old }
{
    queue.take(kind)
}

fn front_in(queue: &Queue, kind: MessageKind) -> Option<&Message>
    ensures { option_copied result ≡ front_of kind queue.now }
{
    queue.front(kind)
}

/// Gives an empty queue the next name of a home. The last step that can fail is the counter's, and what
/// comes after it has its room.
fn add_pipe(
    queues: &mut IndexMap<Name, Queue>,
    counters: &mut Counters,
    maker: &Label,
    own: &Label,
    number: u64,
) -> Result<Name, NoMemory>
    requires next { number ≡ count_in counters.old (home_of maker.now own.now) }
    requires room { number < most_pipes }
    ensures name { IfOk result (λ n. n ≡ name_of (home_of maker.now own.now) number) }
    ensures queues { OnOk result ((q : Name) → at_key name_eq queues.new q ≡ cond (name_eq (name_of (home_of maker.now own.now) number) q) (Some []) (at_key name_eq queues.old q)) }
    ensures counters { OnOk result (counters.new ≡ counted counters.old (home_of maker.now own.now)) }
    ensures same_queues { OnErr result ((q : Name) → at_key name_eq queues.new q ≡ at_key name_eq queues.old q) }
    ensures same_counters { OnErr result (counters.new ≡ counters.old) }
{
    let name = Name::of(maker, own, number)?;
    let key = name.copy()?;
    queues.reserve(1)?;
    counters.draw(maker, own, number)?;
    let Ok(_) = queues.insert(key, Queue::new(own.allocator())) else {
        unreachable!()
    };
    Ok(name)
}

fn copied(queues: &IndexMap<Name, Queue>) -> Result<IndexMap<Name, Queue>, NoMemory>
    ensures { IfOk result (λ new. (q : Name) → at_key name_eq new q ≡ at_key name_eq queues.now q) }
{
    let mut copy = IndexMap::new(*queues.allocator());
    for at in 0..queues.len() {
        let Some((name, queue)) = queues.get_index(at) else {
            unreachable!()
        };
        copy.insert(name.copy()?, queue.copy()?)?;
    }
    Ok(copy)
}
