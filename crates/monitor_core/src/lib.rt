//! Reentrant monitors of objects and arrays.
//!
//! Every object and array has a monitor. A thread that holds one may take it again, and holds it until it has left as
//! often as it entered. To every other thread it is taken. Contracts see the monitors as a finite map from names to
//! holders, in which a name stands exactly while its monitor is held.
//!
//! Nothing here looks at labels: the machine above lets a thread at a monitor only where its label and the thing's are
//! equal. Functions without a `Result` allocate nothing. A call looks one name up in constant time, whatever the number
//! of monitors; `drop_all` does so for each name that it is given. `holder` alone answers all questions before an
//! entry: who holds a monitor, and how often.
//!
//! The promises about runs rest on `enter`, `leave`, `drop_all` and `holder`: what each call gives and leaves. Free
//! to change for speed: the map of holders.
#![tactic(auto)]

ghost use Rattle.std.specs.Prelude.{◌≡◌, ◌<◌, ◌↔◌, IsTrue, IfOk, OnOk, OnErr, Some, cond};
ghost use Rattle.std.specs.FinMap as map;
ghost use Rattle.std.specs.HashMap.{get as at_key};
ghost use Rattle.lam_value.specs.declared.names.Name.{Name};
ghost use Rattle.lam_value.specs.Names.{name_eq};
ghost use Rattle.monitor_core.specs.Held.{is_free, count_of, takings, once_more, entered, left, dropped, lowered, one_less, most_takings, IsSound, AreSeenAlike};

use indexmap::IndexMap;
use lam_value::{Label, Name, NoMemory, Same, Whole, same_maps};
use std::alloc::Global;
use std::marker::Model;

/// How often one thread may hold one monitor.
pub const TAKINGS_LIMIT: u64 = 1_048_576;

/// Who holds a monitor, and how often: once more for each entry, once less for each exit.
#[derive(Clone, Copy, Debug, PartialEq, Eq)]
pub struct Holder {
    pub thread: u32,
    pub count: u64,
}

/// The monitors that are held, by the names of their things.
#[derive(Drop)]
pub struct Monitors {
    holders: IndexMap<Name, Holder>,
}

impl Model for Monitors {
    ghost use Rattle.monitor_core.specs.Held.{Held, coded_held, held_in, IsSound};

    ghost Value = { Held };

    ghost coded = { coded_held };

    ghost view = { λ m. held_in m.holders.entries };

    ghost invariant = { λ m. IsSound (held_in m.holders.entries) };
}

impl Monitors {
    /// No monitor is held.
    pub fn new(alloc: Global) -> Monitors
        ensures { result ≡ map.empty }
    {
        Monitors {
            holders: IndexMap::new(alloc),
        }
    }

    /// Who holds a monitor and how often, or `None` where nobody does.
    pub fn holder(&self, r: &Name) -> Option<Holder>
        ensures { result ≡ map.get self.now r.now }
    {
        find_holder(&self.holders, r)
    }

    /// Whether a thread may take a monitor: nobody holds it, or that thread does.
    pub fn is_free_for(&self, r: &Name, thread: u32) -> bool
        ensures { result ≡ is_free self.now r.now thread }
    {
        match self.holder(r) {
            None => true,
            Some(holder) => holder.thread == thread,
        }
    }

    /// How often a monitor is held; 0 where nobody holds it.
    pub fn takings(&self, r: &Name) -> u64
        ensures { result ≡ takings self.now r.now }
    {
        match self.holder(r) {
            None => 0,
            Some(holder) => holder.count,
        }
    }

    /// A thread takes a monitor, once more where it holds it already.
    ///
    /// # Errors
    ///
    /// `NoMemory` where memory is refused; the monitors are then as they were.
    pub fn enter(&mut self, r: &Name, thread: u32) -> Result<(), NoMemory>
        requires free { IsTrue (is_free self.old r.now thread) }
        requires room { takings self.old r.now < most_takings }
        ensures ok { OnOk result (self.new ≡ entered self.old r.now thread) }
        ensures err { OnErr result (self.new ≡ self.old) }
    {
        take(&mut self.holders, r, thread)
    }

    /// A thread leaves a monitor once. Where it has left as often as it entered, the monitor is free. A
    /// monitor that the thread does not hold stays as it is.
    pub fn leave(&mut self, r: &Name, thread: u32)
        ensures { self.new ≡ left self.old r.now thread }
    {
        lower(&mut self.holders, r, thread);
    }

    /// A thread leaves each of these monitors, once for each time that it is listed.
    pub fn drop_all(&mut self, thread: u32, held: &[Name])
        ensures new { self.new ≡ dropped self.old held.now thread }
        ensures takings { (r : Name) → takings self.new r ≡ lowered self.old r thread held.now }
    {
        for r in held {
            self.leave(r, thread);
        }
    }

    /// Whether two have the same monitors held, by the same threads and as often.
    pub fn same(&self, other: &Monitors) -> bool
        ensures { IsTrue result ↔ (self.now ≡ other.now) }
    {
        same_maps::<_, _, Whole>(&self.holders, &other.holders, None)
    }

    /// Whether the same holds of each monitor of a thing whose label flows to the observer's.
    pub fn same_seen(&self, other: &Monitors, observer: &Label) -> bool
        ensures { IsTrue result ↔ AreSeenAlike observer.now self.now other.now }
    {
        same_maps::<_, _, Whole>(&self.holders, &other.holders, Some(observer))
    }

    /// What holds of all monitors. The call does nothing: its clause is for its caller's proof.
    pub fn facts(&self)
        ensures { IsSound self.now }
    {
        let _ = &self.holders;
    }

    /// Equal monitors.
    ///
    /// # Errors
    ///
    /// `NoMemory` where memory is refused.
    pub fn copy(&self) -> Result<Monitors, NoMemory>
        ensures { IfOk result (λ m. m ≡ self.now) }
    {
        let holders = copied(&self.holders)?;
        Ok(Monitors { holders })
    }
}

impl Same<Whole> for Holder {
    ghost IsSame = { λ x y. x ≡ y };

    fn same(&self, other: &Holder) -> bool {
        *self == *other
    }
}

fn find_holder(holders: &IndexMap<Name, Holder>, r: &Name) -> Option<Holder>
    ensures { result ≡ at_key name_eq holders.now r.now }
{
    holders.get(r).copied()
}

/// One entry of a thread. A monitor that is held keeps its name.
fn take(holders: &mut IndexMap<Name, Holder>, r: &Name, thread: u32) -> Result<(), NoMemory>
    requires { count_of (at_key name_eq holders.old r.now) < most_takings }
    ensures ok { OnOk result ((q : Name) → at_key name_eq holders.new q ≡ cond (name_eq r.now q) (Some (once_more (at_key name_eq holders.old r.now) thread)) (at_key name_eq holders.old q)) }
    ensures err { OnErr result ((q : Name) → at_key name_eq holders.new q ≡ at_key name_eq holders.old q) }
{
    if let Some(holder) = holders.get_mut(r) {
        holder.thread = thread;
        holder.count += 1;
        return Ok(());
    }
    holders.insert(r.copy()?, Holder { thread, count: 1 })?;
    Ok(())
}

/// One exit of a thread.
fn lower(holders: &mut IndexMap<Name, Holder>, r: &Name, thread: u32)
    ensures { (q : Name) → at_key name_eq holders.new q ≡ cond (name_eq r.now q) (one_less (at_key name_eq holders.old r.now) thread) (at_key name_eq holders.old q) }
{
    let Some(holder) = holders.get_mut(r) else {
        return;
    };
    if holder.thread != thread {
        return;
    }
    if holder.count > 1 {
        holder.count -= 1;
        return;
    }
    holders.swap_remove(r);
}

fn copied(holders: &IndexMap<Name, Holder>) -> Result<IndexMap<Name, Holder>, NoMemory>
    ensures { IfOk result (λ new. (q : Name) → at_key name_eq new q ≡ at_key name_eq holders.now q) }
{
    let mut copy = IndexMap::new(*holders.allocator());
    for at in 0..holders.len() {
        let Some((name, holder)) = holders.get_index(at) else {
            unreachable!()
        };
        copy.insert(name.copy()?, *holder)?;
    }
    Ok(copy)
}
