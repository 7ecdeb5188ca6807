//! The operands of a call.

ghost use Rattle.std.specs.Prelude.{◌≡◌, ◌↔◌, ◌<◌, ◌≤◌, ◌-◌, ◌++◌, ◌∷◌, [], length, take, drop, reverse, replicate, slice_get, IsTrue, IfOk, OnOk, OnErr, MatchOption, vec_capacity};
ghost use Rattle.std.specs.Option.{option_copied};
ghost use Rattle.thread_steps.specs.Value.TheVariants.{Nothing as null};
ghost use Rattle.thread_core_state.specs.Seen.{filled_to};

use std::alloc::Global;
use std::marker::Model;
use std::mem::replace;
use thread_steps::{Value, Values, same_values};
use want_of_memory::NoMemory;

/// A stack of values, seen from its top on.
#[derive(Drop)]
pub struct Operands {
    items: Vec<Value>,
}

impl Model for Operands {
    ghost use Rattle.std.specs.Prelude.{List, reverse};
    ghost use Rattle.std.specs.Coded.{coded_list};
    ghost use Rattle.thread_steps.specs.Value.{Value as Item};
    ghost use Rattle.thread_steps.specs.ValueContracts as item;

    ghost Value = { List Item };

    ghost coded = { coded_list item.the_row.coded };

    ghost view = { λ s. reverse s.items.items };
}

impl Operands {
    /// No operands. Takes no memory.
    pub fn new(alloc: Global) -> Operands
        ensures { result ≡ [] }
    {
        Operands {
            items: Vec::new(alloc),
        }
    }

    /// The allocator that the operands keep.
    pub fn allocator(&self) -> Global {
        *self.items.allocator()
    }

    /// How many operands there are.
    pub fn len(&self) -> usize
        ensures { result ≡ length self.now }
    {
        self.items.len()
    }

    /// The operand so far below the top, or `None` below the last one.
    pub fn get(&self, below: usize) -> Option<&Value>
        ensures { option_copied result ≡ slice_get self.now below }
    {
        from_end(self.items.as_slice(), below)
    }

    /// So many operands from the top, in the order in which they were put there: `None` where there are fewer.
    pub fn last_many(&self, count: usize) -> Option<&[Value]>
        ensures { MatchOption result (length self.now < count) (λ s. (count ≤ length self.now) × (s.now ≡ reverse (take count self.now))) }
    {
        end_of(self.items.as_slice(), count)
    }

    /// Puts an operand on top.
    ///
    /// # Errors
    ///
    /// `NoMemory` where memory is refused; the operands are then as they were.
    pub fn push(&mut self, value: Value) -> Result<(), NoMemory>
        ensures ok { OnOk result (self.new ≡ value ∷ self.old) }
        ensures err { OnErr result (self.new ≡ self.old) }
    {
        self.items.push(value)?;
        Ok(())
    }

    /// Takes the top operand away, where there is one.
    pub fn pop(&mut self) -> Option<Value>
        ensures { MatchOption result ((self.old ≡ []) × (self.new ≡ [])) (λ v. self.old ≡ v ∷ self.new) }
    {
        self.items.pop()
    }

    /// Takes so many operands away, or all where there are fewer.
    pub fn drop_many(&mut self, count: usize)
        ensures { self.new ≡ drop count self.old }
    {
        cut(&mut self.items, count);
    }

    /// Puts an operand in the place of the top ones, of so many. Takes no memory.
    pub fn put(&mut self, count: usize, value: Value)
        requires some { 0 < count }
        requires within { count ≤ length self.old }
        ensures { self.new ≡ value ∷ drop count self.old }
    {
        put_last(&mut self.items, count, value);
    }

    /// Puts an operand in the place of the top ones, of so many, or of all where there are fewer.
    ///
    /// # Errors
    ///
    /// `NoMemory` where memory is refused; the operands are then as they were.
    pub fn place(&mut self, count: usize, value: Value) -> Result<(), NoMemory>
        ensures ok { OnOk result (self.new ≡ value ∷ drop count self.old) }
        ensures err { OnErr result (self.new ≡ self.old) }
    {
        place_last(&mut self.items, count, value)
    }

    /// Takes so many operands away that stand below the top ones, of so many, which stay. Takes no memory.
    pub fn drop_under(&mut self, keep: usize, count: usize)
        ensures { self.new ≡ take keep self.old ++ drop count (drop keep self.old) }
    {
        cut_under(&mut self.items, keep, count);
    }

    /// Takes so many operands away, or all where there are fewer, and gives them in the order in which they were put
    /// there, with null behind them up to a length.
    ///
    /// # Errors
    ///
    /// `NoMemory` where memory is refused; the operands are then as they were.
    pub fn take_many(&mut self, count: usize, size: usize) -> Result<Values, NoMemory>
        ensures ok { OnOk result (self.new ≡ drop count self.old) }
        ensures taken { IfOk result (λ vs. vs ≡ filled_to size (reverse (take count self.old))) }
        ensures err { OnErr result (self.new ≡ self.old) }
    {
        let items = taken(&mut self.items, count, size)?;
        Ok(Values::from_vec(items))
    }

    /// Equal operands.
    ///
    /// # Errors
    ///
    /// `NoMemory` where memory is refused.
    pub fn copy(&self) -> Result<Operands, NoMemory>
        ensures { IfOk result (λ s. s ≡ self.now) }
    {
        let items = copied(*self.items.allocator(), self.items.as_slice())?;
        Ok(Operands { items })
    }

    /// Whether the operands are equal, place by place.
    pub fn same(&self, other: &Operands) -> bool
        ensures { IsTrue result ↔ (self.now ≡ other.now) }
    {
        same_values(self.items.as_slice(), other.items.as_slice())
    }
}

fn from_end(items: &[Value], below: usize) -> Option<&Value>
    ensures { option_copied result ≡ slice_get (reverse items.now) below }
{
    if below < items.len() {
        items.get(items.len() - 1 - below)
    } else {
        None
    }
}

fn end_of(items: &[Value], count: usize) -> Option<&[Value]>
    ensures { MatchOption result (length (reverse items.now) < count) (λ s. (count ≤ length (reverse items.now)) × (s.now ≡ reverse (take count (reverse items.now)))) }
{
    if items.len() < count {
        return None;
    }
    Some(&items[items.len() - count..])
}

fn cut(items: &mut Vec<Value>, count: usize)
    ensures { reverse items.new.items ≡ drop count (reverse items.old.items) }
{
    items.truncate(items.len().saturating_sub(count));
}

fn put_last(items: &mut Vec<Value>, count: usize, value: Value)
    requires some { 0 < count }
    requires within { count ≤ length (reverse items.old.items) }
    ensures { reverse items.new.items ≡ value ∷ drop count (reverse items.old.items) }
{
    let at = items.len() - count;
    items.truncate(at + 1);
    items[at] = value;
}

fn cut_under(items: &mut Vec<Value>, keep: usize, count: usize)
    ensures { reverse items.new.items ≡ take keep (reverse items.old.items) ++ drop count (drop keep (reverse items.old.items)) }
{
    let top = items.len().saturating_sub(keep);
    let bottom = top.saturating_sub(count);
    for taken in 0..top - bottom {
        let _ = items.remove(top - 1 - taken);
    }
}

fn place_last(items: &mut Vec<Value>, count: usize, value: Value) -> Result<(), NoMemory>
    ensures ok { OnOk result (reverse items.new.items ≡ value ∷ drop count (reverse items.old.items)) }
    ensures err { OnErr result (items.new.items ≡ items.old.items) }
{
    let count = count.min(items.len());
    if count == 0 {
        items.push(value)?;
        return Ok(());
    }
    put_last(items, count, value);
    Ok(())
}

/// The last so many of a vector, which leave it, with null behind them up to a length.
fn taken(items: &mut Vec<Value>, count: usize, size: usize) -> Result<Vec<Value>, NoMemory>
    ensures ok { OnOk result (reverse items.new.items ≡ drop count (reverse items.old.items)) }
    ensures taken { IfOk result (λ v. v.items ≡ filled_to size (reverse (take count (reverse items.old.items)))) }
    ensures err { OnErr result (items.new.items ≡ items.old.items) }
{
    let count = count.min(items.len());
    let mut out = Vec::with_capacity(*items.allocator(), size.max(count))?;
    move_last(items, count, &mut out);
    fill(&mut out, size);
    Ok(out)
}

/// Moves the last so many of a vector into another one, in their order.
fn move_last(items: &mut Vec<Value>, count: usize, out: &mut Vec<Value>)
    requires within { count ≤ length items.old.items }
    requires room { count ≤ vec_capacity out.old }
    requires none { out.old.items ≡ [] }
    ensures items { items.new.items ≡ take (length items.old.items - count) items.old.items }
    ensures out { out.new.items ≡ drop (length items.old.items - count) items.old.items }
    ensures capacity { vec_capacity out.new ≡ vec_capacity out.old }
{
    for _ in 0..count {
        out.push_reserved(items.take_last());
    }
    out.reverse();
}

/// Puts null at the end of a vector up to a length. There is room.
fn fill(items: &mut Vec<Value>, size: usize)
    requires { size ≤ vec_capacity items.old }
    ensures { items.new.items ≡ items.old.items ++ replicate (size - length items.old.items) null }
{
    let missing = size.saturating_sub(items.len());
    for _ in 0..missing {
        items.push_reserved(Value::Nothing);
    }
}

/// The values of a slice, which are copied, with null behind them up to a length.
///
/// # Errors
///
/// `NoMemory` where memory is refused.
pub fn filled(alloc: Global, values: &[Value], size: usize) -> Result<Values, NoMemory>
    ensures { IfOk result (λ vs. vs ≡ filled_to size values.now) }
{
    let mut out = Vec::with_capacity(alloc, size.max(values.len()))?;
    for value in values {
        out.push_reserved(value.copy()?);
    }
    fill(&mut out, size);
    Ok(Values::from_vec(out))
}

/// The values of a slice, which are copied.
///
/// # Errors
///
/// `NoMemory` where memory is refused.
pub fn listed(alloc: Global, values: &[Value]) -> Result<Values, NoMemory>
    ensures { IfOk result (λ vs. vs ≡ values.now) }
{
    let items = copied(alloc, values)?;
    Ok(Values::from_vec(items))
}

fn copied(alloc: Global, values: &[Value]) -> Result<Vec<Value>, NoMemory>
    ensures { IfOk result (λ v. v.items ≡ values.now) }
{
    let mut out = Vec::with_capacity(alloc, values.len())?;
    for value in values {
        out.push(value.copy()?)?;
    }
    Ok(out)
}
