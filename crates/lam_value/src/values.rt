//! Values, and lists of them.

ghost use Rattle.std.specs.Prelude.{◌≡◌, ◌<◌, ◌++◌, ◌-◌, ◌∷◌, [], length, IsTrue, ◌↔◌, IfOk, OnOk, OnErr, take, slice_get, slice_set, Some};
ghost use Rattle.std.specs.Option.{option_copied};

use crate::byte_text::ByteText;
use crate::names::Name;
use lam_value_homes::{Label, NoMemory, TagId, TagSet, same};
use std::alloc::Global;
use std::marker::Model;
use std::mem::replace;

/// What a local, a field, an array's element or a message holds.
#[derive(Drop)]
pub enum Value {
    Int(i64),
    Bool(bool),
    /// A string of bytes.
    Bytes(ByteText),
    /// Null, of every type of references.
    Nothing,
    /// A reference to an object.
    Obj(Name),
    /// A reference to an array, with its length.
    Arr { name: Name, len: u64 },
    /// A reference to a file.
    File(Name),
    /// A reference to a directory.
    Dir(Name),
    /// A reference to a pipe.
    Pipe(Name),
    /// A thread, by its number.
    Thread(u32),
    Tag(TagId),
    Lab(Label),
    /// A description of capabilities: what may be added to a label, and what dropped. To hold one gives none.
    CapV { plus: TagSet, minus: TagSet },
}

impl Value {
    /// An equal value.
    pub fn copy(&self) -> Result<Value, NoMemory>
        ensures { IfOk result (λ v. v ≡ self.now) }
    {
        match self {
            Value::Int(n) => Ok(Value::Int(*n)),
            Value::Bool(b) => Ok(Value::Bool(*b)),
            Value::Bytes(text) => text.copy().map(Value::Bytes),
            Value::Nothing => Ok(Value::Nothing),
            Value::Obj(name) => name.copy().map(Value::Obj),
            Value::Arr { name, len } => copied_array(name, *len),
            Value::File(name) => name.copy().map(Value::File),
            Value::Dir(name) => name.copy().map(Value::Dir),
            Value::Pipe(name) => name.copy().map(Value::Pipe),
            Value::Thread(t) => Ok(Value::Thread(*t)),
            Value::Tag(t) => Ok(Value::Tag(*t)),
            Value::Lab(label) => label.copy().map(Value::Lab),
            Value::CapV { plus, minus } => copied_caps(plus, minus),
        }
    }
}

/// A reference to an array, by an equal name.
fn copied_array(name: &Name, len: u64) -> Result<Value, NoMemory>
    ensures { IfOk result (λ v. v ≡ Value.Arr name.now len) }
{
    let name = name.copy()?;
    Ok(Value::Arr { name, len })
}

/// Capabilities of equal sets.
fn copied_caps(plus: &TagSet, minus: &TagSet) -> Result<Value, NoMemory>
    ensures { IfOk result (λ v. v ≡ Value.CapV plus.now minus.now) }
{
    let plus = plus.copy()?;
    let minus = minus.copy()?;
    Ok(Value::CapV { plus, minus })
}

/// Whether two values are equal.
pub fn same_value(a: &Value, b: &Value) -> bool
    ensures { IsTrue result ↔ (a.now ≡ b.now) }
{
    match (a, b) {
        (Value::Int(x), Value::Int(y)) => x == y,
        (Value::Bool(x), Value::Bool(y)) => x == y,
        (Value::Bytes(x), Value::Bytes(y)) => x.same(y),
        (Value::Nothing, Value::Nothing) => true,
        (Value::Obj(x), Value::Obj(y)) => x.same(y),
        (Value::Arr { name: x, len: m }, Value::Arr { name: y, len: n }) => m == n && x.same(y),
        (Value::File(x), Value::File(y)) => x.same(y),
        (Value::Dir(x), Value::Dir(y)) => x.same(y),
        (Value::Pipe(x), Value::Pipe(y)) => x.same(y),
        (Value::Thread(x), Value::Thread(y)) => x == y,
        (Value::Tag(x), Value::Tag(y)) => x == y,
        (Value::Lab(x), Value::Lab(y)) => same(x, y),
        (Value::CapV { plus, minus }, Value::CapV { plus: p, minus: m }) => {
            plus.same(p) && minus.same(m)
        }
        _ => false,
    }
}

/// A list of values: the fields of an object, the elements of an array, or the arguments of a call.
#[derive(Drop)]
pub struct Values {
    items: Vec<Value>,
}

impl Model for Values {
    ghost use Rattle.std.specs.Prelude.{List};
    ghost use Rattle.std.specs.Coded.{coded_list};
    ghost use Rattle.lam_value.specs.declared.values.Value.{Value as Item};
    ghost use Rattle.lam_value.specs.contracts.values.Value as item;

    ghost Value = { List Item };

    ghost coded = { coded_list item.the_row.coded };

    ghost view = { λ vs. vs.items.items };
}

impl Values {
    /// No values.
    pub fn new(alloc: Global) -> Values
        ensures { result ≡ [] }
    {
        Values {
            items: Vec::new(alloc),
        }
    }

    /// No values, with room for so many. The room is no part of the list, so no clause speaks of it.
    ///
    /// # Errors
    ///
    /// `NoMemory` where memory is refused.
    pub fn with_capacity(alloc: Global, room: u64) -> Result<Values, NoMemory>
        ensures { IfOk result (λ vs. vs ≡ []) }
    {
        let items = Vec::with_capacity(alloc, room as usize)?;
        Ok(Values { items })
    }

    /// The values that a vector holds, which are not copied.
    pub fn from_vec(items: Vec<Value>) -> Values
        ensures { result ≡ items.items }
    {
        Values { items }
    }

    /// The values.
    pub fn as_slice(&self) -> &[Value]
        ensures { result.now ≡ self.now }
    {
        self.items.as_slice()
    }

    /// The allocator that the list keeps.
    pub fn allocator(&self) -> Global {
        *self.items.allocator()
    }

    /// How many values there are.
    pub fn len(&self) -> u64
        ensures { result ≡ length self.now }
    {
        self.items.len() as u64
    }

    /// The value at a place, or `None` past the last.
    pub fn get(&self, at: u64) -> Option<&Value>
        ensures { option_copied result ≡ slice_get self.now at }
    {
        self.items.get(at as usize)
    }

    /// Puts a value at the end.
    ///
    /// # Errors
    ///
    /// `NoMemory` where memory is refused; the list is then as it was.
    pub fn push(&mut self, value: Value) -> Result<(), NoMemory>
        ensures ok { OnOk result (self.new ≡ self.old ++ value ∷ []) }
        ensures err { OnErr result (self.new ≡ self.old) }
    {
        self.items.push(value)?;
        Ok(())
    }

    /// Takes the value at the end away, where there is one.
    pub fn pop(&mut self) -> Option<Value>
        ensures value { result ≡ slice_get self.old (length self.old - 1) }
        ensures rest { self.new ≡ take (length self.old - 1) self.old }
    {
        self.items.pop()
    }

    /// Puts a value at a place, and gives the one that stood there. Past the last nothing changes, and the
    /// answer is `None`.
    pub fn set(&mut self, at: u64, value: Value) -> Option<Value>
        ensures old { result ≡ slice_get self.old at }
        ensures new { self.new ≡ slice_set self.old at value }
    {
        set_item(&mut self.items, at as usize, value)
    }

    /// An equal list.
    ///
    /// # Errors
    ///
    /// `NoMemory` where memory is refused.
    pub fn copy(&self) -> Result<Values, NoMemory>
        ensures { IfOk result (λ vs. vs ≡ self.now) }
    {
        let items = copied(*self.items.allocator(), self.items.as_slice())?;
        Ok(Values { items })
    }
}

fn set_item(items: &mut Vec<Value>, at: usize, value: Value) -> Option<Value>
    ensures old { result ≡ slice_get items.old.items at }
    ensures new { items.new.items ≡ slice_set items.old.items at value }
{
    if at < items.len() {
        Some(replaced(items, at, value))
    } else {
        drop(value);
        None
    }
}

fn replaced(items: &mut Vec<Value>, at: usize, value: Value) -> Value
    requires { at < length items.old.items }
    ensures old { Some result ≡ slice_get items.old.items at }
    ensures new { items.new.items ≡ slice_set items.old.items at value }
{
    replace(&mut items[at], value)
}

fn copied(alloc: Global, values: &[Value]) -> Result<Vec<Value>, NoMemory>
    ensures { IfOk result (λ v. v.items ≡ values.now) }
{
    let mut out = Vec::with_capacity(alloc, values.len())?;
    for value in values {
        out.push(value.copy()?)?;
    }
    Ok(out)
}
