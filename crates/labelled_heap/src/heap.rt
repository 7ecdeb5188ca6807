//! The objects and arrays of a run, by name.
//!
//! An object's fields and an array's elements are its *slots*. The slots of all things are one finite map from names. A
//! second map says what a thing is, an object of a class or an array of a kind. No observer is shown that. New things
//! are numbered per home (the maker's label and the thing's own) and never globally, so that a name tells of no other
//! label.
//!
//! The numbers of a home begin at 0 and have no gap, and no thing is ever removed. So the things of a home stand in a
//! vector by number. A look-up by name is one look-up of the home and one index.

ghost use Rattle.std.specs.Prelude.{◌≡◌, ◌≤◌, ◌<◌, ◌++◌, ◌∷◌, [], ◌↔◌, ℕ, IsTrue, IfOk, OnOk, OnErr, IsErrOf, length, slice_get, slice_set, cond, Some, None};
ghost use Rattle.std.specs.Option.{option_copied};
ghost use Rattle.std.specs.FinMap as map;
ghost use Rattle.std.specs.HashMap.{IsUnique, get as at_key};
ghost use Rattle.indexmap.specs.IndexMap.{spare};
ghost use Rattle.lam_value.specs.Alike.{AreAlike};
ghost use Rattle.lam_value.specs.Homes as homes;
ghost use Rattle.lam_value.specs.Homes.{Home, home_of, home_eq, name_of, count_in, counted};
ghost use Rattle.lam_value.specs.Shapes.{slots_of};
ghost use Rattle.labelled_heap.specs.Things.{no_things, slots_at, with_slot, with_thing, with_copy, sort_of, most_things, IsSound, AreSeenAlike};
ghost use Rattle.labelled_heap.specs.Seen.{row_at, thing_at, slots_in, written_in, AreRows};
ghost use Rattle.labelled_heap.specs.declared.heap.HeapFault.TheVariants.{NoMemory as no_memory};

use indexmap::IndexMap;
use lam_value::{
    Counters, Home, Kind, Label, Name, NoMemory, Same, Shape, Value, Values, Whole, at_home,
    same_maps,
};
use std::alloc::{AllocError, AllocFailed, Global};
use std::marker::Model;

/// The number of things that one home may make.
pub const HOME_LIMIT: u64 = 1_048_576;

/// What a thing is.
#[derive(Clone, Copy, Debug, PartialEq, Eq)]
pub enum Sort {
    /// An object of the class with this number.
    Object(u32),
    /// An array whose elements are of this kind.
    Array(Kind),
}

/// Why nothing is made. The heap is then as it was.
#[derive(Clone, Copy, Debug, PartialEq, Eq)]
pub enum HeapFault {
    /// The home has made 1,048,576 things.
    HomeFull,
    /// Memory ran out.
    NoMemory,
}

impl From<NoMemory> for HeapFault {
    ghost from_gives = { λ _ e. e ≡ no_memory };

    fn from(_e: NoMemory) -> HeapFault {
        HeapFault::NoMemory
    }
}

impl From<AllocError> for HeapFault {
    ghost from_gives = { λ _ e. e ≡ no_memory };

    fn from(_e: AllocError) -> HeapFault {
        HeapFault::NoMemory
    }
}

impl<T: Drop> From<AllocFailed<T>> for HeapFault {
    ghost from_gives = { λ _ e. e ≡ no_memory };

    fn from(_e: AllocFailed<T>) -> HeapFault {
        HeapFault::NoMemory
    }
}

/// What it is, and its slots.
#[derive(Drop)]
struct Thing {
    sort: Sort,
    slots: Values,
}

/// The things of one home; the number of each is its place. New names share the home of the first one's.
#[derive(Drop)]
struct Row {
    first: Name,
    things: Vec<Thing>,
}

type Rows = IndexMap<Home, Row>;

/// Marks that the slots of things are compared, which is what an observer sees of them.
struct Slots;

/// Objects and arrays by name, with a counter for each home.
#[derive(Drop)]
pub struct Heap {
    rows: Rows,
    counters: Counters,
}

impl Model for Heap {
    ghost use Rattle.labelled_heap.specs.Things.{Things, coded_things};

    ghost Value = { Things };

    ghost coded = { coded_things };

    ghost use Rattle.labelled_heap.specs.Seen.{things_of, things_in, AreSound};

    ghost view = { λ h. things_of (things_in h.rows.entries) h.counters };

    ghost invariant = { λ h. AreSound h.rows h.counters };
}

impl Heap {
    /// Nothing lives.
    pub fn new(alloc: Global) -> Heap
        ensures { result ≡ no_things }
    {
        Heap {
            rows: IndexMap::new(alloc),
            counters: Counters::new(alloc),
        }
    }

    /// Whether a thing of this name lives.
    pub fn lives(&self, r: &Name) -> bool
        ensures { result ≡ map.contains_key self.now.slots r.now }
    {
        thing_of(&self.rows, r).is_some()
    }

    /// What a thing is, or `None` where it does not live.
    pub fn sort(&self, r: &Name) -> Option<Sort>
        ensures { result ≡ map.get self.now.sorts r.now }
    {
        match thing_of(&self.rows, r) {
            None => None,
            Some(thing) => Some(thing.sort),
        }
    }

    /// How many slots a living thing has.
    pub fn size(&self, r: &Name) -> u64
        requires { IsTrue (map.contains_key self.now.slots r.now) }
        ensures { result ≡ length (slots_at self.now r.now) }
    {
        match thing_of(&self.rows, r) {
            None => 0,
            Some(thing) => thing.slots.len(),
        }
    }

    /// The slots of a thing, none where it does not live.
    pub fn slots(&self, r: &Name) -> &[Value]
        ensures { result.now ≡ slots_at self.now r.now }
    {
        match thing_of(&self.rows, r) {
            None => &[],
            Some(thing) => slots_of(thing),
        }
    }

    /// What a slot holds, or `None` where the thing has no such slot or does not live.
    pub fn get(&self, r: &Name, at: u64) -> Option<&Value>
        ensures { option_copied result ≡ slice_get (slots_at self.now r.now) at }
    {
        match thing_of(&self.rows, r) {
            None => None,
            Some(thing) => slot_of(thing, at),
        }
    }

    /// What a slot of a living thing holds.
    pub fn read(&self, r: &Name, at: u64) -> &Value
        requires { at < length (slots_at self.now r.now) }
        ensures { slice_get (slots_at self.now r.now) at ≡ Some result.now }
    {
        match self.get(r, at) {
            Some(value) => value,
            None => unreachable!(),
        }
    }

    /// Puts a value into a slot, and gives the one that stood there. Where the thing has no such slot, or
    /// does not live, nothing changes and the answer is `None`.
    pub fn set(&mut self, r: &Name, at: u64, v: Value) -> Option<Value>
        ensures old { result ≡ slice_get (slots_at self.old r.now) at }
        ensures new { self.new ≡ with_slot self.old r.now at v }
    {
        match self.rows.get_mut(r.home()) {
            None => return none_of(v),
            Some(row) => return set_in_row(row, r.n(), at, v),
        }
    }

    /// Puts a value into a slot of a living thing, and gives the one that stood there.
    pub fn write(&mut self, r: &Name, at: u64, v: Value) -> Value
        requires { at < length (slots_at self.old r.now) }
        ensures old { slice_get (slots_at self.old r.now) at ≡ Some result }
        ensures new { self.new ≡ with_slot self.old r.now at v }
    {
        match self.set(r, at, v) {
            Some(old) => old,
            None => unreachable!(),
        }
    }

    /// The number that the next thing of a home gets: how many it has made, at most `HOME_LIMIT`.
    pub fn next(&self, maker: &Label, own: &Label) -> u64
        ensures value { result ≡ count_in self.now.counts (home_of maker.now own.now) }
        ensures bound { result ≤ most_things }
    {
        self.counters.next(maker, own)
    }

    /// Makes a thing of a home, at the home's next number.
    ///
    /// # Errors
    ///
    /// `HomeFull` exactly where the home has made 1,048,576 things, and `NoMemory` where memory is refused.
    pub fn make(&mut self, maker: &Label, own: &Label, shape: Shape) -> Result<Name, HeapFault>
        ensures name { IfOk result (λ n. n ≡ name_of (home_of maker.now own.now) (count_in self.old.counts (home_of maker.now own.now))) }
        ensures ok { OnOk result (self.new ≡ with_thing self.old (home_of maker.now own.now) (sort_of shape) (slots_of shape)) }
        ensures err { OnErr result (self.new ≡ self.old) }
        ensures full { IsErrOf result HeapFault.HomeFull ↔ (count_in self.old.counts (home_of maker.now own.now) ≡ most_things) }
    {
        let number = self.next(maker, own);
        if number == HOME_LIMIT {
            return Err(HeapFault::HomeFull);
        }
        let thing = new_thing(own.allocator(), shape)?;
        let name = add_thing(
            &mut self.rows,
            &mut self.counters,
            maker,
            own,
            number,
            thing,
        )?;
        Ok(name)
    }

    /// Makes a thing of a home with what a living thing is and holds, at the home's next number.
    ///
    /// # Errors
    ///
    /// `HomeFull` exactly where the home has made 1,048,576 things, and `NoMemory` where memory is refused.
    pub fn copy_to(&mut self, r: &Name, maker: &Label, own: &Label) -> Result<Name, HeapFault>
        requires { IsTrue (map.contains_key self.old.slots r.now) }
        ensures name { IfOk result (λ n. n ≡ name_of (home_of maker.now own.now) (count_in self.old.counts (home_of maker.now own.now))) }
        ensures ok { OnOk result (self.new ≡ with_copy self.old r.now (home_of maker.now own.now)) }
        ensures err { OnErr result (self.new ≡ self.old) }
        ensures full { IsErrOf result HeapFault.HomeFull ↔ (count_in self.old.counts (home_of maker.now own.now) ≡ most_things) }
    {
        let number = self.next(maker, own);
        if number == HOME_LIMIT {
            return Err(HeapFault::HomeFull);
        }
        let Some(thing) = thing_of(&self.rows, r) else {
            unreachable!()
        };
        let thing = thing.copy()?;
        let name = add_thing(
            &mut self.rows,
            &mut self.counters,
            maker,
            own,
            number,
            thing,
        )?;
        Ok(name)
    }

    /// Whether two heaps have equal things and counters.
    pub fn same(&self, other: &Heap) -> bool
        ensures { IsTrue result ↔ (self.now ≡ other.now) }
    {
        self.counters.same(&other.counters)
            && same_maps::<_, _, Whole>(&self.rows, &other.rows, None)
    }

    /// Whether two heaps have equal slots in each thing whose label flows to the observer's.
    pub fn same_seen(&self, other: &Heap, observer: &Label) -> bool
        ensures { IsTrue result ↔ AreSeenAlike observer.now self.now other.now }
    {
        same_maps::<_, _, Slots>(&self.rows, &other.rows, Some(observer))
    }

    /// Whether two heaps have equal counters at each home whose maker's label flows to the observer's.
    pub fn same_counters(&self, other: &Heap, observer: &Label) -> bool
        ensures { IsTrue result ↔ homes.AreSeenAlike observer.now self.now.counts other.now.counts }
    {
        self.counters.same_seen(&other.counters, observer)
    }

    /// What holds of every heap. The call does nothing: its clause is for its caller's proof.
    pub fn facts(&self)
        ensures { IsSound self.now }
    {
        let _ = &self.rows;
    }

    /// What holds of the counters. The call does nothing: its clause is for its caller's proof.
    pub fn counter_facts(&self)
        ensures { homes.IsAboveZero self.now.counts }
    {
        self.counters.facts();
    }

    /// An equal heap.
    ///
    /// # Errors
    ///
    /// `NoMemory` where memory is refused.
    pub fn copy(&self) -> Result<Heap, NoMemory>
        ensures { IfOk result (λ h. h ≡ self.now) }
    {
        let rows = copied(&self.rows)?;
        let counters = self.counters.copy()?;
        Ok(Heap { rows, counters })
    }
}

impl Same<Whole> for Thing {
    ghost IsSame = { λ t u. t ≡ u };

    fn same(&self, other: &Thing) -> bool {
        self.sort == other.sort && self.slots.same(&other.slots)
    }
}

impl Same<Slots> for Thing {
    ghost IsSame = { λ t u. t.slots ≡ u.slots };

    fn same(&self, other: &Thing) -> bool {
        self.slots.same(&other.slots)
    }
}

impl Same<Whole> for Row {
    ghost IsSame = { λ r s. (n : ℕ) → AreAlike (λ t u. t ≡ u) (slice_get r.things.items n) (slice_get s.things.items n) };

    fn same(&self, other: &Row) -> bool {
        same_things::<_, Whole>(&self.things, &other.things)
    }
}

impl Same<Slots> for Row {
    ghost IsSame = { λ r s. (n : ℕ) → AreAlike (λ t u. t.slots ≡ u.slots) (slice_get r.things.items n) (slice_get s.things.items n) };

    fn same(&self, other: &Row) -> bool {
        same_things::<_, Slots>(&self.things, &other.things)
    }
}

/// Whether two lists have the same at each place.
fn same_things<T: Same<Part>, Part>(a: &[T], b: &[T]) -> bool
    ensures { IsTrue result ↔ ((n : ℕ) → AreAlike T.IsSame (slice_get a.now n) (slice_get b.now n)) }
{
    a.len() == b.len() && begin_alike(a, b)
}

/// Whether the first things of a list are those of another one that is as long.
fn begin_alike<T: Same<Part>, Part>(a: &[T], b: &[T]) -> bool
    requires { length a.now ≡ length b.now }
    ensures { IsTrue result ↔ ((n : ℕ) → AreAlike T.IsSame (slice_get a.now n) (slice_get b.now n)) }
{
    for at in 0..a.len() {
        if !a[at].same(&b[at]) {
            return false;
        }
    }
    true
}

impl Row {
    fn copy(&self) -> Result<Row, NoMemory>
        ensures { IfOk result (λ row. row.things.items ≡ self.now.things.items) }
    {
        let mut things = Vec::with_capacity(*self.things.allocator(), self.things.len())?;
        for thing in &self.things {
            things.push(thing.copy()?)?;
        }
        let first = self.first.copy()?;
        Ok(Row { first, things })
    }
}

impl Thing {
    fn copy(&self) -> Result<Thing, NoMemory>
        ensures { IfOk result (λ t. t ≡ self.now) }
    {
        let slots = self.slots.copy()?;
        Ok(Thing {
            sort: self.sort,
            slots,
        })
    }
}

fn new_thing(alloc: Global, shape: Shape) -> Result<Thing, NoMemory>
    ensures { IfOk result (λ t. t ≡ record { sort = sort_of shape; slots = slots_of shape }) }
{
    let sort = sort_of(&shape);
    let slots = shape.into_slots(alloc)?;
    Ok(Thing { sort, slots })
}

fn sort_of(shape: &Shape) -> Sort
    ensures { result ≡ sort_of shape.now }
{
    match shape {
        Shape::Class { class, fields: _ } => Sort::Object(*class),
        Shape::Array { kind, len: _ } => Sort::Array(*kind),
    }
}

/// The thing of a name: the one at its number among those of its home.
fn thing_of<'a>(rows: &'a Rows, r: &Name) -> Option<&'a Thing>
    ensures { option_copied result ≡ thing_at rows.now.entries r.now }
{
    match at_home(rows, r.home()) {
        None => None,
        Some(row) => row.things.get(r.n() as usize),
    }
}

fn slots_of(thing: &Thing) -> &[Value]
    ensures { result.now ≡ thing.now.slots }
{
    thing.slots.as_slice()
}

fn slot_of(thing: &Thing, at: u64) -> Option<&Value>
    ensures { option_copied result ≡ slice_get thing.now.slots at }
{
    thing.slots.get(at)
}

/// Lets a value go that has no place.
fn none_of(v: Value) -> Option<Value>
    ensures { result ≡ None }
{
    drop(v);
    None
}

fn set_slot(thing: &mut Thing, at: u64, v: Value) -> Option<Value>
    ensures old { result ≡ slice_get thing.old.slots at }
    ensures new { thing.new ≡ record thing.old { slots = slice_set thing.old.slots at v } }
{
    thing.slots.set(at, v)
}

/// Puts a value into a slot of the thing at a number, and gives the one that stood there.
fn set_in_row(row: &mut Row, number: u64, at: u64, v: Value) -> Option<Value>
    ensures old { result ≡ slice_get (slots_in row.old.things.items number) at }
    ensures new { row.new.things.items ≡ written_in row.old.things.items number at v }
{
    match row.things.get_mut(number as usize) {
        None => return none_of(v),
        Some(thing) => return set_slot(thing, at, v),
    }
}

/// Gives a thing the next name of a home, which is its place in the home's row.
fn add_thing(
    rows: &mut Rows,
    counters: &mut Counters,
    maker: &Label,
    own: &Label,
    number: u64,
    thing: Thing,
) -> Result<Name, NoMemory>
    requires rows { AreRows rows.old }
    requires next { number ≡ count_in counters.old (home_of maker.now own.now) }
    requires room { number < most_things }
    ensures rows { AreRows rows.new }
    ensures name { IfOk result (λ n. n ≡ name_of (home_of maker.now own.now) number) }
    ensures things { OnOk result ((h : Home) → row_at rows.new.entries h ≡ cond (home_eq (home_of maker.now own.now) h) (row_at rows.old.entries (home_of maker.now own.now) ++ thing ∷ []) (row_at rows.old.entries h)) }
    ensures counters { OnOk result (counters.new ≡ counted counters.old (home_of maker.now own.now)) }
    ensures same_things { OnErr result ((h : Home) → row_at rows.new.entries h ≡ row_at rows.old.entries h) }
    ensures same_counters { OnErr result (counters.new ≡ counters.old) }
{
    let name = new_name(rows, maker, own, number)?;
    match rows.get_mut(name.home()) {
        Some(row) => put_last(row, counters, maker, own, number, thing)?,
        None => put_first(rows, counters, name.home(), &name, number, thing)?,
    }
    Ok(name)
}

/// A name of a home, which it shares with the names of the home's row. The first one remembers where the row will stand.
fn new_name(rows: &Rows, maker: &Label, own: &Label, number: u64) -> Result<Name, NoMemory>
    ensures { IfOk result (λ n. n ≡ name_of (home_of maker.now own.now) number) }
{
    let home = Home::of(maker, own)?;
    match rows.get(&home) {
        Some(row) => row.first.beside(home, number),
        None => Name::at(home.placed(rows.len()), number),
    }
}

/// Puts a thing at the end of a home's row, and counts it. The last step that can fail is the counter's, and
/// what comes after it has its room.
fn put_last(
    row: &mut Row,
    counters: &mut Counters,
    maker: &Label,
    own: &Label,
    number: u64,
    thing: Thing,
) -> Result<(), NoMemory>
    requires next { number ≡ count_in counters.old (home_of maker.now own.now) }
    requires room { number < most_things }
    ensures things { OnOk result (row.new.things.items ≡ row.old.things.items ++ thing ∷ []) }
    ensures counters { OnOk result (counters.new ≡ counted counters.old (home_of maker.now own.now)) }
    ensures same_things { OnErr result (row.new.things.items ≡ row.old.things.items) }
    ensures same_counters { OnErr result (counters.new ≡ counters.old) }
{
    row.things.reserve(1)?;
    counters.draw(maker, own, number)?;
    let Ok(_) = row.things.push(thing) else {
        unreachable!()
    };
    Ok(())
}

/// Puts a thing into a row of its own, the first of its home, and counts it. The last step that can fail is the
/// counter's, and what comes after it has its room.
fn put_first(
    rows: &mut Rows,
    counters: &mut Counters,
    home: &Home,
    first: &Name,
    number: u64,
    thing: Thing,
) -> Result<(), NoMemory>
    requires rows { AreRows rows.old }
    requires next { number ≡ count_in counters.old home.now }
    requires room { number < most_things }
    ensures rows { AreRows rows.new }
    ensures things { OnOk result ((h : Home) → row_at rows.new.entries h ≡ cond (home_eq home.now h) (thing ∷ []) (row_at rows.old.entries h)) }
    ensures counters { OnOk result (counters.new ≡ counted counters.old home.now) }
    ensures same_things { OnErr result ((h : Home) → row_at rows.new.entries h ≡ row_at rows.old.entries h) }
    ensures same_counters { OnErr result (counters.new ≡ counters.old) }
{
    let row = one_thing(first, thing)?;
    let key = take_number(rows, counters, home, number)?;
    put_new(rows, key, row);
    Ok(())
}

/// A row with one thing alone, and its name.
fn one_thing(name: &Name, thing: Thing) -> Result<Row, NoMemory>
    ensures { IfOk result (λ row. row.things.items ≡ thing ∷ []) }
{
    let first = name.copy()?;
    let mut things = Vec::new(name.allocator());
    things.push(thing)?;
    Ok(Row { first, things })
}

/// Makes room for one more row, and takes the next number of its home, of which it gives an equal one.
fn take_number(
    rows: &mut Rows,
    counters: &mut Counters,
    home: &Home,
    number: u64,
) -> Result<Home, NoMemory>
    requires next { number ≡ count_in counters.old home.now }
    requires room { number < most_things }
    ensures home { IfOk result (λ h. h ≡ home.now) }
    ensures rows { rows.new.entries ≡ rows.old.entries }
    ensures unique { IsUnique home_eq rows.new }
    ensures room { OnOk result (1 ≤ spare rows.new) }
    ensures counters { OnOk result (counters.new ≡ counted counters.old home.now) }
    ensures same_counters { OnErr result (counters.new ≡ counters.old) }
{
    rows.reserve(1)?;
    let key = home.copy()?;
    counters.draw(home.maker(), home.own(), number)?;
    Ok(key)
}

/// Puts in the row of a home, for which there is room.
fn put_new(rows: &mut Rows, home: Home, row: Row)
    requires { 1 ≤ spare rows.old }
    ensures row { (q : Home) → at_key home_eq rows.new q ≡ cond (home_eq home q) (Some row) (at_key home_eq rows.old q) }
    ensures unique { IsUnique home_eq rows.new }
{
    let Ok(_) = rows.insert(home, row) else {
        unreachable!()
    };
}

/// Puts in the row of a home.
fn put_row(rows: &mut Rows, home: &Home, row: Row) -> Result<(), NoMemory>
    ensures ok { OnOk result ((q : Home) → at_key home_eq rows.new q ≡ cond (home_eq home.now q) (Some row) (at_key home_eq rows.old q)) }
    ensures unique { OnOk result (IsUnique home_eq rows.new) }
{
    let home = home.copy()?;
    rows.insert(home, row)?;
    Ok(())
}

fn copied(rows: &Rows) -> Result<Rows, NoMemory>
    requires { AreRows rows.now }
    ensures same { IfOk result (λ new. (h : Home) → row_at new.entries h ≡ row_at rows.now.entries h) }
    ensures rows { IfOk result (λ new. AreRows new) }
{
    let mut copy = IndexMap::new(*rows.allocator());
    for at in 0..rows.len() {
        let Some((home, row)) = rows.get_index(at) else {
            unreachable!()
        };
        let row = row.copy()?;
        put_row(&mut copy, home, row)?;
    }
    Ok(copy)
}
