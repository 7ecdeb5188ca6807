//! Allocation counters by home.

ghost use Rattle.std.specs.Prelude.{◌≡◌, ◌+◌, ◌++◌, map as map_list, ◌^◌, ◌<◌, ◌↔◌, IsTrue, cond, Some, None, unwrap_or, slice_get, IfOk, OnOk, OnErr};
ghost use Rattle.std.specs.Option.{option_map};
ghost use Rattle.std.specs.FinMap as map;
ghost use Rattle.std.specs.HashMap.{IsUnique, get as at_key};
ghost use Rattle.flow_labels.specs.declared.Label.{Label};
ghost use Rattle.lam_value_homes.specs.Homes.{Home, home_of, count_in, counted, raised, IsAboveZero, IsListing, AreSeenAlike, label_eq, home_eq, homes_in, homes_of, listed_home, home_in, AreHomes};

use crate::sameness::{Same, Whole, same_maps};
use flow_labels::{Label, NoMemory};
use indexmap::IndexMap;
use std::alloc::Global;
use std::marker::Model;

type Row = IndexMap<Label, u64>;

type Rows = IndexMap<Label, Row>;

/// A counter for each home, a pair of a maker's label and an own label.
///
/// A counter is the number of things that its home has made, and so the number that the next one gets.
/// There is no counter over all homes: numbers of one home tell nothing of any other.
#[derive(Drop)]
pub struct Counters {
    rows: Rows,
}

impl Model for Counters {
    ghost use Rattle.std.specs.FinMap.{from_entries};
    ghost use Rattle.std.specs.HashMap.{IsUnique};
    ghost use Rattle.lam_value_homes.specs.Homes.{Counts, coded_counts, homes_in, label_eq, AreHomes};

    ghost Value = { Counts };

    ghost coded = { coded_counts };

    ghost view = { λ c. from_entries (homes_in c.rows.entries) };

    ghost invariant = { λ c. AreHomes c.rows };
}

impl Counters {
    /// No home has made anything.
    pub fn new(alloc: Global) -> Counters
        ensures { result ≡ map.empty }
    {
        Counters {
            rows: IndexMap::new(alloc),
        }
    }

    /// The number of the next thing of a home: how many it has made.
    pub fn next(&self, maker: &Label, own: &Label) -> u64
        ensures { result ≡ count_in self.now (home_of maker.now own.now) }
    {
        count_of(&self.rows, maker, own)
    }

    /// Takes the next number of a home, which is the one that `next` gave.
    ///
    /// # Errors
    ///
    /// `NoMemory` where memory is refused; no number is taken then.
    pub fn draw(&mut self, maker: &Label, own: &Label, number: u64) -> Result<(), NoMemory>
        requires next { number ≡ count_in self.old (home_of maker.now own.now) }
        requires room { number + 1 < 2 ^ 64 }
        ensures ok { OnOk result (self.new ≡ counted self.old (home_of maker.now own.now)) }
        ensures err { OnErr result (self.new ≡ self.old) }
    {
        set_count(&mut self.rows, maker, own, number + 1)?;
        Ok(())
    }

    /// Lets a home have made so many things at least.
    ///
    /// # Errors
    ///
    /// `NoMemory` where memory is refused; nothing changes then.
    pub fn raise(&mut self, maker: &Label, own: &Label, count: u64) -> Result<(), NoMemory>
        ensures ok { OnOk result (self.new ≡ raised self.old (home_of maker.now own.now) count) }
        ensures err { OnErr result (self.new ≡ self.old) }
    {
        if count_of(&self.rows, maker, own) < count {
            set_count(&mut self.rows, maker, own, count)?;
        }
        Ok(())
    }

    /// Whether two have equal counters at each home.
    pub fn same(&self, other: &Counters) -> bool
        ensures { IsTrue result ↔ (self.now ≡ other.now) }
    {
        same_maps::<_, _, Whole>(&self.rows, &other.rows, None)
    }

    /// Whether two have equal counters at each home whose maker's label flows to the observer's.
    pub fn same_seen(&self, other: &Counters, observer: &Label) -> bool
        ensures { IsTrue result ↔ AreSeenAlike observer.now self.now other.now }
    {
        same_maps::<_, _, Whole>(&self.rows, &other.rows, Some(observer))
    }

    /// The homes that are counted, each once, with their counters. No memory is taken.
    pub fn homes(&self) -> HomeCounts<'_>
        ensures { IsListing result self.now }
    {
        HomeCounts { rows: &self.rows }
    }

    /// What holds of all counters. The call does nothing: its clause is for its caller's proof.
    pub fn facts(&self)
        ensures { IsAboveZero self.now }
    {
        let _ = &self.rows;
    }

    /// Equal counters.
    ///
    /// # Errors
    ///
    /// `NoMemory` where memory is refused.
    pub fn copy(&self) -> Result<Counters, NoMemory>
        ensures { IfOk result (λ c. c ≡ self.now) }
    {
        let rows = copied_rows(&self.rows)?;
        Ok(Counters { rows })
    }
}

/// The homes that are counted, with their counters, as a list.
///
/// The order of the list means nothing, and no contract tells it. So one list is read from its first place to its
/// last, and places of two lists are not compared.
#[derive(Drop)]
pub struct HomeCounts<'a> {
    rows: &'a Rows,
}

impl<'a> Model for HomeCounts<'a> {
    ghost use Rattle.std.specs.Prelude.{ℕ, List};
    ghost use Rattle.std.specs.Coded.{coded×, coded_list, coded_ℕ};
    ghost use Rattle.lam_value_homes.specs.Homes.{Home, coded_home, homes_in};

    ghost Value = { List (Home × ℕ) };

    ghost coded = { coded_list (coded× coded_home coded_ℕ) };

    ghost view = { λ c. homes_in c.rows.now.entries };
}

impl<'a> HomeCounts<'a> {
    /// The home at a place, as its maker's label and its own label, with its counter, or `None` exactly past the
    /// last.
    ///
    /// It goes over the makers, so a place far back takes as many steps as there are makers.
    pub fn get(&self, at: u64) -> Option<(&'a Label, &'a Label, u64)>
        ensures { option_map (λ e. (home_of e.0.now e.1.now, e.2)) result ≡ slice_get self.now at }
    {
        home_at(self.rows, at as usize)
    }

    /// The whole list, each home as [`HomeCounts::get`] gives it. It takes time and memory by the number of homes.
    ///
    /// # Errors
    ///
    /// `NoMemory` where memory is refused.
    pub fn list(&self, alloc: Global) -> Result<Vec<(&'a Label, &'a Label, u64)>, NoMemory>
        ensures { IfOk result (λ hs. map_list listed_home hs.items ≡ self.now) }
    {
        all_homes(alloc, self.rows)
    }
}

impl Same<Whole> for Row {
    ghost IsSame = { λ r s. (q : Label) → at_key label_eq r q ≡ at_key label_eq s q };

    fn same(&self, other: &Row) -> bool {
        same_maps::<_, _, Whole>(self, other, None)
    }
}

fn count_of(rows: &Rows, maker: &Label, own: &Label) -> u64
    ensures { result ≡ unwrap_or (home_in rows.now.entries (home_of maker.now own.now)) 0 }
{
    match rows.get(maker) {
        None => 0,
        Some(row) => row_count(row, own),
    }
}

fn row_count(row: &Row, own: &Label) -> u64
    ensures { result ≡ unwrap_or (at_key label_eq row.now own.now) 0 }
{
    row.get(own).copied().unwrap_or(0)
}

/// The home at a place among those of all makers, one maker's after another's, with its counter.
fn home_at(rows: &Rows, at: usize) -> Option<(&Label, &Label, u64)>
    ensures { option_map (λ e. (home_of e.0.now e.1.now, e.2)) result ≡ slice_get (homes_in rows.now.entries) at }
{
    let mut rest = at;
    for place in 0..rows.len() {
        let Some((maker, row)) = rows.get_index(place) else {
            unreachable!()
        };
        if let Some((own, count)) = row.get_index(rest) {
            return Some((maker, own, *count));
        }
        rest -= row.len();
    }
    None
}

/// The homes of all makers, one maker's after another's, with their counters.
fn all_homes<'a>(
    alloc: Global,
    rows: &'a Rows,
) -> Result<Vec<(&'a Label, &'a Label, u64)>, NoMemory>
    ensures { IfOk result (λ hs. map_list listed_home hs.items ≡ homes_in rows.now.entries) }
{
    let mut homes: Vec<(&'a Label, &'a Label, u64)> = Vec::new(alloc);
    for place in 0..rows.len() {
        let Some((maker, row)) = rows.get_index(place) else {
            unreachable!()
        };
        push_row(&mut homes, maker, row)?;
    }
    Ok(homes)
}

/// Puts the homes of a maker, with their counters, at the end of a list.
fn push_row<'a>(
    homes: &mut Vec<(&'a Label, &'a Label, u64)>,
    maker: &'a Label,
    row: &'a Row,
) -> Result<(), NoMemory>
    ensures { OnOk result (map_list listed_home homes.new.items ≡ map_list listed_home homes.old.items ++ homes_of maker.now row.now.entries) }
{
    for at in 0..row.len() {
        let Some((own, count)) = row.get_index(at) else {
            unreachable!()
        };
        homes.push((maker, own, *count))?;
    }
    Ok(())
}

/// Sets the counter of a home.
fn set_count(rows: &mut Rows, maker: &Label, own: &Label, count: u64) -> Result<(), NoMemory>
    requires homes { AreHomes rows.old }
    requires some { 0 < count }
    ensures ok { OnOk result ((h : Home) → home_in rows.new.entries h ≡ cond (home_eq (home_of maker.now own.now) h) (Some count) (home_in rows.old.entries h)) }
    ensures err { OnErr result ((h : Home) → home_in rows.new.entries h ≡ home_in rows.old.entries h) }
    ensures homes { AreHomes rows.new }
{
    match rows.get_mut(maker) {
        Some(row) => {
            set_row(row, own, count)?;
            Ok(())
        }
        None => {
            let row = one_count(own, count)?;
            put_row(rows, maker, row)?;
            Ok(())
        }
    }
}

/// Puts in the row of a maker.
fn put_row(rows: &mut Rows, maker: &Label, row: Row) -> Result<(), NoMemory>
    ensures ok { OnOk result ((q : Label) → at_key label_eq rows.new q ≡ cond (label_eq maker.now q) (Some row) (at_key label_eq rows.old q)) }
    ensures unique { OnOk result (IsUnique label_eq rows.new) }
    ensures err { OnErr result (rows.new.entries ≡ rows.old.entries) }
{
    let maker = maker.copy()?;
    rows.insert(maker, row)?;
    Ok(())
}

/// A row with one own label alone.
fn one_count(own: &Label, count: u64) -> Result<Row, NoMemory>
    ensures same { IfOk result (λ row. (q : Label) → at_key label_eq row q ≡ cond (label_eq own.now q) (Some count) None) }
    ensures unique { IfOk result (λ row. IsUnique label_eq row) }
{
    let mut row = IndexMap::new(own.allocator());
    put_count(&mut row, own, count)?;
    Ok(row)
}

fn set_row(row: &mut Row, own: &Label, count: u64) -> Result<(), NoMemory>
    ensures ok { OnOk result ((q : Label) → at_key label_eq row.new q ≡ cond (label_eq own.now q) (Some count) (at_key label_eq row.old q)) }
    ensures err { OnErr result ((q : Label) → at_key label_eq row.new q ≡ at_key label_eq row.old q) }
    ensures unique { IsUnique label_eq row.new }
{
    match row.get_mut(own) {
        Some(number) => {
            *number = count;
            Ok(())
        }
        None => {
            put_count(row, own, count)?;
            Ok(())
        }
    }
}

/// Puts in the counter of an own label.
fn put_count(row: &mut Row, own: &Label, count: u64) -> Result<(), NoMemory>
    ensures ok { OnOk result ((q : Label) → at_key label_eq row.new q ≡ cond (label_eq own.now q) (Some count) (at_key label_eq row.old q)) }
    ensures unique { OnOk result (IsUnique label_eq row.new) }
    ensures err { OnErr result (row.new.entries ≡ row.old.entries) }
{
    let own = own.copy()?;
    row.insert(own, count)?;
    Ok(())
}

fn copied_rows(rows: &Rows) -> Result<Rows, NoMemory>
    requires { AreHomes rows.now }
    ensures same { IfOk result (λ new. (h : Home) → home_in new.entries h ≡ home_in rows.now.entries h) }
    ensures homes { IfOk result (λ new. AreHomes new) }
{
    let mut copy = IndexMap::new(*rows.allocator());
    for at in 0..rows.len() {
        let Some((maker, row)) = rows.get_index(at) else {
            unreachable!()
        };
        let row = copied_row(row)?;
        put_row(&mut copy, maker, row)?;
    }
    Ok(copy)
}

fn copied_row(row: &Row) -> Result<Row, NoMemory>
    ensures same { IfOk result (λ new. (q : Label) → at_key label_eq new q ≡ at_key label_eq row.now q) }
    ensures unique { IfOk result (λ new. IsUnique label_eq new) }
{
    let mut copy = IndexMap::new(*row.allocator());
    for at in 0..row.len() {
        let Some((own, count)) = row.get_index(at) else {
            unreachable!()
        };
        put_count(&mut copy, own, *count)?;
    }
    Ok(copy)
}
