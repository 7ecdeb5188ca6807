//! Cells, and objects and arrays.

ghost use Rattle.std.specs.Prelude.{◌<◌, IsTrue, length};
ghost use Rattle.labelled_heap.specs.Things.{slots_at};

use flow_labels::Label;
use labelled_heap::{Cells, Heap, Sort};
use lam_value::{Kind, Name, Shape, Value};
use std::alloc::Global;
use tag_sets::NoMemory;

/// Adds a public cell.
fn add(cells: &mut Cells, public: Label, value: i64) -> Option<u32> {
    if cells.count() >= 65_536 {
        return None;
    }
    cells.add(public, value).ok()
}

/// Writes a cell, if it is there.
fn set(cells: &mut Cells, cell: u32, value: i64) {
    if cell < cells.count() {
        cells.set(cell, value);
    }
}

/// Whether a cell is there and holds a number.
fn cell_holds(cells: &Cells, cell: u32, value: i64) -> bool {
    cell < cells.count() && cells.get(cell) == value
}

/// Whether a cell is there and its label has no tag.
fn is_public(cells: &Cells, cell: u32) -> bool {
    cell < cells.count() && cells.label(cell).s.first().is_none()
}

/// Whether a write changes its own cell alone.
fn writes_one(alloc: Global, cells: &mut Cells) -> Option<bool> {
    let first = add(cells, Label::public(alloc), 5)?;
    let second = add(cells, Label::public(alloc), -6)?;
    set(cells, second, i64::MIN);
    let wrote = cell_holds(cells, first, 5) & cell_holds(cells, second, i64::MIN);
    Some(wrote & is_public(cells, second) & cells.find(2).is_none())
}

/// Whether a write to new cells changes its own cell alone.
fn new_writes_one(alloc: Global) -> Option<bool> {
    let mut cells = Cells::new(alloc);
    writes_one(alloc, &mut cells)
}

#[test]
fn a_cell_is_written_alone(rt: HostRuntime) {
    assert!(rt; new_writes_one(rt.alloc()) == Some(true));
}

/// Makes a public array of one number.
fn make_one(heap: &mut Heap, public: &Label) -> Option<Name> {
    let shape = Shape::Array {
        kind: Kind::Int,
        len: 1,
    };
    heap.make(public, public, shape).ok()
}

/// Makes a public copy of a thing, if it lives.
fn copy_one(heap: &mut Heap, public: &Label, name: &Name) -> Option<Name> {
    if !heap.lives(name) {
        return None;
    }
    heap.copy_to(name, public, public).ok()
}

/// Whether a thing lives and has a slot.
fn has_slot(heap: &Heap, name: &Name) -> bool
    ensures { IsTrue result → 0 < length (slots_at heap.now name.now) }
{
    heap.lives(name) && heap.size(name) > 0
}

/// Writes a number into the first slot.
fn write_first(heap: &mut Heap, name: &Name, n: i64) {
    if has_slot(heap, name) {
        heap.write(name, 0, Value::Int(n));
    }
}

/// Whether a number stands in the first slot.
fn holds(heap: &Heap, name: &Name, n: i64) -> bool {
    has_slot(heap, name) && is_number(heap.read(name, 0), n)
}

fn is_number(value: &Value, n: i64) -> bool {
    matches!(value, Value::Int(held) if *held == n)
}

/// Whether what is written is read, and stands in the list of slots.
fn reads_what_it_wrote(heap: &mut Heap, name: &Name) -> bool {
    write_first(heap, name, 9);
    holds(heap, name, 9) & (heap.slots(name).len() == 1)
}

/// Whether a thing is an array of numbers.
fn is_array(heap: &Heap, name: &Name) -> bool {
    matches!(heap.sort(name), Some(Sort::Array(Kind::Int)))
}

/// Whether a copy has what was written, is an array too and got the second number.
fn is_like(heap: &Heap, name: &Name, public: &Label) -> bool {
    let numbered = (name.n() == 1) & (heap.next(public, public) == 2);
    numbered & holds(heap, name, 9) & is_array(heap, name)
}

/// Whether what is written is read, also from a copy.
fn writes_and_copies(heap: &mut Heap, public: &Label) -> Option<bool> {
    let name = make_one(heap, public)?;
    let wrote = reads_what_it_wrote(heap, &name);
    let other = copy_one(heap, public, &name)?;
    Some(wrote & is_like(heap, &other, public))
}

/// Whether what is written in a new heap is read, also from a copy.
fn new_writes_and_copies(alloc: Global) -> Option<bool> {
    let public = Label::public(alloc);
    let mut heap = Heap::new(alloc);
    writes_and_copies(&mut heap, &public)
}

#[test]
fn a_copy_has_what_was_written(rt: HostRuntime) {
    assert!(rt; new_writes_and_copies(rt.alloc()) == Some(true));
}

/// Whether two heaps are equal, and equal where the public observer sees.
fn are_same(a: &Heap, b: &Heap, public: &Label) -> bool {
    a.facts();
    a.same(b) & a.same_seen(b, public) & a.same_counters(b, public)
}

/// Whether two heaps are equal until something is made in the first.
fn are_copies(heap: &mut Heap, copy: &Heap, public: &Label) -> bool {
    let before = are_same(heap, copy, public);
    let made = make_one(heap, public).is_some();
    before & made & !are_same(heap, copy, public)
}

/// Whether a heap is equal to its copy, until something is made in it.
fn is_copied(heap: &mut Heap, public: &Label) -> Result<bool, NoMemory> {
    let copy = heap.copy()?;
    Ok(are_copies(heap, &copy, public))
}

/// Whether a new heap is equal to its copy, until something is made in it.
fn new_is_copied(alloc: Global) -> Result<bool, NoMemory> {
    let public = Label::public(alloc);
    let mut heap = Heap::new(alloc);
    is_copied(&mut heap, &public)
}

#[test]
fn a_copied_heap_is_equal(rt: HostRuntime) {
    assert!(rt; new_is_copied(rt.alloc()) == Ok(true));
}
