//! Cells, which are numbers with labels.

ghost use Rattle.std.specs.Prelude.{◌≡◌, ◌<◌, ◌≤◌, ◌++◌, ◌∷◌, [], length, Some, IfOk, OnErr, slice_get};
ghost use Rattle.std.specs.Option.{option_copied, option_map};
ghost use Rattle.labelled_heap.specs.CellAt.{with_value, most_cells};

use lam_value::{Label, NoMemory};
use std::alloc::Global;
use std::marker::Model;

/// A number with a label.
#[derive(Debug, Drop)]
pub struct Cell {
    pub label: Label,
    pub value: i64,
}

/// Cells, in the order in which they were added. The first has number 0.
///
/// There are at most 65,536. A cell keeps its label, and the others stay as they are when one is written.
#[derive(Debug, Drop)]
pub struct Cells {
    cells: Vec<Cell>,
}

impl Model for Cells {
    ghost use Rattle.std.specs.Prelude.{List};
    ghost use Rattle.std.specs.Coded.{codes};
    ghost use Rattle.lam_value.specs.Tags.{coded_tags};
    ghost use Rattle.labelled_heap.specs.declared.cells.Cell.{Cell};

    ghost Value = { List Cell };

    ghost coded = { Prim.hlevel (codes, coded_tags) };

    ghost use Rattle.std.specs.Prelude.{◌≤◌, length};
    ghost use Rattle.labelled_heap.specs.CellAt.{most_cells};

    ghost view = { λ c. c.cells.items };

    ghost invariant = { λ c. length c.cells.items ≤ most_cells };
}

impl Cells {
    /// No cells.
    pub fn new(alloc: Global) -> Cells
        ensures { result ≡ [] }
    {
        Cells {
            cells: Vec::new(alloc),
        }
    }

    /// Adds a cell, and gives its number.
    ///
    /// # Errors
    ///
    /// `NoMemory`; the cells are then as before.
    pub fn add(&mut self, label: Label, value: i64) -> Result<u32, NoMemory>
        requires { length self.old < most_cells }
        ensures ok { IfOk result (λ c. (c ≡ length self.old) × (self.new ≡ self.old ++ record { label = label; value = value } ∷ [])) }
        ensures err { OnErr result (self.new ≡ self.old) }
    {
        let number = self.cells.len() as u32;
        self.cells.push(Cell { label, value })?;
        Ok(number)
    }

    /// How many cells there are: the number that the next one would get.
    pub fn count(&self) -> u32
        ensures count { result ≡ length self.now }
        ensures few { length self.now ≤ most_cells }
    {
        self.cells.len() as u32
    }

    /// The cell of a number, where there is one.
    pub fn find(&self, c: u32) -> Option<&Cell>
        ensures { option_copied result ≡ slice_get self.now c }
    {
        self.cells.get(c as usize)
    }

    /// The label of a cell.
    pub fn label(&self, c: u32) -> &Label
        requires { c < length self.now }
        ensures { Some result.now ≡ option_map (λ cell. cell.label) (slice_get self.now c) }
    {
        &self.cells[c as usize].label
    }

    /// What a cell holds.
    pub fn get(&self, c: u32) -> i64
        requires { c < length self.now }
        ensures { Some result ≡ option_map (λ cell. cell.value) (slice_get self.now c) }
    {
        self.cells[c as usize].value
    }

    /// Changes what a cell holds. Its label stays, and so do all other cells.
    pub fn set(&mut self, c: u32, value: i64)
        requires { c < length self.old }
        ensures { self.new ≡ with_value self.old c value }
    {
        let cell = &mut self.cells[c as usize];
        cell.value = value;
    }
}
