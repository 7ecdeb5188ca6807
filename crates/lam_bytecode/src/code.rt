//! The code of a program.

ghost use Rattle.std.specs.Prelude.{◌≡◌, ◌<◌, ◌^◌, length};
ghost use Rattle.lam_bytecode.specs.Codes.{IsCode, code_of, unit_named, is_named};

use crate::unit::{CodeUnit, Kinds, UnitKind};
use lam_value::{Value, Values};
use std::marker::Model;

/// The units of a program, functions in source order and then regions by number; the constants, each once; and for each
/// class the kinds of its fields.
///
/// Every code keeps that it has fewer than 2^32 units, constants and classes, and each unit fewer than 2^32
/// operations; that a constant is a number, a truth value, bytes or null; that a unit has at least as many locals as
/// parameters or captures; and that the regions are numbered from 0 in their order.
#[derive(Drop)]
pub struct Code {
    units: Vec<CodeUnit>,
    constants: Values,
    classes: Vec<Kinds>,
}

impl Model for Code {
    ghost use Rattle.lam_bytecode.specs.Codes.{CodeTree, coded_code, IsCode};

    ghost Value = { CodeTree };

    ghost coded = { coded_code };

    ghost view = { λ c. record { units = c.units.items; constants = c.constants; classes = c.classes.items } };

    ghost invariant = { λ c. IsCode (record { units = c.units.items; constants = c.constants; classes = c.classes.items }) };
}

impl Code {
    /// The code of these units, constants and classes.
    pub fn new(units: Vec<CodeUnit>, constants: Values, classes: Vec<Kinds>) -> Code
        requires { IsCode (code_of units.items constants classes.items) }
        ensures { result ≡ code_of units.items constants classes.items }
    {
        Code {
            units,
            constants,
            classes,
        }
    }

    /// The units, by number.
    pub fn units(&self) -> &[CodeUnit]
        ensures { result.now ≡ self.now.units }
    {
        self.units.as_slice()
    }

    /// The units, by number, with what every code keeps: that the regions are numbered from 0 in their order, among others.
    pub fn kept_units(&self) -> &[CodeUnit]
        ensures units { result.now ≡ self.now.units }
        ensures keeps { IsCode self.now }
    {
        self.units.as_slice()
    }

    /// The constants, by number.
    pub fn constants(&self) -> &[Value]
        ensures { result.now ≡ self.now.constants }
    {
        self.constants.as_slice()
    }

    /// The kinds of each class's fields, by class number.
    pub fn classes(&self) -> &[Kinds]
        ensures { result.now ≡ self.now.classes }
    {
        self.classes.as_slice()
    }

    /// The number of the function with a name, `None` exactly where no function has it.
    pub fn function(&self, name: &str) -> Option<u32>
        ensures { result ≡ unit_named name.now self.now.units }
    {
        find_function(self.units.as_slice(), name)
    }
}

fn find_function(units: &[CodeUnit], name: &str) -> Option<u32>
    requires { length units.now < 2 ^ 32 }
    ensures { result ≡ unit_named name.now units.now }
{
    for i in 0..units.len() {
        if is_named(&units[i], name) {
            return Some(i as u32);
        }
    }
    None
}

fn is_named(unit: &CodeUnit, name: &str) -> bool
    ensures { result ≡ is_named name.now unit.now }
{
    match &unit.kind {
        UnitKind::Function { name: own, .. } => own.as_str() == name,
        UnitKind::Region { .. } => false,
    }
}
