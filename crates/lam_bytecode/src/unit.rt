//! Units, and the lists in them.

ghost use Rattle.std.specs.Prelude.{◌≡◌, string_bytes};

use crate::op::Op;
use lam_value::Kind;
use std::marker::Model;

/// The operations of a unit, by address.
#[derive(Debug, Drop)]
pub struct Ops {
    items: Vec<Op>,
}

impl Model for Ops {
    ghost use Rattle.std.specs.Prelude.{List};
    ghost use Rattle.std.specs.Coded.{coded_list};
    ghost use Rattle.lam_bytecode.specs.declared.op.Op.{Op as Item};
    ghost use Rattle.lam_bytecode.specs.contracts.op.Op as item;

    ghost Value = { List Item };

    ghost coded = { coded_list item.the_row.coded };

    ghost view = { λ ops. ops.items.items };
}

impl Ops {
    /// The operations of a vector, which are not copied.
    pub fn from_vec(items: Vec<Op>) -> Ops
        ensures { result ≡ items.items }
    {
        Ops { items }
    }

    /// The operations, by address.
    pub fn as_slice(&self) -> &[Op]
        ensures { result.now ≡ self.now }
    {
        self.items.as_slice()
    }
}

/// What a parameter of a function takes, as far as a world document gives arguments.
#[derive(Clone, Copy, Debug, PartialEq, Eq)]
pub enum ArgKind {
    Int,
    Bool,
    Bytes,
    Tag,
    Pipe,
    /// Every other type.
    Other,
}

/// The parameters of a function.
#[derive(Debug, Drop)]
pub struct ArgKinds {
    items: Vec<ArgKind>,
}

impl Model for ArgKinds {
    ghost use Rattle.std.specs.Prelude.{List};
    ghost use Rattle.std.specs.Coded.{coded_list};
    ghost use Rattle.lam_bytecode.specs.declared.unit.ArgKind.{ArgKind as Item};
    ghost use Rattle.lam_bytecode.specs.contracts.unit.ArgKind as item;

    ghost Value = { List Item };

    ghost coded = { coded_list item.the_row.coded };

    ghost view = { λ kinds. kinds.items.items };
}

impl ArgKinds {
    /// The kinds of a vector, which are not copied.
    pub fn from_vec(items: Vec<ArgKind>) -> ArgKinds
        ensures { result ≡ items.items }
    {
        ArgKinds { items }
    }

    /// The kinds, parameter by parameter.
    pub fn as_slice(&self) -> &[ArgKind]
        ensures { result.now ≡ self.now }
    {
        self.items.as_slice()
    }
}

/// The kinds of a class's fields, in order.
#[derive(Debug, Drop)]
pub struct Kinds {
    items: Vec<Kind>,
}

impl Model for Kinds {
    ghost use Rattle.std.specs.Prelude.{List};
    ghost use Rattle.std.specs.Coded.{coded_list};
    ghost use Rattle.lam_value.specs.declared.shapes.Kind.{Kind as Item};
    ghost use Rattle.lam_value.specs.contracts.shapes.Kind as item;

    ghost Value = { List Item };

    ghost coded = { coded_list item.the_row.coded };

    ghost view = { λ kinds. kinds.items.items };
}

impl Kinds {
    /// The kinds of a vector, which are not copied.
    pub fn from_vec(items: Vec<Kind>) -> Kinds
        ensures { result ≡ items.items }
    {
        Kinds { items }
    }

    /// The kinds, field by field.
    pub fn as_slice(&self) -> &[Kind]
        ensures { result.now ≡ self.now }
    {
        self.items.as_slice()
    }
}

/// The name of a function, seen as its bytes in UTF-8.
#[derive(Debug, Drop)]
pub struct FunctionName {
    text: String,
}

impl Model for FunctionName {
    ghost use Rattle.std.specs.Prelude.{ℕ, List, string_bytes};

    ghost Value = { List ℕ };

    ghost view = { λ name. string_bytes name.text };
}

impl FunctionName {
    /// The name that a text is, which is not copied.
    pub fn from_string(text: String) -> FunctionName
        ensures { result ≡ string_bytes text }
    {
        FunctionName { text }
    }

    /// The name.
    pub fn as_str(&self) -> &str
        ensures { result.now ≡ self.now }
    {
        self.text.as_str()
    }
}

/// What a unit is the code of.
#[derive(Debug, Drop)]
pub enum UnitKind {
    /// A function: its name, what it takes, and whether its result is a number.
    Function {
        name: FunctionName,
        takes: ArgKinds,
        gives_int: bool,
    },
    /// A region: its number, how many locals it captures, and the address at which its catch block begins.
    Region {
        region: u32,
        captures: u32,
        catch_at: u32,
    },
}

/// A unit: what it is, how many locals it has, and its operations.
#[derive(Debug, Drop)]
pub struct CodeUnit {
    pub kind: UnitKind,
    pub locals: u32,
    pub ops: Ops,
}
