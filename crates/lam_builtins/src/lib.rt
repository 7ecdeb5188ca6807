//! The types of values, operators and built-in calls.
//!
//! `specs/Types` defines the types, what an expression may give and what a place takes. A class in a type stands by its
//! name or, once names are resolved, by its number. `specs/Operators` has the types of operators. `specs/Builtins` is
//! the one table of built-in calls, with the name, the arguments and the result of each. The type checker, the meaning
//! of a program, its bytecode and the machine all read these.
//!
//! - `rows`: the same table as values.
//! - `operators`: the types of operators, as values. Every other table in code is made from these two.
//! - `limits`: bounds on the size of a program.
//!
//! A public promise rests on `Builtin::named`: it finds exactly the built-in calls of the table, by name. Free to
//! change for speed: how it looks a name up.
#![tactic(auto)]

mod limits;
mod operators;
mod rows;

ghost use Rattle.std.specs.Prelude.{◌≡◌, length};
ghost use Rattle.std.specs.Str.{bytes_eq};
ghost use Rattle.lam_builtins.specs.Builtins.{row, builtin_named, named_in as first_named};

pub use limits::{
    MOST_CLASSES, MOST_FIELDS, MOST_FUNCTIONS, MOST_PARAMS, MOST_REGIONS, MOST_SLOTS,
};
pub use operators::{operand_type, operator_type, prefix_type};
pub use rows::{Answers, Arguments, PlainType, Row, Takes};

/// The built-in calls. `specs/Builtins.antt` has the table of their names, arguments and results.
#[derive(Clone, Copy, Debug, PartialEq, Eq, Drop)]
pub enum Builtin {
    Len,
    Size,
    Byte,
    Slice,
    Cat,
    Text,
    Number,
    MyLabel,
    MyCaps,
    Root,
    LabelOf,
    Copy,
    Mint,
    Say,
    MakeFile,
    MakeDir,
    OpenFile,
    OpenDir,
    Remove,
    Read,
    Length,
    Append,
    Cut,
    MakePipe,
    Send,
    SendCaps,
    Receive,
    ReceiveCaps,
    Join,
}

const ALL: [Builtin; 29] = [
    Builtin::Len,
    Builtin::Size,
    Builtin::Byte,
    Builtin::Slice,
    Builtin::Cat,
    Builtin::Text,
    Builtin::Number,
    Builtin::MyLabel,
    Builtin::MyCaps,
    Builtin::Root,
    Builtin::LabelOf,
    Builtin::Copy,
    Builtin::Mint,
    Builtin::Say,
    Builtin::MakeFile,
    Builtin::MakeDir,
    Builtin::OpenFile,
    Builtin::OpenDir,
    Builtin::Remove,
    Builtin::Read,
    Builtin::Length,
    Builtin::Append,
    Builtin::Cut,
    Builtin::MakePipe,
    Builtin::Send,
    Builtin::SendCaps,
    Builtin::Receive,
    Builtin::ReceiveCaps,
    Builtin::Join,
];

impl Builtin {
    /// The built-in call of a name, if there is one.
    #[tactic(auto, unfolding(crate::specs::Builtins::builtin_named))]
    pub fn named(name: &str) -> Option<Builtin>
        ensures { result ≡ builtin_named name.now }
    {
        named_in(name, &ALL)
    }

    /// Its name.
    pub fn name(self) -> &'static str
        ensures { result.now ≡ (row self).name }
    {
        self.row().name
    }

    /// How many arguments it takes, at most three.
    pub fn arity(self) -> usize
        ensures { result ≡ length (row self).signature.takes }
    {
        self.row().takes.count()
    }
}

// The first call of the name.
fn named_in(name: &str, calls: &[Builtin]) -> Option<Builtin>
    ensures { result ≡ first_named name.now calls.now }
{
    for call in calls {
        if has_name(*call, name) {
            return Some(*call);
        }
    }
    None
}

fn has_name(call: Builtin, name: &str) -> bool
    ensures { result ≡ bytes_eq name.now (row call).name }
{
    name.as_bytes() == call.name().as_bytes()
}
