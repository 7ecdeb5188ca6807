//! The state of a walk over one thread's source, and its meaning.
//!
//! A walk keeps its pending work in a list of its own, so that deep programs take no machine stack. A *control* is what
//! is done now. *Frames* are what is done with its value or its end, the next one last. An expression opens into a
//! control for its first operand and a frame that waits for that operand's value. A frame that has its value becomes a
//! control again. Calls and regions leave *delimiters* among the frames, which keep what stood around them. A fault and a
//! `return` drop frames down to the next delimiter that stops them.
//!
//! A state means the tree of asks that is left of the thread (`specs/Meaning`). That is the control's own tree, and
//! what the frames do with each of its ends. Each step leaves that tree as it is, or goes from an ask to one of its
//! answers. This is proved where the steps are; `proofs/Steps` has the law of each.
//!
//! `walk_laws` says that a walk begins as the thread's meaning, and that delimiters keep what stood around them. A meaning
//! bounds how deep loops and calls nest. Pending work has that bound, its *depth*, beside it.
//!
//! The promise of `walk` (`source_walk`) rests on `walks_begin` and `delimiters_keep`: what a walk has left is what
//! its source means. Nothing here is a matter of speed.
#![tactic(auto)]

mod walk_laws;

use capabilities::Caps;
use flow_labels::Label;
use lam_asks::{Ask, Fault, Outcome};
use lam_builtins::Builtin;
use lam_operators::{BinaryOp, UnaryOp};
use lam_resolve_tree::{Expr, Stmt};
use lam_value::{Kind, Value, Values};
pub use walk_laws::{delimiters_keep, walks_begin};

/// The sort of value that the place of an ask wants. Where it wants none, it is a number.
#[derive(Clone, Copy, Debug, PartialEq, Eq)]
pub enum Sort {
    Number,
    Truth,
    Bytes,
    Tag,
    Label,
    Caps,
    File,
    Dir,
    Pipe,
    Thread,
    Object,
    Array,
}

/// What the values of arguments are for.
#[derive(Drop)]
pub enum Using<'a> {
    Call { function: usize },
    /// A built-in call, with the sort of its result.
    Builtin { call: Builtin, sort: Sort },
    /// They are the tags of secrecy of a label, whose tags of integrity come next.
    Secrets { vouchers: &'a [Expr] },
    /// They are the tags of integrity of a label.
    Vouchers { secrets: Values },
    Spawn { function: usize, caps: Value },
}

/// How a thread begins: a function of its program by number, arguments and capabilities.
#[derive(Drop)]
pub struct Beginning {
    pub function: u32,
    pub args: Values,
    pub caps: Caps,
}

/// What is given of a region: its number, the captured slots, how many slots it has, its body, and its catch block with
/// the slot of the fault.
#[derive(Clone, Copy)]
pub struct Region<'a> {
    pub number: usize,
    pub captures: &'a [usize],
    pub slots: usize,
    pub body: &'a [Stmt],
    pub catch_slot: usize,
    pub catch_body: &'a [Stmt],
}

/// What stood around a region when it was entered.
#[derive(Drop)]
pub struct Outside {
    pub label: Label,
    pub calls: u64,
    pub locals: Values,
    pub caps: Caps,
}

/// What comes before an expression that is next.
#[derive(Drop)]
pub enum BeforeExpr {
    /// The left operand of an operator.
    Left(BinaryOp),
    /// The array of an element that is read.
    OfElement(Sort),
    /// The object whose field gets the expression's value.
    OfField(usize),
    /// The index of an element of this array, which gets the expression's value.
    OfIndex(Value),
}

/// What comes before a block that is next.
#[derive(Drop)]
pub enum BeforeBlock {
    /// The statement before it.
    Statement,
    /// A thing: its monitor is taken, and kept in the slot.
    Thing(usize),
    /// The taking of the monitor that the slot keeps.
    Taking(usize),
}

/// What comes before the next part of a region.
#[derive(Drop)]
pub enum BeforeRegion<'a> {
    /// Its label: its capabilities are next.
    Label(&'a Expr),
    /// Its capabilities: it is entered at this label.
    Caps(Value),
    /// A delimiter: its body.
    Body(Outside),
    /// A delimiter: that the fault was caught. Its catch block is next.
    Caught(Fault, Outside),
}

/// What is done with the value of what comes before it.
#[derive(Drop)]
pub enum Frame<'a> {
    /// A prefix operator.
    Prefix(UnaryOp),
    /// An operator, with its left operand.
    Operate {
        op: BinaryOp,
        left: Value,
    },
    /// A field of the object is read.
    Field {
        at: usize,
        sort: Sort,
    },
    /// An element of an array is read, at the index.
    Element {
        array: Value,
        sort: Sort,
    },
    /// A new array is made, of the length.
    Length(Kind),
    /// An expression is next.
    Expr {
        depth: u64,
        e: &'a Expr,
        before: BeforeExpr,
    },
    /// The arguments of a new thread are next, with the capabilities.
    Spawn {
        depth: u64,
        function: usize,
        args: &'a [Expr],
    },
    /// More arguments are next.
    Args {
        depth: u64,
        rest: &'a [Expr],
        done: Values,
        using: Using<'a>,
    },
    /// A local gets the value.
    Assign(usize),
    /// The value is for nothing.
    Drop,
    /// A field of the object gets the value.
    SetField {
        at: usize,
        object: Value,
    },
    /// The index of an element of the array is next, and then the value for it.
    Index {
        depth: u64,
        index: &'a Expr,
        value: &'a Expr,
    },
    /// An element gets the value.
    SetElement {
        array: Value,
        index: Value,
    },
    Return,
    Throw,
    Branch {
        depth: u64,
        first: &'a [Stmt],
        other: &'a [Stmt],
    },
    /// A loop: its turn, after its test, or its rest, after a turn.
    Loop {
        depth: u64,
        test: &'a Expr,
        body: &'a [Stmt],
        tested: bool,
    },
    /// A block is next.
    Block {
        depth: u64,
        body: &'a [Stmt],
        before: BeforeBlock,
    },
    /// The monitor in the slot is given back.
    Held(usize),
    /// A part of a region is next.
    Region {
        depth: u64,
        region: Region<'a>,
        before: BeforeRegion<'a>,
    },
    /// What a rule forbids raises its fault.
    Bar,
    /// A `return` goes on, with its value.
    Leaving(Value),
    /// A delimiter: the end of a call, with the caller's locals.
    Called {
        calls: u64,
        locals: Values,
    },
    /// A delimiter: the end of a region's catch block.
    Catch {
        outside: Outside,
    },
}

/// How it goes on after an answer.
#[derive(Clone, Copy, Debug, PartialEq, Eq)]
pub enum Reply {
    /// With the answer's value, and what that brings to the context.
    Value,
    /// With null.
    Done,
}

/// What is done now.
#[derive(Drop)]
pub enum Control<'a> {
    Eval {
        depth: u64,
        e: &'a Expr,
    },
    /// Arguments from left to right, after those that are done.
    Gather {
        depth: u64,
        rest: &'a [Expr],
        done: Values,
        using: Using<'a>,
    },
    Exec {
        depth: u64,
        s: &'a Stmt,
    },
    Block {
        depth: u64,
        rest: &'a [Stmt],
    },
    /// It goes on with a value.
    Give(Value),
    Raise(Fault),
    /// A `return`, with its value.
    Leave(Value),
    Ask {
        ask: Ask,
        sort: Sort,
        reply: Reply,
    },
    /// A new object of a class is asked for.
    New {
        class: usize,
    },
    /// A new thread is asked for, that runs a function with these arguments and capabilities.
    Spawn {
        function: usize,
        args: Values,
        caps: Caps,
    },
    /// A region is asked for, at a label with capabilities.
    Enter {
        depth: u64,
        label: Label,
        caps: Caps,
        region: Region<'a>,
    },
    /// The last ask.
    End(Outcome),
    /// The last ask was answered.
    Over,
    /// No unit was left, or no depth.
    Spent,
    /// An operand is of another kind than its place.
    Broken,
}
