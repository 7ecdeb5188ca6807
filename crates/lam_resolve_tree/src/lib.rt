//! The tree of a resolved program, in which names are slots and numbers.
//!
//! Locals stand by slot, and fields, classes, functions and regions by number. An access has the type of what it reads
//! or writes, and a built-in call the type of its result. The meaning of a program and the compiler's scheme are on
//! these trees, and neither looks at a name.
//!
//! A unit is a function or a region, with slots of its own, counted from 0. A function's slots are its parameters, then
//! one for each `let` and each `sync` outside its regions, in order of appearance. A region's slots are its captures,
//! then one for each `let`, each `sync` and its catch name. Functions, classes and the fields of a class are numbered
//! in source order, and regions by the position of the word `region`.
//!
//! As in `lam_syntax`, the definitions are on a mirror of these types as plain data (`specs/Tree.antt`), with a view
//! from each type here.
//!
//! The promises of `resolve` of `lam_resolve` are stated in these definitions. Nothing here is a matter of speed.
#![tactic(auto)]

use lam_builtins::Builtin;
use lam_operators::{BinaryOp, UnaryOp};

/// A type. A class stands by its number.
#[cycle(value_type)]
#[derive(Drop)]
pub enum ValueType {
    Int,
    Bool,
    Bytes,
    Tag,
    Label,
    Caps,
    File,
    Dir,
    Pipe,
    Thread,
    Object(usize),
    Array(Box<ValueType>),
}

/// A tag in the braces of `caps`: the slot of a local, and whether it is given as plus or as minus.
#[derive(Clone, Copy, Debug, PartialEq, Eq, Drop)]
pub struct CapItem {
    pub slot: usize,
    pub plus: bool,
}

/// An expression.
#[cycle(expr)]
#[derive(Drop)]
pub enum Expr {
    Number(i64),
    /// A text, as the bytes that it means.
    Text(Vec<u8>),
    Bool(bool),
    Null,
    /// The local in a slot.
    Local(usize),
    Unary {
        op: UnaryOp,
        of: Box<Expr>,
    },
    Binary {
        op: BinaryOp,
        left: Box<Expr>,
        right: Box<Expr>,
    },
    /// A field, by the number of its class and its own number in it, and its type.
    Field {
        of: Box<Expr>,
        class: usize,
        field: usize,
        ty: ValueType,
    },
    /// An element, and its type.
    Element {
        of: Box<Expr>,
        index: Box<Expr>,
        ty: ValueType,
    },
    Call {
        function: usize,
        args: Vec<Expr>,
    },
    /// A built-in call, and the type of its result, where it has one.
    BuiltinCall {
        call: Builtin,
        args: Vec<Expr>,
        ty: Option<ValueType>,
    },
    NewClass {
        class: usize,
    },
    NewArray {
        element: ValueType,
        length: Box<Expr>,
    },
    LabelOf {
        s: Vec<Expr>,
        i: Vec<Expr>,
    },
    CapsOf(Vec<CapItem>),
    Spawn {
        caps: Box<Expr>,
        function: usize,
        args: Vec<Expr>,
    },
}

/// A statement. The expressions of the forms that would be the largest stand in boxes.
#[cycle(stmt)]
#[derive(Drop)]
pub enum Stmt {
    Let {
        slot: usize,
        value: Expr,
    },
    If {
        test: Expr,
        yes: Vec<Stmt>,
        no: Option<Vec<Stmt>>,
    },
    While {
        test: Expr,
        body: Vec<Stmt>,
    },
    Return(Option<Expr>),
    Throw(Expr),
    /// The slot keeps the thing whose monitor is held.
    Sync {
        slot: usize,
        thing: Expr,
        body: Vec<Stmt>,
    },
    /// A region, by its number. The captures are slots of the unit around it, whose values its own first slots take;
    /// `slots` has the types of all its own slots, and the slot `catch_slot` takes the number of a fault.
    Region {
        number: usize,
        label: Box<Expr>,
        caps: Box<Expr>,
        captures: Vec<usize>,
        slots: Vec<ValueType>,
        body: Vec<Stmt>,
        catch_slot: usize,
        catch_body: Vec<Stmt>,
    },
    /// An expression as a statement.
    Do(Expr),
    SetLocal {
        slot: usize,
        value: Expr,
    },
    /// An assignment to a field, by the number of its class and its own number in it, and its type.
    SetField {
        of: Box<Expr>,
        class: usize,
        field: usize,
        ty: ValueType,
        value: Expr,
    },
    /// An assignment to an element, and its type.
    SetElement {
        of: Box<Expr>,
        index: Box<Expr>,
        ty: ValueType,
        value: Expr,
    },
}

/// A class: the types of its fields, in order.
#[derive(Drop)]
pub struct Class {
    pub fields: Vec<ValueType>,
}

/// A function. `slots` has the types of all its slots, those of the parameters first.
#[derive(Drop)]
pub struct Function {
    pub name: String,
    pub params: Vec<ValueType>,
    pub result: Option<ValueType>,
    pub slots: Vec<ValueType>,
    pub body: Vec<Stmt>,
}

/// A program: its classes and its functions, each in source order.
#[derive(Drop)]
pub struct Resolved {
    pub classes: Vec<Class>,
    pub functions: Vec<Function>,
}
