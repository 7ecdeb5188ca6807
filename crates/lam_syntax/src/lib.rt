//! The syntax tree of a program.
//!
//! The parser makes a tree, the type checker and the region rules read it, and the printer writes it as canonical text.
//! The meaning of a program and the compiler's scheme are defined on it. Each node keeps its position: the byte of the
//! text, counted from 0, at which its first token begins. Parentheses around a whole node do not belong to it, and no
//! node stands for them.
//!
//! Boxes and vectors have places in memory, and no definition speaks of those. So `specs/Tree.antt` mirrors these types
//! as plain data, with a view from each type here. Every definition of the language is on that mirror.
//!
//! Each promise about programs speaks of the trees of `specs/Tree`. Nothing here is a matter of speed.
#![tactic(auto)]

use lam_operators::{BinaryOp, UnaryOp};

/// A name, and the position of its first byte.
#[derive(Drop)]
pub struct Id {
    pub at: u64,
    pub name: String,
}

/// A type as a program writes it.
#[cycle(type_expr)]
#[derive(Drop)]
pub struct TypeExpr {
    pub at: u64,
    pub kind: TypeKind,
}

/// The forms of a type. A class is named, and an array names the type of its elements.
#[cycle(type_expr)]
#[derive(Drop)]
pub enum TypeKind {
    Int,
    Bool,
    Bytes,
    Tag,
    Label,
    Caps,
    File,
    Dir,
    Pipe,
    Thread,
    Class(String),
    Array(Box<TypeExpr>),
}

/// A name with its type: a field, a parameter or a local.
#[derive(Drop)]
pub struct Var {
    pub name: Id,
    pub ty: TypeExpr,
}

/// A tag in the braces of `caps`: `name+` where `plus` holds, else `name-`.
#[derive(Drop)]
pub struct CapItem {
    pub name: Id,
    pub plus: bool,
}

/// An expression.
#[cycle(expr)]
#[derive(Drop)]
pub struct Expr {
    pub at: u64,
    pub kind: ExprKind,
}

/// The forms of an expression.
#[cycle(expr)]
#[derive(Drop)]
pub enum ExprKind {
    Binary {
        op: BinaryOp,
        left: Box<Expr>,
        right: Box<Expr>,
    },
    Unary {
        op: UnaryOp,
        of: Box<Expr>,
    },
    /// `of.field`
    Field {
        of: Box<Expr>,
        field: Id,
    },
    /// `of[index]`
    Element {
        of: Box<Expr>,
        index: Box<Expr>,
    },
    Number(i64),
    /// A text, as the bytes that it means.
    Text(Vec<u8>),
    Bool(bool),
    Null,
    Name(String),
    Call {
        name: Id,
        args: Vec<Expr>,
    },
    /// `new class()`
    NewClass {
        class: Id,
    },
    /// `new [element](length)`
    NewArray {
        element: TypeExpr,
        length: Box<Expr>,
    },
    /// `label{s; i}`
    LabelOf {
        s: Vec<Expr>,
        i: Vec<Expr>,
    },
    /// `caps{..}`
    CapsOf(Vec<CapItem>),
    /// `spawn(caps) function(args)`. The name stands in a box, since this form would be the largest.
    Spawn {
        caps: Box<Expr>,
        function: Box<Id>,
        args: Vec<Expr>,
    },
}

/// A statement.
#[cycle(stmt)]
#[derive(Drop)]
pub struct Stmt {
    pub at: u64,
    pub kind: StmtKind,
}

/// The forms of a statement.
#[cycle(stmt)]
#[derive(Drop)]
pub enum StmtKind {
    Let {
        var: Var,
        value: Expr,
    },
    If {
        test: Expr,
        yes: Vec<Stmt>,
        no: Option<Vec<Stmt>>,
    },
    While {
        test: Expr,
        body: Vec<Stmt>,
    },
    Return(Option<Expr>),
    Throw(Expr),
    Sync {
        thing: Expr,
        body: Vec<Stmt>,
    },
    /// `region (label, caps) [captures] { body } catch (catch_name) { catch_body }`. Its expressions stand in boxes,
    /// since this form would be the largest.
    Region {
        label: Box<Expr>,
        caps: Box<Expr>,
        captures: Vec<Id>,
        body: Vec<Stmt>,
        catch_name: Id,
        catch_body: Vec<Stmt>,
    },
    /// An expression as a statement.
    Do(Expr),
    Assign {
        place: Expr,
        value: Expr,
    },
}

/// A class. `at` is the position of the word `class`.
#[derive(Drop)]
pub struct Class {
    pub at: u64,
    pub name: Id,
    pub fields: Vec<Var>,
}

/// A function. `at` is the position of the word `fn`.
#[derive(Drop)]
pub struct Function {
    pub at: u64,
    pub name: Id,
    pub params: Vec<Var>,
    pub result: Option<TypeExpr>,
    pub body: Vec<Stmt>,
}

/// What a program consists of.
#[derive(Drop)]
pub enum Item {
    Class(Class),
    Function(Function),
}

/// A program.
#[derive(Drop)]
pub struct Program {
    pub items: Vec<Item>,
}
