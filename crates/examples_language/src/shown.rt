//! The text of a resolved program.
//!
//! A slot is `#n`; `cn`, `fn` and `rn` are the class, the function and the region of number n, and `c0.1` is field 1 of
//! class 0.

use lam_resolve_tree::{CapItem, Class, Expr, Function, Resolved, Stmt, ValueType};
use std::alloc::Global;
use std::fmt::Debug;

/// A text that is written, until memory is refused.
#[derive(Drop)]
struct TreeText {
    text: String,
    is_whole: bool,
}

impl TreeText {
    fn put(&mut self, part: &str) {
        if self.text.push_str(part).is_err() {
            self.is_whole = false;
        }
    }

    fn put_debug<T: Debug>(&mut self, front: &str, thing: &T) {
        if write!(self.text, "{front}{thing:?}").is_err() {
            self.is_whole = false;
        }
    }
}

/// The text of a program, if memory suffices for it: a line for each class, and one for each function.
pub fn text_of(alloc: Global, r: &Resolved) -> Option<String> {
    let mut out = TreeText {
        text: String::new(alloc),
        is_whole: true,
    };
    for class in &r.classes {
        push_class(&mut out, class);
    }
    for f in &r.functions {
        push_function(&mut out, f);
    }
    if out.is_whole { Some(out.text) } else { None }
}

fn push_class(out: &mut TreeText, class: &Class) {
    out.put("class");
    push_types(out, &class.fields);
    out.put("\n");
}

fn push_function(out: &mut TreeText, f: &Function) {
    out.put(f.name.as_str());
    out.put(":");
    push_types(out, &f.params);
    out.put(" ->");
    if let Some(t) = &f.result {
        push_type(out, t);
    }
    out.put(" slots");
    push_types(out, &f.slots);
    push_block(out, &f.body);
    out.put("\n");
}

fn push_types(out: &mut TreeText, ts: &[ValueType]) {
    for t in ts {
        push_type(out, t);
    }
}

fn push_type(out: &mut TreeText, t: &ValueType) {
    match t {
        ValueType::Int => out.put(" int"),
        ValueType::Bool => out.put(" bool"),
        ValueType::Bytes => out.put(" bytes"),
        ValueType::Tag => out.put(" tag"),
        ValueType::Label => out.put(" label"),
        ValueType::Caps => out.put(" caps"),
        ValueType::File => out.put(" file"),
        ValueType::Dir => out.put(" dir"),
        ValueType::Pipe => out.put(" pipe"),
        ValueType::Thread => out.put(" thread"),
        ValueType::Object(class) => out.put_debug(" c", class),
        ValueType::Array(element) => {
            out.put(" [");
            push_type(out, element);
            out.put(" ]");
        }
    }
}

fn push_slots(out: &mut TreeText, slots: &[usize]) {
    for slot in slots {
        out.put_debug(" #", slot);
    }
}

fn push_caps(out: &mut TreeText, items: &[CapItem]) {
    out.put(" caps(");
    for item in items {
        let slot = item.slot;
        let sign = if item.plus { "+" } else { "-" };
        out.put_debug(" #", &slot);
        out.put(sign);
    }
    out.put(" )");
}

#[cycle(push_expr)]
fn push_exprs(out: &mut TreeText, es: &Vec<Expr>) {
    out.put(" (");
    for e in es {
        push_expr(out, e);
    }
    out.put(" )");
}

#[cycle(push_expr)]
fn push_expr(out: &mut TreeText, e: &Expr) {
    match e {
        Expr::Number(n) => out.put_debug(" ", n),
        Expr::Text(_) => out.put(" text"),
        Expr::Bool(b) => out.put_debug(" ", b),
        Expr::Null => out.put(" null"),
        Expr::Local(slot) => out.put_debug(" #", slot),
        Expr::Unary { op, of } => {
            out.put_debug(" ", op);
            push_expr(out, of);
        }
        Expr::Binary { op, left, right } => {
            out.put(" (");
            push_expr(out, left);
            out.put_debug(" ", op);
            push_expr(out, right);
            out.put(" )");
        }
        Expr::Field {
            of,
            class,
            field,
            ty,
        } => {
            push_expr(out, of);
            out.put_debug(" .c", class);
            out.put_debug(".", field);
            out.put(":");
            push_type(out, ty);
        }
        Expr::Element { of, index, ty } => {
            push_expr(out, of);
            out.put(" [");
            push_expr(out, index);
            out.put(" ]:");
            push_type(out, ty);
        }
        Expr::Call { function, args } => {
            out.put_debug(" f", function);
            push_exprs(out, args);
        }
        Expr::BuiltinCall { call, args, ty } => {
            out.put_debug(" ", call);
            push_exprs(out, args);
            if let Some(t) = ty {
                out.put(":");
                push_type(out, t);
            }
        }
        Expr::NewClass { class } => out.put_debug(" new c", class),
        Expr::NewArray { element, length } => {
            out.put(" new");
            push_type(out, element);
            out.put(" [");
            push_expr(out, length);
            out.put(" ]");
        }
        Expr::LabelOf { s, i } => {
            out.put(" label");
            push_exprs(out, s);
            push_exprs(out, i);
        }
        Expr::CapsOf(items) => push_caps(out, items.as_slice()),
        Expr::Spawn {
            caps,
            function,
            args,
        } => {
            out.put(" spawn");
            push_expr(out, caps);
            out.put_debug(" f", function);
            push_exprs(out, args);
        }
    }
}

#[cycle(push_stmt)]
fn push_block(out: &mut TreeText, body: &Vec<Stmt>) {
    out.put(" {");
    for s in body {
        push_stmt(out, s);
        out.put(";");
    }
    out.put(" }");
}

#[cycle(push_stmt)]
fn push_stmt(out: &mut TreeText, s: &Stmt) {
    match s {
        Stmt::Let { slot, value } => {
            out.put_debug(" let #", slot);
            out.put(" =");
            push_expr(out, value);
        }
        Stmt::If { test, yes, no } => {
            out.put(" if");
            push_expr(out, test);
            push_block(out, yes);
            if let Some(body) = no {
                out.put(" else");
                push_block(out, body);
            }
        }
        Stmt::While { test, body } => {
            out.put(" while");
            push_expr(out, test);
            push_block(out, body);
        }
        Stmt::Return(value) => {
            out.put(" return");
            if let Some(e) = value {
                push_expr(out, e);
            }
        }
        Stmt::Throw(value) => {
            out.put(" throw");
            push_expr(out, value);
        }
        Stmt::Sync { slot, thing, body } => {
            out.put_debug(" sync #", slot);
            push_expr(out, thing);
            push_block(out, body);
        }
        Stmt::Region {
            number,
            label,
            caps,
            captures,
            slots,
            body,
            catch_slot,
            catch_body,
        } => {
            out.put_debug(" r", number);
            push_expr(out, label);
            push_expr(out, caps);
            out.put(" takes");
            push_slots(out, captures.as_slice());
            out.put(" slots");
            push_types(out, slots);
            push_block(out, body);
            out.put_debug(" catch #", catch_slot);
            push_block(out, catch_body);
        }
        Stmt::Do(e) => push_expr(out, e),
        Stmt::SetLocal { slot, value } => {
            out.put_debug(" #", slot);
            out.put(" =");
            push_expr(out, value);
        }
        Stmt::SetField {
            of,
            class,
            field,
            ty,
            value,
        } => {
            push_expr(out, of);
            out.put_debug(" .c", class);
            out.put_debug(".", field);
            out.put(":");
            push_type(out, ty);
            out.put(" =");
            push_expr(out, value);
        }
        Stmt::SetElement {
            of,
            index,
            ty,
            value,
        } => {
            push_expr(out, of);
            out.put(" [");
            push_expr(out, index);
            out.put(" ]:");
            push_type(out, ty);
            out.put(" =");
            push_expr(out, value);
        }
    }
}
