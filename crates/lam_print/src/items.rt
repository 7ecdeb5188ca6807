//! The text of classes, functions and programs.

ghost use Rattle.std.specs.Prelude.{◌≡◌, OnOk, IfOk, false};
ghost use Rattle.std.specs.String.{string_bytes};
ghost use Rattle.lam_syntax.specs.Tree as view;
ghost use Rattle.lam_print.specs.Canon as canon;
ghost use Rattle.lam_print.specs.Printing.{Puts};

use crate::exprs::{put_type, put_var, put_vars};
use crate::stmts::put_block;
use crate::words::{put, put_gap, put_line, put_name};
use lam_syntax::{Class, Function, Item, Program, TypeExpr, Var};
use want_of_memory::NoMemory;

fn put_fields(out: &mut String, fields: &[Var]) -> Result<(), NoMemory>
    ensures { OnOk result (Puts (string_bytes out.old) (string_bytes out.new) (canon.lay_fields (view.vars_tree fields.now))) }
{
    for x in fields {
        put_line(out, 1)?;
        put_var(out, x)?;
        put(out, ";")?;
    }
    Ok(())
}

fn put_class_body(out: &mut String, fields: &[Var]) -> Result<(), NoMemory>
    ensures { OnOk result (Puts (string_bytes out.old) (string_bytes out.new) (canon.lay_class_body (view.vars_tree fields.now))) }
{
    if fields.is_empty() {
        return put(out, " }");
    }
    put_fields(out, fields)?;
    put(out, "\n}")
}

fn put_class(out: &mut String, class: &Class) -> Result<(), NoMemory>
    ensures { OnOk result (Puts (string_bytes out.old) (string_bytes out.new) (canon.lay_class (view.class_tree class.now))) }
{
    put(out, "class ")?;
    put_name(out, &class.name)?;
    put(out, " {")?;
    put_class_body(out, &class.fields)
}

fn put_result(out: &mut String, ty: &Option<TypeExpr>) -> Result<(), NoMemory>
    ensures { OnOk result (Puts (string_bytes out.old) (string_bytes out.new) (canon.lay_result (view.option_type_tree ty.now))) }
{
    match ty {
        None => Ok(()),
        Some(t) => {
            put(out, ": ")?;
            put_type(out, t)
        }
    }
}

fn put_function(out: &mut String, function: &Function) -> Result<(), NoMemory>
    ensures { OnOk result (Puts (string_bytes out.old) (string_bytes out.new) (canon.lay_function (view.function_tree function.now))) }
{
    put(out, "fn ")?;
    put_name(out, &function.name)?;
    put(out, "(")?;
    put_vars(out, &function.params)?;
    put(out, ")")?;
    put_result(out, &function.result)?;
    put(out, " ")?;
    put_block(out, &function.body, 0)
}

fn put_item(out: &mut String, item: &Item) -> Result<(), NoMemory>
    ensures { OnOk result (Puts (string_bytes out.old) (string_bytes out.new) (canon.lay_item (view.item_tree item.now))) }
{
    match item {
        Item::Class(class) => put_class(out, class),
        Item::Function(function) => put_function(out, function),
    }
}

fn put_items(out: &mut String, items: &[Item]) -> Result<(), NoMemory>
    ensures { OnOk result (Puts (string_bytes out.old) (string_bytes out.new) (canon.lay_items false (view.items_tree items.now))) }
{
    for i in 0..items.len() {
        put_gap(out, i > 0)?;
        put_item(out, &items[i])?;
        put(out, "\n")?;
    }
    Ok(())
}

/// The canonical text of a program. Only want of memory is refused.
pub fn print(program: &Program) -> Result<String, NoMemory>
    ensures { IfOk result (λ s. string_bytes s ≡ canon.canon (view.program_tree program.now)) }
{
    let mut out = String::new(*program.items.allocator());
    put_items(&mut out, &program.items)?;
    Ok(out)
}
