//! The classes and functions of a program, by name.

ghost use Rattle.std.specs.Prelude.{◌≡◌, ◌++◌, ◌∷◌, [], IfOk, IsSome, OnOk, Some};
ghost use Rattle.lam_syntax.specs.Tree.{items_tree, item_tree, vars_tree, function_tree};
ghost use Rattle.lam_resolve_laws.specs.Resolved.{class_names as names_of_classes, resolve_vars as resolved_vars, resolve_classes as resolved_classes, resolve_head as resolved_head, resolve_heads as resolved_heads, tables as tables_of, types_of};
ghost use Rattle.lam_resolve_tree.specs.Tree.{types_tree};
ghost use Rattle.lam_resolve_tables.specs.Entries.{entries_of};
ghost use Rattle.lam_resolve_tables.specs.Meets.{IsJoined};
ghost use Rattle.lam_resolve_tables.specs.Tables.{vars as seen_vars, fields as seen_fields, all_fields, head as seen_head, heads as seen_heads, tables as seen_tables};

use crate::kinds::{Kind, resolve_result, resolve_type, value_type};
use crate::named::Named;
use lam_resolve_tree::ValueType;
use lam_syntax::{Function, Item, Var};
use std::alloc::Global;
use want_of_memory::NoMemory;

/// How a function is called: its parameters, and the type of its result.
#[derive(Drop)]
pub struct FunctionSignature<'a> {
    pub params: Vec<(&'a str, Kind)>,
    pub result: Option<Kind>,
}

/// The classes and functions of a program, in source order: the classes' names and, by the same numbers, their fields.
#[derive(Drop)]
pub struct Tables<'a> {
    pub names: Named<'a, ()>,
    pub classes: Vec<Named<'a, Kind>>,
    pub functions: Named<'a, FunctionSignature<'a>>,
}

fn add_class_name<'a>(names: &mut Named<'a, ()>, item: &'a Item) -> Result<(), NoMemory>
    ensures { OnOk result (entries_of names.new ≡ entries_of names.old ++ names_of_classes (item_tree item.now ∷ [])) }
{
    match item {
        Item::Class(class) => names.push(class.name.name.as_str(), ()),
        Item::Function(_) => Ok(()),
    }
}

fn class_names<'a>(alloc: Global, items: &'a [Item]) -> Result<Named<'a, ()>, NoMemory>
    ensures { IfOk result (λ n. entries_of n ≡ names_of_classes (items_tree items.now)) }
{
    let mut names = Named::new(alloc);
    for item in items {
        add_class_name(&mut names, item)?;
    }
    Ok(names)
}

/// Fields or parameters.
///
/// # Errors
///
/// `NoMemory` where memory is refused.
pub fn resolve_vars<'a>(
    alloc: Global,
    names: &Named<()>,
    written: &'a [Var],
) -> Result<Vec<(&'a str, Kind)>, NoMemory>
    requires { IsSome (resolved_vars (entries_of names.now) (vars_tree written.now)) }
    ensures { IfOk result (λ v. Some (seen_vars v.items) ≡ resolved_vars (entries_of names.now) (vars_tree written.now)) }
{
    let mut vars = Vec::new(alloc);
    for var in written {
        let kind = resolve_type(names, &var.ty)?;
        vars.push((var.name.name.as_str(), kind))?;
    }
    Ok(vars)
}

fn named_fields<'a>(alloc: Global, vars: &[(&'a str, Kind)]) -> Result<Named<'a, Kind>, NoMemory>
    ensures { IfOk result (λ n. seen_fields n ≡ seen_vars vars.now) }
{
    let mut fields = Named::new(alloc);
    for var in vars {
        fields.push(var.0, var.1)?;
    }
    Ok(fields)
}

fn add_class<'a>(
    alloc: Global,
    names: &Named<()>,
    classes: &mut Vec<Named<'a, Kind>>,
    item: &'a Item,
) -> Result<(), NoMemory>
    requires { IsSome (resolved_classes (entries_of names.now) (item_tree item.now ∷ [])) }
    ensures { OnOk result (IsJoined (all_fields classes.old.items) (resolved_classes (entries_of names.now) (item_tree item.now ∷ [])) (all_fields classes.new.items)) }
{
    match item {
        Item::Class(class) => {
            let vars = resolve_vars(alloc, names, class.fields.as_slice())?;
            let fields = named_fields(alloc, vars.as_slice())?;
            classes.push(fields)?;
            Ok(())
        }
        Item::Function(_) => Ok(()),
    }
}

fn class_table<'a>(
    alloc: Global,
    names: &Named<()>,
    items: &'a [Item],
) -> Result<Vec<Named<'a, Kind>>, NoMemory>
    requires { IsSome (resolved_classes (entries_of names.now) (items_tree items.now)) }
    ensures { IfOk result (λ v. Some (all_fields v.items) ≡ resolved_classes (entries_of names.now) (items_tree items.now)) }
{
    let mut classes = Vec::new(alloc);
    for item in items {
        add_class(alloc, names, &mut classes, item)?;
    }
    Ok(classes)
}

fn resolve_head<'a>(
    alloc: Global,
    names: &Named<()>,
    f: &'a Function,
) -> Result<FunctionSignature<'a>, NoMemory>
    requires { IsSome (resolved_head (entries_of names.now) (function_tree f.now)) }
    ensures { IfOk result (λ h. Some (seen_head h) ≡ resolved_head (entries_of names.now) (function_tree f.now)) }
{
    let params = resolve_vars(alloc, names, f.params.as_slice())?;
    let result = resolve_result(names, &f.result)?;
    Ok(FunctionSignature { params, result })
}

fn add_function<'a>(
    alloc: Global,
    names: &Named<()>,
    functions: &mut Named<'a, FunctionSignature<'a>>,
    item: &'a Item,
) -> Result<(), NoMemory>
    requires { IsSome (resolved_heads (entries_of names.now) (item_tree item.now ∷ [])) }
    ensures { OnOk result (IsJoined (seen_heads functions.old) (resolved_heads (entries_of names.now) (item_tree item.now ∷ [])) (seen_heads functions.new)) }
{
    match item {
        Item::Class(_) => Ok(()),
        Item::Function(f) => {
            let head = resolve_head(alloc, names, f)?;
            functions.push(f.name.name.as_str(), head)
        }
    }
}

fn function_table<'a>(
    alloc: Global,
    names: &Named<()>,
    items: &'a [Item],
) -> Result<Named<'a, FunctionSignature<'a>>, NoMemory>
    requires { IsSome (resolved_heads (entries_of names.now) (items_tree items.now)) }
    ensures { IfOk result (λ n. Some (seen_heads n) ≡ resolved_heads (entries_of names.now) (items_tree items.now)) }
{
    let mut functions = Named::new(alloc);
    for item in items {
        add_function(alloc, names, &mut functions, item)?;
    }
    Ok(functions)
}

/// The types of fields or parameters.
///
/// # Errors
///
/// `NoMemory` where memory is refused.
pub fn types_of_vars(alloc: Global, vars: &[(&str, Kind)]) -> Result<Vec<ValueType>, NoMemory>
    ensures { IfOk result (λ v. types_tree v.items ≡ types_of (seen_vars vars.now)) }
{
    let mut types = Vec::new(alloc);
    for var in vars {
        types.push(value_type(alloc, var.1)?)?;
    }
    Ok(types)
}

/// The types of a class's fields.
///
/// # Errors
///
/// `NoMemory` where memory is refused.
pub fn field_types(alloc: Global, fields: &Named<Kind>) -> Result<Vec<ValueType>, NoMemory>
    ensures { IfOk result (λ v. types_tree v.items ≡ types_of (seen_fields fields.now)) }
{
    types_of_vars(alloc, fields.entries.as_slice())
}

impl<'a> Tables<'a> {
    /// The tables of a program.
    ///
    /// # Errors
    ///
    /// `NoMemory` where memory is refused.
    pub fn of(alloc: Global, items: &'a [Item]) -> Result<Tables<'a>, NoMemory>
        requires { IsSome (tables_of (items_tree items.now)) }
        ensures { IfOk result (λ t. Some (seen_tables t) ≡ tables_of (items_tree items.now)) }
    {
        let names = class_names(alloc, items)?;
        let classes = class_table(alloc, &names, items)?;
        let functions = function_table(alloc, &names, items)?;
        Ok(Tables {
            names,
            classes,
            functions,
        })
    }
}
