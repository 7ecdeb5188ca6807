//! The declared classes and functions of a program, with look-up in constant time.

ghost use Rattle.std.specs.Prelude.{◌≡◌, ◌++◌, ◌∷◌, [], IfOk, IfErr, OnOk, None, Some};
ghost use Rattle.lam_syntax.specs.Tree.{id_tree, type_tree, var_tree, vars_tree, class_tree, function_tree, items_tree, option_type_tree};
ghost use Rattle.lam_types_kinds.specs.Tables.{find, fresh, new_name as new_name_break, with_class, class_table as class_table_break, function_name as function_name_break, with_function, function_table as function_table_break, tables_of, type_known, with_var, vars_known, with_field, with_fields, signature_of, places_of, answer_of};
ghost use Rattle.lam_types_kinds.specs.Values.{keyed, names, fields as seen_fields, class_entries, function_entries, decls, signature, answer, places, option_type, option_fields, option_signature, Passes};
ghost use Rattle.lam_types_kinds.specs.Meets.{Makes, Leaves, see_classes, see_functions};
ghost use Rattle.lam_types_kinds.specs.declared.fault.TypeFault.TheVariants.{NoMemory as no_memory};

use crate::builtins::Returns;
use crate::fault::TypeFault;
use crate::types::{TypeRef, Want, type_ref};
use indexmap::IndexMap;
use lam_builtins::{Builtin, MOST_CLASSES, MOST_FUNCTIONS};
use lam_syntax::{Class, Function, Id, Item, TypeExpr, TypeKind, Var};
use std::alloc::Global;

/// Names with their types, oldest first: locals in scope, parameters, or the fields of a class.
pub type Names<'a> = IndexMap<&'a str, TypeRef<'a>>;

/// The fields of a class.
pub type Fields<'a> = IndexMap<&'a str, TypeRef<'a>>;

/// How a declared function is called.
#[derive(Drop)]
pub struct Callable<'a> {
    pub takes: Vec<Want<'a>>,
    pub returns: Returns<'a>,
}

/// The declared classes and functions, in source order.
#[derive(Drop)]
pub struct Known<'a> {
    pub classes: IndexMap<&'a str, Fields<'a>>,
    pub functions: IndexMap<&'a str, Callable<'a>>,
}

/// The type of a name in scope.
pub fn find_name<'a>(all: &Names<'a>, name: &str) -> Option<TypeRef<'a>>
    ensures { option_type result ≡ find name.now (names all.now.entries) }
{
    all.get(name).copied()
}

impl<'a> Known<'a> {
    /// The tables of a program: all class names, then all function names, each once and within the limits of a program.
    pub fn of(alloc: Global, items: &'a [Item]) -> Result<Known<'a>, TypeFault>
        ensures { Makes decls result (tables_of (items_tree items.now)) }
    {
        let classes = class_table(alloc, items)?;
        let functions = function_table(alloc, items)?;
        Ok(Known { classes, functions })
    }

    /// The fields of a declared class.
    pub fn class(&self, name: &str) -> Option<&Fields<'a>>
        ensures { option_fields result ≡ find name.now (decls self.now).classes }
    {
        self.classes.get(name)
    }

    /// How a declared function is called.
    pub fn function(&self, name: &str) -> Option<&Callable<'a>>
        ensures { option_signature result ≡ find name.now (decls self.now).functions }
    {
        self.functions.get(name)
    }
}

/// No entry has the name.
pub fn fresh_name<V>(all: &IndexMap<&str, V>, x: &Id) -> Result<(), TypeFault>
    ensures { Passes result (fresh (keyed all.now.entries) (id_tree x.now)) }
{
    if all.contains_key(x.name.as_str()) {
        return Err(TypeFault::Twice { at: x.at });
    }
    Ok(())
}

fn new_name<V>(all: &IndexMap<&str, V>, limit: usize, x: &Id) -> Result<(), TypeFault>
    ensures { Passes result (new_name_break limit (keyed all.now.entries) (id_tree x.now)) }
{
    fresh_name(all, x)?;
    if all.len() < limit {
        Ok(())
    } else {
        Err(TypeFault::TooMany { at: x.at })
    }
}

/// Adds an entry at the end.
pub fn add_name<'a, V: Drop>(
    all: &mut IndexMap<&'a str, V>,
    name: &'a str,
    value: V,
) -> Result<(), TypeFault>
    requires { find name.now (keyed all.old.entries) ≡ None }
    ensures ok { OnOk result (all.new.entries ≡ all.old.entries ++ (name.entry, value) ∷ []) }
    ensures err { IfErr result (λ f. f ≡ no_memory) }
{
    all.insert(name, value)?;
    Ok(())
}

fn add_field<'a>(all: &mut Fields<'a>, v: &'a Var) -> Result<(), TypeFault>
    ensures ok { OnOk result (names all.new.entries ≡ with_field (names all.old.entries) (var_tree v.now)) }
    ensures err { IfErr result (λ f. f ≡ no_memory) }
{
    if !all.contains_key(v.name.name.as_str()) {
        add_name(all, v.name.name.as_str(), type_ref(&v.ty))?;
    }
    Ok(())
}

// The fields of a class, of which the first of a name counts.
fn fields_of<'a>(alloc: Global, vars: &'a [Var]) -> Result<Fields<'a>, TypeFault>
    ensures ok { IfOk result (λ m. seen_fields m ≡ with_fields [] (vars_tree vars.now)) }
    ensures err { IfErr result (λ f. f ≡ no_memory) }
{
    let mut all = IndexMap::new(alloc);
    for v in vars {
        add_field(&mut all, v)?;
    }
    Ok(all)
}

fn call_of<'a>(alloc: Global, f: &'a Function) -> Result<Callable<'a>, TypeFault>
    ensures ok { IfOk result (λ c. signature c ≡ signature_of (function_tree f.now)) }
    ensures err { IfErr result (λ f. f ≡ no_memory) }
{
    let takes = wants_of(alloc, f.params.as_slice())?;
    let returns = returns_of(&f.result);
    Ok(Callable { takes, returns })
}

fn returns_of<'a>(written: &'a Option<TypeExpr>) -> Returns<'a>
    ensures { answer result ≡ answer_of (option_type_tree written.now) }
{
    match written {
        Some(t) => Returns::Value(type_ref(t)),
        None => Returns::Nothing,
    }
}

fn wants_of<'a>(alloc: Global, vars: &'a [Var]) -> Result<Vec<Want<'a>>, TypeFault>
    ensures ok { IfOk result (λ v. places v.items ≡ places_of (vars_tree vars.now)) }
    ensures err { IfErr result (λ f. f ≡ no_memory) }
{
    let mut wants = Vec::new(alloc);
    for v in vars {
        wants.push(Want::Exactly(type_ref(&v.ty)))?;
    }
    Ok(wants)
}

fn add_class<'a>(
    alloc: Global,
    classes: &mut IndexMap<&'a str, Fields<'a>>,
    c: &'a Class,
) -> Result<(), TypeFault>
    ensures { Leaves result (class_entries classes.new.entries) (with_class (class_entries classes.old.entries) (class_tree c.now)) }
{
    new_name(classes, MOST_CLASSES, &c.name)?;
    let fields = fields_of(alloc, c.fields.as_slice())?;
    add_name(classes, c.name.name.as_str(), fields)
}

fn class_table<'a>(
    alloc: Global,
    items: &'a [Item],
) -> Result<IndexMap<&'a str, Fields<'a>>, TypeFault>
    ensures { Makes see_classes result (class_table_break [] (items_tree items.now)) }
{
    let mut classes = IndexMap::new(alloc);
    for item in items {
        match item {
            Item::Class(c) => add_class(alloc, &mut classes, c)?,
            Item::Function(_) => {}
        }
    }
    Ok(classes)
}

fn function_name(functions: &IndexMap<&str, Callable>, x: &Id) -> Result<(), TypeFault>
    ensures { Passes result (function_name_break (function_entries functions.now.entries) (id_tree x.now)) }
{
    if Builtin::named(x.name.as_str()).is_some() {
        return Err(TypeFault::Twice { at: x.at });
    }
    new_name(functions, MOST_FUNCTIONS, x)
}

fn add_function<'a>(
    alloc: Global,
    functions: &mut IndexMap<&'a str, Callable<'a>>,
    f: &'a Function,
) -> Result<(), TypeFault>
    ensures { Leaves result (function_entries functions.new.entries) (with_function (function_entries functions.old.entries) (function_tree f.now)) }
{
    function_name(functions, &f.name)?;
    let call = call_of(alloc, f)?;
    add_name(functions, f.name.name.as_str(), call)
}

fn function_table<'a>(
    alloc: Global,
    items: &'a [Item],
) -> Result<IndexMap<&'a str, Callable<'a>>, TypeFault>
    ensures { Makes see_functions result (function_table_break [] (items_tree items.now)) }
{
    let mut functions = IndexMap::new(alloc);
    for item in items {
        match item {
            Item::Class(_) => {}
            Item::Function(f) => add_function(alloc, &mut functions, f)?,
        }
    }
    Ok(functions)
}

/// The classes in a written type are declared.
pub fn known_type(known: &Known, t: &TypeExpr) -> Result<(), TypeFault>
    ensures { Passes result (type_known (decls known.now) (type_tree t.now)) }
{
    match &t.kind {
        TypeKind::Class(c) => {
            if known.class(c.as_str()).is_some() {
                Ok(())
            } else {
                Err(TypeFault::NoName { at: t.at })
            }
        }
        TypeKind::Array(element) => known_type(known, element),
        _ => Ok(()),
    }
}

fn add_var<'a>(
    known: &Known,
    limit: usize,
    all: &mut Names<'a>,
    v: &'a Var,
) -> Result<(), TypeFault>
    ensures { Leaves result (names all.new.entries) (with_var (decls known.now) limit (names all.old.entries) (var_tree v.now)) }
{
    new_name(all, limit, &v.name)?;
    known_type(known, &v.ty)?;
    add_name(all, v.name.name.as_str(), type_ref(&v.ty))
}

/// Fields or parameters: their names differ, there are no more than the limit, and their types are declared.
pub fn known_vars<'a>(
    known: &Known,
    limit: usize,
    all: &mut Names<'a>,
    vars: &'a [Var],
) -> Result<(), TypeFault>
    ensures { Leaves result (names all.new.entries) (vars_known (decls known.now) limit (names all.old.entries) (vars_tree vars.now)) }
{
    for v in vars {
        add_var(known, limit, all, v)?;
    }
    Ok(())
}
