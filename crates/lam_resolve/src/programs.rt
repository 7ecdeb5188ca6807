//! Functions and programs.

ghost use Rattle.std.specs.Prelude.{◌≡◌, ◌∷◌, [], IfOk, IsSome, OnOk, Some};
ghost use Rattle.lam_syntax.specs.Tree.{program_tree, items_tree, item_tree, function_tree};
ghost use Rattle.lam_resolve_tree.specs.Tree.{function_tree as resolved_function, functions_tree, classes_tree, resolved_tree};
ghost use Rattle.lam_resolve_laws.specs.Resolved.{resolve_function as function_resolved, resolve_functions as functions_resolved, resolved};
ghost use Rattle.lam_resolve_tables.specs.Tables.{tables, all_fields};
ghost use Rattle.lam_resolve.specs.Meets.{IsAdded, types_of_all};

use lam_resolve_stmts::{open_unit, resolve_block};
use lam_resolve_tables::kinds::{Kind, option_value_type, resolve_result};
use lam_resolve_tables::named::Named;
use lam_resolve_tables::tables::{Tables, field_types, resolve_vars, types_of_vars};
use lam_resolve_tree::{Class, Function as ResolvedFunction, Resolved};
use lam_syntax::{Function, Item, Program};
use std::alloc::Global;
use want_of_memory::NoMemory;

// A function, after so many regions of the program, which it counts on.
fn resolve_function(
    alloc: Global,
    t: &Tables,
    regions: &mut usize,
    f: &Function,
) -> Result<ResolvedFunction, NoMemory>
    requires { IsSome (function_resolved (tables t.now) regions.old (function_tree f.now)) }
    ensures { IfOk result (λ g. Some (resolved_function g, regions.new) ≡ function_resolved (tables t.now) regions.old (function_tree f.now)) }
{
    let vars = resolve_vars(alloc, &t.names, f.params.as_slice())?;
    let kind = resolve_result(&t.names, &f.result)?;
    let unit = open_unit(alloc, vars.as_slice(), *regions)?;
    let mut names = unit.scope;
    let mut state = unit.state;
    let body = resolve_block(alloc, t, &mut names, &mut state, &f.body)?;
    let name = f.name.name.clone()?;
    let params = types_of_vars(alloc, vars.as_slice())?;
    let result = option_value_type(alloc, kind)?;
    *regions = state.regions;
    Ok(ResolvedFunction {
        name,
        params,
        result,
        slots: state.slots,
        body,
    })
}

// One more function, where the item is one.
fn add_function(
    alloc: Global,
    t: &Tables,
    regions: &mut usize,
    functions: &mut Vec<ResolvedFunction>,
    item: &Item,
) -> Result<(), NoMemory>
    requires { IsSome (functions_resolved (tables t.now) regions.old (item_tree item.now ∷ [])) }
    ensures { OnOk result (IsAdded (tables t.now) regions.old (item_tree item.now) regions.new (functions_tree functions.old.items) (functions_tree functions.new.items)) }
{
    match item {
        Item::Class(_) => Ok(()),
        Item::Function(f) => {
            let resolved = resolve_function(alloc, t, regions, f)?;
            functions.push(resolved)?;
            Ok(())
        }
    }
}

fn resolve_functions(
    alloc: Global,
    t: &Tables,
    items: &[Item],
) -> Result<Vec<ResolvedFunction>, NoMemory>
    requires { IsSome (functions_resolved (tables t.now) 0 (items_tree items.now)) }
    ensures { IfOk result (λ v. Some (functions_tree v.items) ≡ functions_resolved (tables t.now) 0 (items_tree items.now)) }
{
    let mut regions = 0;
    let mut functions = Vec::new(alloc);
    for item in items {
        add_function(alloc, t, &mut regions, &mut functions, item)?;
    }
    Ok(functions)
}

fn resolve_classes(alloc: Global, classes: &[Named<Kind>]) -> Result<Vec<Class>, NoMemory>
    ensures { IfOk result (λ v. classes_tree v.items ≡ types_of_all (all_fields classes.now)) }
{
    let mut out = Vec::new(alloc);
    for class in classes {
        let fields = field_types(alloc, class)?;
        out.push(Class { fields })?;
    }
    Ok(out)
}

/// A program with its names resolved, where it resolves.
///
/// # Errors
///
/// `NoMemory` where memory is refused.
pub fn resolve_program(p: &Program) -> Result<Resolved, NoMemory>
    requires { IsSome (resolved (program_tree p.now)) }
    ensures { IfOk result (λ r. Some (resolved_tree r) ≡ resolved (program_tree p.now)) }
{
    let alloc = *p.items.allocator();
    let items = p.items.as_slice();
    let t = Tables::of(alloc, items)?;
    let functions = resolve_functions(alloc, &t, items)?;
    let classes = resolve_classes(alloc, t.classes.as_slice())?;
    Ok(Resolved { classes, functions })
}
