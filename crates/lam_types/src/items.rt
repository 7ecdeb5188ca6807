//! The typing of the items of a program, and of the program.

ghost use Rattle.std.specs.Prelude.{◌≡◌, IfOk, IfErr, OnOk, None};
ghost use Rattle.lam_syntax.specs.Tree.{program_tree, items_tree, item_tree, class_tree, function_tree, option_type_tree};
ghost use Rattle.lam_types_kinds.specs.Values.{decls, option_type, Passes};
ghost use Rattle.lam_types.specs.Program.{result_type, result_known, returns, class_checked, function_checked, item_checked, items_checked, program_checked, first_type_break};
ghost use Rattle.lam_types.specs.Judgement.{IsTyped};
ghost use Rattle.lam_types.specs.Seen.{tree_of};
ghost use Rattle.lam_types.specs.Meets.{CountedRegions};
ghost use Rattle.lam_types_kinds.specs.Meets.{IsFirst, HasNoBreak};

use crate::endings::block_ends;
use crate::stmts::{Counts, check_block};
use crate::typed::Typed;
use indexmap::IndexMap;
use lam_builtins::{MOST_FIELDS, MOST_PARAMS};
use lam_syntax::{Class, Function, Item, Program, TypeExpr};
use lam_types_kinds::tables::{known_type, known_vars};
use lam_types_kinds::types::type_ref;
use lam_types_kinds::{Known, TypeFault, TypeRef};
use std::alloc::Global;

fn check_class<'a>(alloc: Global, known: &Known<'a>, c: &'a Class) -> Result<(), TypeFault>
    ensures { Passes result (class_checked (decls known.now) (class_tree c.now)) }
{
    let mut fields = IndexMap::new(alloc);
    known_vars(known, MOST_FIELDS, &mut fields, c.fields.as_slice())?;
    Ok(())
}

fn check_result(known: &Known, written: &Option<TypeExpr>) -> Result<(), TypeFault>
    ensures { Passes result (result_known (decls known.now) (option_type_tree written.now)) }
{
    match written {
        Some(t) => known_type(known, t),
        None => Ok(()),
    }
}

fn result_ref<'a>(written: &'a Option<TypeExpr>) -> Option<TypeRef<'a>>
    ensures { option_type result ≡ result_type (option_type_tree written.now) }
{
    match written {
        Some(t) => Some(type_ref(t)),
        None => None,
    }
}

// A function with a result returns one.
fn check_returns(f: &Function) -> Result<(), TypeFault>
    ensures { Passes result (returns (function_tree f.now)) }
{
    if f.result.is_some() && !block_ends(f.body.as_slice()) {
        return Err(TypeFault::NoReturn { at: f.name.at });
    }
    Ok(())
}

// A function, after so many regions of the program: the regions after it.
fn check_function<'a>(
    alloc: Global,
    known: &Known<'a>,
    regions: u32,
    f: &'a Function,
) -> Result<u32, TypeFault>
    ensures { CountedRegions result (function_checked (decls known.now) regions (function_tree f.now)) }
{
    check_returns(f)?;
    let mut env = IndexMap::new(alloc);
    let params = f.params.as_slice();
    known_vars(known, MOST_PARAMS, &mut env, params)?;
    check_result(known, &f.result)?;
    let head = Counts {
        slots: params.len() as u32,
        regions,
    };
    let last = check_block(alloc, known, result_ref(&f.result), &mut env, head, &f.body)?;
    Ok(last.regions)
}

fn check_item<'a>(
    alloc: Global,
    known: &Known<'a>,
    regions: u32,
    item: &'a Item,
) -> Result<u32, TypeFault>
    ensures { CountedRegions result (item_checked (decls known.now) regions (item_tree item.now)) }
{
    match item {
        Item::Class(c) => {
            check_class(alloc, known, c)?;
            Ok(regions)
        }
        Item::Function(f) => check_function(alloc, known, regions, f),
    }
}

fn check_items<'a>(alloc: Global, known: &Known<'a>, items: &'a [Item]) -> Result<u32, TypeFault>
    ensures { CountedRegions result (items_checked (decls known.now) 0 (items_tree items.now)) }
{
    let mut regions = 0;
    for item in items {
        regions = check_item(alloc, known, regions, item)?;
    }
    Ok(regions)
}

fn check_program(alloc: Global, items: &[Item]) -> Result<u32, TypeFault>
    ensures { CountedRegions result (program_checked (items_tree items.now)) }
{
    let known = Known::of(alloc, items)?;
    check_items(alloc, &known, items)
}

impl Typed {
    /// The program.
    pub fn program(&self) -> &Program
        ensures tree { program_tree result.now ≡ tree_of self.now }
        ensures typed { IsTyped (tree_of self.now) }
        ensures fine { first_type_break (tree_of self.now) ≡ None }
    {
        &self.program
    }

    /// The program, by value.
    pub fn into_program(self) -> Program
        ensures { program_tree result ≡ tree_of self }
    {
        self.program
    }
}

/// Types a program. It answers Ok with the same tree exactly where the program is typed, else the first break.
pub fn check(p: Program) -> Result<Typed, TypeFault>
    ensures tree { IfOk result (λ t. tree_of t ≡ program_tree p) }
    ensures typed { OnOk result (IsTyped (program_tree p)) }
    ensures only { IsTyped (program_tree p) → HasNoBreak result }
    ensures fine { OnOk result (first_type_break (program_tree p) ≡ None) }
    ensures first { IfErr result (λ f. IsFirst f (first_type_break (program_tree p))) }
{
    let alloc = *p.items.allocator();
    check_program(alloc, p.items.as_slice())?;
    Ok(Typed { program: p })
}
