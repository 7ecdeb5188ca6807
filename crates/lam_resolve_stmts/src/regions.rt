//! The parts of a region before and after its blocks.

ghost use Rattle.std.specs.Prelude.{◌≡◌, IfOk, IsSome, Some};
ghost use Rattle.lam_syntax.specs.Tree.{expr_tree};
ghost use Rattle.lam_resolve_tree.specs.Tree.{expr_tree as resolved_expr, stmt_tree as resolved_stmt};
ghost use Rattle.lam_resolve_laws.specs.Resolved.{state_as, resolve as resolved_value};
ghost use Rattle.lam_resolve_tables.specs.Tables.{tables};
ghost use Rattle.lam_resolve_exprs.specs.Values.{locals};
ghost use Rattle.lam_resolve_units.specs.Seen.{state};
ghost use Rattle.lam_resolve_stmts.specs.Regions.{expr_of, opening_of, opened, bodies, node_of};

use lam_resolve_exprs::exprs::resolve_expr;
use lam_resolve_exprs::values::Local;
use lam_resolve_tables::named::Named;
use lam_resolve_tables::tables::Tables;
use lam_resolve_tree::{Expr as ResolvedExpr, Stmt as ResolvedStmt};
use lam_resolve_units::parts::{RegionHead, region_stmt};
use lam_resolve_units::units::{State, Unit, enter};
use lam_syntax::{Expr, Id, Stmt};
use std::alloc::Global;
use want_of_memory::NoMemory;

/// A region, as it is written.
#[derive(Clone, Copy)]
pub(crate) struct Written<'a> {
    pub label: &'a Expr,
    pub caps: &'a Expr,
    pub captures: &'a Vec<Id>,
    pub body: &'a Vec<Stmt>,
    pub catch_name: &'a Id,
    pub catch_body: &'a Vec<Stmt>,
}

/// A region before its blocks, and the unit that they are.
#[derive(Drop)]
pub(crate) struct Opened<'a> {
    pub head: RegionHead,
    pub unit: Unit<'a>,
}

/// Both blocks of a region, the slot of the catch name, and the unit's state after them.
#[derive(Drop)]
pub(crate) struct Bodies {
    pub body: Vec<ResolvedStmt>,
    pub slot: usize,
    pub handler: Vec<ResolvedStmt>,
    pub state: State,
}

// An expression, in a box.
fn boxed_expr(
    alloc: Global,
    t: &Tables,
    scope: &Named<Local>,
    e: &Expr,
) -> Result<Box<ResolvedExpr>, NoMemory>
    requires { IsSome (resolved_value (tables t.now) (locals scope.now) (expr_tree e.now)) }
    ensures { IfOk result (λ b. Some (resolved_expr b.value) ≡ expr_of (tables t.now) (locals scope.now) (expr_tree e.now)) }
{
    let v = resolve_expr(alloc, t, scope, e)?;
    let it = Box::new(alloc, v.it)?;
    Ok(it)
}

/// What stands before the blocks of a region with this number, whose unit is entered.
///
/// # Errors
///
/// `NoMemory` where memory is refused.
pub(crate) fn open_region<'a>(
    alloc: Global,
    t: &Tables,
    scope: &Named<Local>,
    number: usize,
    written: Written<'a>,
) -> Result<Opened<'a>, NoMemory>
    requires { IsSome (opening_of (tables t.now) (locals scope.now) number written) }
    ensures { IfOk result (λ o. Some (opened o) ≡ opening_of (tables t.now) (locals scope.now) number written.entry) }
{
    let label = boxed_expr(alloc, t, scope, written.label)?;
    let caps = boxed_expr(alloc, t, scope, written.caps)?;
    let entered = enter(alloc, scope, number, written.captures.as_slice())?;
    let head = RegionHead {
        number,
        label,
        caps,
        captures: entered.captures,
    };
    Ok(Opened {
        head,
        unit: entered.unit,
    })
}

/// The node of a region. The program's regions go on after those of its blocks.
pub(crate) fn close_region(st: &mut State, head: RegionHead, blocks: Bodies) -> ResolvedStmt
    ensures node { resolved_stmt result ≡ node_of head (bodies blocks) }
    ensures goes_on { state st.new ≡ state_as (state st.old).slots (bodies blocks).state.regions }
{
    st.regions = blocks.state.regions;
    region_stmt(
        head,
        blocks.state.slots,
        blocks.body,
        blocks.slot,
        blocks.handler,
    )
}
