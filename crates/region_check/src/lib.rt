//! The checker of the region rules.
//!
//! A security region (Laminar, PLDI 2009) reaches only its captures and its own declarations. Inside, no other local is
//! read or written, nothing is captured twice, and no `return` leaves the region. The region's label, capabilities and
//! captures stand before its blocks and belong to the outside.
//!
//! `specs/Breaks.antt` defines the first break of these rules in a program. `specs/Legal.antt` says which programs keep
//! them, without positions or order. `regions` joins the two.
//!
//! A public promise rests on `regions` (clauses `legal`, `only`, `first`): it accepts exactly the programs that keep
//! the rules, and names the first break of others. Free to change for speed: how a region's own names are looked up.
#![tactic(auto)]

ghost use Rattle.std.specs.Prelude.{◌≡◌, [], OnOk, IfErr, false};
ghost use Rattle.lam_syntax.specs.Tree.{caps_tree, expr_tree, exprs_tree, id_tree, ids_tree, items_tree, option_expr_tree, stmt_tree, stmts_tree};
ghost use Rattle.region_check.specs.Parts.{guarded};
ghost use Rattle.region_check.specs.Breaks.{allowed, has, with_name, read_checked, caps_checked, expr_checked, exprs_checked, capture_checked, captures_checked, value_checked, return_checked, place_checked, closed, head_checked, stmt_checked, stmts_checked, program_checked};
ghost use Rattle.region_check.specs.Values.{texts, Passes, Leaves, Makes, Extends};
ghost use Rattle.region_check.specs.Sees.{see_names};
ghost use Rattle.region_check.specs.declared.RegionFault.TheVariants.{NoMemory as no_memory};

mod checked;
mod whole;

pub use checked::Checked;
use indexmap::IndexSet;
use lam_syntax::{CapItem, Expr, ExprKind, Id, Item, Stmt, StmtKind};
use std::alloc::{AllocError, AllocFailed, Global};
use want_of_memory::NoMemory;
pub use whole::regions;

/// Why a program breaks the region rules. `at` is the position of the name or the word at fault.
#[derive(Drop)]
pub enum RegionFault {
    /// A name that is declared outside and not captured is read.
    OuterRead { at: u64 },
    /// The same name stands before `=`.
    OuterWrite { at: u64 },
    /// A `return` stands inside.
    ReturnInRegion { at: u64 },
    /// A name is captured twice.
    CaptureTwice { at: u64 },
    /// The memory did not suffice.
    NoMemory,
}

impl From<NoMemory> for RegionFault {
    ghost from_gives = { λ _ f. f ≡ no_memory };

    fn from(_error: NoMemory) -> RegionFault {
        RegionFault::NoMemory
    }
}

impl From<AllocError> for RegionFault {
    ghost from_gives = { λ _ f. f ≡ no_memory };

    fn from(_error: AllocError) -> RegionFault {
        RegionFault::NoMemory
    }
}

impl<T: Drop> From<AllocFailed<T>> for RegionFault {
    ghost from_gives = { λ _ f. f ≡ no_memory };

    fn from(_failed: AllocFailed<T>) -> RegionFault {
        RegionFault::NoMemory
    }
}

// The names of a region: its captures, and those declared in it.
type Own<'a> = IndexSet<&'a str>;

fn has_name(own: &Own, x: &str) -> bool
    ensures { result ≡ has (texts own.now.keys) x.now }
{
    own.contains(x)
}

fn is_allowed(inside: bool, own: &Own, x: &str) -> bool
    ensures { result ≡ allowed inside (texts own.now.keys) x.now }
{
    !inside || has_name(own, x)
}

fn check_read(inside: bool, own: &Own, at: u64, x: &str) -> Result<(), RegionFault>
    ensures { Passes result (read_checked inside (texts own.now.keys) at x.now) }
{
    if is_allowed(inside, own, x) {
        Ok(())
    } else {
        Err(RegionFault::OuterRead { at })
    }
}

fn check_caps(inside: bool, own: &Own, items: &[CapItem]) -> Result<(), RegionFault>
    ensures { Passes result (caps_checked inside (texts own.now.keys) (caps_tree items.now)) }
{
    for item in items {
        check_read(inside, own, item.name.at, item.name.name.as_str())?;
    }
    Ok(())
}

#[cycle(expr)]
fn check_expr(inside: bool, own: &Own, e: &Expr) -> Result<(), RegionFault>
    ensures { Passes result (expr_checked inside (texts own.now.keys) (expr_tree e.now)) }
{
    match &e.kind {
        ExprKind::Binary { left, right, .. } => {
            check_expr(inside, own, left)?;
            check_expr(inside, own, right)
        }
        ExprKind::Unary { of, .. } | ExprKind::Field { of, .. } => check_expr(inside, own, of),
        ExprKind::Element { of, index } => {
            check_expr(inside, own, of)?;
            check_expr(inside, own, index)
        }
        ExprKind::Name(x) => check_read(inside, own, e.at, x.as_str()),
        ExprKind::Call { args, .. } => check_exprs(inside, own, args),
        ExprKind::NewArray { length, .. } => check_expr(inside, own, length),
        ExprKind::LabelOf { s, i } => {
            check_exprs(inside, own, s)?;
            check_exprs(inside, own, i)
        }
        ExprKind::CapsOf(items) => check_caps(inside, own, items.as_slice()),
        ExprKind::Spawn { caps, args, .. } => {
            check_expr(inside, own, caps)?;
            check_exprs(inside, own, args)
        }
        _ => Ok(()),
    }
}

#[cycle(expr)]
fn check_exprs(inside: bool, own: &Own, all: &Vec<Expr>) -> Result<(), RegionFault>
    ensures { Passes result (exprs_checked inside (texts own.now.keys) (exprs_tree all.now.items)) }
{
    for e in all {
        check_expr(inside, own, e)?;
    }
    Ok(())
}

fn check_value(inside: bool, own: &Own, e: &Option<Expr>) -> Result<(), RegionFault>
    ensures { Passes result (value_checked inside (texts own.now.keys) (option_expr_tree e.now)) }
{
    match e {
        None => Ok(()),
        Some(e) => check_expr(inside, own, e),
    }
}

fn check_return(inside: bool, own: &Own, at: u64, e: &Option<Expr>) -> Result<(), RegionFault>
    ensures { Passes result (return_checked inside (texts own.now.keys) at (option_expr_tree e.now)) }
{
    if inside {
        return Err(RegionFault::ReturnInRegion { at });
    }
    check_value(inside, own, e)
}

fn check_place(inside: bool, own: &Own, e: &Expr) -> Result<(), RegionFault>
    ensures { Passes result (place_checked inside (texts own.now.keys) (expr_tree e.now)) }
{
    match &e.kind {
        ExprKind::Name(x) => {
            if is_allowed(inside, own, x.as_str()) {
                Ok(())
            } else {
                Err(RegionFault::OuterWrite { at: e.at })
            }
        }
        _ => check_expr(inside, own, e),
    }
}

#[tactic(auto, unfolding(crate::specs::Breaks::both))]
fn check_capture(inside: bool, own: &Own, seen: &Own, x: &Id) -> Result<(), RegionFault>
    ensures meets { Passes result (capture_checked inside (texts own.now.keys) (texts seen.now.keys) (id_tree x.now)) }
    ensures fresh { OnOk result (has (texts seen.now.keys) (id_tree x.now).word ≡ false) }
{
    check_read(inside, own, x.at, x.name.as_str())?;
    if has_name(seen, x.name.as_str()) {
        return Err(RegionFault::CaptureTwice { at: x.at });
    }
    Ok(())
}

// A name comes into scope.
fn add_name<'a>(own: &mut Own<'a>, x: &'a str) -> Result<(), RegionFault>
    ensures adds { OnOk result (texts own.new.keys ≡ with_name (texts own.old.keys) x.now) }
    ensures keeps { OnOk result (Extends own.old.keys own.new.keys) }
    ensures err { IfErr result (λ f. f ≡ no_memory) }
{
    own.insert(x)?;
    Ok(())
}

// The captured names.
fn check_captures<'a>(
    alloc: Global,
    inside: bool,
    own: &Own,
    xs: &'a [Id],
) -> Result<Own<'a>, RegionFault>
    ensures { Makes see_names result (captures_checked inside (texts own.now.keys) [] (ids_tree xs.now)) }
{
    let mut seen = IndexSet::new(alloc);
    for x in xs {
        check_capture(inside, own, &seen, x)?;
        add_name(&mut seen, x.name.as_str())?;
    }
    Ok(seen)
}

fn check_head<'a>(
    alloc: Global,
    inside: bool,
    own: &Own,
    label: &Expr,
    caps: &Expr,
    xs: &'a Vec<Id>,
) -> Result<Own<'a>, RegionFault>
    ensures { Makes see_names result (head_checked inside (texts own.now.keys) (expr_tree label.now) (expr_tree caps.now) (ids_tree xs.now.items)) }
{
    check_expr(inside, own, label)?;
    check_expr(inside, own, caps)?;
    check_captures(alloc, inside, own, xs.as_slice())
}

#[cycle(stmt)]
fn check_stmt<'a>(
    alloc: Global,
    inside: bool,
    own: &mut Own<'a>,
    s: &'a Stmt,
) -> Result<(), RegionFault>
    ensures meets { Leaves result (texts own.new.keys) (stmt_checked inside (texts own.old.keys) (stmt_tree s.now)) }
    ensures keeps { OnOk result (Extends own.old.keys own.new.keys) }
{
    match &s.kind {
        StmtKind::Let { var, value } => {
            check_expr(inside, own, value)?;
            add_name(own, var.name.name.as_str())
        }
        StmtKind::If { test, yes, no } => {
            check_guarded(alloc, inside, own, yes, test)?;
            match no {
                None => Ok(()),
                Some(other) => check_block(alloc, inside, own, other),
            }
        }
        StmtKind::While { test, body } => check_guarded(alloc, inside, own, body, test),
        StmtKind::Return(e) => check_return(inside, own, s.at, e),
        StmtKind::Throw(e) => check_expr(inside, own, e),
        StmtKind::Sync { thing, body } => check_guarded(alloc, inside, own, body, thing),
        StmtKind::Region {
            label,
            caps,
            captures,
            body,
            catch_name,
            catch_body,
        } => {
            let mut inner = check_head(alloc, inside, own, label, caps, captures)?;
            check_block(alloc, true, &mut inner, body)?;
            add_name(&mut inner, catch_name.name.as_str())?;
            check_block(alloc, true, &mut inner, catch_body)
        }
        StmtKind::Do(e) => check_expr(inside, own, e),
        StmtKind::Assign { place, value } => {
            check_place(inside, own, place)?;
            check_expr(inside, own, value)
        }
    }
}

#[cycle(stmt)]
fn check_guarded<'a>(
    alloc: Global,
    inside: bool,
    own: &mut Own<'a>,
    body: &'a Vec<Stmt>,
    e: &'a Expr,
) -> Result<(), RegionFault>
    ensures meets { Passes result (guarded inside (texts own.old.keys) (expr_tree e.now) (stmts_tree body.now.items)) }
    ensures keeps { OnOk result (own.new.keys ≡ own.old.keys) }
{
    check_expr(inside, own, e)?;
    check_block(alloc, inside, own, body)
}

#[cycle(stmt)]
fn check_block<'a>(
    alloc: Global,
    inside: bool,
    own: &mut Own<'a>,
    body: &'a Vec<Stmt>,
) -> Result<(), RegionFault>
    ensures meets { Passes result (closed (stmts_checked inside (texts own.old.keys) (stmts_tree body.now.items))) }
    ensures keeps { OnOk result (own.new.keys ≡ own.old.keys) }
{
    let n = own.len();
    check_stmts(alloc, inside, own, body.as_slice())?;
    own.truncate(n);
    Ok(())
}

#[cycle(stmt)]
fn check_stmts<'a>(
    alloc: Global,
    inside: bool,
    own: &mut Own<'a>,
    body: &'a [Stmt],
) -> Result<(), RegionFault>
    ensures meets { Leaves result (texts own.new.keys) (stmts_checked inside (texts own.old.keys) (stmts_tree body.now)) }
    ensures keeps { OnOk result (Extends own.old.keys own.new.keys) }
{
    for s in body {
        check_stmt(alloc, inside, own, s)?;
    }
    Ok(())
}

// The functions of a program, in source order.
pub(crate) fn check_items(alloc: Global, items: &[Item]) -> Result<(), RegionFault>
    ensures { Passes result (program_checked (items_tree items.now)) }
{
    for item in items {
        match item {
            Item::Class(_) => {}
            Item::Function(f) => check_function(alloc, &f.body)?,
        }
    }
    Ok(())
}

fn check_function(alloc: Global, body: &Vec<Stmt>) -> Result<(), RegionFault>
    ensures { Passes result (closed (stmts_checked false [] (stmts_tree body.now.items))) }
{
    let mut own = IndexSet::new(alloc);
    check_block(alloc, false, &mut own, body)
}
