//! The typing of statements.

ghost use Rattle.std.specs.Prelude.{◌≡◌, OnOk, IfErr, None};
ghost use Rattle.lam_syntax.specs.Tree.{expr_tree, id_tree, ids_tree, option_expr_tree, stmt_tree, stmts_tree, var_tree};
ghost use Rattle.lam_builtins.specs.Types.{exactly, int};
ghost use Rattle.lam_types_kinds.specs.Verdicts.{Fine, then_on};
ghost use Rattle.lam_types_kinds.specs.Tables.{find};
ghost use Rattle.lam_types_kinds.specs.Values.{decls, names, value_type, option_type, given, place, Passes, Extends};
ghost use Rattle.lam_types_exprs.specs.Exprs.{at_of, given_of};
ghost use Rattle.lam_types.specs.Stmts.{stands, one_slot, one_region, with_local, new_local, capture, captured, returned, is_place as is_a_place, place_type, assigned, let_checked, head_checked, stmt_checked, stmts_checked, block_checked};
ghost use Rattle.lam_types.specs.Parts.{guarded, synced, opened, caught};
ghost use Rattle.lam_types.specs.Meets.{Counted, Steps};
ghost use Rattle.lam_types_kinds.specs.declared.fault.TypeFault.TheVariants.{NoMemory as no_memory};

use lam_builtins::{MOST_REGIONS, MOST_SLOTS};
use lam_syntax::{Expr, ExprKind, Id, Stmt, StmtKind, Var};
use lam_types_exprs::{check_at, check_expr};
use lam_types_kinds::fault::mismatch;
use lam_types_kinds::tables::{add_name, find_name, fresh_name, known_type};
use lam_types_kinds::types::{got_type, type_ref};
use lam_types_kinds::{Got, Known, Names, TypeFault, TypeRef, Want};
use std::alloc::Global;

/// The slots of the unit and the regions of the program, so far.
#[derive(Clone, Copy)]
pub struct Counts {
    pub slots: u32,
    pub regions: u32,
}

// What stands before the blocks of a region.
#[derive(Clone, Copy)]
struct RegionHead<'a> {
    at: u64,
    label: &'a Expr,
    caps: &'a Expr,
    captures: &'a Vec<Id>,
}

#[tactic(auto, unfolding(crate::specs::Stmts::stands))]
fn check_stands<'a>(
    alloc: Global,
    known: &Known<'a>,
    env: &Names<'a>,
    want: Want<'a>,
    e: &'a Expr,
) -> Result<(), TypeFault>
    ensures { Passes result (stands (decls known.now) (names env.now.entries) (place want.entry) (expr_tree e.now)) }
{
    check_at(alloc, known, env, want, e)?;
    Ok(())
}

fn count_slot(at: u64, c: Counts) -> Result<Counts, TypeFault>
    ensures { Counted result (one_slot at c) }
{
    if c.slots < MOST_SLOTS {
        Ok(Counts {
            slots: c.slots + 1,
            regions: c.regions,
        })
    } else {
        Err(TypeFault::TooMany { at })
    }
}

fn count_region(at: u64, c: Counts) -> Result<Counts, TypeFault>
    ensures { Counted result (one_region at c) }
{
    if c.regions < MOST_REGIONS {
        Ok(Counts {
            slots: 0,
            regions: c.regions + 1,
        })
    } else {
        Err(TypeFault::TooMany { at })
    }
}

// A local with a new name, which is not in scope yet.
fn check_new<'a>(env: &Names<'a>, c: Counts, x: &Id) -> Result<Counts, TypeFault>
    ensures meets { Counted result (new_local (names env.now.entries) c (id_tree x.now)) }
    ensures absent { OnOk result (find (id_tree x.now).word (names env.now.entries) ≡ None) }
{
    fresh_name(env, x)?;
    count_slot(x.at, c)
}

fn check_capture<'a>(env: &Names<'a>, c: Counts, x: &Id) -> Result<Counts, TypeFault>
    ensures { Counted result (capture (names env.now.entries) c (id_tree x.now)) }
{
    if find_name(env, x.name.as_str()).is_none() {
        return Err(TypeFault::NoName { at: x.at });
    }
    count_slot(x.at, c)
}

fn check_captures<'a>(env: &Names<'a>, c: Counts, xs: &[Id]) -> Result<Counts, TypeFault>
    ensures { Counted result (captured (names env.now.entries) c (ids_tree xs.now)) }
{
    let mut c = c;
    for x in xs {
        c = check_capture(env, c, x)?;
    }
    Ok(c)
}

// A name comes into scope.
fn declare<'a>(env: &mut Names<'a>, name: &'a str, t: TypeRef<'a>) -> Result<(), TypeFault>
    requires { find name.now (names env.old.entries) ≡ None }
    ensures adds { OnOk result (names env.new.entries ≡ with_local (names env.old.entries) name.now (value_type t.entry)) }
    ensures keeps { OnOk result (Extends env.old.entries env.new.entries) }
    ensures err { IfErr result (λ f. f ≡ no_memory) }
{
    add_name(env, name, t)
}

fn check_returned<'a>(
    alloc: Global,
    known: &Known<'a>,
    want: Option<TypeRef<'a>>,
    env: &Names<'a>,
    at: u64,
    value: &'a Option<Expr>,
) -> Result<(), TypeFault>
    ensures { Passes result (returned (decls known.now) (option_type want.entry) (names env.now.entries) at (option_expr_tree value.now)) }
{
    match value {
        None => match want {
            Some(t) => Err(mismatch(alloc, at, Some(t), None)),
            None => Ok(()),
        },
        Some(e) => match want {
            Some(t) => check_stands(alloc, known, env, Want::Exactly(t), e),
            None => {
                let got = check_expr(alloc, known, env, e)?;
                Err(mismatch(alloc, e.at, None, got_type(got)))
            }
        },
    }
}

fn check_return<'a>(
    alloc: Global,
    known: &Known<'a>,
    want: Option<TypeRef<'a>>,
    env: &Names<'a>,
    c: Counts,
    at: u64,
    value: &'a Option<Expr>,
) -> Result<Counts, TypeFault>
    ensures { Steps result (names env.now.entries) (then_on (returned (decls known.now) (option_type want.entry) (names env.now.entries) at (option_expr_tree value.now)) (λ _. Fine (names env.now.entries, c))) }
{
    check_returned(alloc, known, want, env, at, value)?;
    Ok(c)
}

fn check_throw<'a>(
    alloc: Global,
    known: &Known<'a>,
    env: &Names<'a>,
    c: Counts,
    e: &'a Expr,
) -> Result<Counts, TypeFault>
    ensures { Steps result (names env.now.entries) (then_on (stands (decls known.now) (names env.now.entries) (exactly int) (expr_tree e.now)) (λ _. Fine (names env.now.entries, c))) }
{
    check_stands(alloc, known, env, Want::Exactly(TypeRef::Int), e)?;
    Ok(c)
}

fn check_do<'a>(
    alloc: Global,
    known: &Known<'a>,
    env: &Names<'a>,
    c: Counts,
    e: &'a Expr,
) -> Result<Counts, TypeFault>
    ensures { Steps result (names env.now.entries) (then_on (given_of (decls known.now) (names env.now.entries) (expr_tree e.now)) (λ _. Fine (names env.now.entries, c))) }
{
    check_expr(alloc, known, env, e)?;
    Ok(c)
}

fn is_place(e: &Expr) -> bool
    ensures { result ≡ is_a_place (expr_tree e.now) }
{
    matches!(
        &e.kind,
        ExprKind::Name(_) | ExprKind::Field { .. } | ExprKind::Element { .. }
    )
}

fn type_before<'a>(place: &Expr, got: Got<'a>) -> Option<TypeRef<'a>>
    ensures { option_type result ≡ place_type (is_a_place (expr_tree place.now)) (given got.entry) }
{
    if is_place(place) { got_type(got) } else { None }
}

fn check_assigned<'a>(
    alloc: Global,
    known: &Known<'a>,
    env: &Names<'a>,
    at: u64,
    got: Got<'a>,
    want: Option<TypeRef<'a>>,
    value: &'a Expr,
) -> Result<(), TypeFault>
    ensures { Passes result (assigned (decls known.now) (names env.now.entries) at (given got.entry) (option_type want.entry) (expr_tree value.now)) }
{
    match want {
        Some(t) => check_stands(alloc, known, env, Want::Exactly(t), value),
        None => Err(mismatch(alloc, at, None, got_type(got))),
    }
}

fn check_assign<'a>(
    alloc: Global,
    known: &Known<'a>,
    env: &Names<'a>,
    c: Counts,
    place: &'a Expr,
    value: &'a Expr,
) -> Result<Counts, TypeFault>
    ensures { Steps result (names env.now.entries) (then_on (given_of (decls known.now) (names env.now.entries) (expr_tree place.now)) (λ g. then_on (assigned (decls known.now) (names env.now.entries) (at_of (expr_tree place.now)) g (place_type (is_a_place (expr_tree place.now)) g) (expr_tree value.now)) (λ _. Fine (names env.now.entries, c)))) }
{
    let got = check_expr(alloc, known, env, place)?;
    check_assigned(
        alloc,
        known,
        env,
        place.at,
        got,
        type_before(place, got),
        value,
    )?;
    Ok(c)
}

fn check_let<'a>(
    alloc: Global,
    known: &Known<'a>,
    env: &mut Names<'a>,
    c: Counts,
    x: &'a Var,
    e: &'a Expr,
) -> Result<Counts, TypeFault>
    ensures meets { Steps result (names env.new.entries) (let_checked (decls known.now) (names env.old.entries) c (var_tree x.now) (expr_tree e.now)) }
    ensures keeps { OnOk result (Extends env.old.entries env.new.entries) }
{
    let c = check_new(env, c, &x.name)?;
    known_type(known, &x.ty)?;
    check_stands(alloc, known, env, Want::Exactly(type_ref(&x.ty)), e)?;
    declare(env, x.name.name.as_str(), type_ref(&x.ty))?;
    Ok(c)
}

fn check_head<'a>(
    alloc: Global,
    known: &Known<'a>,
    env: &Names<'a>,
    c: Counts,
    head: RegionHead<'a>,
) -> Result<Counts, TypeFault>
    ensures { Counted result (head_checked (decls known.now) (names env.now.entries) c head.entry.at (expr_tree head.entry.label.now) (expr_tree head.entry.caps.now) (ids_tree head.entry.captures.now.items)) }
{
    let c = count_region(head.at, c)?;
    check_stands(alloc, known, env, Want::Exactly(TypeRef::Label), head.label)?;
    check_stands(alloc, known, env, Want::Exactly(TypeRef::Caps), head.caps)?;
    check_captures(env, c, head.captures.as_slice())
}

#[cycle(stmt)]
fn check_stmt<'a>(
    alloc: Global,
    known: &Known<'a>,
    want: Option<TypeRef<'a>>,
    env: &mut Names<'a>,
    c: Counts,
    s: &'a Stmt,
) -> Result<Counts, TypeFault>
    ensures meets { Steps result (names env.new.entries) (stmt_checked (decls known.now) (option_type want.entry) (names env.old.entries) c (stmt_tree s.now)) }
    ensures keeps { OnOk result (Extends env.old.entries env.new.entries) }
{
    match &s.kind {
        StmtKind::Let { var, value } => check_let(alloc, known, env, c, var, value),
        StmtKind::If { test, yes, no } => {
            let c = check_guarded(alloc, known, want, env, c, yes, test)?;
            match no {
                None => Ok(c),
                Some(other) => check_block(alloc, known, want, env, c, other),
            }
        }
        StmtKind::While { test, body } => check_guarded(alloc, known, want, env, c, body, test),
        StmtKind::Return(e) => check_return(alloc, known, want, env, c, s.at, e),
        StmtKind::Throw(e) => check_throw(alloc, known, env, c, e),
        StmtKind::Sync { thing, body } => check_sync(alloc, known, want, env, c, body, s.at, thing),
        StmtKind::Region {
            label,
            caps,
            captures,
            body,
            catch_name,
            catch_body,
        } => {
            let head = RegionHead {
                at: s.at,
                label,
                caps,
                captures,
            };
            let inner = check_opened(alloc, known, want, env, c, body, head)?;
            let inner = check_catch(alloc, known, want, env, inner, catch_body, catch_name)?;
            Ok(Counts {
                slots: c.slots,
                regions: inner.regions,
            })
        }
        StmtKind::Do(e) => check_do(alloc, known, env, c, e),
        StmtKind::Assign { place, value } => check_assign(alloc, known, env, c, place, value),
    }
}

#[cycle(stmt)]
fn check_guarded<'a>(
    alloc: Global,
    known: &Known<'a>,
    want: Option<TypeRef<'a>>,
    env: &mut Names<'a>,
    c: Counts,
    body: &'a Vec<Stmt>,
    test: &'a Expr,
) -> Result<Counts, TypeFault>
    ensures meets { Counted result (guarded (decls known.now) (option_type want.entry) (names env.old.entries) c (expr_tree test.now) (stmts_tree body.now.items)) }
    ensures keeps { OnOk result (env.new.entries ≡ env.old.entries) }
{
    check_stands(alloc, known, env, Want::Exactly(TypeRef::Bool), test)?;
    check_block(alloc, known, want, env, c, body)
}

#[cycle(stmt)]
fn check_sync<'a>(
    alloc: Global,
    known: &Known<'a>,
    want: Option<TypeRef<'a>>,
    env: &mut Names<'a>,
    c: Counts,
    body: &'a Vec<Stmt>,
    at: u64,
    thing: &'a Expr,
) -> Result<Counts, TypeFault>
    ensures meets { Counted result (synced (decls known.now) (option_type want.entry) (names env.old.entries) c at (expr_tree thing.now) (stmts_tree body.now.items)) }
    ensures keeps { OnOk result (env.new.entries ≡ env.old.entries) }
{
    let c = count_slot(at, c)?;
    check_stands(alloc, known, env, Want::AnyObject, thing)?;
    check_block(alloc, known, want, env, c, body)
}

#[cycle(stmt)]
fn check_opened<'a>(
    alloc: Global,
    known: &Known<'a>,
    want: Option<TypeRef<'a>>,
    env: &mut Names<'a>,
    c: Counts,
    body: &'a Vec<Stmt>,
    head: RegionHead<'a>,
) -> Result<Counts, TypeFault>
    ensures meets { Counted result (opened (decls known.now) (option_type want.entry) (names env.old.entries) c head.entry.at (expr_tree head.entry.label.now) (expr_tree head.entry.caps.now) (ids_tree head.entry.captures.now.items) (stmts_tree body.now.items)) }
    ensures keeps { OnOk result (env.new.entries ≡ env.old.entries) }
{
    let c = check_head(alloc, known, env, c, head)?;
    check_block(alloc, known, want, env, c, body)
}

#[cycle(stmt)]
fn check_catch<'a>(
    alloc: Global,
    known: &Known<'a>,
    want: Option<TypeRef<'a>>,
    env: &mut Names<'a>,
    c: Counts,
    body: &'a Vec<Stmt>,
    name: &'a Id,
) -> Result<Counts, TypeFault>
    ensures meets { Counted result (caught (decls known.now) (option_type want.entry) (names env.old.entries) c (id_tree name.now) (stmts_tree body.now.items)) }
    ensures keeps { OnOk result (env.new.entries ≡ env.old.entries) }
{
    let n = env.len();
    let c = check_new(env, c, name)?;
    declare(env, name.name.as_str(), TypeRef::Int)?;
    let c = check_block(alloc, known, want, env, c, body)?;
    env.truncate(n);
    Ok(c)
}

/// A block: its first break, or the counts after it. The names in scope stay.
#[cycle(stmt)]
pub fn check_block<'a>(
    alloc: Global,
    known: &Known<'a>,
    want: Option<TypeRef<'a>>,
    env: &mut Names<'a>,
    c: Counts,
    body: &'a Vec<Stmt>,
) -> Result<Counts, TypeFault>
    ensures meets { Counted result (block_checked (decls known.now) (option_type want.entry) (names env.old.entries) c (stmts_tree body.now.items)) }
    ensures keeps { OnOk result (env.new.entries ≡ env.old.entries) }
{
    let n = env.len();
    let c = check_stmts(alloc, known, want, env, c, body.as_slice())?;
    env.truncate(n);
    Ok(c)
}

#[cycle(stmt)]
fn check_stmts<'a>(
    alloc: Global,
    known: &Known<'a>,
    want: Option<TypeRef<'a>>,
    env: &mut Names<'a>,
    c: Counts,
    body: &'a [Stmt],
) -> Result<Counts, TypeFault>
    ensures meets { Steps result (names env.new.entries) (stmts_checked (decls known.now) (option_type want.entry) (names env.old.entries) c (stmts_tree body.now)) }
    ensures keeps { OnOk result (Extends env.old.entries env.new.entries) }
{
    let mut c = c;
    for s in body {
        c = check_stmt(alloc, known, want, env, c, s)?;
    }
    Ok(c)
}
