//! Blocks that end in a return or a throw.

ghost use Rattle.std.specs.Prelude.{◌≡◌};
ghost use Rattle.lam_syntax.specs.Tree.{stmt_tree, stmts_tree};
ghost use Rattle.lam_types.specs.Endings.{ends, ends_stmt};

use lam_syntax::{Stmt, StmtKind};

/// Whether a block ends in a return or a throw, on each way through it.
#[cycle(ends)]
pub fn block_ends(body: &[Stmt]) -> bool
    ensures { result ≡ ends (stmts_tree body.now) }
{
    match body.last() {
        None => false,
        Some(s) => stmt_ends(s),
    }
}

#[cycle(ends)]
fn stmt_ends(s: &Stmt) -> bool
    ensures { result ≡ ends_stmt (stmt_tree s.now) }
{
    match &s.kind {
        StmtKind::Return(_) | StmtKind::Throw(_) => true,
        StmtKind::If { yes, no, .. } => match no {
            None => false,
            Some(other) => block_ends(yes.as_slice()) && block_ends(other.as_slice()),
        },
        _ => false,
    }
}
