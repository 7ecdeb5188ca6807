//! Checked programs.

ghost use Rattle.std.specs.Prelude.{◌≡◌, IfOk, Some};
ghost use Rattle.lam_syntax.specs.Unplaced.{unplaced};
ghost use Rattle.lam_resolve_tree.specs.Tree.{resolved_tree};
ghost use Rattle.lam_resolve_tree.specs.Typing.{IsTypedTree};
ghost use Rattle.lam_resolve_tree.specs.Regions.{AreNumbered};
ghost use Rattle.lam_resolve_tree.specs.Slots.{SlotsDiffer};
ghost use Rattle.lam_resolve_tree.specs.Limits.{WithinLimits};
ghost use Rattle.lam_resolve_laws.specs.Resolved.{resolved};
ghost use Rattle.lam_resolve_laws.specs.Names.{names_of, program_named};
ghost use Rattle.region_check.specs.Seen.{checked_tree};

use crate::programs::resolve_program;
use lam_resolve_laws::resolves;
use lam_resolve_tree::Resolved;
use region_check::Checked;
use want_of_memory::NoMemory;

/// A checked program with its names resolved: the tree that `resolved` says. It is typed, its slots in scope differ,
/// its regions are numbered by place, it is within the limits of the language, and with the names put back it is the
/// program but for positions.
///
/// # Errors
///
/// `NoMemory` where memory is refused.
pub fn resolve(c: &Checked) -> Result<Resolved, NoMemory>
    ensures resolved { IfOk result (λ r. Some (resolved_tree r) ≡ resolved (checked_tree c.now)) }
    ensures typed { IfOk result (λ r. IsTypedTree (resolved_tree r)) }
    ensures slots { IfOk result (λ r. SlotsDiffer (resolved_tree r)) }
    ensures regions { IfOk result (λ r. AreNumbered (resolved_tree r)) }
    ensures limits { IfOk result (λ r. WithinLimits (resolved_tree r)) }
    ensures reads { IfOk result (λ r. program_named (names_of (checked_tree c.now)) (resolved_tree r) ≡ unplaced (checked_tree c.now)) }
{
    resolves(c);
    resolve_program(c.program())
}
