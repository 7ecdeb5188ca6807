//! The definition of name resolution, and its laws for checked programs.
//!
//! `specs/Resolved.antt` says what a program resolves to: a tree of `lam_resolve_tree`, with locals by slot, and
//! fields, classes, functions and regions by number. `specs/Names.antt` puts the names of a resolved program back.
//! `resolves` has the laws that join the two to the checker; `lam_resolve` computes the tree.
//!
//! A public promise rests on `resolves` (clauses `some`, `typed`, `slots`, `regions`, `reads`): each checked program
//! has a tree without names. Nothing here is a matter of speed.
#![tactic(auto)]

ghost use Rattle.std.specs.Prelude.{◌≡◌, IsSome, IsSomeAnd};
ghost use Rattle.lam_syntax.specs.Unplaced.{unplaced};
ghost use Rattle.lam_resolve_tree.specs.Typing.{IsTypedTree};
ghost use Rattle.lam_resolve_tree.specs.Regions.{AreNumbered};
ghost use Rattle.lam_resolve_tree.specs.Slots.{SlotsDiffer};
ghost use Rattle.lam_resolve_tree.specs.Limits.{WithinLimits};
ghost use Rattle.lam_resolve_laws.specs.Resolved.{resolved};
ghost use Rattle.lam_resolve_laws.specs.Names.{names_of, program_named};
ghost use Rattle.region_check.specs.Seen.{checked_tree};

use region_check::Checked;

/// A checked program resolves, to a tree that is typed by slots and numbers alone. The slots in scope differ and are
/// below the number of their unit's slots, the regions are numbered by place, and there is no more of anything than the
/// limits of the language allow. The tree is the program: with the names put back it is the same but for positions. The call does nothing; its contract is the law.
pub fn resolves(c: &Checked)
    ensures some { IsSome (resolved (checked_tree c.now)) }
    ensures typed { IsSomeAnd (resolved (checked_tree c.now)) (λ r. IsTypedTree r) }
    ensures slots { IsSomeAnd (resolved (checked_tree c.now)) (λ r. SlotsDiffer r) }
    ensures regions { IsSomeAnd (resolved (checked_tree c.now)) (λ r. AreNumbered r) }
    ensures limits { IsSomeAnd (resolved (checked_tree c.now)) (λ r. WithinLimits r) }
    ensures reads { IsSomeAnd (resolved (checked_tree c.now)) (λ r. program_named (names_of (checked_tree c.now)) r ≡ unplaced (checked_tree c.now)) }
{
    let _tree = c.program();
}
