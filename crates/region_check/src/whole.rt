//! The test of a whole program.

ghost use Rattle.std.specs.Prelude.{◌≡◌, IfOk, IfErr, OnOk, None};
ghost use Rattle.lam_syntax.specs.Tree.{program_tree};
ghost use Rattle.lam_types.specs.Judgement.{IsTyped};
ghost use Rattle.region_check.specs.Breaks.{first_region_break, program_checked};
ghost use Rattle.region_check.specs.Legal.{IsRegionLegal};
ghost use Rattle.lam_types.specs.Seen.{tree_of};
ghost use Rattle.region_check.specs.Seen.{checked_tree};
ghost use Rattle.region_check.specs.Values.{Passes, IsFirst, HasNoBreak};

use crate::checked::Checked;
use crate::{RegionFault, check_items};
use lam_syntax::Program;
use lam_types::Typed;

impl Checked {
    /// The program.
    pub fn program(&self) -> &Program
        ensures tree { program_tree result.now ≡ checked_tree self.now }
        ensures typed { IsTyped (checked_tree self.now) }
        ensures legal { IsRegionLegal (checked_tree self.now) }
        ensures fine { first_region_break (checked_tree self.now) ≡ None }
    {
        self.typed.program()
    }

    /// The program, by value.
    pub fn into_program(self) -> Program
        ensures { program_tree result ≡ checked_tree self }
    {
        self.typed.into_program()
    }
}

/// Tests the region rules of a typed program. It answers Ok with the same tree exactly where the program keeps them,
/// else the first break.
pub fn regions(t: Typed) -> Result<Checked, RegionFault>
    ensures tree { IfOk result (λ c. checked_tree c ≡ tree_of t) }
    ensures legal { OnOk result (IsRegionLegal (tree_of t)) }
    ensures only { IsRegionLegal (tree_of t) → HasNoBreak result }
    ensures fine { OnOk result (first_region_break (tree_of t) ≡ None) }
    ensures first { IfErr result (λ f. IsFirst f (first_region_break (tree_of t))) }
{
    check_program(t.program())?;
    Ok(Checked { typed: t })
}

fn check_program(p: &Program) -> Result<(), RegionFault>
    ensures { Passes result (program_checked (program_tree p.now)) }
{
    let alloc = *p.items.allocator();
    check_items(alloc, p.items.as_slice())
}
