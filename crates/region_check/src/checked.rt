//! A program that keeps the region rules.

ghost use Rattle.std.specs.Prelude.{IsTrue, is_none};
ghost use Rattle.lam_types.specs.Seen.{tree_of};
ghost use Rattle.region_check.specs.Breaks.{first_region_break};

use lam_types::Typed;

/// A typed program that keeps the region rules. Contracts see its tree, by `checked_tree`.
#[derive(Drop)]
pub struct Checked {
    pub(crate) typed: Typed,
    ghost unbroken: { IsTrue (is_none (first_region_break (tree_of typed))) },
}
