//! A typed program.

ghost use Rattle.std.specs.Prelude.{IsTrue, is_none};
ghost use Rattle.lam_syntax.specs.Tree.{program_tree};
ghost use Rattle.lam_types.specs.Program.{first_type_break};

use lam_syntax::Program;

/// A typed program. Contracts see its tree, by `tree_of`.
#[derive(Drop)]
pub struct Typed {
    pub(crate) program: Program,
    ghost unbroken: { IsTrue (is_none (first_type_break (program_tree program))) },
}
