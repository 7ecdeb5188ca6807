//! The law that every call of `make` is in order.
//!
//! `make` compiles a text that is fixed, and starts it from the document of a world that it writes of its two numbers.
//! The text always has code and the document always a start. So a call whose words are in order ends as a run ends,
//! unless memory runs out, or the file store or the output fails.
//!
//! In `proofs/`:
//!
//! - `Lexing` and `Parsing` compute tokens and trees by functions that are shown to keep the relations of the lexer and
//!   of the grammar.
//! - `Program` has the made program's tokens and tree, and `MadeCode` its code.
//! - `Lists` and `Document` read the made document as JSON, and `MadeStart` as a world.
//! - `Words` has the range of the words' number, and `Plans` joins them.

ghost use Rattle.std.specs.Prelude.{List};
ghost use Rattle.lam_io.specs.Outside.{Files};
ghost use Rattle.lam_main_words.specs.Words.{Text};
ghost use Rattle.lam_main_plan.specs.declared.Status.{Status};
ghost use Rattle.lam_main_plan.specs.Plan.{IsPlan};
ghost use Rattle.lam_main_plan.specs.Answer.{Outside, IsPlanned};
ghost use Rattle.lam_main_laws.specs.Headline.{MakesBreakOff};
ghost use Rattle.lam_main_laws.specs.Complete.{MakesAreComplete};
ghost use Rattle.lam_main_laws.specs.Orderly.{MakesEnd};

use world_save_laws::entries_are_functions;

/// A law: where words are those of `make`, the made program has a code, the made document has a start of it, and nothing
/// but a run of them is planned.
pub fn makes_are_complete()
    ensures { (ws : List Text) (files : Files) → MakesAreComplete ws files }
{
    entries_are_functions();
}

/// A law: a call of `make` ends as a run ends (`Done`, `Budget` or `AllWait`), unless memory runs out, or the file store or
/// the output fails.
pub fn makes_end()
    ensures { (ws : List Text) (status : Status) (old new : Outside) → IsPlanned status (IsPlan ws old.files) old new → MakesEnd ws status }
{
    makes_are_complete();
}

/// A law: where the output failed in such a call, the book stands all the same: it holds the turns of a run of the code of
/// the made program from the made world, and a front of the summary of that run was printed, and not all of it.
pub fn broken_makes_are_recorded()
    ensures { (ws : List Text) (status : Status) (old new : Outside) → IsPlanned status (IsPlan ws old.files) old new → MakesBreakOff ws status old new }
{
    makes_are_complete();
}
