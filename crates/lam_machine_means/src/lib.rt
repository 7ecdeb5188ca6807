//! The law that runs of typed programs make the asks of their source.
//!
//! In every run of a code that acts as a typed program no thread is ever stuck, and each thread asks what its source
//! means. Its source is taken with the function, arguments and capabilities that the thread was started with, and the
//! answers in the run. The meaning with n *units* bounds its asks from both sides:
//!
//! - they are the first ones of the source with as many units as the thread made turns,
//! - after `(n + 1) * bound` turns, or once it has ended, it has asked all that the source asks with n units.
//!
//! A lone thread of the code does so where its answers suit: that is what acting as the program means.
//! `lam_meaning_laws` defines it (`ActsAs`), and shows it of the scheme's code. `lam_machine_laws` says that a thread
//! of a run is a lone thread with the answers that it got. This crate proves that all answers of a run suit.
//!
//! A run is a protocol of two parties. Turns keep what stands on the heap of its types, and answer typed asks by values
//! of the types wanted (`turns_are_typed`). A *typing* says what each heap name stands for, an object of a class or an
//! array of a type. It is no part of a world, and grows where a thing is made, as the ask's place wants. Threads of a
//! typed program make typed asks alone, as long as each answer is of the type that its place wants (`asks_are_typed`).
//! They read a field of an object of the field's class, and write values of the slot's type. They spawn functions with
//! arguments of their types, and end with a number.
//!
//! Neither holds alone, so one induction over the turns of a run puts them together (`answers_suit_in_runs`). Each
//! thread's asks so far are those that its source means with the answers that it got. So its next ask is typed, and so
//! its answer suits.
//!
//! That threads make typed asks is the proof of `lam_meaning_typed`, with values of types under a typing in place of
//! values of their types' sorts. `proofs/Sorts` has what it takes of them, `proofs/Steps` one turn, and `proofs/Whole`
//! the run.
//!
//! A public promise rests on [`runs_mean_what_the_source_means`] and on [`no_run_sticks`]: threads ask what their
//! source asks, and none is stuck. Nothing here is a matter of speed.
#![tactic(auto)]

ghost use Rattle.lam_bytecode.specs.Codes.{CodeTree};
ghost use Rattle.lam_resolve_tree.specs.Tree.{ResolvedTree, ResolvedType};
ghost use Rattle.lam_machine_means.specs.Meant.{RunsMean, NoRunSticks};
ghost use Rattle.std.specs.Prelude.{List};
ghost use Rattle.lam_machine_means.specs.Served.{TurnsAreTyped};
ghost use Rattle.lam_machine_means.specs.Asks.{AsksAreTyped};
ghost use Rattle.lam_machine_means.specs.Runs.{AnswersSuitInRuns};

/// Each thread of each run of a code that acts as a typed program is not stuck and asks what its source means, where the
/// first world is valid and its threads stand at entries, with arguments of their parameters' types.
pub fn runs_mean_what_the_source_means()
    ensures { (r : ResolvedTree) (code : CodeTree) → RunsMean r code }
{}

/// In such a run no thread of any world is stuck: not at the start, and not after any turn.
pub fn no_run_sticks()
    ensures { (r : ResolvedTree) (code : CodeTree) → NoRunSticks r code }
{}

/// Where the slots of all typed names are of their types, threads that ended gave numbers, and a turn asks nothing but
/// what is typed, the same holds after the turn, by a typing that only grew, and the answer is of the type wanted.
pub fn turns_are_typed()
    ensures { (classes : List (List ResolvedType)) (code : CodeTree) → TurnsAreTyped classes code }
{}

/// A thread of a typed program asks typed asks alone, while each answer suits its ask and is of the type wanted: with any
/// number of units and any capabilities, under any typing in which its arguments are of its parameters' types.
pub fn asks_are_typed()
    ensures { (r : ResolvedTree) → AsksAreTyped r }
{}

/// From a valid world in which each thread stands at the entry of a function of a typed program, after any turns of a code
/// that acts as the program: each thread, also one that was spawned, began at a function with arguments of its parameters'
/// sorts, went on by its own turns, and each answer that it got suits the ask of its source.
pub fn answers_suit_in_runs()
    ensures { (r : ResolvedTree) (code : CodeTree) → AnswersSuitInRuns r code }
{}
