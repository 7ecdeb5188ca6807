//! The semantics of programs and the compiler's scheme, as definitions.
//!
//! The meaning of a thread is a *tree of asks*: each ask and, for each answer, how the thread goes on, down to its end.
//! It is made from the program with its names resolved, construct by construct, operands from left to right. Compiled
//! code plays no part in it. A list of answers plays the tree, and gives the asks that the thread makes, in order.
//!
//! Each turn of a loop and each call takes one *unit* of fuel. A meaning has a number of units, so that the tree is
//! finite; with more units it goes further, and no ask changes.
//!
//! - `specs/Trees`: the trees, and how they are put together.
//! - `specs/Means`: the meaning of expressions, statements and threads.
//! - `specs/Plays`: what a list of answers makes of a tree.
//!
//! By the scheme each construct has its operations, with read and write barriers before the accesses (Laminar, PLDI
//! 2009). They are defined in three steps. *Nested code* has them with their structure: branches are nested, constants
//! stand by value, and a region has its body and its catch block inside. Its *pieces* leave the region's code to a unit
//! of its own. They are then laid out flat, with addresses and with each constant once.
//!
//! - `specs/Pieces`: the pieces and their layout.
//! - `specs/Nested`: nested code, construct by construct, and its pieces.
//! - `specs/Scheme`: the pieces of each construct, the units of a program, and its code.
//! - `specs/SchemeExamples`: listings of small programs.
//!
//! The compiler's contract is that its code is this one. `lam_meaning_laws` proves of this scheme that the code acts as
//! its program.
//!
//! Nothing here is a matter of speed. The promises of `compile` (`barrier_compiler`) and of `walk` (`source_walk`) are
//! made in these definitions.
#![tactic(auto)]
