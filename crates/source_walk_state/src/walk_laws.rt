//! The laws that relate a walk's states to the meaning of threads.
//!
//! A walk begins with the whole meaning of its thread, as one control and no frames (`walks_begin`). A call and a
//! region leave a delimiter among the frames, and what is below it goes on as the meaning says (`delimiters_keep`). A caller goes
//! on with its own locals. What stood around a region goes on after the body, after a caught fault, and after the catch
//! block.

ghost use Rattle.lam_resolve_tree.specs.Tree.{ResolvedTree};
ghost use Rattle.source_walk_state.specs.Laws.{WalksBegin, DelimitersKeep};

/// A law: the body of a thread's function, with as many units as it has depth and no frames, is all that the thread asks.
pub fn walks_begin()
    ensures { (r : ResolvedTree) → WalksBegin r }
{}

/// A law: calls and regions go on below their delimiters as they are meant to.
pub fn delimiters_keep()
    ensures { (r : ResolvedTree) → DelimitersKeep r }
{}
