//! The decomposition of a machine's turn into its parts, in proofs alone.
//!
//! A turn that asks has three parts. They are the monitor's service, its answer's effect on the acting thread, and its
//! own effect on the stores and the list of threads. Code does them one by one. The law says that together they are the
//! turn that `lam_machine_terms` defines.
//!
//! The service of an ask that is ready can be applied. An effect needs room in its store. What is made needs a counter
//! below its limit, and the monitor tests that. What is copied must live, which is part of a valid world. A monitor
//! that is taken must be held by no other thread, which is so where the acting thread does not wait.

ghost use Rattle.lam_machine_laws.specs.Turned.{TurnsHaveParts};
ghost use Rattle.lam_machine_laws.specs.Ready.{ServedHasRoom};

/// A private turn is a change of its thread, and a turn that asks is the answer taken and the effect applied.
pub fn turns_have_parts()
    ensures { TurnsHaveParts }
{}

/// The service of an ask that is ready has room in the stores, where the ask copies what lives.
pub fn served_has_room()
    ensures { ServedHasRoom }
{}
