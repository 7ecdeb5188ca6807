//! Worked examples of the machine: views of runs of hand-written code.
//!
//! Each takes hand-written code, the document of a world and a list of turns, and shows what an observer sees of the
//! run. `run` takes the turns, and the others are the examples. Those of `documents` and `saved` are no worlds, and
//! come to no turn. No program is parsed or compiled here. The expected lines come from the descriptions, never from
//! the machine.
#![tactic(auto)]

#[cfg(test)]
mod documents;
#[cfg(test)]
mod files;
#[cfg(test)]
mod pipes;
#[cfg(test)]
mod regions;
#[cfg(test)]
mod run;
#[cfg(test)]
mod saved;
#[cfg(test)]
mod secrets;
#[cfg(test)]
mod stretches;
#[cfg(test)]
mod threads;
#[cfg(test)]
mod worlds;
