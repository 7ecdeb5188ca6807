//! Worked examples of the language, from tokens to resolved names and first breaks.
//!
//! They have tokens, trees, canonical text, whole programs, resolved names and first breaks. Each runs one call of the
//! crates below. What is expected comes from the language's document, never from the tool. `proofs/Types` and
//! `proofs/Regions` have programs and their first breaks, computed from the definitions alone.
#![tactic(auto)]

#[cfg(test)]
mod expressions;
#[cfg(test)]
mod printed;
#[cfg(test)]
mod programs;
#[cfg(test)]
mod resolved;
#[cfg(test)]
mod sameness;
#[cfg(test)]
mod shown;
#[cfg(test)]
mod tokens;
#[cfg(test)]
mod trees;
#[cfg(test)]
mod whole;
