//! Worked examples of walks over the source of small programs.
//!
//! A walk follows what a thread did on the source. What is expected comes from the language's document: which asks the
//! source makes, with as many units and these answers.
//!
//! - `follows`: threads that ask for nothing but their end, with which turns take a unit, and how a thread ends.
//! - `written`: asks and answers as constants.
//! - `tables`: what a thread did by a table of them, with the asks in whose place it would depart.
//! - `things`, `regions`, `files`, `pipes` and `threads`: the tables. Together they have each kind of ask.
//! - `answers`: answers that do not suit their ask.
#![tactic(auto)]

#[cfg(test)]
mod answers;
#[cfg(test)]
mod files;
#[cfg(test)]
mod follows;
#[cfg(test)]
mod pipes;
#[cfg(test)]
mod regions;
#[cfg(test)]
mod tables;
#[cfg(test)]
mod things;
#[cfg(test)]
mod threads;
#[cfg(test)]
mod written;
