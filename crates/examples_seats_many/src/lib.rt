//! Worked examples of seats on threads of their own, which share one book.
//!
//! The order of their calls is open, and the book shows what each of them saw. `callers` takes the turns, `shared`
//! opens and closes their run, `books` shows what its book has, and the others are the examples. The expected numbers
//! come from the descriptions of seats and of made programs, never from the program.
#![tactic(auto)]

#[cfg(test)]
mod books;
#[cfg(test)]
mod callers;
#[cfg(test)]
mod shared;
#[cfg(test)]
mod sixteen;
#[cfg(test)]
mod two;
