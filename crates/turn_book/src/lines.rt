//! The lines of a book.

ghost use Rattle.std.specs.Prelude.{◌≡◌, ◌≤◌, ◌<◌, ◌+◌, ◌-◌, ◌^◌, min, ◌++◌, [], ◌==◌, length, option_map, OnOk, IfSome, position};
ghost use Rattle.std.specs.List.{prefix_len};
ghost use Rattle.decimal_text.specs.Decimal.{number_of};
ghost use Rattle.turn_book.specs.Book.{line_text};
ghost use Rattle.turn_book.specs.Reading.{cut, stretch_of, stretch_or, saturated, last_is, with_stretch, turns_from, Gives, GivesOnto};
ghost use Rattle.turn_book.specs.Cuts.{parts_of, stretch_seen};
ghost use Rattle.turn_book.specs.Limits.{most_turns};

use crate::BookFault;
use crate::limits::{LAST_THREAD, TURN_LIMIT};
use decimal_text::{NumberFault, push_number_bytes, read_number};
use std::alloc::Global;
use want_of_memory::NoMemory;

/// The most turns of a book, as a length.
const MOST: usize = TURN_LIMIT as usize;

/// What one line says: a thread takes so many turns in a row.
#[derive(Clone, Copy)]
struct Stretch {
    thread: u32,
    count: u64,
}

/// What stands before the first mark of a text, and after it.
fn cut(text: &[u8], mark: u8) -> Option<(&[u8], &[u8])>
    ensures { option_map parts_of result ≡ cut mark text.now }
{
    match mark_place(text, mark) {
        None => None,
        Some(at) => {
            let (front, _) = text.split_at(at);
            let (_, after) = text.split_at(at + 1);
            Some((front, after))
        }
    }
}

fn mark_place(text: &[u8], mark: u8) -> Option<usize>
    ensures value { result ≡ position (λ b. b == mark) text.now }
    ensures within { IfSome result (λ at. at < length text.now) }
{
    text.iter().position(|b| *b == mark)
}

/// The number that a text writes, or the greatest of 64 bits where it is greater.
fn number_of(text: &[u8]) -> Option<u64>
    ensures { result ≡ option_map (λ n. min n (2 ^ 64 - 1)) (number_of text.now) }
{
    match read_number(text) {
        Ok(number) => Some(number),
        Err(NumberFault::TooLarge) => Some(u64::MAX),
        Err(NumberFault::NoNumber) => None,
    }
}

/// The stretch that a line without its line feed writes. A count past 64 bits is the greatest of them.
fn stretch_of(line: &[u8]) -> Option<Stretch>
    ensures { option_map stretch_seen result ≡ option_map saturated (stretch_of line.now) }
{
    match cut(line, b' ') {
        None => None,
        Some((thread, count)) => stretch_or(number_of(thread), number_of(count)),
    }
}

/// The stretch of two numbers, where there is one.
fn stretch_or(thread: Option<u64>, count: Option<u64>) -> Option<Stretch>
    ensures { option_map stretch_seen result ≡ stretch_or thread count }
{
    match (thread, count) {
        (Some(thread), Some(count)) if thread <= LAST_THREAD && count > 0 => Some(Stretch {
            thread: thread as u32,
            count,
        }),
        _ => None,
    }
}

fn last_is(turns: &[u32], thread: u32) -> bool
    ensures { result ≡ last_is turns.now thread }
{
    match turns.last() {
        None => false,
        Some(last) => *last == thread,
    }
}

/// Puts the turns of a line after the others.
fn take_line(turns: &mut Vec<u32>, line: &[u8], number: u64) -> Result<(), BookFault>
    requires { length turns.old.items ≤ most_turns }
    ensures { GivesOnto result turns.new.items (with_stretch turns.old.items number (stretch_of line.now)) }
{
    match stretch_of(line) {
        None => Err(BookFault::BadLine { line: number }),
        Some(stretch) => {
            if last_is(turns.as_slice(), stretch.thread) {
                return Err(BookFault::SameThread { line: number });
            }
            let room = MOST - turns.len();
            if stretch.count > room as u64 {
                return Err(BookFault::TooMany { line: number });
            }
            turns.resize(turns.len() + stretch.count as usize, stretch.thread)?;
            Ok(())
        }
    }
}

/// The turns of the lines of a text, of which the first is line 2.
pub(crate) fn read_lines(alloc: Global, text: &[u8]) -> Result<Vec<u32>, BookFault>
    ensures { Gives (λ v. v.items) result (turns_from [] [] text.now 2) }
{
    let mut turns = Vec::new(alloc);
    let mut rest = text;
    let mut number = 2u64;
    while let Some((line, after)) = cut(rest, b'\n') {
        take_line(&mut turns, line, number)?;
        rest = after;
        number += 1;
    }
    if rest.is_empty() {
        Ok(turns)
    } else {
        Err(BookFault::BadLine { line: number })
    }
}

/// How many turns of the thread stand in front.
pub(crate) fn stretch_len(turns: &[u32], thread: u32) -> usize
    ensures value { result ≡ prefix_len (λ t. t == thread) turns.now }
    ensures within { result ≤ length turns.now }
{
    turns.iter().take_while(|t| **t == thread).count()
}

/// Writes the line of a stretch.
pub(crate) fn push_line(text: &mut Vec<u8>, thread: u32, count: u64) -> Result<(), NoMemory>
    ensures { OnOk result (text.new.items ≡ text.old.items ++ line_text (record { thread = thread; count = count }) []) }
{
    push_number_bytes(text, u64::from(thread))?;
    text.push(b' ')?;
    push_number_bytes(text, count)?;
    text.push(b'\n')?;
    Ok(())
}
