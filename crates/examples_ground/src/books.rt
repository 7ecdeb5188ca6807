//! Texts that are no books, each cut of a book, and books of whole runs.

use std::test::Fail;
use turn_book::{BookFault, read_book, write_book};

/// Why a text is no book.
fn fault_of(rt: &HostRuntime, text: &[u8]) -> Option<BookFault> {
    read_book(rt.alloc(), text).err()
}

#[test]
fn bad_books(rt: HostRuntime) {
    for (text, fault) in [
        (
            b"lam book 1\n0 3".as_slice(),
            BookFault::BadLine { line: 2 },
        ),
        (
            b"lam book 1\n0 3\n0 1\n".as_slice(),
            BookFault::SameThread { line: 3 },
        ),
        (b"".as_slice(), BookFault::BadHead),
        (
            b"lam book 1\n1 18446744073709551617\n".as_slice(),
            BookFault::TooMany { line: 2 },
        ),
        (
            b"lam book 1\n1 1000000\n2 1\n".as_slice(),
            BookFault::TooMany { line: 3 },
        ),
    ] {
        assert_eq!(rt; fault_of(&rt, text), Some(fault));
    }
}

/// Each cut of a book is refused: in its head, in its first line, and in its second.
#[test]
fn truncated_book(rt: HostRuntime) {
    let text = b"lam book 1\n0 8\n11 20\n";
    for (from, to, fault) in [
        (0, 11, BookFault::BadHead),
        (12, 15, BookFault::BadLine { line: 2 }),
        (16, text.len(), BookFault::BadLine { line: 3 }),
    ] {
        for len in from..to {
            assert_eq!(rt; fault_of(&rt, &text[..len]), Some(fault));
        }
    }
}

/// Whether a text is the book of these turns.
fn is_of(rt: &HostRuntime, text: &[u8], turns: &[u32]) -> Option<bool> {
    let read = read_book(rt.alloc(), text).ok()?.copy().ok()?;
    Some(read.as_slice() == turns)
}

#[test]
fn books_of_runs(rt: HostRuntime) {
    for (text, turns) in [
        (b"lam book 1\n".as_slice(), [].as_slice()),
        (b"lam book 1\n0 8\n".as_slice(), [0; 8].as_slice()),
        (b"lam book 1\n0 17\n".as_slice(), [0; 17].as_slice()),
    ] {
        assert!(rt; is_of(&rt, text, turns) == Some(true));
    }
}

#[test]
fn a_book_is_written(rt: HostRuntime) -> Result<(), Fail> {
    let text = write_book(rt.alloc(), &[0, 0, 0, 4095, 0])?;
    assert_eq!(rt;
        text.as_slice(),
        b"lam book 1\n0 3\n4095 1\n0 1\n".as_slice()
    );
    Ok(())
}
