//! Asks for files and directories.

use crate::follows::MAIN;
use crate::tables::Line::{Did, Not};
use crate::tables::{Thread, departs_at_each};
use crate::written::Asks::{
    Append, Cut, Ends, Fails, FileLength, FileRead, MakeDir, MakeFile, OpenDir, OpenFile, Remove,
};
use crate::written::Gets::{Done, Gives, Refused};
use crate::written::Is::{Bytes, Dir, File, Int};
use flow_labels::Rule;
use lam_asks::Fault;
use std::test::Fail;

/// Makes a directory with a file, puts bytes into it, looks for another, and ends by a refusal. The root is directory 0.
const FILES: Thread = Thread {
    text: "fn main(): int { let d: dir = make_dir(root(), \"d\", label{;}); let f: file = make_file(d, \"f\", label{;}); append(f, \"abc\"); let b: bytes = read(f, 1, length(f)); cut(f, size(b)); d = open_dir(root(), b); f = open_file(d, \"f\"); remove(d, \"f\"); return 0; }",
    begins: MAIN,
    lines: &[
        Did(MakeDir(0, "d", &[]), Gives(Dir(1))),
        Not(MakeDir(1, "d", &[])),
        Not(MakeDir(0, "f", &[])),
        Not(MakeDir(0, "d", &[5])),
        Not(MakeFile(0, "d", &[])),
        Did(MakeFile(1, "f", &[]), Gives(File(2))),
        Not(MakeFile(0, "f", &[])),
        Not(MakeFile(1, "d", &[])),
        Not(MakeFile(1, "f", &[5])),
        Not(MakeDir(1, "f", &[])),
        Did(Append(2, "abc"), Done),
        Not(Append(1, "abc")),
        Not(Append(2, "ab")),
        Did(FileLength(2), Gives(Int(3))),
        Not(FileLength(1)),
        Did(FileRead(2, 1, 3), Gives(Bytes("bc"))),
        Not(FileRead(1, 1, 3)),
        Not(FileRead(2, 0, 3)),
        Not(FileRead(2, 1, 2)),
        Did(Cut(2, 2), Done),
        Not(Cut(1, 2)),
        Not(Cut(2, 3)),
        Did(OpenDir(0, "bc"), Gives(Dir(3))),
        Not(OpenDir(1, "bc")),
        Not(OpenDir(0, "d")),
        Not(OpenFile(0, "bc")),
        Did(OpenFile(3, "f"), Gives(File(2))),
        Not(OpenFile(1, "f")),
        Not(OpenFile(3, "d")),
        Not(OpenDir(3, "f")),
        Did(Remove(3, "f"), Refused(Rule::WriteS, 5)),
        Not(Remove(1, "f")),
        Not(Remove(3, "d")),
        Did(Fails(Fault::Denied), Done),
        Not(Fails(Fault::NoEntry)),
        Not(Ends(Int(0))),
    ],
};

#[test]
fn another_ask_for_a_file_departs(rt: HostRuntime) -> Result<(), Fail> {
    departs_at_each(&rt, FILES)
}
