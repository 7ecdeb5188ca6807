//! Asks for pipes.

use crate::follows::MAIN;
use crate::tables::Line::{Did, Not};
use crate::tables::{Thread, departs_at_each};
use crate::written::Asks::{Ends, MakePipe, Receive, ReceiveCaps, Say, Send, SendCaps};
use crate::written::Gets::{Done, Gives};
use crate::written::Is::{Bytes, Hold, Int, Pipe};
use crate::written::{NONE, PLUS};
use std::test::Fail;

/// Makes a pipe, sends bytes and capabilities, receives both, sends on what capabilities came, and says the bytes.
const PIPES: Thread = Thread {
    text: "fn main(): int { let p: pipe = make_pipe(label{;}); send(p, \"a\"); send_caps(p, my_caps()); let b: bytes = receive(p); let k: caps = receive_caps(p); send_caps(p, my_caps()); say(b); return size(b); }",
    begins: MAIN,
    lines: &[
        Did(MakePipe(&[]), Gives(Pipe(0))),
        Not(MakePipe(&[5])),
        Did(Send(0, "a"), Done),
        Not(Send(1, "a")),
        Not(Send(0, "b")),
        Did(SendCaps(0, NONE), Done),
        Not(SendCaps(1, NONE)),
        Not(SendCaps(0, PLUS)),
        Did(Receive(0), Gives(Bytes("xy"))),
        Not(Receive(1)),
        Not(ReceiveCaps(0)),
        Did(ReceiveCaps(0), Gives(Hold(PLUS))),
        Not(ReceiveCaps(1)),
        Not(Receive(0)),
        Did(SendCaps(0, PLUS), Done),
        Not(SendCaps(0, NONE)),
        Did(Say("xy"), Done),
        Not(Say("a")),
        Did(Ends(Int(2)), Done),
        Not(Ends(Int(1))),
    ],
};

#[test]
fn another_ask_for_a_pipe_departs(rt: HostRuntime) -> Result<(), Fail> {
    departs_at_each(&rt, PIPES)
}
