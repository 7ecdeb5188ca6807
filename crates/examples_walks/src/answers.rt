//! Answers that do not suit their ask. The source makes no ask after such an answer.

use crate::follows::MAIN;
use crate::tables::Line::Did;
use crate::tables::{Thread, departs_at_last};
use crate::written::Asks::{Ends, Enter, Fails, Leave, Mint, NewObject, Read, Say};
use crate::written::Gets::{Done, Failed, Gives, Refused};
use crate::written::Is::{Bool, Int, Obj};
use crate::written::{Is, NONE};
use flow_labels::Rule;
use lam_asks::Fault;
use std::test::Fail;

const C: Is = Obj(&[], 0);

/// Makes an object and reads its number.
const READS: &str = "class C { n: int; } fn main(): int { let c: C = new C(); return c.n; }";

/// A truth value for a number.
const READS_A_BOOL: Thread = Thread {
    text: READS,
    begins: MAIN,
    lines: &[
        Did(NewObject(0, &[Int(0)]), Gives(C)),
        Did(Read(C, 0), Gives(Bool(true))),
        Did(Ends(Bool(true)), Done),
    ],
};

/// The refusal of a read, which asks for nothing that can be refused.
const READ_IS_REFUSED: Thread = Thread {
    text: READS,
    begins: MAIN,
    lines: &[
        Did(NewObject(0, &[Int(0)]), Gives(C)),
        Did(Read(C, 0), Refused(Rule::ReadS, 5)),
        Did(Fails(Fault::Denied), Done),
    ],
};

/// A fault that no new object raises.
const OBJECT_EXISTS: Thread = Thread {
    text: READS,
    begins: MAIN,
    lines: &[
        Did(NewObject(0, &[Int(0)]), Failed(Fault::Exists)),
        Did(Fails(Fault::Exists), Done),
    ],
};

/// A value where none is given.
const SAYING_GIVES: Thread = Thread {
    text: "fn main(): int { say(\"a\"); return 0; }",
    begins: MAIN,
    lines: &[Did(Say("a"), Gives(Int(0))), Did(Ends(Int(0)), Done)],
};

/// A number for a tag.
const MINTS_A_NUMBER: Thread = Thread {
    text: "fn main(): int { let t: tag = mint(); return 0; }",
    begins: MAIN,
    lines: &[Did(Mint, Gives(Int(5))), Did(Ends(Int(0)), Done)],
};

/// A region that is done and not entered.
const REGION_IS_DONE: Thread = Thread {
    text: "fn main(): int { region (label{;}, caps{}) [] { } catch (e) { } return 0; }",
    begins: MAIN,
    lines: &[Did(Enter(&[], NONE, 0, &[]), Done), Did(Leave, Done)],
};

#[test]
fn no_ask_follows_a_value_of_another_kind(rt: HostRuntime) -> Result<(), Fail> {
    departs_at_last(&rt, READS_A_BOOL)
}

#[test]
fn no_ask_follows_the_refusal_of_an_access(rt: HostRuntime) -> Result<(), Fail> {
    departs_at_last(&rt, READ_IS_REFUSED)
}

#[test]
fn no_ask_follows_a_fault_of_another_ask(rt: HostRuntime) -> Result<(), Fail> {
    departs_at_last(&rt, OBJECT_EXISTS)
}

#[test]
fn no_ask_follows_a_value_where_none_is_given(rt: HostRuntime) -> Result<(), Fail> {
    departs_at_last(&rt, SAYING_GIVES)
}

#[test]
fn no_ask_follows_a_number_for_a_tag(rt: HostRuntime) -> Result<(), Fail> {
    departs_at_last(&rt, MINTS_A_NUMBER)
}

#[test]
fn no_ask_follows_a_region_that_is_done(rt: HostRuntime) -> Result<(), Fail> {
    departs_at_last(&rt, REGION_IS_DONE)
}
