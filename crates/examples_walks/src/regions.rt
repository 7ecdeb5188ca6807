//! Asks for tags and regions, and a thread's asks about rules and faults.

use crate::follows::MAIN;
use crate::tables::Line::{Did, Not};
use crate::tables::{Thread, departs_at_each};
use crate::written::Asks::{
    Barred, Caught, CopyTo, CopyToTrusted, Ends, Enter, EnterTrusted, Fails, Leave, Mint,
    NewObject, Read, Suppressed, Write,
};
use crate::written::Gets::{Done, Entered, Gives};
use crate::written::Is::{Int, Obj, Tag, Trusted};
use crate::written::{BOTH, Is, MINUS, NONE};
use flow_labels::Rule;
use lam_asks::Fault;
use std::test::Fail;

const C: Is = Obj(&[], 0);

/// Its copy, which has the tag 5.
const S: Is = Obj(&[5], 0);

/// Makes a tag and an object with it, faults in the body and in the catch block of a region at it, and reads the object
/// outside.
const SECRETS: Thread = Thread {
    text: "class C { n: int; } fn main(): int { let t: tag = mint(); let c: C = copy(new C(), label{t;}); region (label{t;}, caps{t-}) [c] { c.n = 3; throw 7; } catch (e) { throw e + 1; } region (label{;}, my_caps()) [c] { c.n = c.n; } catch (e) { } return 0; }",
    begins: MAIN,
    lines: &[
        Did(Mint, Gives(Tag(5))),
        Not(Leave),
        Did(NewObject(0, &[Int(0)]), Gives(C)),
        Not(Mint),
        Did(CopyTo(C, &[5]), Gives(S)),
        Not(CopyTo(S, &[5])),
        Not(CopyTo(C, &[])),
        Not(CopyTo(C, &[4])),
        Did(Enter(&[5], MINUS, 0, &[S]), Entered),
        Not(Enter(&[], MINUS, 0, &[S])),
        Not(Enter(&[5], BOTH, 0, &[S])),
        Not(Enter(&[5], NONE, 0, &[S])),
        Not(Enter(&[5], MINUS, 1, &[S])),
        Not(Enter(&[5], MINUS, 0, &[C])),
        Not(Enter(&[5], MINUS, 0, &[])),
        Did(Write(S, 0, Int(3)), Done),
        Not(Write(C, 0, Int(3))),
        Not(Enter(&[], BOTH, 1, &[S])),
        Did(Caught(Fault::Thrown(7)), Done),
        Not(Caught(Fault::Thrown(8))),
        Not(Caught(Fault::Denied)),
        Not(Suppressed(Fault::Thrown(7))),
        Not(Leave),
        Did(Suppressed(Fault::Thrown(8)), Done),
        Not(Suppressed(Fault::Thrown(7))),
        Not(Caught(Fault::Thrown(8))),
        Not(Leave),
        Did(Enter(&[], BOTH, 1, &[S]), Entered),
        Not(Enter(&[], NONE, 1, &[S])),
        Did(Barred(Rule::ReadS, 5), Done),
        Not(Barred(Rule::ReadS, 4)),
        Not(Barred(Rule::ReadI, 5)),
        Not(Barred(Rule::WriteS, 5)),
        Not(Read(S, 0)),
        Did(Caught(Fault::Denied), Done),
        Not(Barred(Rule::ReadS, 5)),
        Did(Leave, Done),
        Not(Mint),
        Not(Suppressed(Fault::Denied)),
        Did(Ends(Int(0)), Done),
        Not(Leave),
    ],
};

#[test]
fn another_ask_for_a_tag_or_a_region_departs(rt: HostRuntime) -> Result<(), Fail> {
    departs_at_each(&rt, SECRETS)
}

/// The copy of the object that has the tag 5 of integrity.
const T: Is = Trusted(&[5], 0);

/// Makes a tag, an object and its copy with that tag of integrity. In a region with the tag it may write both, and not read
/// the object, which has no integrity. Outside of the region it may not write the copy.
const TRUSTS: Thread = Thread {
    text: "class C { n: int; } fn main(): int { let t: tag = mint(); let c: C = new C(); let s: C = copy(c, label{;t}); region (label{;t}, my_caps()) [c, s] { s.n = 1; c.n = 2; s.n = c.n; } catch (e) { } s.n = 3; return 0; }",
    begins: MAIN,
    lines: &[
        Did(Mint, Gives(Tag(5))),
        Did(NewObject(0, &[Int(0)]), Gives(C)),
        Did(CopyToTrusted(C, &[5]), Gives(T)),
        Not(CopyTo(C, &[5])),
        Not(CopyToTrusted(C, &[])),
        Not(CopyToTrusted(C, &[4])),
        Did(EnterTrusted(&[5], BOTH, 0, &[C, T]), Entered),
        Not(Enter(&[5], BOTH, 0, &[C, T])),
        Not(EnterTrusted(&[], BOTH, 0, &[C, T])),
        Not(EnterTrusted(&[5], BOTH, 0, &[C, S])),
        Did(Write(T, 0, Int(1)), Done),
        Not(Write(S, 0, Int(1))),
        Not(Write(C, 0, Int(1))),
        Did(Write(C, 0, Int(2)), Done),
        Not(Write(T, 0, Int(2))),
        Did(Barred(Rule::ReadI, 5), Done),
        Not(Barred(Rule::ReadS, 5)),
        Not(Barred(Rule::WriteI, 5)),
        Not(Read(C, 0)),
        Did(Caught(Fault::Denied), Done),
        Did(Leave, Done),
        Did(Barred(Rule::WriteI, 5), Done),
        Not(Barred(Rule::WriteS, 5)),
        Not(Barred(Rule::ReadI, 5)),
        Not(Write(T, 0, Int(3))),
        Did(Fails(Fault::Denied), Done),
        Not(Ends(Int(0))),
    ],
};

#[test]
fn another_ask_at_a_label_of_integrity_departs(rt: HostRuntime) -> Result<(), Fail> {
    departs_at_each(&rt, TRUSTS)
}
