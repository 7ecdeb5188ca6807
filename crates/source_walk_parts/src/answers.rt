//! The answers that suit an ask, as code.
//!
//! They depend on the ask, and for a read on the sort of value that its place wants. An answer that does not suit its
//! ask ends the asks that a program makes.

ghost use Rattle.std.specs.Prelude.{◌≡◌, true, false};
ghost use Rattle.lam_asks.specs.Suits.{is_of, copied_as, made_as, want_of, same_fault, is_among, gives, fits, suits};
ghost use Rattle.source_walk_state.specs.Meaning.{sort_seen};
ghost use Rattle.source_walk_parts.specs.Wants.{given_seen, faults_in, want_seen};

use lam_asks::{Answer, Ask, Fault};
use lam_value::{Shape, Value};
use source_walk_state::Sort;

/// What is answered where nothing forbids and nothing fails.
#[derive(Clone, Copy, Debug, PartialEq, Eq)]
pub enum Given {
    Done,
    Entered,
    Value(Sort),
}

/// The faults that an ask may fail with.
#[derive(Clone, Copy, Debug, PartialEq, Eq)]
pub enum Failing {
    Never,
    /// A home is full.
    Full,
    /// It stands too deep.
    Deep,
    /// A new entry cannot be made.
    Entry,
    /// No such entry is there.
    Missing,
    /// A joined thread failed.
    Child,
}

/// What may be answered to an ask.
#[derive(Clone, Copy, Debug, PartialEq, Eq)]
pub struct Want {
    pub gives: Given,
    /// Whether a rule may forbid it.
    pub refusable: bool,
    pub failing: Failing,
}

fn always(gives: Given) -> Want
    ensures { result ≡ record { gives = gives; refusable = false; failing = Failing.Never } }
{
    Want {
        gives,
        refusable: false,
        failing: Failing::Never,
    }
}

fn ruled(gives: Given, failing: Failing) -> Want
    ensures { result ≡ record { gives = gives; refusable = true; failing = failing } }
{
    Want {
        gives,
        refusable: true,
        failing,
    }
}

fn made_as(shape: &Shape) -> Sort
    ensures { sort_seen result ≡ made_as shape.now }
{
    match shape {
        Shape::Class { .. } => Sort::Object,
        Shape::Array { .. } => Sort::Array,
    }
}

fn made(shape: &Shape) -> Want
    ensures { (s : _) → want_seen result ≡ want_of s (Ask.New shape.now) }
{
    Want {
        gives: Given::Value(made_as(shape)),
        refusable: false,
        failing: Failing::Full,
    }
}

fn copied_as(r: &Value) -> Sort
    ensures { sort_seen result ≡ copied_as r.now }
{
    match r {
        Value::Arr { .. } => Sort::Array,
        _ => Sort::Object,
    }
}

/// What may be answered to an ask, where its place wants a value of a sort.
fn want_of(sort: Sort, ask: &Ask) -> Want
    ensures { want_seen result ≡ want_of (sort_seen sort) ask.now }
{
    match ask {
        Ask::Read { .. } => always(Given::Value(sort)),
        Ask::Write { .. } => always(Given::Done),
        Ask::New { shape } => made(shape),
        Ask::CopyTo { r, .. } => ruled(Given::Value(copied_as(r)), Failing::Full),
        Ask::Mint => ruled(Given::Value(Sort::Tag), Failing::Full),
        Ask::Enter { .. } => ruled(Given::Entered, Failing::Deep),
        Ask::Leave => always(Given::Done),
        Ask::Barred(_) => always(Given::Done),
        Ask::Caught(_) => always(Given::Done),
        Ask::Suppressed(_) => always(Given::Done),
        Ask::MonEnter { .. } => ruled(Given::Done, Failing::Deep),
        Ask::MonLeave { .. } => always(Given::Done),
        Ask::MakeFile { .. } => ruled(Given::Value(Sort::File), Failing::Entry),
        Ask::MakeDir { .. } => ruled(Given::Value(Sort::Dir), Failing::Entry),
        Ask::OpenFile { .. } => ruled(Given::Value(Sort::File), Failing::Missing),
        Ask::OpenDir { .. } => ruled(Given::Value(Sort::Dir), Failing::Missing),
        Ask::Remove { .. } => ruled(Given::Done, Failing::Missing),
        Ask::FileRead { .. } => ruled(Given::Value(Sort::Bytes), Failing::Never),
        Ask::FileLength { .. } => ruled(Given::Value(Sort::Number), Failing::Never),
        Ask::Append { .. } => ruled(Given::Done, Failing::Never),
        Ask::Cut { .. } => ruled(Given::Done, Failing::Never),
        Ask::MakePipe { .. } => ruled(Given::Value(Sort::Pipe), Failing::Full),
        Ask::Send { .. } => ruled(Given::Done, Failing::Never),
        Ask::SendCaps { .. } => ruled(Given::Done, Failing::Never),
        Ask::Receive { .. } => ruled(Given::Value(Sort::Bytes), Failing::Never),
        Ask::ReceiveCaps { .. } => ruled(Given::Value(Sort::Caps), Failing::Never),
        Ask::Spawn { .. } => ruled(Given::Value(Sort::Thread), Failing::Full),
        Ask::Join { .. } => ruled(Given::Value(Sort::Number), Failing::Child),
        Ask::Say { .. } => always(Given::Done),
        Ask::End(_) => always(Given::Done),
    }
}

/// Whether a value is of a sort that has null.
fn is_or_null(sort: Sort, v: &Value) -> bool
    ensures { (sort ≡ Sort.Number → ⊥) → (sort ≡ Sort.Truth → ⊥) → result ≡ is_of (sort_seen sort) v.now }
{
    match v {
        Value::Int(_) => false,
        Value::Bool(_) => false,
        Value::Nothing => true,
        Value::Bytes(_) => matches!(sort, Sort::Bytes),
        Value::Obj(_) => matches!(sort, Sort::Object),
        Value::Arr { .. } => matches!(sort, Sort::Array),
        Value::File(_) => matches!(sort, Sort::File),
        Value::Dir(_) => matches!(sort, Sort::Dir),
        Value::Pipe(_) => matches!(sort, Sort::Pipe),
        Value::Thread(_) => matches!(sort, Sort::Thread),
        Value::Tag(_) => matches!(sort, Sort::Tag),
        Value::Lab(_) => matches!(sort, Sort::Label),
        Value::CapV { .. } => matches!(sort, Sort::Caps),
    }
}

/// Whether a value is of a sort.
fn is_of(sort: Sort, v: &Value) -> bool
    ensures { result ≡ is_of (sort_seen sort) v.now }
{
    match sort {
        Sort::Number => matches!(v, Value::Int(_)),
        Sort::Truth => matches!(v, Value::Bool(_)),
        _ => is_or_null(sort, v),
    }
}

/// Whether a fault is one that an ask may fail with.
fn may_fail(failing: Failing, fault: Fault) -> bool
    ensures { result ≡ is_among fault (faults_in failing) }
{
    match failing {
        Failing::Never => false,
        Failing::Full => matches!(fault, Fault::HomeFull),
        Failing::Deep => matches!(fault, Fault::Deep),
        Failing::Entry => cannot_be_made(fault),
        Failing::Missing => matches!(fault, Fault::NoEntry),
        Failing::Child => matches!(fault, Fault::Child),
    }
}

fn cannot_be_made(fault: Fault) -> bool
    ensures { result ≡ is_among fault (faults_in Failing.Entry) }
{
    match fault {
        Fault::BadName => true,
        Fault::Exists => true,
        Fault::DirFull => true,
        Fault::HomeFull => true,
        _ => false,
    }
}

fn fits(want: Want, answer: &Answer) -> bool
    ensures { result ≡ fits (want_seen want) answer.now }
{
    match answer {
        Answer::Done => matches!(want.gives, Given::Done),
        Answer::Entered => matches!(want.gives, Given::Entered),
        Answer::Val(v) => match want.gives {
            Given::Done => false,
            Given::Entered => false,
            Given::Value(sort) => is_of(sort, v),
        },
        Answer::Refused(_) => want.refusable,
        Answer::Failed(fault) => may_fail(want.failing, *fault),
    }
}

/// Whether an answer suits an ask whose place wants a value of a sort.
pub fn suits(sort: Sort, ask: &Ask, answer: &Answer) -> bool
    ensures { result ≡ suits (sort_seen sort) ask.now answer.now }
{
    fits(want_of(sort, ask), answer)
}
