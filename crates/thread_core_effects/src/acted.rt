//! Effects of operations, with values and asks whose parts are borrowed.

use capabilities::Caps;
use flow_labels::{Denied, Label, TagId, TagSet};
use lam_value::{ByteText, Kind, Name, Value};
use thread_core_state::Fault;

/// An ask, its parts where they stand. It takes no memory.
#[derive(Clone, Copy)]
pub enum AskRef<'a> {
    Read {
        r: &'a Value,
        at: u64,
    },
    Write {
        r: &'a Value,
        at: u64,
        v: &'a Value,
    },
    NewObject {
        class: u32,
        kinds: &'a [Kind],
    },
    NewArray {
        kind: Kind,
        len: u64,
    },
    CopyTo {
        r: &'a Value,
        own: &'a Label,
    },
    Mint,
    Enter {
        label: &'a Label,
        plus: &'a TagSet,
        minus: &'a TagSet,
        region: u32,
        args: &'a [Value],
    },
    Barred(Denied),
    MonEnter {
        r: &'a Value,
    },
    MonLeave {
        r: &'a Value,
    },
    MakeFile {
        dir: &'a Name,
        entry: &'a ByteText,
        own: &'a Label,
    },
    MakeDir {
        dir: &'a Name,
        entry: &'a ByteText,
        own: &'a Label,
    },
    OpenFile {
        dir: &'a Name,
        entry: &'a ByteText,
    },
    OpenDir {
        dir: &'a Name,
        entry: &'a ByteText,
    },
    Remove {
        dir: &'a Name,
        entry: &'a ByteText,
    },
    FileRead {
        file: &'a Name,
        at: u64,
        n: u64,
    },
    FileLength {
        file: &'a Name,
    },
    Append {
        file: &'a Name,
        bytes: &'a ByteText,
    },
    Cut {
        file: &'a Name,
        len: u64,
    },
    MakePipe {
        own: &'a Label,
    },
    Send {
        pipe: &'a Name,
        bytes: &'a ByteText,
    },
    SendCaps {
        pipe: &'a Name,
        plus: &'a TagSet,
        minus: &'a TagSet,
    },
    Receive {
        pipe: &'a Name,
    },
    ReceiveCaps {
        pipe: &'a Name,
    },
    Spawn {
        unit: u32,
        args: &'a [Value],
        plus: &'a TagSet,
        minus: &'a TagSet,
    },
    Join {
        thread: u32,
    },
    Say {
        bytes: &'a ByteText,
    },
}

/// A value, its parts where they stand. It takes no memory.
#[derive(Clone, Copy)]
pub enum ValueRef<'a> {
    Int(i64),
    Bool(bool),
    /// A value as it stands.
    Same(&'a Value),
    Bytes(&'a [u8]),
    /// Bytes one after another.
    Joined(&'a [u8], &'a [u8]),
    /// A number in decimal.
    Text(i64),
    Lab(&'a Label),
    /// The label of tags of secrecy and of integrity.
    OfTags {
        secrets: &'a [Value],
        vouchers: &'a [Value],
    },
    Caps(&'a Caps),
    /// No capabilities.
    NoCaps,
    /// Capabilities with the plus of a tag, or with its minus.
    Signed {
        sign: bool,
        plus: &'a TagSet,
        minus: &'a TagSet,
        tag: TagId,
    },
    /// The root directory.
    Root,
}

/// What an operator gives.
#[derive(Clone, Copy)]
pub enum Computed<'a> {
    Fine(ValueRef<'a>),
    Faults(Fault),
    /// An operand is of another kind.
    Wrong,
}

/// What a built-in call does.
#[derive(Clone, Copy)]
pub enum Called<'a> {
    /// It has a value at once.
    Now(ValueRef<'a>),
    Faults(Fault),
    /// It asks, and the answer's value is its result.
    Asks(AskRef<'a>),
    /// It asks, and has no result.
    Acts(AskRef<'a>),
    /// Arguments of another number or kind.
    Wrong,
}

/// What an operation does, before it is done. It takes no memory.
#[derive(Clone, Copy)]
pub enum OpEffect<'a> {
    /// It takes so many operands away.
    Drops {
        takes: usize,
    },
    /// It puts a value in the place of so many operands.
    Puts {
        takes: usize,
        value_ref: ValueRef<'a>,
    },
    /// It puts the top operand into a local.
    Sets {
        local: usize,
    },
    /// It goes on at an address, and takes so many operands away.
    Jumps {
        to: usize,
        takes: usize,
    },
    /// It calls a function with so many arguments.
    Calls {
        unit: usize,
        count: usize,
    },
    /// It returns the top operand.
    Returns,
    /// It raises a fault.
    Fails(Fault),
    /// It asks. It takes so many operands, and leaves null in the answer's place where there is no value.
    Asks {
        ask: AskRef<'a>,
        takes: usize,
        leaves_null: bool,
    },
    /// It leaves the region.
    Leaves,
    /// It has no meaning here.
    Breaks,
}
