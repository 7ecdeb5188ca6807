//! Values, asks and answers of a table, as constants, and their making.

use capabilities::Caps;
use flow_labels::{Denied, Label, Rule, TagId, TagSet};
use lam_asks::{Answer, Ask, Fault, Outcome};
use lam_value::{ByteText, Kind, Name, Shape, Value, Values};
use std::alloc::Global;
use want_of_memory::NoMemory;

/// Tags by their numbers. A label has either tags of secrecy or tags of integrity here, and those of secrecy unless its
/// variant says otherwise.
pub type Tags = &'static [u64];

/// Capabilities: the tags whose plus is held, and those whose minus is.
#[derive(Clone, Copy)]
pub struct Held(pub Tags, pub Tags);

/// No capabilities.
pub const NONE: Held = Held(&[], &[]);

/// The plus of tag 5.
pub const PLUS: Held = Held(&[5], &[]);

/// The minus of tag 5.
pub const MINUS: Held = Held(&[], &[5]);

/// Both capabilities of tag 5.
pub const BOTH: Held = Held(&[5], &[5]);

/// A value. The maker of a thing is public. Files, directories and pipes are public themselves.
#[derive(Clone, Copy)]
pub enum Is {
    Int(i64),
    Bool(bool),
    Bytes(&'static str),
    Obj(Tags, u64),
    /// An object with tags of integrity.
    Trusted(Tags, u64),
    Arr(Tags, u64, u64),
    File(u64),
    Dir(u64),
    Pipe(u64),
    Thread(u32),
    Tag(u64),
    Hold(Held),
}

/// An ask. It has files, directories and pipes by their numbers.
#[derive(Clone, Copy)]
pub enum Asks {
    NewObject(u32, &'static [Is]),
    NewArray(Kind, u64),
    Read(Is, u64),
    Write(Is, u64, Is),
    CopyTo(Is, Tags),
    /// To a label with tags of integrity.
    CopyToTrusted(Is, Tags),
    MonEnter(Is),
    MonLeave(Is),
    Mint,
    Enter(Tags, Held, u32, &'static [Is]),
    /// At a label with tags of integrity.
    EnterTrusted(Tags, Held, u32, &'static [Is]),
    Leave,
    Barred(Rule, u64),
    Caught(Fault),
    Suppressed(Fault),
    MakeFile(u64, &'static str, Tags),
    MakeDir(u64, &'static str, Tags),
    OpenFile(u64, &'static str),
    OpenDir(u64, &'static str),
    Remove(u64, &'static str),
    FileRead(u64, u64, u64),
    FileLength(u64),
    Append(u64, &'static str),
    Cut(u64, u64),
    MakePipe(Tags),
    Send(u64, &'static str),
    SendCaps(u64, Held),
    Receive(u64),
    ReceiveCaps(u64),
    Spawn(u32, &'static [Is], Held),
    Join(u32),
    Say(&'static str),
    Ends(Is),
    Fails(Fault),
}

/// An answer.
#[derive(Clone, Copy)]
pub enum Gets {
    Done,
    Entered,
    Gives(Is),
    Refused(Rule, u64),
    Failed(Fault),
}

fn set_of(alloc: Global, tags: Tags) -> Result<TagSet, NoMemory> {
    let mut set = TagSet::empty(alloc);
    for tag in tags {
        set.insert(TagId(*tag))?;
    }
    Ok(set)
}

/// The label with these tags of secrecy.
fn label_of(alloc: Global, tags: Tags) -> Result<Label, NoMemory> {
    let s = set_of(alloc, tags)?;
    let i = TagSet::empty(alloc);
    Ok(Label { s, i })
}

/// The label with these tags of integrity.
fn trusted_of(alloc: Global, tags: Tags) -> Result<Label, NoMemory> {
    let s = TagSet::empty(alloc);
    let i = set_of(alloc, tags)?;
    Ok(Label { s, i })
}

pub fn caps_of(alloc: Global, held: Held) -> Result<Caps, NoMemory> {
    let plus = set_of(alloc, held.0)?;
    let minus = set_of(alloc, held.1)?;
    Ok(Caps { plus, minus })
}

fn denied_by(rule: Rule, tag: u64) -> Denied {
    let tag = TagId(tag);
    Denied { rule, tag }
}

/// The name with this number of a thing with this label.
fn name_of(alloc: Global, own: Tags, n: u64) -> Result<Name, NoMemory> {
    let own = label_of(alloc, own)?;
    Name::new(Label::public(alloc), own, n)
}

/// The name with this number of a thing with these tags of integrity.
fn trusted_name(alloc: Global, own: Tags, n: u64) -> Result<Name, NoMemory> {
    let own = trusted_of(alloc, own)?;
    Name::new(Label::public(alloc), own, n)
}

fn public_name(alloc: Global, n: u64) -> Result<Name, NoMemory> {
    name_of(alloc, &[], n)
}

fn text_of(alloc: Global, text: &str) -> Result<ByteText, NoMemory> {
    ByteText::from_slice(alloc, text.as_bytes())
}

fn array_of(alloc: Global, own: Tags, n: u64, len: u64) -> Result<Value, NoMemory> {
    let name = name_of(alloc, own, n)?;
    Ok(Value::Arr { name, len })
}

fn held_of(alloc: Global, held: Held) -> Result<Value, NoMemory> {
    let Caps { plus, minus } = caps_of(alloc, held)?;
    Ok(Value::CapV { plus, minus })
}

fn value_of(alloc: Global, value: Is) -> Result<Value, NoMemory> {
    match value {
        Is::Int(n) => Ok(Value::Int(n)),
        Is::Bool(b) => Ok(Value::Bool(b)),
        Is::Bytes(text) => Ok(Value::Bytes(text_of(alloc, text)?)),
        Is::Obj(own, n) => Ok(Value::Obj(name_of(alloc, own, n)?)),
        Is::Trusted(own, n) => Ok(Value::Obj(trusted_name(alloc, own, n)?)),
        Is::Arr(own, n, len) => array_of(alloc, own, n, len),
        Is::File(n) => Ok(Value::File(public_name(alloc, n)?)),
        Is::Dir(n) => Ok(Value::Dir(public_name(alloc, n)?)),
        Is::Pipe(n) => Ok(Value::Pipe(public_name(alloc, n)?)),
        Is::Thread(n) => Ok(Value::Thread(n)),
        Is::Tag(tag) => Ok(Value::Tag(TagId(tag))),
        Is::Hold(held) => held_of(alloc, held),
    }
}

pub fn values_of(alloc: Global, values: &[Is]) -> Result<Values, NoMemory> {
    let mut all = Values::new(alloc);
    for value in values {
        all.push(value_of(alloc, *value)?)?;
    }
    Ok(all)
}

fn write(alloc: Global, r: Is, at: u64, v: Is) -> Result<Ask, NoMemory> {
    let r = value_of(alloc, r)?;
    let v = value_of(alloc, v)?;
    Ok(Ask::Write { r, at, v })
}

fn copy_to(alloc: Global, r: Is, own: Label) -> Result<Ask, NoMemory> {
    let r = value_of(alloc, r)?;
    Ok(Ask::CopyTo { r, own })
}

fn enter(
    alloc: Global,
    label: Label,
    held: Held,
    region: u32,
    args: &[Is],
) -> Result<Ask, NoMemory> {
    let caps = caps_of(alloc, held)?;
    let args = values_of(alloc, args)?;
    Ok(Ask::Enter {
        label,
        caps,
        region,
        args,
    })
}

fn spawn(alloc: Global, unit: u32, args: &[Is], held: Held) -> Result<Ask, NoMemory> {
    let args = values_of(alloc, args)?;
    let caps = caps_of(alloc, held)?;
    Ok(Ask::Spawn { unit, args, caps })
}

fn send_caps(alloc: Global, pipe: u64, held: Held) -> Result<Ask, NoMemory> {
    let pipe = public_name(alloc, pipe)?;
    let caps = caps_of(alloc, held)?;
    Ok(Ask::SendCaps { pipe, caps })
}

/// A thing, and a text for it.
fn named(alloc: Global, n: u64, text: &str) -> Result<(Name, ByteText), NoMemory> {
    let name = public_name(alloc, n)?;
    let text = text_of(alloc, text)?;
    Ok((name, text))
}

/// A directory, and the name and the label of a new entry.
fn new_entry(
    alloc: Global,
    dir: u64,
    entry: &str,
    own: Tags,
) -> Result<(Name, ByteText, Label), NoMemory> {
    let (dir, entry) = named(alloc, dir, entry)?;
    let own = label_of(alloc, own)?;
    Ok((dir, entry, own))
}

/// The ask that is written down.
pub fn ask_of(alloc: Global, asks: Asks) -> Result<Ask, NoMemory> {
    match asks {
        Asks::NewObject(class, fields) => {
            let fields = values_of(alloc, fields)?;
            let shape = Shape::Class { class, fields };
            Ok(Ask::New { shape })
        }
        Asks::NewArray(kind, len) => {
            let shape = Shape::Array { kind, len };
            Ok(Ask::New { shape })
        }
        Asks::Read(r, at) => {
            let r = value_of(alloc, r)?;
            Ok(Ask::Read { r, at })
        }
        Asks::Write(r, at, v) => write(alloc, r, at, v),
        Asks::CopyTo(r, own) => copy_to(alloc, r, label_of(alloc, own)?),
        Asks::CopyToTrusted(r, own) => copy_to(alloc, r, trusted_of(alloc, own)?),
        Asks::MonEnter(r) => {
            let r = value_of(alloc, r)?;
            Ok(Ask::MonEnter { r })
        }
        Asks::MonLeave(r) => {
            let r = value_of(alloc, r)?;
            Ok(Ask::MonLeave { r })
        }
        Asks::Mint => Ok(Ask::Mint),
        Asks::Enter(label, held, region, args) => {
            enter(alloc, label_of(alloc, label)?, held, region, args)
        }
        Asks::EnterTrusted(label, held, region, args) => {
            enter(alloc, trusted_of(alloc, label)?, held, region, args)
        }
        Asks::Leave => Ok(Ask::Leave),
        Asks::Barred(rule, tag) => Ok(Ask::Barred(denied_by(rule, tag))),
        Asks::Caught(fault) => Ok(Ask::Caught(fault)),
        Asks::Suppressed(fault) => Ok(Ask::Suppressed(fault)),
        Asks::MakeFile(dir, entry, own) => {
            let (dir, entry, own) = new_entry(alloc, dir, entry, own)?;
            Ok(Ask::MakeFile { dir, entry, own })
        }
        Asks::MakeDir(dir, entry, own) => {
            let (dir, entry, own) = new_entry(alloc, dir, entry, own)?;
            Ok(Ask::MakeDir { dir, entry, own })
        }
        Asks::OpenFile(dir, entry) => {
            let (dir, entry) = named(alloc, dir, entry)?;
            Ok(Ask::OpenFile { dir, entry })
        }
        Asks::OpenDir(dir, entry) => {
            let (dir, entry) = named(alloc, dir, entry)?;
            Ok(Ask::OpenDir { dir, entry })
        }
        Asks::Remove(dir, entry) => {
            let (dir, entry) = named(alloc, dir, entry)?;
            Ok(Ask::Remove { dir, entry })
        }
        Asks::FileRead(file, at, n) => {
            let file = public_name(alloc, file)?;
            Ok(Ask::FileRead { file, at, n })
        }
        Asks::FileLength(file) => {
            let file = public_name(alloc, file)?;
            Ok(Ask::FileLength { file })
        }
        Asks::Append(file, bytes) => {
            let (file, bytes) = named(alloc, file, bytes)?;
            Ok(Ask::Append { file, bytes })
        }
        Asks::Cut(file, len) => {
            let file = public_name(alloc, file)?;
            Ok(Ask::Cut { file, len })
        }
        Asks::MakePipe(own) => {
            let own = label_of(alloc, own)?;
            Ok(Ask::MakePipe { own })
        }
        Asks::Send(pipe, bytes) => {
            let (pipe, bytes) = named(alloc, pipe, bytes)?;
            Ok(Ask::Send { pipe, bytes })
        }
        Asks::SendCaps(pipe, held) => send_caps(alloc, pipe, held),
        Asks::Receive(pipe) => {
            let pipe = public_name(alloc, pipe)?;
            Ok(Ask::Receive { pipe })
        }
        Asks::ReceiveCaps(pipe) => {
            let pipe = public_name(alloc, pipe)?;
            Ok(Ask::ReceiveCaps { pipe })
        }
        Asks::Spawn(unit, args, held) => spawn(alloc, unit, args, held),
        Asks::Join(thread) => Ok(Ask::Join { thread }),
        Asks::Say(text) => {
            let bytes = text_of(alloc, text)?;
            Ok(Ask::Say { bytes })
        }
        Asks::Ends(value) => {
            let value = value_of(alloc, value)?;
            Ok(Ask::End(Outcome::Value(value)))
        }
        Asks::Fails(fault) => Ok(Ask::End(Outcome::Failed(fault))),
    }
}

/// The answer that is written down.
pub fn answer_of(alloc: Global, gets: Gets) -> Result<Answer, NoMemory> {
    match gets {
        Gets::Done => Ok(Answer::Done),
        Gets::Entered => Ok(Answer::Entered),
        Gets::Gives(value) => Ok(Answer::Val(value_of(alloc, value)?)),
        Gets::Refused(rule, tag) => Ok(Answer::Refused(denied_by(rule, tag))),
        Gets::Failed(fault) => Ok(Answer::Failed(fault)),
    }
}
