//! Asks and values, made from copied parts.

ghost use Rattle.std.specs.Prelude.{◌≡◌, ◌++◌, ◌∷◌, [], map, IfOk, OnOk};
ghost use Rattle.std.specs.FinSet.{from_list};
ghost use Rattle.std.specs.Fmt.{signed_decimal};
ghost use Rattle.lam_value.specs.Shapes.{zero_of};
ghost use Rattle.thread_core_state.specs.Builtins.{root_name};
ghost use Rattle.thread_core_effects.specs.Acting.{ask_of, value_of, signed, tag_list};

use crate::acted::{AskRef, ValueRef};
use crate::readers::tag_in;
use capabilities::Caps;
use decimal_text::push_int_bytes;
use flow_labels::{Label, TagId, TagSet};
use lam_value::{ByteText, Kind, Name, Shape, Value, Values};
use std::alloc::Global;
use thread_core_state::{Ask, both, listed};
use want_of_memory::NoMemory;

fn zeros(alloc: Global, kinds: &[Kind]) -> Result<Values, NoMemory>
    ensures { IfOk result (λ vs. vs ≡ map zero_of kinds.now) }
{
    let mut out = Vec::with_capacity(alloc, kinds.len())?;
    for kind in kinds {
        out.push(kind.zero())?;
    }
    Ok(Values::from_vec(out))
}

/// Capabilities of equal sets.
fn caps_of(plus: &TagSet, minus: &TagSet) -> Result<Caps, NoMemory>
    ensures { IfOk result (λ c. c ≡ record { plus = plus.now; minus = minus.now }) }
{
    let (plus, minus) = both(plus.copy(), minus.copy())?;
    Ok(Caps { plus, minus })
}

fn read(r: &Value, at: u64) -> Result<Ask, NoMemory>
    ensures { IfOk result (λ a. a ≡ Ask.Read r.now at) }
{
    Ok(Ask::Read { r: r.copy()?, at })
}

fn write(r: &Value, at: u64, v: &Value) -> Result<Ask, NoMemory>
    ensures { IfOk result (λ a. a ≡ Ask.Write r.now at v.now) }
{
    let (r, v) = both(r.copy(), v.copy())?;
    Ok(Ask::Write { r, at, v })
}

fn new_object(alloc: Global, class: u32, kinds: &[Kind]) -> Result<Ask, NoMemory>
    ensures { IfOk result (λ a. a ≡ Ask.New (Shape.Class class (map zero_of kinds.now))) }
{
    let fields = zeros(alloc, kinds)?;
    Ok(Ask::New {
        shape: Shape::Class { class, fields },
    })
}

fn copy_to(r: &Value, own: &Label) -> Result<Ask, NoMemory>
    ensures { IfOk result (λ a. a ≡ Ask.CopyTo r.now own.now) }
{
    let (r, own) = both(r.copy(), own.copy())?;
    Ok(Ask::CopyTo { r, own })
}

fn enter(
    label: &Label,
    plus: &TagSet,
    minus: &TagSet,
    region: u32,
    args: &[Value],
) -> Result<Ask, NoMemory>
    ensures { IfOk result (λ a. a ≡ Ask.Enter label.now (record { plus = plus.now; minus = minus.now }) region args.now) }
{
    let place = both(label.copy(), caps_of(plus, minus));
    let ((label, caps), args) = both(place, listed(label.allocator(), args))?;
    Ok(Ask::Enter {
        label,
        caps,
        region,
        args,
    })
}

fn make_file(dir: &Name, entry: &ByteText, own: &Label) -> Result<Ask, NoMemory>
    ensures { IfOk result (λ a. a ≡ Ask.MakeFile dir.now entry.now own.now) }
{
    let ((dir, entry), own) = both(both(dir.copy(), entry.copy()), own.copy())?;
    Ok(Ask::MakeFile { dir, entry, own })
}

fn make_dir(dir: &Name, entry: &ByteText, own: &Label) -> Result<Ask, NoMemory>
    ensures { IfOk result (λ a. a ≡ Ask.MakeDir dir.now entry.now own.now) }
{
    let ((dir, entry), own) = both(both(dir.copy(), entry.copy()), own.copy())?;
    Ok(Ask::MakeDir { dir, entry, own })
}

fn open_file(dir: &Name, entry: &ByteText) -> Result<Ask, NoMemory>
    ensures { IfOk result (λ a. a ≡ Ask.OpenFile dir.now entry.now) }
{
    let (dir, entry) = both(dir.copy(), entry.copy())?;
    Ok(Ask::OpenFile { dir, entry })
}

fn open_dir(dir: &Name, entry: &ByteText) -> Result<Ask, NoMemory>
    ensures { IfOk result (λ a. a ≡ Ask.OpenDir dir.now entry.now) }
{
    let (dir, entry) = both(dir.copy(), entry.copy())?;
    Ok(Ask::OpenDir { dir, entry })
}

fn remove(dir: &Name, entry: &ByteText) -> Result<Ask, NoMemory>
    ensures { IfOk result (λ a. a ≡ Ask.Remove dir.now entry.now) }
{
    let (dir, entry) = both(dir.copy(), entry.copy())?;
    Ok(Ask::Remove { dir, entry })
}

fn append(file: &Name, bytes: &ByteText) -> Result<Ask, NoMemory>
    ensures { IfOk result (λ a. a ≡ Ask.Append file.now bytes.now) }
{
    let (file, bytes) = both(file.copy(), bytes.copy())?;
    Ok(Ask::Append { file, bytes })
}

fn send(pipe: &Name, bytes: &ByteText) -> Result<Ask, NoMemory>
    ensures { IfOk result (λ a. a ≡ Ask.Send pipe.now bytes.now) }
{
    let (pipe, bytes) = both(pipe.copy(), bytes.copy())?;
    Ok(Ask::Send { pipe, bytes })
}

fn send_caps(pipe: &Name, plus: &TagSet, minus: &TagSet) -> Result<Ask, NoMemory>
    ensures { IfOk result (λ a. a ≡ Ask.SendCaps pipe.now (record { plus = plus.now; minus = minus.now })) }
{
    let (pipe, caps) = both(pipe.copy(), caps_of(plus, minus))?;
    Ok(Ask::SendCaps { pipe, caps })
}

fn spawn(
    alloc: Global,
    unit: u32,
    args: &[Value],
    plus: &TagSet,
    minus: &TagSet,
) -> Result<Ask, NoMemory>
    ensures { IfOk result (λ a. a ≡ Ask.Spawn unit args.now (record { plus = plus.now; minus = minus.now })) }
{
    let (args, caps) = both(listed(alloc, args), caps_of(plus, minus))?;
    Ok(Ask::Spawn { unit, args, caps })
}

fn file_read(file: &Name, at: u64, n: u64) -> Result<Ask, NoMemory>
    ensures { IfOk result (λ a. a ≡ Ask.FileRead file.now at n) }
{
    let file = file.copy()?;
    Ok(Ask::FileRead { file, at, n })
}

fn file_length(file: &Name) -> Result<Ask, NoMemory>
    ensures { IfOk result (λ a. a ≡ Ask.FileLength file.now) }
{
    let file = file.copy()?;
    Ok(Ask::FileLength { file })
}

fn cut(file: &Name, len: u64) -> Result<Ask, NoMemory>
    ensures { IfOk result (λ a. a ≡ Ask.Cut file.now len) }
{
    let file = file.copy()?;
    Ok(Ask::Cut { file, len })
}

fn make_pipe(own: &Label) -> Result<Ask, NoMemory>
    ensures { IfOk result (λ a. a ≡ Ask.MakePipe own.now) }
{
    let own = own.copy()?;
    Ok(Ask::MakePipe { own })
}

fn receive(pipe: &Name) -> Result<Ask, NoMemory>
    ensures { IfOk result (λ a. a ≡ Ask.Receive pipe.now) }
{
    let pipe = pipe.copy()?;
    Ok(Ask::Receive { pipe })
}

fn receive_caps(pipe: &Name) -> Result<Ask, NoMemory>
    ensures { IfOk result (λ a. a ≡ Ask.ReceiveCaps pipe.now) }
{
    let pipe = pipe.copy()?;
    Ok(Ask::ReceiveCaps { pipe })
}

fn say(bytes: &ByteText) -> Result<Ask, NoMemory>
    ensures { IfOk result (λ a. a ≡ Ask.Say bytes.now) }
{
    let bytes = bytes.copy()?;
    Ok(Ask::Say { bytes })
}

fn mon_enter(r: &Value) -> Result<Ask, NoMemory>
    ensures { IfOk result (λ a. a ≡ Ask.MonEnter r.now) }
{
    let r = r.copy()?;
    Ok(Ask::MonEnter { r })
}

fn mon_leave(r: &Value) -> Result<Ask, NoMemory>
    ensures { IfOk result (λ a. a ≡ Ask.MonLeave r.now) }
{
    let r = r.copy()?;
    Ok(Ask::MonLeave { r })
}

/// The ask of these parts, which are copied.
///
/// # Errors
///
/// `NoMemory` where memory is refused.
pub fn ask_from(alloc: Global, ask_ref: &AskRef<'_>) -> Result<Ask, NoMemory>
    ensures { IfOk result (λ a. a ≡ ask_of ask_ref.now) }
{
    match ask_ref {
        AskRef::Read { r, at } => read(r, *at),
        AskRef::Write { r, at, v } => write(r, *at, v),
        AskRef::NewObject { class, kinds } => new_object(alloc, *class, kinds),
        AskRef::NewArray { kind, len } => Ok(Ask::New {
            shape: Shape::Array {
                kind: *kind,
                len: *len,
            },
        }),
        AskRef::CopyTo { r, own } => copy_to(r, own),
        AskRef::Mint => Ok(Ask::Mint),
        AskRef::Enter {
            label,
            plus,
            minus,
            region,
            args,
        } => enter(label, plus, minus, *region, args),
        AskRef::Barred(denied) => Ok(Ask::Barred(*denied)),
        AskRef::MonEnter { r } => mon_enter(r),
        AskRef::MonLeave { r } => mon_leave(r),
        AskRef::Spawn {
            unit,
            args,
            plus,
            minus,
        } => spawn(alloc, *unit, args, plus, minus),
        AskRef::Join { thread } => Ok(Ask::Join { thread: *thread }),
        AskRef::MakeFile { dir, entry, own } => make_file(dir, entry, own),
        AskRef::MakeDir { dir, entry, own } => make_dir(dir, entry, own),
        AskRef::OpenFile { dir, entry } => open_file(dir, entry),
        AskRef::OpenDir { dir, entry } => open_dir(dir, entry),
        AskRef::Remove { dir, entry } => remove(dir, entry),
        AskRef::FileRead { file, at, n } => file_read(file, *at, *n),
        AskRef::FileLength { file } => file_length(file),
        AskRef::Append { file, bytes } => append(file, bytes),
        AskRef::Cut { file, len } => cut(file, *len),
        AskRef::MakePipe { own } => make_pipe(own),
        AskRef::Send { pipe, bytes } => send(pipe, bytes),
        AskRef::SendCaps { pipe, plus, minus } => send_caps(pipe, plus, minus),
        AskRef::Receive { pipe } => receive(pipe),
        AskRef::ReceiveCaps { pipe } => receive_caps(pipe),
        AskRef::Say { bytes } => say(bytes),
    }
}

fn joined(alloc: Global, a: &[u8], b: &[u8]) -> Result<Value, NoMemory>
    ensures { IfOk result (λ v. v ≡ Value.Bytes (a.now ++ b.now)) }
{
    let mut bytes = Vec::from_slice(alloc, a)?;
    bytes.extend_from_slice(b)?;
    Ok(Value::Bytes(ByteText::from_vec(bytes)?))
}

fn text_of(alloc: Global, n: i64) -> Result<Value, NoMemory>
    ensures { IfOk result (λ v. v ≡ Value.Bytes (signed_decimal n)) }
{
    let mut bytes = Vec::new(alloc);
    push_int_bytes(&mut bytes, n)?;
    Ok(Value::Bytes(ByteText::from_vec(bytes)?))
}

fn copied(alloc: Global, bytes: &[u8]) -> Result<Value, NoMemory>
    ensures { IfOk result (λ v. v ≡ Value.Bytes bytes.now) }
{
    let text = ByteText::from_slice(alloc, bytes)?;
    Ok(Value::Bytes(text))
}

fn label_value(label: &Label) -> Result<Value, NoMemory>
    ensures { IfOk result (λ v. v ≡ Value.Lab label.now) }
{
    let label = label.copy()?;
    Ok(Value::Lab(label))
}

fn caps_value(caps: &Caps) -> Result<Value, NoMemory>
    ensures { IfOk result (λ v. v ≡ Value.CapV caps.now.plus caps.now.minus) }
{
    let (plus, minus) = both(caps.plus.copy(), caps.minus.copy())?;
    Ok(Value::CapV { plus, minus })
}

#[tactic(auto, using(crate::proofs::Lists::tag_or_none))]
fn push_tag(tags: &mut Vec<TagId>, value: &Value) -> Result<(), NoMemory>
    ensures { OnOk result (tags.new.items ≡ tags.old.items ++ tag_list (value.now ∷ [])) }
{
    match tag_in(value) {
        None => Ok(()),
        Some(tag) => {
            tags.push(tag)?;
            Ok(())
        }
    }
}

/// The set of the tags among values.
#[tactic(auto, using(crate::proofs::Lists::tags_more))]
fn tags_from(alloc: Global, values: &[Value]) -> Result<TagSet, NoMemory>
    ensures { IfOk result (λ t. t ≡ from_list (tag_list values.now)) }
{
    let mut tags = Vec::with_capacity(alloc, values.len())?;
    for value in values {
        push_tag(&mut tags, value)?;
    }
    TagSet::from_slice(alloc, tags.as_slice())
}

fn label_of(alloc: Global, secrets: &[Value], vouchers: &[Value]) -> Result<Value, NoMemory>
    ensures { IfOk result (λ v. v ≡ Value.Lab (record { s = from_list (tag_list secrets.now); i = from_list (tag_list vouchers.now) })) }
{
    let (s, i) = both(tags_from(alloc, secrets), tags_from(alloc, vouchers))?;
    Ok(Value::Lab(Label { s, i }))
}

fn signed(sign: bool, plus: &TagSet, minus: &TagSet, tag: TagId) -> Result<Value, NoMemory>
    ensures { IfOk result (λ v. v ≡ signed sign plus.now minus.now tag) }
{
    let (mut plus, mut minus) = both(plus.copy(), minus.copy())?;
    if sign {
        plus.insert(tag)?;
    } else {
        minus.insert(tag)?;
    }
    Ok(Value::CapV { plus, minus })
}

fn root(alloc: Global) -> Result<Value, NoMemory>
    ensures { IfOk result (λ v. v ≡ Value.Dir root_name) }
{
    let name = Name::new(Label::public(alloc), Label::public(alloc), 0)?;
    Ok(Value::Dir(name))
}

/// The value of these parts, which are copied.
///
/// # Errors
///
/// `NoMemory` where memory is refused.
pub fn value_from(alloc: Global, value_ref: &ValueRef<'_>) -> Result<Value, NoMemory>
    ensures { IfOk result (λ v. v ≡ value_of value_ref.now) }
{
    match value_ref {
        ValueRef::Int(n) => Ok(Value::Int(*n)),
        ValueRef::Bool(b) => Ok(Value::Bool(*b)),
        ValueRef::Same(v) => v.copy(),
        ValueRef::Bytes(bytes) => copied(alloc, bytes),
        ValueRef::Joined(a, b) => joined(alloc, a, b),
        ValueRef::Text(n) => text_of(alloc, *n),
        ValueRef::Lab(label) => label_value(label),
        ValueRef::OfTags { secrets, vouchers } => label_of(alloc, secrets, vouchers),
        ValueRef::Caps(caps) => caps_value(caps),
        ValueRef::NoCaps => Ok(Value::CapV {
            plus: TagSet::empty(alloc),
            minus: TagSet::empty(alloc),
        }),
        ValueRef::Signed {
            sign,
            plus,
            minus,
            tag,
        } => signed(*sign, plus, minus, *tag),
        ValueRef::Root => root(alloc),
    }
}
