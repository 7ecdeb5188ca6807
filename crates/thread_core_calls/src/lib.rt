//! Effects of the built-in calls, and of barriers, accesses and monitors.
//!
//! The effect of a built-in call is known before it is done, without memory. Its value, fault or ask is a [`Called`],
//! which borrows the parts of its arguments. [`system`] is the effect of a call with the arguments on top of the
//! operands. `access` has the effects of the operations that reach a thing or make one.
//!
//! No public promise rests on it directly: `lam_machine`'s does.
#![tactic(auto)]

mod access;

ghost use Rattle.std.specs.Prelude.{◌≡◌, ◌≤◌, ◌++◌, ◌∷◌, [], pos, length, List};
ghost use Rattle.decimal_text.specs.Decimal.{int_of};
ghost use Rattle.flow_labels.specs.declared.Label.{Label};
ghost use Rattle.capabilities.specs.declared.Caps.{Caps};
ghost use Rattle.thread_steps.specs.Builtins.{calls, builtin, number_now, bytes_now, byte_at, slice_at, own_label, copied, read_from, cut_to, send_into, number_in as number_from};
ghost use Rattle.thread_core_effects.specs.Acting.{calls_of, did_of, systems};
ghost use Rattle.lam_value.specs.declared.values.Value.{Value};

pub use access::{
    LENGTH_LIMIT, enter_monitor, get_element, get_field, leave_monitor, new_array, new_object,
    put_element, put_field, read_barrier, write_barrier,
};
use capabilities::Caps;
use decimal_text::read_int;
use flow_labels::Label;
use lam_asks::Fault;
use lam_builtins::Builtin;
use lam_value::{BYTES_LIMIT, ByteText, Name, Value};
use thread_core_effects::{AskRef, Called, OpEffect, Operands, ValueRef, some_null};

/// How many bytes a message may have.
const MESSAGE_LIMIT: usize = 4_096;

fn number_now(n: u64) -> Called<'static>
    ensures { calls_of result ≡ number_now (pos n) }
{
    if n < 9_223_372_036_854_775_808 {
        Called::Now(ValueRef::Int(n as i64))
    } else {
        Called::Faults(Fault::Overflow)
    }
}

fn byte_at(bytes: &[u8], i: i64) -> Called<'static>
    ensures { calls_of result ≡ byte_at bytes.now i }
{
    if i < 0 {
        return Called::Faults(Fault::Index);
    }
    match bytes.get(i as usize) {
        None => Called::Faults(Fault::Index),
        Some(byte) => Called::Now(ValueRef::Int(i64::from(*byte))),
    }
}

fn slice_at(bytes: &[u8], i: i64, j: i64) -> Called<'_>
    ensures { calls_of result ≡ slice_at bytes.now i j }
{
    if i < 0 || j < 0 {
        return Called::Faults(Fault::Index);
    }
    let (start, end) = (i as usize, j as usize);
    if start > end || end > bytes.len() {
        return Called::Faults(Fault::Index);
    }
    Called::Now(ValueRef::Bytes(&bytes[start..end]))
}

fn joined<'a>(a: &'a [u8], b: &'a [u8]) -> Called<'a>
    ensures { calls_of result ≡ bytes_now (a.now ++ b.now) }
{
    if a.len() > BYTES_LIMIT || b.len() > BYTES_LIMIT - a.len() {
        return Called::Faults(Fault::Long);
    }
    Called::Now(ValueRef::Joined(a, b))
}

fn number_from(bytes: &[u8]) -> Called<'static>
    ensures { calls_of result ≡ number_from (int_of bytes.now) }
{
    match read_int(bytes) {
        None => Called::Faults(Fault::Form),
        Some(z) => Called::Now(ValueRef::Int(z)),
    }
}

fn own_label(v: &Value) -> Called<'_>
    ensures { calls_of result ≡ own_label v.now }
{
    match v {
        Value::Obj(name) => Called::Now(ValueRef::Lab(name.own())),
        Value::Arr { name, .. } => Called::Now(ValueRef::Lab(name.own())),
        Value::File(name) => Called::Now(ValueRef::Lab(name.own())),
        Value::Dir(name) => Called::Now(ValueRef::Lab(name.own())),
        Value::Pipe(name) => Called::Now(ValueRef::Lab(name.own())),
        _ => Called::Wrong,
    }
}

fn copied<'a>(v: &'a Value, own: &'a Label) -> Called<'a>
    ensures { calls_of result ≡ copied v.now own.now }
{
    match v {
        Value::Obj(_) => Called::Asks(AskRef::CopyTo { r: v, own }),
        Value::Arr { .. } => Called::Asks(AskRef::CopyTo { r: v, own }),
        _ => Called::Wrong,
    }
}

fn read_from(file: &Name, at: i64, n: i64) -> Called<'_>
    ensures { calls_of result ≡ read_from file.now at n }
{
    if at < 0 {
        return Called::Faults(Fault::Index);
    }
    if n < 0 {
        return Called::Faults(Fault::Long);
    }
    let (at, n) = (at as u64, n as u64);
    if n > BYTES_LIMIT as u64 {
        return Called::Faults(Fault::Long);
    }
    Called::Asks(AskRef::FileRead { file, at, n })
}

fn cut_to(file: &Name, len: i64) -> Called<'_>
    ensures { calls_of result ≡ cut_to file.now len }
{
    if len < 0 {
        return Called::Faults(Fault::Index);
    }
    let len = len as u64;
    Called::Acts(AskRef::Cut { file, len })
}

fn send_into<'a>(pipe: &'a Name, bytes: &'a ByteText) -> Called<'a>
    ensures { calls_of result ≡ send_into pipe.now bytes.now }
{
    if bytes.bytes().len() > MESSAGE_LIMIT {
        return Called::Faults(Fault::Long);
    }
    Called::Acts(AskRef::Send { pipe, bytes })
}

/// Without arguments.
fn of_none<'a>(label: &'a Label, caps: &'a Caps, b: Builtin) -> Called<'a>
    ensures { calls_of result ≡ calls label.now caps.now b [] }
{
    match b {
        Builtin::MyLabel => Called::Now(ValueRef::Lab(label)),
        Builtin::MyCaps => Called::Now(ValueRef::Caps(caps)),
        Builtin::Root => Called::Now(ValueRef::Root),
        Builtin::Mint => Called::Asks(AskRef::Mint),
        _ => Called::Wrong,
    }
}

fn len(v: &Value) -> Called<'_>
    ensures { (p : Label) (k : Caps) → calls_of result ≡ calls p k Builtin.Len (v.now ∷ []) }
{
    let Value::Arr { len, .. } = v else {
        return Called::Wrong;
    };
    number_now(*len)
}

fn size(v: &Value) -> Called<'_>
    ensures { (p : Label) (k : Caps) → calls_of result ≡ calls p k Builtin.Size (v.now ∷ []) }
{
    let Value::Bytes(text) = v else {
        return Called::Wrong;
    };
    number_now(text.bytes().len() as u64)
}

fn text(v: &Value) -> Called<'_>
    ensures { (p : Label) (k : Caps) → calls_of result ≡ calls p k Builtin.Text (v.now ∷ []) }
{
    let Value::Int(i) = v else {
        return Called::Wrong;
    };
    Called::Now(ValueRef::Text(*i))
}

fn number(v: &Value) -> Called<'_>
    ensures { (p : Label) (k : Caps) → calls_of result ≡ calls p k Builtin.Number (v.now ∷ []) }
{
    let Value::Bytes(text) = v else {
        return Called::Wrong;
    };
    number_from(text.bytes())
}

fn say(v: &Value) -> Called<'_>
    ensures { (p : Label) (k : Caps) → calls_of result ≡ calls p k Builtin.Say (v.now ∷ []) }
{
    let Value::Bytes(bytes) = v else {
        return Called::Wrong;
    };
    Called::Acts(AskRef::Say { bytes })
}

fn length(v: &Value) -> Called<'_>
    ensures { (p : Label) (k : Caps) → calls_of result ≡ calls p k Builtin.Length (v.now ∷ []) }
{
    let Value::File(file) = v else {
        return Called::Wrong;
    };
    Called::Asks(AskRef::FileLength { file })
}

fn make_pipe(v: &Value) -> Called<'_>
    ensures { (p : Label) (k : Caps) → calls_of result ≡ calls p k Builtin.MakePipe (v.now ∷ []) }
{
    let Value::Lab(own) = v else {
        return Called::Wrong;
    };
    Called::Asks(AskRef::MakePipe { own })
}

fn receive(v: &Value) -> Called<'_>
    ensures { (p : Label) (k : Caps) → calls_of result ≡ calls p k Builtin.Receive (v.now ∷ []) }
{
    let Value::Pipe(pipe) = v else {
        return Called::Wrong;
    };
    Called::Asks(AskRef::Receive { pipe })
}

fn receive_caps(v: &Value) -> Called<'_>
    ensures { (p : Label) (k : Caps) → calls_of result ≡ calls p k Builtin.ReceiveCaps (v.now ∷ []) }
{
    let Value::Pipe(pipe) = v else {
        return Called::Wrong;
    };
    Called::Asks(AskRef::ReceiveCaps { pipe })
}

fn join(v: &Value) -> Called<'_>
    ensures { (p : Label) (k : Caps) → calls_of result ≡ calls p k Builtin.Join (v.now ∷ []) }
{
    let Value::Thread(thread) = v else {
        return Called::Wrong;
    };
    Called::Asks(AskRef::Join { thread: *thread })
}

fn byte<'a>(v: &'a Value, w: &'a Value) -> Called<'a>
    ensures { (p : Label) (k : Caps) → calls_of result ≡ calls p k Builtin.Byte (v.now ∷ w.now ∷ []) }
{
    let Value::Bytes(text) = v else {
        return Called::Wrong;
    };
    let Value::Int(i) = w else {
        return Called::Wrong;
    };
    byte_at(text.bytes(), *i)
}

fn cat<'a>(v: &'a Value, w: &'a Value) -> Called<'a>
    ensures { (p : Label) (k : Caps) → calls_of result ≡ calls p k Builtin.Cat (v.now ∷ w.now ∷ []) }
{
    let Value::Bytes(a) = v else {
        return Called::Wrong;
    };
    let Value::Bytes(b) = w else {
        return Called::Wrong;
    };
    joined(a.bytes(), b.bytes())
}

fn copy_to<'a>(v: &'a Value, w: &'a Value) -> Called<'a>
    ensures { (p : Label) (k : Caps) → calls_of result ≡ calls p k Builtin.Copy (v.now ∷ w.now ∷ []) }
{
    let Value::Lab(own) = w else {
        return Called::Wrong;
    };
    copied(v, own)
}

fn open_file<'a>(v: &'a Value, w: &'a Value) -> Called<'a>
    ensures { (p : Label) (k : Caps) → calls_of result ≡ calls p k Builtin.OpenFile (v.now ∷ w.now ∷ []) }
{
    let Value::Dir(dir) = v else {
        return Called::Wrong;
    };
    let Value::Bytes(entry) = w else {
        return Called::Wrong;
    };
    Called::Asks(AskRef::OpenFile { dir, entry })
}

fn open_dir<'a>(v: &'a Value, w: &'a Value) -> Called<'a>
    ensures { (p : Label) (k : Caps) → calls_of result ≡ calls p k Builtin.OpenDir (v.now ∷ w.now ∷ []) }
{
    let Value::Dir(dir) = v else {
        return Called::Wrong;
    };
    let Value::Bytes(entry) = w else {
        return Called::Wrong;
    };
    Called::Asks(AskRef::OpenDir { dir, entry })
}

fn remove<'a>(v: &'a Value, w: &'a Value) -> Called<'a>
    ensures { (p : Label) (k : Caps) → calls_of result ≡ calls p k Builtin.Remove (v.now ∷ w.now ∷ []) }
{
    let Value::Dir(dir) = v else {
        return Called::Wrong;
    };
    let Value::Bytes(entry) = w else {
        return Called::Wrong;
    };
    Called::Acts(AskRef::Remove { dir, entry })
}

fn append<'a>(v: &'a Value, w: &'a Value) -> Called<'a>
    ensures { (p : Label) (k : Caps) → calls_of result ≡ calls p k Builtin.Append (v.now ∷ w.now ∷ []) }
{
    let Value::File(file) = v else {
        return Called::Wrong;
    };
    let Value::Bytes(bytes) = w else {
        return Called::Wrong;
    };
    Called::Acts(AskRef::Append { file, bytes })
}

fn cut<'a>(v: &'a Value, w: &'a Value) -> Called<'a>
    ensures { (p : Label) (k : Caps) → calls_of result ≡ calls p k Builtin.Cut (v.now ∷ w.now ∷ []) }
{
    let Value::File(file) = v else {
        return Called::Wrong;
    };
    let Value::Int(n) = w else {
        return Called::Wrong;
    };
    cut_to(file, *n)
}

fn send<'a>(v: &'a Value, w: &'a Value) -> Called<'a>
    ensures { (p : Label) (k : Caps) → calls_of result ≡ calls p k Builtin.Send (v.now ∷ w.now ∷ []) }
{
    let Value::Pipe(pipe) = v else {
        return Called::Wrong;
    };
    let Value::Bytes(bytes) = w else {
        return Called::Wrong;
    };
    send_into(pipe, bytes)
}

fn send_caps<'a>(v: &'a Value, w: &'a Value) -> Called<'a>
    ensures { (p : Label) (k : Caps) → calls_of result ≡ calls p k Builtin.SendCaps (v.now ∷ w.now ∷ []) }
{
    let Value::Pipe(pipe) = v else {
        return Called::Wrong;
    };
    let Value::CapV { plus, minus } = w else {
        return Called::Wrong;
    };
    Called::Acts(AskRef::SendCaps { pipe, plus, minus })
}

fn slice<'a>(v: &'a Value, w: &'a Value, x: &'a Value) -> Called<'a>
    ensures { (p : Label) (k : Caps) → calls_of result ≡ calls p k Builtin.Slice (v.now ∷ w.now ∷ x.now ∷ []) }
{
    let Value::Bytes(text) = v else {
        return Called::Wrong;
    };
    let Value::Int(i) = w else {
        return Called::Wrong;
    };
    let Value::Int(j) = x else {
        return Called::Wrong;
    };
    slice_at(text.bytes(), *i, *j)
}

fn make_file<'a>(v: &'a Value, w: &'a Value, x: &'a Value) -> Called<'a>
    ensures { (p : Label) (k : Caps) → calls_of result ≡ calls p k Builtin.MakeFile (v.now ∷ w.now ∷ x.now ∷ []) }
{
    let Value::Dir(dir) = v else {
        return Called::Wrong;
    };
    let Value::Bytes(entry) = w else {
        return Called::Wrong;
    };
    let Value::Lab(own) = x else {
        return Called::Wrong;
    };
    Called::Asks(AskRef::MakeFile { dir, entry, own })
}

fn make_dir<'a>(v: &'a Value, w: &'a Value, x: &'a Value) -> Called<'a>
    ensures { (p : Label) (k : Caps) → calls_of result ≡ calls p k Builtin.MakeDir (v.now ∷ w.now ∷ x.now ∷ []) }
{
    let Value::Dir(dir) = v else {
        return Called::Wrong;
    };
    let Value::Bytes(entry) = w else {
        return Called::Wrong;
    };
    let Value::Lab(own) = x else {
        return Called::Wrong;
    };
    Called::Asks(AskRef::MakeDir { dir, entry, own })
}

fn read<'a>(v: &'a Value, w: &'a Value, x: &'a Value) -> Called<'a>
    ensures { (p : Label) (k : Caps) → calls_of result ≡ calls p k Builtin.Read (v.now ∷ w.now ∷ x.now ∷ []) }
{
    let Value::File(file) = v else {
        return Called::Wrong;
    };
    let Value::Int(at) = w else {
        return Called::Wrong;
    };
    let Value::Int(n) = x else {
        return Called::Wrong;
    };
    read_from(file, *at, *n)
}

/// With one argument.
fn of_one(b: Builtin, v: &Value) -> Called<'_>
    ensures { (p : Label) (k : Caps) → calls_of result ≡ calls p k b (v.now ∷ []) }
{
    match b {
        Builtin::Len => len(v),
        Builtin::Size => size(v),
        Builtin::Text => text(v),
        Builtin::Number => number(v),
        Builtin::Say => say(v),
        Builtin::Length => length(v),
        Builtin::MakePipe => make_pipe(v),
        Builtin::Receive => receive(v),
        Builtin::ReceiveCaps => receive_caps(v),
        Builtin::Join => join(v),
        Builtin::LabelOf => own_label(v),
        _ => Called::Wrong,
    }
}

/// With two arguments.
fn of_two<'a>(b: Builtin, v: &'a Value, w: &'a Value) -> Called<'a>
    ensures { (p : Label) (k : Caps) → calls_of result ≡ calls p k b (v.now ∷ w.now ∷ []) }
{
    match b {
        Builtin::Byte => byte(v, w),
        Builtin::Cat => cat(v, w),
        Builtin::Copy => copy_to(v, w),
        Builtin::OpenFile => open_file(v, w),
        Builtin::OpenDir => open_dir(v, w),
        Builtin::Remove => remove(v, w),
        Builtin::Append => append(v, w),
        Builtin::Cut => cut(v, w),
        Builtin::Send => send(v, w),
        Builtin::SendCaps => send_caps(v, w),
        _ => Called::Wrong,
    }
}

/// With three arguments.
fn of_three<'a>(b: Builtin, v: &'a Value, w: &'a Value, x: &'a Value) -> Called<'a>
    ensures { (p : Label) (k : Caps) → calls_of result ≡ calls p k b (v.now ∷ w.now ∷ x.now ∷ []) }
{
    match b {
        Builtin::Slice => slice(v, w, x),
        Builtin::MakeFile => make_file(v, w, x),
        Builtin::MakeDir => make_dir(v, w, x),
        Builtin::Read => read(v, w, x),
        _ => Called::Wrong,
    }
}

/// With at most three arguments, of which none is null.
fn of_some<'a>(label: &'a Label, caps: &'a Caps, b: Builtin, args: &'a [Value]) -> Called<'a>
    requires { length args.now ≤ 3 }
    ensures { calls_of result ≡ calls label.now caps.now b args.now }
{
    match args.len() {
        0 => of_none(label, caps, b),
        1 => of_one(b, &args[0]),
        2 => of_two(b, &args[0], &args[1]),
        _ => of_three(b, &args[0], &args[1], &args[2]),
    }
}

/// What a built-in call does at a label with capabilities. A null argument raises Null before all else.
#[tactic(auto, unfolding(thread_steps::specs::Builtins::builtin))]
pub fn builtin<'a>(label: &'a Label, caps: &'a Caps, b: Builtin, args: &'a [Value]) -> Called<'a>
    requires { length args.now ≤ 3 }
    ensures { calls_of result ≡ builtin label.now caps.now b args.now }
{
    if some_null(args) {
        return Called::Faults(Fault::Null);
    }
    of_some(label, caps, b, args)
}

/// A built-in call with the arguments on top, at a label with capabilities.
pub fn system<'a>(stack: &'a Operands, label: &'a Label, caps: &'a Caps, b: Builtin) -> OpEffect<'a>
    ensures { (locals : List Value) → did_of result locals stack.now ≡ systems label.now caps.now b stack.now }
{
    let takes = b.arity();
    let Some(args) = stack.last_many(takes) else {
        return OpEffect::Breaks;
    };
    match builtin(label, caps, b, args) {
        Called::Now(value_ref) => OpEffect::Puts { takes, value_ref },
        Called::Faults(fault) => OpEffect::Fails(fault),
        Called::Asks(ask) => OpEffect::Asks {
            ask,
            takes,
            leaves_null: false,
        },
        Called::Acts(ask) => OpEffect::Asks {
            ask,
            takes,
            leaves_null: true,
        },
        Called::Wrong => OpEffect::Breaks,
    }
}
