//! The texts of asks.

ghost use Rattle.std.specs.Prelude.{◌≡◌, ◌++◌, ◌∷◌, [], codes, OnOk, string_bytes};
ghost use Rattle.flow_labels.specs.LabelText.{label_text};
ghost use Rattle.lam_value.specs.Texts.{bytes_text, name_text, value_text};
ghost use Rattle.audit_log_texts.specs.Lines.{ask_text, dir_text, fault_text, kind_text, new_text, spaced, thread_text};
ghost use Rattle.lam_asks.specs.declared.ask.Ask.TheVariants as Ask;

use crate::words::{
    push_bytes_word, push_caps_word, push_denied_word, push_fault_word, push_group_word,
    push_label_word, push_name_word, push_number_word, push_thread, push_value_word, push_word,
};
use capabilities::Caps;
use flow_labels::{Denied, Label, TagNames};
use lam_asks::{Ask, Fault, Outcome};
use lam_value::{ByteText, Kind, Name, Shape, Value, Values};
use want_of_memory::NoMemory;

/// Writes an ask: its word, and what it is about.
///
/// # Errors
///
/// `NoMemory` where memory is refused.
pub fn push_ask(text: &mut String, ask: &Ask, names: &TagNames) -> Result<(), NoMemory>
    ensures { OnOk result (string_bytes text.new ≡ string_bytes text.old ++ ask_text names.now ask.now) }
{
    match ask {
        Ask::Read { r, at } => push_read(text, r, *at, names),
        Ask::Write { r, at, v } => push_write(text, r, *at, v, names),
        Ask::New { shape } => push_new(text, shape),
        Ask::CopyTo { r, own } => push_copy(text, r, own, names),
        Ask::Mint => push_plain(text, "mint"),
        Ask::Enter {
            label,
            caps,
            region,
            args,
        } => push_enter(text, label, caps, *region, args, names),
        Ask::Leave => push_plain(text, "leave"),
        Ask::Barred(denied) => push_barred(text, *denied, names),
        Ask::Caught(fault) => push_on_fault(text, "caught", *fault),
        Ask::Suppressed(fault) => push_on_fault(text, "suppressed", *fault),
        Ask::MonEnter { r } => push_on_value(text, "lock", r, names),
        Ask::MonLeave { r } => push_on_value(text, "unlock", r, names),
        Ask::MakeFile { dir, entry, own } => push_make(text, "make_file", dir, entry, own, names),
        Ask::MakeDir { dir, entry, own } => push_make(text, "make_dir", dir, entry, own, names),
        Ask::OpenFile { dir, entry } => push_put(text, "open_file", "dir", dir, entry, names),
        Ask::OpenDir { dir, entry } => push_put(text, "open_dir", "dir", dir, entry, names),
        Ask::Remove { dir, entry } => push_put(text, "remove", "dir", dir, entry, names),
        Ask::FileRead { file, at, n } => push_file_read(text, file, *at, *n, names),
        Ask::FileLength { file } => push_on_name(text, "length", "file", file, names),
        Ask::Append { file, bytes } => push_put(text, "append", "file", file, bytes, names),
        Ask::Cut { file, len } => push_cut(text, file, *len, names),
        Ask::MakePipe { own } => push_make_pipe(text, own, names),
        Ask::Send { pipe, bytes } => push_put(text, "send", "pipe", pipe, bytes, names),
        Ask::SendCaps { pipe, caps } => push_send_caps(text, pipe, caps, names),
        Ask::Receive { pipe } => push_on_name(text, "receive", "pipe", pipe, names),
        Ask::ReceiveCaps { pipe } => push_on_name(text, "receive_caps", "pipe", pipe, names),
        Ask::Spawn { unit, args, caps } => push_spawn(text, *unit, args, caps, names),
        Ask::Join { thread } => push_join(text, *thread),
        Ask::Say { bytes } => push_say(text, bytes),
        Ask::End(outcome) => push_end(text, outcome, names),
    }
}

fn push_plain(text: &mut String, word: &str) -> Result<(), NoMemory>
    ensures { OnOk result (string_bytes text.new ≡ string_bytes text.old ++ word.now) }
{
    text.push_str(word)?;
    Ok(())
}

fn push_on_value(
    text: &mut String,
    word: &str,
    value: &Value,
    names: &TagNames,
) -> Result<(), NoMemory>
    ensures { OnOk result (string_bytes text.new ≡ string_bytes text.old ++ spaced (word.now ∷ value_text names.now value.now ∷ [])) }
{
    text.push_str(word)?;
    push_value_word(text, value, names)
}

fn push_on_fault(text: &mut String, word: &str, fault: Fault) -> Result<(), NoMemory>
    ensures { OnOk result (string_bytes text.new ≡ string_bytes text.old ++ spaced (word.now ∷ fault_text fault ∷ [])) }
{
    text.push_str(word)?;
    push_fault_word(text, fault)
}

fn push_on_name(
    text: &mut String,
    word: &str,
    kind: &str,
    name: &Name,
    names: &TagNames,
) -> Result<(), NoMemory>
    ensures { OnOk result (string_bytes text.new ≡ string_bytes text.old ++ spaced (word.now ∷ name_text kind.now names.now name.now ∷ [])) }
{
    text.push_str(word)?;
    push_name_word(text, kind, name, names)
}

fn push_put(
    text: &mut String,
    word: &str,
    kind: &str,
    name: &Name,
    bytes: &ByteText,
    names: &TagNames,
) -> Result<(), NoMemory>
    ensures { OnOk result (string_bytes text.new ≡ string_bytes text.old ++ spaced (word.now ∷ name_text kind.now names.now name.now ∷ bytes_text bytes.now ∷ [])) }
{
    text.push_str(word)?;
    push_name_word(text, kind, name, names)?;
    push_bytes_word(text, bytes)
}

fn push_make(
    text: &mut String,
    word: &str,
    dir: &Name,
    entry: &ByteText,
    own: &Label,
    names: &TagNames,
) -> Result<(), NoMemory>
    ensures { OnOk result (string_bytes text.new ≡ string_bytes text.old ++ spaced (word.now ∷ dir_text names.now dir.now ∷ bytes_text entry.now ∷ label_text names.now own.now ∷ [])) }
{
    text.push_str(word)?;
    push_name_word(text, "dir", dir, names)?;
    push_bytes_word(text, entry)?;
    push_label_word(text, own, names)
}

fn push_read(text: &mut String, r: &Value, at: u64, names: &TagNames) -> Result<(), NoMemory>
    ensures { OnOk result (string_bytes text.new ≡ string_bytes text.old ++ ask_text names.now (Ask.Read r.now at)) }
{
    text.push_str("read")?;
    push_value_word(text, r, names)?;
    push_number_word(text, at)
}

fn push_write(
    text: &mut String,
    r: &Value,
    at: u64,
    v: &Value,
    names: &TagNames,
) -> Result<(), NoMemory>
    ensures { OnOk result (string_bytes text.new ≡ string_bytes text.old ++ ask_text names.now (Ask.Write r.now at v.now)) }
{
    text.push_str("write")?;
    push_value_word(text, r, names)?;
    push_number_word(text, at)?;
    push_value_word(text, v, names)
}

fn push_new(text: &mut String, shape: &Shape) -> Result<(), NoMemory>
    ensures { OnOk result (string_bytes text.new ≡ string_bytes text.old ++ new_text shape.now) }
{
    match shape {
        Shape::Class { class, .. } => {
            text.push_str("new class")?;
            push_number_word(text, *class as u64)
        }
        Shape::Array { kind, len } => {
            text.push_str("new array")?;
            push_word(text, kind_word(*kind))?;
            push_number_word(text, *len)
        }
    }
}

fn kind_word(kind: Kind) -> &'static str
    ensures { result.now ≡ kind_text kind }
{
    match kind {
        Kind::Int => "int",
        Kind::Bool => "bool",
        Kind::Null => "null",
    }
}

fn push_copy(text: &mut String, r: &Value, own: &Label, names: &TagNames) -> Result<(), NoMemory>
    ensures { OnOk result (string_bytes text.new ≡ string_bytes text.old ++ ask_text names.now (Ask.CopyTo r.now own.now)) }
{
    text.push_str("copy")?;
    push_value_word(text, r, names)?;
    push_word(text, "to")?;
    push_label_word(text, own, names)
}

fn push_enter(
    text: &mut String,
    label: &Label,
    caps: &Caps,
    region: u32,
    args: &Values,
    names: &TagNames,
) -> Result<(), NoMemory>
    ensures { OnOk result (string_bytes text.new ≡ string_bytes text.old ++ ask_text names.now (Ask.Enter label.now caps.now region args.now)) }
{
    text.push_str("enter")?;
    push_label_word(text, label, names)?;
    push_word(text, "caps")?;
    push_caps_word(text, caps, names)?;
    push_word(text, "region")?;
    push_number_word(text, region as u64)?;
    push_group_word(text, args, names)
}

fn push_barred(text: &mut String, denied: Denied, names: &TagNames) -> Result<(), NoMemory>
    ensures { OnOk result (string_bytes text.new ≡ string_bytes text.old ++ ask_text names.now (Ask.Barred denied)) }
{
    text.push_str("barred")?;
    push_denied_word(text, denied, names)
}

fn push_file_read(
    text: &mut String,
    file: &Name,
    at: u64,
    n: u64,
    names: &TagNames,
) -> Result<(), NoMemory>
    ensures { OnOk result (string_bytes text.new ≡ string_bytes text.old ++ ask_text names.now (Ask.FileRead file.now at n)) }
{
    text.push_str("read_file")?;
    push_name_word(text, "file", file, names)?;
    push_number_word(text, at)?;
    push_number_word(text, n)
}

fn push_cut(text: &mut String, file: &Name, len: u64, names: &TagNames) -> Result<(), NoMemory>
    ensures { OnOk result (string_bytes text.new ≡ string_bytes text.old ++ ask_text names.now (Ask.Cut file.now len)) }
{
    text.push_str("cut")?;
    push_name_word(text, "file", file, names)?;
    push_number_word(text, len)
}

fn push_make_pipe(text: &mut String, own: &Label, names: &TagNames) -> Result<(), NoMemory>
    ensures { OnOk result (string_bytes text.new ≡ string_bytes text.old ++ ask_text names.now (Ask.MakePipe own.now)) }
{
    text.push_str("make_pipe")?;
    push_label_word(text, own, names)
}

fn push_send_caps(
    text: &mut String,
    pipe: &Name,
    caps: &Caps,
    names: &TagNames,
) -> Result<(), NoMemory>
    ensures { OnOk result (string_bytes text.new ≡ string_bytes text.old ++ ask_text names.now (Ask.SendCaps pipe.now caps.now)) }
{
    text.push_str("send_caps")?;
    push_name_word(text, "pipe", pipe, names)?;
    push_caps_word(text, caps, names)
}

fn push_spawn(
    text: &mut String,
    unit: u32,
    args: &Values,
    caps: &Caps,
    names: &TagNames,
) -> Result<(), NoMemory>
    ensures { OnOk result (string_bytes text.new ≡ string_bytes text.old ++ ask_text names.now (Ask.Spawn unit args.now caps.now)) }
{
    text.push_str("spawn")?;
    push_number_word(text, unit as u64)?;
    push_group_word(text, args, names)?;
    push_word(text, "caps")?;
    push_caps_word(text, caps, names)
}

fn push_join(text: &mut String, thread: u32) -> Result<(), NoMemory>
    ensures { OnOk result (string_bytes text.new ≡ string_bytes text.old ++ spaced (codes "join" ∷ thread_text thread ∷ [])) }
{
    text.push_str("join ")?;
    push_thread(text, thread)
}

fn push_say(text: &mut String, bytes: &ByteText) -> Result<(), NoMemory>
    ensures { OnOk result (string_bytes text.new ≡ string_bytes text.old ++ spaced (codes "say" ∷ bytes_text bytes.now ∷ [])) }
{
    text.push_str("say")?;
    push_bytes_word(text, bytes)
}

fn push_end(text: &mut String, outcome: &Outcome, names: &TagNames) -> Result<(), NoMemory>
    ensures { OnOk result (string_bytes text.new ≡ string_bytes text.old ++ ask_text names.now (Ask.End outcome.now)) }
{
    match outcome {
        Outcome::Value(value) => push_on_value(text, "end value", value, names),
        Outcome::Failed(fault) => push_on_fault(text, "end", *fault),
    }
}
