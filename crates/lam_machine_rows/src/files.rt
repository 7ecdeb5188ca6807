//! The rows of asks about files and directories.

ghost use Rattle.std.specs.Prelude.{◌≡◌, pos, length, IfOk};
ghost use Rattle.lam_value.specs.Homes.{home_of};
ghost use Rattle.capabilities.specs.Changes.{joined};
ghost use Rattle.labelled_files.specs.Trees as tree;
ghost use Rattle.labelled_files.specs.Trees.{target_at, next_name};
ghost use Rattle.lam_asks.specs.declared.ask.Ask.TheVariants as Ask;
ghost use Rattle.lam_machine_effects.specs.Serving.{fault_of, file_faults, absent};
ghost use Rattle.lam_machine_rows.specs.Rows.{Serves, any_world, at_label, acting_by, with_files};

use crate::rules::{entry_rule, remove_rule};
use crate::services::{did, given};
use capabilities::Caps;
use flow_labels::{Label, read_rule, write_rule};
use labelled_files::{EntryKind, FileFault, Files};
use lam_asks::Fault;
use lam_machine_effects::{Effect, Served};
use lam_value::{ByteText, Name, Value};
use want_of_memory::NoMemory;

/// A new file, as the last entry of a directory.
pub fn make_file(
    files: &Files,
    p: &Label,
    caps: &Caps,
    public: &Caps,
    dir: &Name,
    entry: &ByteText,
    own: &Label,
) -> Result<Served, NoMemory>
    ensures { IfOk result (Serves (with_files files.now) (acting_by p.now (joined caps.now public.now)) (Ask.MakeFile dir.now entry.now own.now)) }
{
    if let Some(denied) = entry_rule(p, caps, public, dir.own(), own) {
        return Ok(Served::refused(denied));
    }
    if let Some(fault) = first_fault(files, dir, entry, p, own) {
        return Ok(Served::failed(fault));
    }
    let name = next_name(files, p, own)?;
    given(Value::File(name), Effect::adds_file(dir, entry, p, own))
}

/// A new directory, as the last entry of a directory.
pub fn make_dir(
    files: &Files,
    p: &Label,
    caps: &Caps,
    public: &Caps,
    dir: &Name,
    entry: &ByteText,
    own: &Label,
) -> Result<Served, NoMemory>
    ensures { IfOk result (Serves (with_files files.now) (acting_by p.now (joined caps.now public.now)) (Ask.MakeDir dir.now entry.now own.now)) }
{
    if let Some(denied) = entry_rule(p, caps, public, dir.own(), own) {
        return Ok(Served::refused(denied));
    }
    if let Some(fault) = first_fault(files, dir, entry, p, own) {
        return Ok(Served::failed(fault));
    }
    let name = next_name(files, p, own)?;
    given(Value::Dir(name), Effect::adds_dir(dir, entry, p, own))
}

/// Why nothing can be made in a directory.
fn first_fault(files: &Files, dir: &Name, entry: &ByteText, p: &Label, own: &Label) -> Option<Fault>
    ensures { result ≡ file_faults (tree.first_fault files.now dir.now entry.now (home_of p.now own.now)) }
{
    match files.first_fault(dir, entry.bytes(), p, own) {
        None => None,
        Some(fault) => Some(fault_of(fault)),
    }
}

/// The fault of an ask for that of a store.
fn fault_of(fault: FileFault) -> Fault
    ensures { result ≡ fault_of fault }
{
    match fault {
        FileFault::BadName => Fault::BadName,
        FileFault::Exists => Fault::Exists,
        FileFault::DirFull => Fault::DirFull,
        FileFault::HomeFull => Fault::HomeFull,
        FileFault::NoMemory => Fault::HomeFull,
    }
}

/// The name of a home's next file or directory.
fn next_name(files: &Files, p: &Label, own: &Label) -> Result<Name, NoMemory>
    ensures { IfOk result (λ n. n ≡ next_name files.now (home_of p.now own.now)) }
{
    Name::of(p, own, files.next(p, own))
}

/// The file of an entry.
pub fn open_file(files: &Files, p: &Label, dir: &Name, entry: &ByteText) -> Result<Served, NoMemory>
    ensures { IfOk result (Serves (with_files files.now) (at_label p.now) (Ask.OpenFile dir.now entry.now)) }
{
    if let Some(denied) = read_rule(p, dir.own()) {
        return Ok(Served::refused(denied));
    }
    let Some(name) = files.look_up(dir, entry.bytes(), EntryKind::File) else {
        return Ok(Served::failed(Fault::NoEntry));
    };
    let name = name.copy()?;
    Ok(Served::gives(Value::File(name), Effect::Nothing))
}

/// The directory of an entry.
pub fn open_dir(files: &Files, p: &Label, dir: &Name, entry: &ByteText) -> Result<Served, NoMemory>
    ensures { IfOk result (Serves (with_files files.now) (at_label p.now) (Ask.OpenDir dir.now entry.now)) }
{
    if let Some(denied) = read_rule(p, dir.own()) {
        return Ok(Served::refused(denied));
    }
    let Some(name) = files.look_up(dir, entry.bytes(), EntryKind::Dir) else {
        return Ok(Served::failed(Fault::NoEntry));
    };
    let name = name.copy()?;
    Ok(Served::gives(Value::Dir(name), Effect::Nothing))
}

/// An entry is taken away.
pub fn remove(files: &Files, p: &Label, dir: &Name, entry: &ByteText) -> Result<Served, NoMemory>
    ensures { IfOk result (Serves (with_files files.now) (at_label p.now) (Ask.Remove dir.now entry.now)) }
{
    if let Some(denied) = remove_rule(p, dir.own()) {
        return Ok(Served::refused(denied));
    }
    if let Some(fault) = absent(files, dir, entry) {
        return Ok(Served::failed(fault));
    }
    did(Effect::removes(dir, entry))
}

/// A fault where no entry of a name is there, of either kind.
fn absent(files: &Files, dir: &Name, entry: &ByteText) -> Option<Fault>
    ensures { result ≡ absent (target_at files.now dir.now entry.now) }
{
    if files.look_up(dir, entry.bytes(), EntryKind::File).is_some() {
        return None;
    }
    if files.look_up(dir, entry.bytes(), EntryKind::Dir).is_some() {
        return None;
    }
    Some(Fault::NoEntry)
}

/// Bytes of a file from a place on.
pub fn read_file(files: &Files, p: &Label, file: &Name, at: u64, n: u64) -> Result<Served, NoMemory>
    ensures { IfOk result (Serves (with_files files.now) (at_label p.now) (Ask.FileRead file.now at n)) }
{
    if let Some(denied) = read_rule(p, file.own()) {
        return Ok(Served::refused(denied));
    }
    let bytes = ByteText::from_slice(file.allocator(), files.read(file, at, n))?;
    Ok(Served::gives(Value::Bytes(bytes), Effect::Nothing))
}

/// The number of bytes of a file.
pub fn file_length(files: &Files, p: &Label, file: &Name) -> Served
    ensures { Serves (with_files files.now) (at_label p.now) (Ask.FileLength file.now) result }
{
    match read_rule(p, file.own()) {
        Some(denied) => Served::refused(denied),
        None => Served::gives(length_of(files, file), Effect::Nothing),
    }
}

/// The number of bytes of a file, as a value.
fn length_of(files: &Files, file: &Name) -> Value
    ensures { result ≡ Value.Int (pos (length (tree.bytes_at files.now file.now))) }
{
    Value::Int(files.length(file) as i64)
}

/// Bytes are put to a file's end.
pub fn append(p: &Label, file: &Name, bytes: &ByteText) -> Result<Served, NoMemory>
    ensures { IfOk result (Serves any_world (at_label p.now) (Ask.Append file.now bytes.now)) }
{
    if let Some(denied) = write_rule(p, file.own()) {
        return Ok(Served::refused(denied));
    }
    did(Effect::appends(file, bytes))
}

/// The first bytes of a file stay.
pub fn cut(p: &Label, file: &Name, len: u64) -> Result<Served, NoMemory>
    ensures { IfOk result (Serves any_world (at_label p.now) (Ask.Cut file.now len)) }
{
    if let Some(denied) = write_rule(p, file.own()) {
        return Ok(Served::refused(denied));
    }
    did(Effect::cuts(file, len))
}
