//! The application of an effect to the stores.

ghost use Rattle.std.specs.Prelude.{ℕ, ◌≡◌, ◌<◌, ◌+◌, IsTrue, None, OnOk, OnErr};
ghost use Rattle.std.specs.FinMap.{contains_key};
ghost use Rattle.lam_value.specs.Homes.{home_of, count_in};
ghost use Rattle.lam_value.specs.Shapes.{slots_of};
ghost use Rattle.lam_machine_terms.specs.Things.{most_things, sort_of, with_thing, with_copy, with_slot};
ghost use Rattle.lam_machine_terms.specs.Trees.{first_fault, with_file, with_dir};
ghost use Rattle.lam_machine_terms.specs.Queues.{most_pipes, with_pipe, with_sent};
ghost use Rattle.lam_machine_effects.specs.Groups.{is_read, is_of_files, is_of_monitors};
ghost use Rattle.lam_machine_effects.specs.Meaning.{meaning, IsAfter};
ghost use Rattle.lam_machine_effects.specs.Room.{HasRoom};

use crate::effect::Effect;
use crate::stores::Stores;
use lam_machine_terms::{FileFault, Files, Heap, HeapFault, Message, PipeFault, Pipes};
use lam_value::{ByteText, Label, Name, Shape, Value};
use want_of_memory::NoMemory;

/// Changes the stores by an effect of a thread. That a thread is added changes no store.
///
/// # Errors
///
/// `NoMemory` where memory is refused; the stores are then as they were.
pub fn apply(stores: &mut Stores, thread: u32, effect: Effect) -> Result<(), NoMemory>
    requires { HasRoom thread (meaning effect) stores.old }
    ensures ok { OnOk result (IsAfter thread effect stores.old stores.new) }
    ensures err { OnErr result (stores.new ≡ stores.old) }
{
    match effect {
        Effect::SetsSlot { thing, at, v } => {
            set_slot(&mut stores.heap, thing, at, v);
            Ok(())
        }
        Effect::AddsThing { maker, own, shape } => {
            add_thing(&mut stores.heap, maker, own, shape)
        }
        Effect::Sends { pipe, message } => send(&mut stores.pipes, pipe, message),
        other => {
            let done = change(stores, thread, &other);
            drop(other);
            done
        }
    }
}

/// Changes the stores by an effect that is only read: nothing that it holds goes into a store.
fn change(stores: &mut Stores, thread: u32, effect: &Effect) -> Result<(), NoMemory>
    requires read { IsTrue (is_read effect.now) }
    requires room { HasRoom thread (meaning effect.now) stores.old }
    ensures ok { OnOk result (IsAfter thread effect.now stores.old stores.new) }
    ensures err { OnErr result (stores.new ≡ stores.old) }
{
    match effect {
        Effect::AddsFile { .. }
        | Effect::AddsDir { .. }
        | Effect::Removes { .. }
        | Effect::Appends { .. }
        | Effect::Cuts { .. } => change_files(stores, effect),
        Effect::TakesMonitor { .. } | Effect::GivesBack { .. } | Effect::Drops { .. } => {
            change_monitors(stores, thread, effect)
        }
        Effect::TakesTag => {
            stores.tags += 1;
            Ok(())
        }
        Effect::AddsCopy { thing, maker, own } => add_copy(&mut stores.heap, thing, maker, own),
        Effect::AddsPipe { maker, own } => add_pipe(&mut stores.pipes, maker, own),
        Effect::Receives { pipe, kind } => {
            let _ = stores.pipes.receive(pipe, *kind);
            Ok(())
        }
        Effect::Nothing | Effect::AddsThread { .. } => Ok(()),
        Effect::SetsSlot { .. } | Effect::AddsThing { .. } | Effect::Sends { .. } => {
            unreachable!()
        }
    }
}

/// Changes the files by an effect on them. Whose it is makes no difference to them, nor to the room that it needs.
fn change_files(stores: &mut Stores, effect: &Effect) -> Result<(), NoMemory>
    requires files { IsTrue (is_of_files effect.now) }
    requires room { HasRoom 0 (meaning effect.now) stores.old }
    ensures ok { OnOk result ((thread : ℕ) → IsAfter thread effect.now stores.old stores.new) }
    ensures err { OnErr result (stores.new ≡ stores.old) }
{
    let files = &mut stores.files;
    match effect {
        Effect::AddsFile {
            dir,
            entry,
            maker,
            own,
        } => add_file(files, dir, entry, maker, own),
        Effect::AddsDir {
            dir,
            entry,
            maker,
            own,
        } => add_dir(files, dir, entry, maker, own),
        Effect::Removes { dir, entry } => {
            files.remove(dir, entry.bytes());
            Ok(())
        }
        Effect::Appends { file, bytes } => files.append(file, bytes.bytes()),
        Effect::Cuts { file, len } => {
            files.cut(file, *len);
            Ok(())
        }
        _ => unreachable!(),
    }
}

/// Changes the monitors by an effect of a thread on them.
fn change_monitors(stores: &mut Stores, thread: u32, effect: &Effect) -> Result<(), NoMemory>
    requires monitors { IsTrue (is_of_monitors effect.now) }
    requires room { HasRoom thread (meaning effect.now) stores.old }
    ensures ok { OnOk result (IsAfter thread effect.now stores.old stores.new) }
    ensures err { OnErr result (stores.new ≡ stores.old) }
{
    match effect {
        Effect::TakesMonitor { thing } => stores.monitors.enter(thing, thread),
        Effect::GivesBack { thing } => {
            stores.monitors.leave(thing, thread);
            Ok(())
        }
        Effect::Drops { things } => {
            stores.monitors.drop_all(thread, things);
            Ok(())
        }
        _ => unreachable!(),
    }
}

/// A slot holds another value, where the thing lives and has it.
fn set_slot(heap: &mut Heap, thing: Name, at: u64, v: Value)
    ensures { heap.new ≡ with_slot heap.old thing at v }
{
    let _ = heap.set(&thing, at, v);
}

/// A message at a pipe's end, or dropped where the pipe is full.
fn send(pipes: &mut Pipes, pipe: Name, message: Message) -> Result<(), NoMemory>
    ensures ok { OnOk result (pipes.new ≡ with_sent pipes.old pipe message) }
    ensures err { OnErr result (pipes.new ≡ pipes.old) }
{
    pipes.send(&pipe, message)
}

fn add_thing(heap: &mut Heap, maker: Label, own: Label, shape: Shape) -> Result<(), NoMemory>
    requires { count_in heap.old.counts (home_of maker own) < most_things }
    ensures ok { OnOk result (heap.new ≡ with_thing heap.old (home_of maker own) (sort_of shape) (slots_of shape)) }
    ensures err { OnErr result (heap.new ≡ heap.old) }
{
    match heap.make(&maker, &own, shape) {
        Ok(_) => return Ok(()),
        Err(HeapFault::NoMemory) => return Err(NoMemory),
        Err(HeapFault::HomeFull) => unreachable!(),
    }
}

fn add_copy(heap: &mut Heap, thing: &Name, maker: &Label, own: &Label) -> Result<(), NoMemory>
    requires lives { IsTrue (contains_key heap.old.slots thing.now) }
    requires room { count_in heap.old.counts (home_of maker.now own.now) < most_things }
    ensures ok { OnOk result (heap.new ≡ with_copy heap.old thing.now (home_of maker.now own.now)) }
    ensures err { OnErr result (heap.new ≡ heap.old) }
{
    match heap.copy_to(thing, maker, own) {
        Ok(_) => return Ok(()),
        Err(HeapFault::NoMemory) => return Err(NoMemory),
        Err(HeapFault::HomeFull) => unreachable!(),
    }
}

fn add_file(
    files: &mut Files,
    dir: &Name,
    entry: &ByteText,
    maker: &Label,
    own: &Label,
) -> Result<(), NoMemory>
    requires { first_fault files.old dir.now entry.now (home_of maker.now own.now) ≡ None }
    ensures ok { OnOk result (files.new ≡ with_file files.old dir.now entry.now (home_of maker.now own.now)) }
    ensures err { OnErr result (files.new ≡ files.old) }
{
    match files.make_file(dir, entry.bytes(), maker, own) {
        Ok(_) => return Ok(()),
        Err(FileFault::NoMemory) => return Err(NoMemory),
        Err(_) => unreachable!(),
    }
}

fn add_dir(
    files: &mut Files,
    dir: &Name,
    entry: &ByteText,
    maker: &Label,
    own: &Label,
) -> Result<(), NoMemory>
    requires { first_fault files.old dir.now entry.now (home_of maker.now own.now) ≡ None }
    ensures ok { OnOk result (files.new ≡ with_dir files.old dir.now entry.now (home_of maker.now own.now)) }
    ensures err { OnErr result (files.new ≡ files.old) }
{
    match files.make_dir(dir, entry.bytes(), maker, own) {
        Ok(_) => return Ok(()),
        Err(FileFault::NoMemory) => return Err(NoMemory),
        Err(_) => unreachable!(),
    }
}

fn add_pipe(pipes: &mut Pipes, maker: &Label, own: &Label) -> Result<(), NoMemory>
    requires { count_in pipes.old.counts (home_of maker.now own.now) < most_pipes }
    ensures ok { OnOk result (pipes.new ≡ with_pipe pipes.old (home_of maker.now own.now)) }
    ensures err { OnErr result (pipes.new ≡ pipes.old) }
{
    match pipes.make(maker, own) {
        Ok(_) => return Ok(()),
        Err(PipeFault::NoMemory) => return Err(NoMemory),
        Err(PipeFault::HomeFull) => unreachable!(),
    }
}
