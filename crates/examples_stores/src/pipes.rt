//! Pipes.

use capabilities::Caps;
use flow_labels::Label;
use labelled_pipes::{Message, MessageKind, PipeFault, Pipes};
use lam_value::{ByteText, Name};
use std::alloc::Global;
use tag_sets::{NoMemory, TagId, TagSet};

/// A message of a number, low byte first.
fn number(alloc: Global, n: u64) -> Result<Message, NoMemory> {
    let bytes = [(n % 256) as u8, (n / 256 % 256) as u8];
    Ok(Message::Bytes(ByteText::from_slice(alloc, &bytes)?))
}

/// Sends 1,025 numbers, from 0 on.
fn send_numbers(alloc: Global, pipes: &mut Pipes, pipe: &Name) -> Result<(), NoMemory> {
    for n in 0..1025u64 {
        pipes.send(pipe, number(alloc, n)?)?;
    }
    Ok(())
}

/// Whether a pipe gives this message of bytes.
fn gives(pipes: &mut Pipes, pipe: &Name, message: &Message) -> bool {
    match pipes.receive(pipe, MessageKind::Bytes) {
        Some(got) => got.same(message),
        None => false,
    }
}

/// How many of the numbers from 0 to 1023 come in their turn.
fn numbers_given(alloc: Global, pipes: &mut Pipes, pipe: &Name) -> Result<u64, NoMemory> {
    for n in 0..1024u64 {
        if !gives(pipes, pipe, &number(alloc, n)?) {
            return Ok(n);
        }
    }
    Ok(1024)
}

/// Makes a public pipe.
fn make_one(pipes: &mut Pipes, public: &Label) -> Option<Name> {
    pipes.make(public, public).ok()
}

/// Whether of 1,025 numbers the first 1,024 come, in order, and then nothing.
fn keeps_1024(alloc: Global, pipes: &mut Pipes, pipe: &Name) -> Result<bool, NoMemory> {
    send_numbers(alloc, pipes, pipe)?;
    let given = numbers_given(alloc, pipes, pipe)?;
    Ok((given == 1024) & pipes.receive(pipe, MessageKind::Bytes).is_none())
}

/// Whether a new pipe keeps 1,024 numbers.
fn makes_and_keeps(alloc: Global, pipes: &mut Pipes) -> Option<bool> {
    let pipe = make_one(pipes, &Label::public(alloc))?;
    keeps_1024(alloc, pipes, &pipe).ok()
}

#[test]
fn pipe_keeps_1024_messages(rt: HostRuntime) {
    let mut pipes = Pipes::new(rt.alloc());
    assert!(rt; makes_and_keeps(rt.alloc(), &mut pipes) == Some(true));
}

/// A message of one capability.
fn caps(alloc: Global) -> Result<Message, NoMemory> {
    let plus = TagSet::from_slice(alloc, &[TagId(3)])?;
    Ok(Message::Caps(Caps::of(plus, TagSet::empty(alloc))))
}

/// Whether what waits is no bytes, and comes as capabilities.
fn gives_caps(pipes: &mut Pipes, pipe: &Name, message: &Message) -> bool {
    let no_bytes = pipes.front(pipe, MessageKind::Bytes).is_none();
    match pipes.receive(pipe, MessageKind::Caps) {
        Some(got) => no_bytes & got.same(message) & (got.kind() == MessageKind::Caps),
        None => false,
    }
}

/// Whether a message of capabilities is sent, and a copy of it comes.
fn keeps_caps(pipes: &mut Pipes, pipe: &Name, message: &Message) -> Result<bool, NoMemory> {
    pipes.send(pipe, message.copy()?)?;
    Ok(gives_caps(pipes, pipe, message))
}

/// Whether two have equal pipes, and equal ones where the public observer sees.
fn are_same(a: &Pipes, b: &Pipes, public: &Label) -> bool {
    a.facts();
    a.same(b) & a.same_seen(b, public) & a.same_counters(b, public)
}

/// Whether two are equal until a pipe is made in the first, which keeps capabilities.
fn are_copies(pipes: &mut Pipes, copy: &Pipes, public: &Label, message: &Message) -> Option<bool> {
    let before = are_same(pipes, copy, public);
    let pipe = make_one(pipes, public)?;
    let kept = keeps_caps(pipes, &pipe, message).ok()?;
    let lives = pipes.lives(&pipe) & !copy.lives(&pipe);
    Some(before & kept & lives & !are_same(pipes, copy, public))
}

#[test]
fn copied_pipes_are_equal(rt: HostRuntime) -> Result<(), NoMemory> {
    let mut pipes = Pipes::new(rt.alloc());
    let copy = pipes.copy()?;
    let message = caps(rt.alloc())?;
    let public = Label::public(rt.alloc());
    assert!(rt; are_copies(&mut pipes, &copy, &public, &message) == Some(true));
    Ok(())
}

/// Makes 4,096 public pipes, and says whether it could.
fn fill_home(pipes: &mut Pipes, public: &Label) -> bool {
    for _ in 0..4096u64 {
        if pipes.make(public, public).is_err() {
            return false;
        }
    }
    true
}

/// Whether a home with 4,096 pipes makes no more.
fn is_full(pipes: &mut Pipes, public: &Label) -> bool {
    matches!(pipes.make(public, public), Err(PipeFault::HomeFull))
}

/// Whether a home makes 4,096 pipes and no more.
fn fills_a_home(pipes: &mut Pipes, public: &Label) -> bool {
    let filled = fill_home(pipes, public);
    filled & is_full(pipes, public) & (pipes.next(public, public) == 4096)
}

#[test]
fn a_home_makes_4096_pipes(rt: HostRuntime) {
    let mut pipes = Pipes::new(rt.alloc());
    assert!(rt; fills_a_home(&mut pipes, &Label::public(rt.alloc())));
}
