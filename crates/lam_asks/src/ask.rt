//! The forms of asks.

ghost use Rattle.std.specs.Prelude.{◌≡◌, IfOk};
ghost use Rattle.lam_asks.specs.declared.ask.Ask.TheVariants as Ask;
ghost use Rattle.lam_asks.specs.Families.{family_of};

use crate::answer::Outcome;
use crate::family::{Family, family_of};
use crate::fault::Fault;
use crate::together::both;
use capabilities::Caps;
use lam_value::{ByteText, Denied, Label, Name, Shape, Value, Values};
use want_of_memory::NoMemory;

/// What a thread asks of the reference monitor. A field `r` is a reference to an object or an array.
#[derive(Drop)]
pub enum Ask {
    /// The value of a slot.
    Read {
        r: Value,
        at: u64,
    },
    /// A slot gets a value.
    Write {
        r: Value,
        at: u64,
        v: Value,
    },
    /// A new object or array at the acting label.
    New {
        shape: Shape,
    },
    /// A copy with another label: a declassification or an endorsement where the label is not above.
    CopyTo {
        r: Value,
        own: Label,
    },
    /// A new tag, with both of its capabilities.
    Mint,
    /// A region is entered: its label, its capabilities, its number and the values that it captures.
    Enter {
        label: Label,
        caps: Caps,
        region: u32,
        args: Values,
    },
    /// A region is left.
    Leave,
    /// A barrier of the compiled code found that a rule forbids the access that comes next.
    Barred(Denied),
    /// A fault in a region's body: its catch block begins.
    Caught(Fault),
    /// A fault in a catch block: the region is left.
    Suppressed(Fault),
    /// The monitor of a thing is taken.
    MonEnter {
        r: Value,
    },
    /// The monitor of a thing is given back, once.
    MonLeave {
        r: Value,
    },
    /// A new file, as the last entry of a directory.
    MakeFile {
        dir: Name,
        entry: ByteText,
        own: Label,
    },
    /// A new directory, as the last entry of a directory.
    MakeDir {
        dir: Name,
        entry: ByteText,
        own: Label,
    },
    /// The file of an entry.
    OpenFile {
        dir: Name,
        entry: ByteText,
    },
    /// The directory of an entry.
    OpenDir {
        dir: Name,
        entry: ByteText,
    },
    /// An entry is taken away.
    Remove {
        dir: Name,
        entry: ByteText,
    },
    /// At most `n` bytes of a file from a place on.
    FileRead {
        file: Name,
        at: u64,
        n: u64,
    },
    /// The number of bytes of a file.
    FileLength {
        file: Name,
    },
    /// Bytes are put to a file's end.
    Append {
        file: Name,
        bytes: ByteText,
    },
    /// The first `len` bytes of a file stay.
    Cut {
        file: Name,
        len: u64,
    },
    /// A new pipe.
    MakePipe {
        own: Label,
    },
    /// Bytes are sent.
    Send {
        pipe: Name,
        bytes: ByteText,
    },
    /// Capabilities are sent.
    SendCaps {
        pipe: Name,
        caps: Caps,
    },
    /// The front message, where it is bytes.
    Receive {
        pipe: Name,
    },
    /// The front message, where it is capabilities; they join those of the context.
    ReceiveCaps {
        pipe: Name,
    },
    /// A new thread that runs a function with these arguments and capabilities.
    Spawn {
        unit: u32,
        args: Values,
        caps: Caps,
    },
    /// The value with which a thread ended.
    Join {
        thread: u32,
    },
    /// Bytes are shown to whoever may see the acting label.
    Say {
        bytes: ByteText,
    },
    /// The thread ends.
    End(Outcome),
}

impl Ask {
    /// An equal ask.
    ///
    /// # Errors
    ///
    /// `NoMemory` where memory is refused.
    pub fn copy(&self) -> Result<Ask, NoMemory>
        ensures { IfOk result (λ a. a ≡ self.now) }
    {
        match family_of(self) {
            Family::Thing => copy_of_thing(self),
            Family::Entry => copy_of_entry(self),
            Family::File => copy_of_file(self),
            Family::Pipe => copy_of_pipe(self),
            Family::Thread => copy_of_thread(self),
            Family::Plain => Ok(copy_of_plain(self)),
        }
    }
}

fn copy_of_plain(ask: &Ask) -> Ask
    requires { family_of ask.now ≡ Family.Plain }
    ensures { result ≡ ask.now }
{
    match ask {
        Ask::Mint => Ask::Mint,
        Ask::Leave => Ask::Leave,
        Ask::Barred(denied) => Ask::Barred(*denied),
        Ask::Caught(fault) => Ask::Caught(*fault),
        Ask::Suppressed(fault) => Ask::Suppressed(*fault),
        Ask::Join { thread } => Ask::Join { thread: *thread },
        _ => unreachable!(),
    }
}

fn copy_of_thing(ask: &Ask) -> Result<Ask, NoMemory>
    requires { family_of ask.now ≡ Family.Thing }
    ensures { IfOk result (λ a. a ≡ ask.now) }
{
    match ask {
        Ask::MonEnter { r } => Ok(Ask::MonEnter { r: r.copy()? }),
        Ask::MonLeave { r } => Ok(Ask::MonLeave { r: r.copy()? }),
        Ask::Read { r, at } => Ok(Ask::Read {
            r: r.copy()?,
            at: *at,
        }),
        Ask::Write { r, at, v } => copy_write(r, *at, v),
        Ask::New { shape } => Ok(Ask::New {
            shape: shape.copy()?,
        }),
        Ask::CopyTo { r, own } => copy_copy(r, own),
        _ => unreachable!(),
    }
}

fn copy_of_entry(ask: &Ask) -> Result<Ask, NoMemory>
    requires { family_of ask.now ≡ Family.Entry }
    ensures { IfOk result (λ a. a ≡ ask.now) }
{
    match ask {
        Ask::MakeFile { dir, entry, own } => {
            let (dir, entry, own) = copy_new_entry(dir, entry, own)?;
            Ok(Ask::MakeFile { dir, entry, own })
        }
        Ask::MakeDir { dir, entry, own } => {
            let (dir, entry, own) = copy_new_entry(dir, entry, own)?;
            Ok(Ask::MakeDir { dir, entry, own })
        }
        Ask::OpenFile { dir, entry } => {
            let (dir, entry) = copy_entry(dir, entry)?;
            Ok(Ask::OpenFile { dir, entry })
        }
        Ask::OpenDir { dir, entry } => {
            let (dir, entry) = copy_entry(dir, entry)?;
            Ok(Ask::OpenDir { dir, entry })
        }
        Ask::Remove { dir, entry } => {
            let (dir, entry) = copy_entry(dir, entry)?;
            Ok(Ask::Remove { dir, entry })
        }
        _ => unreachable!(),
    }
}

fn copy_of_file(ask: &Ask) -> Result<Ask, NoMemory>
    requires { family_of ask.now ≡ Family.File }
    ensures { IfOk result (λ a. a ≡ ask.now) }
{
    match ask {
        Ask::FileRead { file, at, n } => Ok(Ask::FileRead {
            file: file.copy()?,
            at: *at,
            n: *n,
        }),
        Ask::FileLength { file } => Ok(Ask::FileLength { file: file.copy()? }),
        Ask::Append { file, bytes } => {
            let (file, bytes) = copy_entry(file, bytes)?;
            Ok(Ask::Append { file, bytes })
        }
        Ask::Cut { file, len } => Ok(Ask::Cut {
            file: file.copy()?,
            len: *len,
        }),
        _ => unreachable!(),
    }
}

fn copy_of_pipe(ask: &Ask) -> Result<Ask, NoMemory>
    requires { family_of ask.now ≡ Family.Pipe }
    ensures { IfOk result (λ a. a ≡ ask.now) }
{
    match ask {
        Ask::MakePipe { own } => Ok(Ask::MakePipe { own: own.copy()? }),
        Ask::Send { pipe, bytes } => {
            let (pipe, bytes) = copy_entry(pipe, bytes)?;
            Ok(Ask::Send { pipe, bytes })
        }
        Ask::SendCaps { pipe, caps } => copy_send_caps(pipe, caps),
        Ask::Receive { pipe } => Ok(Ask::Receive { pipe: pipe.copy()? }),
        Ask::ReceiveCaps { pipe } => Ok(Ask::ReceiveCaps { pipe: pipe.copy()? }),
        _ => unreachable!(),
    }
}

fn copy_of_thread(ask: &Ask) -> Result<Ask, NoMemory>
    requires { family_of ask.now ≡ Family.Thread }
    ensures { IfOk result (λ a. a ≡ ask.now) }
{
    match ask {
        Ask::Enter {
            label,
            caps,
            region,
            args,
        } => copy_enter(label, caps, *region, args),
        Ask::Spawn { unit, args, caps } => copy_spawn(*unit, args, caps),
        Ask::Say { bytes } => Ok(Ask::Say {
            bytes: bytes.copy()?,
        }),
        Ask::End(outcome) => Ok(Ask::End(outcome.copy()?)),
        _ => unreachable!(),
    }
}

fn copy_write(r: &Value, at: u64, v: &Value) -> Result<Ask, NoMemory>
    ensures { IfOk result (λ a. a ≡ Ask.Write r.now at v.now) }
{
    let (r, v) = both(r.copy(), v.copy())?;
    Ok(Ask::Write { r, at, v })
}

fn copy_copy(r: &Value, own: &Label) -> Result<Ask, NoMemory>
    ensures { IfOk result (λ a. a ≡ Ask.CopyTo r.now own.now) }
{
    let (r, own) = both(r.copy(), own.copy())?;
    Ok(Ask::CopyTo { r, own })
}

fn copy_enter(label: &Label, caps: &Caps, region: u32, args: &Values) -> Result<Ask, NoMemory>
    ensures { IfOk result (λ a. a ≡ Ask.Enter label.now caps.now region args.now) }
{
    let ((label, caps), args) = both(both(label.copy(), caps.copy()), args.copy())?;
    Ok(Ask::Enter {
        label,
        caps,
        region,
        args,
    })
}

fn copy_spawn(unit: u32, args: &Values, caps: &Caps) -> Result<Ask, NoMemory>
    ensures { IfOk result (λ a. a ≡ Ask.Spawn unit args.now caps.now) }
{
    let (args, caps) = both(args.copy(), caps.copy())?;
    Ok(Ask::Spawn { unit, args, caps })
}

fn copy_send_caps(pipe: &Name, caps: &Caps) -> Result<Ask, NoMemory>
    ensures { IfOk result (λ a. a ≡ Ask.SendCaps pipe.now caps.now) }
{
    let (pipe, caps) = both(pipe.copy(), caps.copy())?;
    Ok(Ask::SendCaps { pipe, caps })
}

fn copy_entry(name: &Name, bytes: &ByteText) -> Result<(Name, ByteText), NoMemory>
    ensures { IfOk result (λ p. (p.0 ≡ name.now) × (p.1 ≡ bytes.now)) }
{
    both(name.copy(), bytes.copy())
}

fn copy_new_entry(
    dir: &Name,
    entry: &ByteText,
    own: &Label,
) -> Result<(Name, ByteText, Label), NoMemory>
    ensures { IfOk result (λ p. (p.0 ≡ dir.now) × (p.1 ≡ entry.now) × (p.2 ≡ own.now)) }
{
    let ((dir, entry), own) = both(copy_entry(dir, entry), own.copy())?;
    Ok((dir, entry, own))
}
