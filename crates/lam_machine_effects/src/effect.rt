//! Effects, and their construction from what an ask names.

ghost use Rattle.std.specs.Prelude.{◌≡◌, IfOk, reverse};
ghost use Rattle.lam_value.specs.Homes.{home_of};
ghost use Rattle.lam_value.specs.Shapes.{slots_of};
ghost use Rattle.lam_machine_terms.specs.Things.{sort_of};
ghost use Rattle.lam_machine_terms.specs.Message.TheVariants as Message;
ghost use Rattle.lam_machine_terms.specs.Serves as told;
ghost use Rattle.lam_machine_effects.specs.Meaning.{meaning};

use lam_machine_terms::{Caps, Message, MessageKind};
use lam_value::{ByteText, Label, Name, Shape, Value, Values};
use std::alloc::Global;
use want_of_memory::NoMemory;

/// What happens to one store. What is done to a name that does not live there changes nothing.
///
/// A home is a pair of the maker's label and an own label.
#[derive(Drop)]
pub enum Effect {
    Nothing,
    /// The next tag is made.
    TakesTag,
    /// A slot holds another value.
    SetsSlot {
        thing: Name,
        at: u64,
        v: Value,
    },
    /// A new thing of a home.
    AddsThing {
        maker: Label,
        own: Label,
        shape: Shape,
    },
    /// A new thing of a home, that is what another thing is and holds what that holds.
    AddsCopy {
        thing: Name,
        maker: Label,
        own: Label,
    },
    /// A monitor is taken once more.
    TakesMonitor {
        thing: Name,
    },
    /// A monitor is given back once.
    GivesBack {
        thing: Name,
    },
    /// Each of these monitors is given back, once for each time that it stands here.
    Drops {
        things: Vec<Name>,
    },
    /// A new file of a home, as a directory's last entry.
    AddsFile {
        dir: Name,
        entry: ByteText,
        maker: Label,
        own: Label,
    },
    /// A new directory of a home, as a directory's last entry.
    AddsDir {
        dir: Name,
        entry: ByteText,
        maker: Label,
        own: Label,
    },
    /// An entry is gone.
    Removes {
        dir: Name,
        entry: ByteText,
    },
    /// Bytes at a file's end, as many as fit.
    Appends {
        file: Name,
        bytes: ByteText,
    },
    /// The first bytes of a file stay.
    Cuts {
        file: Name,
        len: u64,
    },
    /// A new pipe of a home.
    AddsPipe {
        maker: Label,
        own: Label,
    },
    /// A message at a pipe's end, or dropped where the pipe is full.
    Sends {
        pipe: Name,
        message: Message,
    },
    /// A pipe's front is gone where it is of this kind.
    Receives {
        pipe: Name,
        kind: MessageKind,
    },
    /// A new thread.
    AddsThread {
        unit: u32,
        args: Values,
        caps: Caps,
    },
}

impl Effect {
    /// A slot holds a copy of a value.
    ///
    /// # Errors
    ///
    /// `NoMemory` where memory is refused, as of each of these.
    pub fn sets_slot(thing: &Name, at: u64, v: &Value) -> Result<Effect, NoMemory>
        ensures { IfOk result (λ e. meaning e ≡ told.sets_slot thing.now at v.now) }
    {
        let thing = thing.copy()?;
        let v = v.copy()?;
        Ok(Effect::SetsSlot { thing, at, v })
    }

    /// A new thing of a shape.
    pub fn adds_thing(maker: &Label, own: &Label, shape: &Shape) -> Result<Effect, NoMemory>
        ensures { IfOk result (λ e. meaning e ≡ told.adds_thing (home_of maker.now own.now) (sort_of shape.now) (slots_of shape.now)) }
    {
        let maker = maker.copy()?;
        let own = own.copy()?;
        let shape = shape.copy()?;
        Ok(Effect::AddsThing { maker, own, shape })
    }

    /// A copy of a thing.
    pub fn adds_copy(thing: &Name, maker: &Label, own: &Label) -> Result<Effect, NoMemory>
        ensures { IfOk result (λ e. meaning e ≡ told.adds_copy thing.now (home_of maker.now own.now)) }
    {
        let thing = thing.copy()?;
        let maker = maker.copy()?;
        let own = own.copy()?;
        Ok(Effect::AddsCopy { thing, maker, own })
    }

    /// A monitor is taken once more.
    pub fn takes_monitor(thing: &Name) -> Result<Effect, NoMemory>
        ensures { IfOk result (λ e. meaning e ≡ told.takes_monitor thing.now) }
    {
        let thing = thing.copy()?;
        Ok(Effect::TakesMonitor { thing })
    }

    /// A monitor is given back once.
    pub fn gives_back(thing: &Name) -> Result<Effect, NoMemory>
        ensures { IfOk result (λ e. meaning e ≡ told.gives_back thing.now) }
    {
        let thing = thing.copy()?;
        Ok(Effect::GivesBack { thing })
    }

    /// Each of these monitors is given back, the last one first.
    pub fn drops(alloc: Global, things: &[Name]) -> Result<Effect, NoMemory>
        ensures { IfOk result (λ e. meaning e ≡ told.drops (reverse things.now)) }
    {
        let things = reversed(alloc, things)?;
        Ok(Effect::Drops { things })
    }

    /// A new file of a home, as the last entry of a directory.
    pub fn adds_file(
        dir: &Name,
        entry: &ByteText,
        maker: &Label,
        own: &Label,
    ) -> Result<Effect, NoMemory>
        ensures { IfOk result (λ e. meaning e ≡ told.adds_file dir.now entry.now (home_of maker.now own.now)) }
    {
        let dir = dir.copy()?;
        let entry = entry.copy()?;
        let maker = maker.copy()?;
        let own = own.copy()?;
        Ok(Effect::AddsFile {
            dir,
            entry,
            maker,
            own,
        })
    }

    /// A new directory of a home, as the last entry of a directory.
    pub fn adds_dir(
        dir: &Name,
        entry: &ByteText,
        maker: &Label,
        own: &Label,
    ) -> Result<Effect, NoMemory>
        ensures { IfOk result (λ e. meaning e ≡ told.adds_dir dir.now entry.now (home_of maker.now own.now)) }
    {
        let dir = dir.copy()?;
        let entry = entry.copy()?;
        let maker = maker.copy()?;
        let own = own.copy()?;
        Ok(Effect::AddsDir {
            dir,
            entry,
            maker,
            own,
        })
    }

    /// An entry is gone.
    pub fn removes(dir: &Name, entry: &ByteText) -> Result<Effect, NoMemory>
        ensures { IfOk result (λ e. meaning e ≡ told.removes dir.now entry.now) }
    {
        let dir = dir.copy()?;
        let entry = entry.copy()?;
        Ok(Effect::Removes { dir, entry })
    }

    /// Bytes at a file's end.
    pub fn appends(file: &Name, bytes: &ByteText) -> Result<Effect, NoMemory>
        ensures { IfOk result (λ e. meaning e ≡ told.appends file.now bytes.now) }
    {
        let file = file.copy()?;
        let bytes = bytes.copy()?;
        Ok(Effect::Appends { file, bytes })
    }

    /// The first bytes of a file stay.
    pub fn cuts(file: &Name, len: u64) -> Result<Effect, NoMemory>
        ensures { IfOk result (λ e. meaning e ≡ told.cuts file.now len) }
    {
        let file = file.copy()?;
        Ok(Effect::Cuts { file, len })
    }

    /// A new pipe of a home.
    pub fn adds_pipe(maker: &Label, own: &Label) -> Result<Effect, NoMemory>
        ensures { IfOk result (λ e. meaning e ≡ told.adds_pipe (home_of maker.now own.now)) }
    {
        let maker = maker.copy()?;
        let own = own.copy()?;
        Ok(Effect::AddsPipe { maker, own })
    }

    /// Bytes at a pipe's end.
    pub fn sends_bytes(pipe: &Name, bytes: &ByteText) -> Result<Effect, NoMemory>
        ensures { IfOk result (λ e. meaning e ≡ told.sends pipe.now (Message.Bytes bytes.now)) }
    {
        let pipe = pipe.copy()?;
        let message = Message::Bytes(bytes.copy()?);
        Ok(Effect::Sends { pipe, message })
    }

    /// Capabilities at a pipe's end.
    pub fn sends_caps(pipe: &Name, caps: &Caps) -> Result<Effect, NoMemory>
        ensures { IfOk result (λ e. meaning e ≡ told.sends pipe.now (Message.Caps caps.now)) }
    {
        let pipe = pipe.copy()?;
        let message = Message::Caps(caps.copy()?);
        Ok(Effect::Sends { pipe, message })
    }

    /// A pipe's front is gone where it is of this kind.
    pub fn receives(pipe: &Name, kind: MessageKind) -> Result<Effect, NoMemory>
        ensures { IfOk result (λ e. meaning e ≡ told.receives pipe.now kind) }
    {
        let pipe = pipe.copy()?;
        Ok(Effect::Receives { pipe, kind })
    }

    /// A new thread.
    pub fn adds_thread(unit: u32, args: &Values, caps: &Caps) -> Result<Effect, NoMemory>
        ensures { IfOk result (λ e. meaning e ≡ told.adds_thread unit args.now caps.now) }
    {
        let args = args.copy()?;
        let caps = caps.copy()?;
        Ok(Effect::AddsThread { unit, args, caps })
    }
}

/// Equal names, the last one first.
fn reversed(alloc: Global, names: &[Name]) -> Result<Vec<Name>, NoMemory>
    ensures { IfOk result (λ ns. ns.items ≡ reverse names.now) }
{
    let mut copies = Vec::with_capacity(alloc, names.len())?;
    for name in names {
        copies.push(name.copy()?)?;
    }
    copies.reverse();
    Ok(copies)
}
