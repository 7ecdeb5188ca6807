//! The answer, and the parts of a world that it may name.

/// A part of what an observer sees of a world. They are looked at in this order.
#[derive(Clone, Copy, Debug, PartialEq, Eq)]
pub enum Part {
    /// The names of the first tags, and where the public is seen the number of the next tag.
    Tags,
    /// The public capabilities.
    Public,
    /// The slots of objects and arrays, and who holds their monitors.
    Heap,
    /// The entries of directories and the bytes of files.
    Files,
    /// The messages that wait in pipes.
    Pipes,
    /// How many things of each kind each home has made.
    Counters,
    /// The contexts of threads, and where the public is seen how many threads there are and how they ended.
    Threads,
}

/// Whether an observer may expect to see the same of two runs, and how far.
#[derive(Clone, Copy, Debug, PartialEq, Eq)]
pub enum PairAnswer {
    /// The starts differ below the observer's label, in this part first.
    WorldsDiffer { what: Part },
    /// The starts agree. The agendas are equal up to this place, and there one has a turn and the other has something else.
    TurnsDiffer { n: u64 },
    /// The starts agree. The agendas are equal up to this place, and there they have two releases that differ.
    ReleaseDiffers { n: u64 },
    /// The starts agree, and so do the agendas as far as both go: so many entries.
    Agree { n: u64 },
}
