//! Breaks, the reasons why a document is no world.

/// What is broken in the document of a world: the first break, in the order in which its members are looked at.
#[derive(Debug, Drop)]
pub enum WorldBreak {
    /// It is no JSON text.
    NotJson,
    /// The member of this name is not there.
    NoMember(String),
    /// The member of this name is of another form than it must be.
    BadMember(String),
    /// No tag has this name.
    NoTag(String),
    /// The item of the tree at this index has no place, or no room there.
    BadPath(u64),
    /// The item of the tree at this index stands where another does.
    PathTwice(u64),
}
