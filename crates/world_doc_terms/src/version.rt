//! The versions of a document.

/// How a document says its tags, files and directories. All else is the same in each version.
#[derive(Clone, Copy, Debug)]
pub enum Version {
    /// Version 1: a tag is said by its name, and is of kind read.
    One,
    /// Version 2: a tag is an object with its name and its kind.
    Two,
    /// Version 3: tags as in version 2. Files and directories say their own names, and each home how many it has made.
    Three,
}
