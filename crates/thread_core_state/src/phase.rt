//! The phases of a context: first context, region body or catch block.

/// What a context of a thread is.
#[derive(Clone, Copy, Debug, PartialEq, Eq)]
pub enum Phase {
    /// The thread's first one.
    Bottom,
    /// A region's body, with the address at which its catch block begins.
    Body { catch_at: u32 },
    /// A region's catch block.
    Catch,
}
