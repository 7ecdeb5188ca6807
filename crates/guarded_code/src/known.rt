//! Knowledge about one operand or local.

/// What kind a value is known to be of.
#[derive(Clone, Copy, Debug, PartialEq, Eq)]
pub enum ValueKind {
    Number,
    Truth,
    /// Null, and every value but numbers and truth values.
    Other,
    /// Any of these.
    Unknown,
}

/// What a reference is tested for by a barrier, and used for by an access.
#[derive(Clone, Copy, Debug, PartialEq, Eq)]
pub enum Access {
    Reading,
    Writing,
}

/// What is known of a value: its kind, and whether it is a reference that was tested for reading and for writing.
#[derive(Clone, Copy, Debug, PartialEq, Eq)]
pub struct Known {
    pub kind: ValueKind,
    pub read: bool,
    pub write: bool,
}

/// What is known of an operand, and the local that it is a copy of.
#[derive(Clone, Copy, Debug, PartialEq, Eq)]
pub struct Operand {
    pub known: Known,
    pub copies: Option<u32>,
}
