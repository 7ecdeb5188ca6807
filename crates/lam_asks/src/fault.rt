//! Faults, and the numbers by which a catch block knows them.

ghost use Rattle.std.specs.Prelude.{◌≡◌};
ghost use Rattle.lam_asks.specs.Faults.{fault_number};

/// Why a context of a thread stops what it does. A catch block gets its number.
#[derive(Clone, Copy, Debug, PartialEq, Eq)]
pub enum Fault {
    /// A rule of the reference monitor forbids.
    Denied,
    /// Null, where a thing is needed.
    Null,
    /// A place that the thing does not have.
    Index,
    /// A division by zero.
    Zero,
    /// A number past 64 bits.
    Overflow,
    /// Too many regions, calls or takings of a monitor inside each other.
    Deep,
    /// Bytes, a message or an array past its limit.
    Long,
    /// Bytes that are the text of no number.
    Form,
    /// A home has made as many things as it may.
    HomeFull,
    /// An entry of that name is there.
    Exists,
    /// No entry of that name and kind is there.
    NoEntry,
    /// A directory has as many entries as it may.
    DirFull,
    /// A name that no entry may have.
    BadName,
    /// The joined thread ended with a fault.
    Child,
    /// Thrown by the program, with its number.
    Thrown(i64),
}

impl Fault {
    /// The number that a catch block gets: from -1 to -14, or the one that was thrown.
    pub fn number(&self) -> i64
        ensures { result ≡ fault_number self.now }
    {
        match self {
            Fault::Denied => -1,
            Fault::Null => -2,
            Fault::Index => -3,
            Fault::Zero => -4,
            Fault::Overflow => -5,
            Fault::Deep => -6,
            Fault::Long => -7,
            Fault::Form => -8,
            Fault::HomeFull => -9,
            Fault::Exists => -10,
            Fault::NoEntry => -11,
            Fault::DirFull => -12,
            Fault::BadName => -13,
            Fault::Child => -14,
            Fault::Thrown(n) => *n,
        }
    }
}
