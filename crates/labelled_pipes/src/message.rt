//! Messages, the contents of pipes.

ghost use Rattle.std.specs.Prelude.{◌≡◌, ◌↔◌, IsTrue, IfOk};
ghost use Rattle.labelled_pipes.specs.Messages.{kind_of};

use capabilities::Caps;
use lam_value::{ByteText, NoMemory};

/// What is sent through a pipe.
#[derive(Drop)]
pub enum Message {
    /// A string of bytes.
    Bytes(ByteText),
    /// Capabilities that the sender holds and the receiver gets.
    Caps(Caps),
}

/// What a message is.
#[derive(Clone, Copy, Debug, PartialEq, Eq)]
pub enum MessageKind {
    Bytes,
    Caps,
}

impl Message {
    /// Whether it is bytes or capabilities.
    pub fn kind(&self) -> MessageKind
        ensures { result ≡ kind_of self.now }
    {
        match self {
            Message::Bytes(_) => MessageKind::Bytes,
            Message::Caps(_) => MessageKind::Caps,
        }
    }

    /// Whether two messages are equal.
    pub fn same(&self, other: &Message) -> bool
        ensures { IsTrue result ↔ (self.now ≡ other.now) }
    {
        match self {
            Message::Bytes(x) => matches!(other, Message::Bytes(y) if x.same(y)),
            Message::Caps(x) => matches!(other, Message::Caps(y) if x.same(y)),
        }
    }

    /// An equal message.
    ///
    /// # Errors
    ///
    /// `NoMemory` where memory is refused.
    pub fn copy(&self) -> Result<Message, NoMemory>
        ensures { IfOk result (λ m. m ≡ self.now) }
    {
        match self {
            Message::Bytes(bytes) => {
                let bytes = bytes.copy()?;
                Ok(Message::Bytes(bytes))
            }
            Message::Caps(caps) => {
                let caps = caps.copy()?;
                Ok(Message::Caps(caps))
            }
        }
    }
}
