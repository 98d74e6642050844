//! The code of a message, and the message with a code.
ghost use Rattle.std.specs.Prelude.{◌≡◌, ◌%◌};
ghost use Rattle.wire.specs.Messages.{number_of_kind, kind_with, code_of, message_with};

use super::message::{Message, MessageKind};

/// Every code is below this.
pub const CODES: u16 = 32768;

/// EST is written as 0, AUX as 1.
impl From<MessageKind> for u16 {
    ghost from_gives = { λ k r. r ≡ number_of_kind k };

    fn from(kind: MessageKind) -> u16 {
        match kind {
            MessageKind::Est => 0,
            MessageKind::Aux => 1,
        }
    }
}

/// The kind with a number: EST with 0, AUX with any other.
// By name, since `from` would not say that any other number is AUX.
fn kind_with(number: u16) -> MessageKind
    ensures { result ≡ kind_with number }
{
    if number == 0 {
        MessageKind::Est
    } else {
        MessageKind::Aux
    }
}

impl Message {
    /// The number that the message is written as.
    // By name, since the rules call this number the code.
    pub fn code(self) -> u16
        ensures { result ≡ code_of self }
    {
        u16::from(self.sender) * 2048
            + u16::from(self.receiver) * 128
            + u16::from(self.kind) * 64
            + (u16::from(self.round) - 1) * 4
            + u16::from(self.content)
    }

    /// The message with a code. A number from 32,768 on counts from 0 again.
    // By name, since `from` would not say that a number too large counts from 0 again.
    pub fn with_code(code: u16) -> Message
        ensures { result ≡ message_with code }
    {
        let code = code % CODES;
        // each number is below 32, so `try_from` would have an error arm that never comes
        Message {
            sender: (code / 2048) as u8,
            receiver: (code / 128 % 16) as u8,
            kind: kind_with(code / 64 % 2),
            round: (code / 4 % 16 + 1) as u8,
            content: (code % 4) as u8,
        }
    }
}
