//! Why no message can be read.

ghost use Rattle.std.specs.Prelude.{◌≡◌};

use a2_stream::ReadFault;
use std::alloc::AllocError;
use thiserror::Error;

/// Why no message can be read.
#[derive(Clone, Copy, Debug, PartialEq, Eq, Error)]
pub enum PacketFault {
    /// A read failed.
    #[error("a read failed")]
    Read,
    /// The input ended within a message.
    #[error("the input ended within a message")]
    Ended,
    /// The lines before the message have no `Content-Length`.
    #[error("a message has no `Content-Length`")]
    NoLength,
    /// The value of `Content-Length` is not a number.
    #[error("the `Content-Length` of a message is not a number")]
    BadLength,
    /// The lines before the message have more bytes than `read_packet` takes.
    #[error("the header of a message has more than 4096 bytes")]
    LongHead,
    /// The message has more than `LARGEST` bytes. They were read and dropped, so the next message can be read.
    #[error("a message has more than 4194304 bytes")]
    TooLong,
    /// There was not enough memory.
    #[error("out of memory")]
    Memory,
}

impl From<AllocError> for PacketFault {
    ghost use Rattle.a2_packets.specs.declared.fault.PacketFault.TheVariants.{Memory};

    ghost from_gives = { λ _ fault. fault ≡ Memory };

    fn from(_error: AllocError) -> PacketFault {
        PacketFault::Memory
    }
}

impl From<ReadFault> for PacketFault {
    ghost use Rattle.a2_packets.specs.declared.fault.PacketFault.TheVariants.{Read};

    ghost from_gives = { λ _ fault. fault ≡ Read };

    fn from(_fault: ReadFault) -> PacketFault {
        PacketFault::Read
    }
}
