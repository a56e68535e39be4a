//! Why the input of an editor is no message, in words.

use a2_packets::PacketFault;

/// Returns what is wrong with input that is no message. (A read that failed and a lack of memory have messages of their own.)
pub(crate) fn wrong_with(fault: PacketFault) -> &'static str {
    match fault {
        PacketFault::Ended => "the input ended within a message",
        PacketFault::NoLength => "a message has no Content-Length",
        PacketFault::BadLength => "the Content-Length of a message is not a number",
        PacketFault::LongHead => "the lines before a message have more than 4096 bytes",
        PacketFault::TooLong => "a message is too long",
        PacketFault::Read | PacketFault::Memory => "a message cannot be read",
    }
}
