//! The messages that the server sends.

use crate::json::{number, raw, string};
use a2_packets::put_packet;
use a2_stream::ToWrite;
use std::alloc::AllocError;

/// What a request's answer is if it is not a result: the protocol's error, with its number and a text.
#[derive(Clone, Copy)]
pub(crate) enum Wrong {
    Parse,
    Invalid,
    Unknown,
    Params,
    NotOpen,
    Outside,
    Early,
    Late,
    NotAName,
    Taken,
    NoName,
    HasErrors,
    TooLong,
}

impl Wrong {
    // Returns the number of the error, without its sign.
    fn code(self) -> usize {
        match self {
            Wrong::Parse => 32700,
            Wrong::Invalid | Wrong::Late | Wrong::TooLong => 32600,
            Wrong::Unknown => 32601,
            Wrong::Params | Wrong::NotOpen | Wrong::Outside => 32602,
            Wrong::Early => 32002,
            Wrong::NotAName | Wrong::Taken | Wrong::NoName | Wrong::HasErrors => 32803,
        }
    }

    // Returns what is wrong and what to do.
    fn text(self) -> &'static [u8] {
        match self {
            Wrong::Parse => b"the message is not JSON",
            Wrong::Invalid =>
                b"the message is not a request: it needs a method, and an id that is a number or a text",
            Wrong::Unknown => b"this server does not know the method",
            Wrong::Params =>
                b"the parameters lack a member, or one has another type than the method takes",
            Wrong::NotOpen => b"the document is not open; send textDocument/didOpen first",
            Wrong::Outside => b"the position is not in the text",
            Wrong::Early => b"the server is not initialized; send initialize first",
            Wrong::Late => b"the server was shut down; send exit",
            Wrong::NotAName =>
                b"a name begins with a letter or _, then has letters, digits and _, and at most 32 characters; A is the accumulator",
            Wrong::Taken => b"the source already has this name; choose another",
            Wrong::NoName => b"no name is at this position",
            Wrong::HasErrors => b"the source has errors; correct them, then lay it out",
            Wrong::TooLong =>
                b"the message has more than 4194304 bytes; a source has at most 65536",
        }
    }
}

/// Appends the message to the framed messages.
pub(crate) fn frame(replies: &mut Vec<u8>, body: &[u8]) -> Result<(), AllocError> {
    match put_packet(body, &mut ToWrite::new(replies)) {
        Ok(()) => Ok(()),
        Err(_) => Err(AllocError),
    }
}

/// Appends the answer to a request: its id and its result, both as JSON.
pub(crate) fn put_result(body: &mut Vec<u8>, id: &[u8], value: &[u8]) -> Result<(), AllocError> {
    raw(body, b"{\"jsonrpc\":\"2.0\",\"id\":")?;
    raw(body, id)?;
    raw(body, b",\"result\":")?;
    raw(body, value)?;
    raw(body, b"}")
}

/// Appends the error of a request. `id` is JSON.
pub(crate) fn put_wrong(body: &mut Vec<u8>, id: &[u8], wrong: Wrong) -> Result<(), AllocError> {
    raw(body, b"{\"jsonrpc\":\"2.0\",\"id\":")?;
    raw(body, id)?;
    raw(body, b",\"error\":{\"code\":-")?;
    number(body, wrong.code())?;
    raw(body, b",\"message\":")?;
    string(body, wrong.text())?;
    raw(body, b"}}")
}

/// Appends a message that the client shows to its user: that a document is not what the client has.
pub(crate) fn put_shown(body: &mut Vec<u8>, wrong: Wrong) -> Result<(), AllocError> {
    raw(
        body,
        b"{\"jsonrpc\":\"2.0\",\"method\":\"window/showMessage\",\"params\":{\"type\":1,\"message\":",
    )?;
    string(body, wrong.text())?;
    raw(body, b"}}")
}
