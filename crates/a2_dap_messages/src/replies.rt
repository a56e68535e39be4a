//! The responses and events for an editor.

use crate::request::Request;
use serde_json::{Value, json};
use std::alloc::{AllocError, Global};

/// The messages for an editor that are not sent yet, and the number of the last one.
#[derive(Drop)]
pub struct Replies {
    alloc: Global,
    last: u64,
    bodies: Vec<Vec<u8>>,
}

impl Replies {
    /// Returns an empty list.
    pub fn new(alloc: Global) -> Replies {
        Replies {
            alloc,
            last: 0,
            bodies: Vec::new(alloc),
        }
    }

    /// Returns the messages, the first to send first.
    pub fn bodies(&self) -> &[Vec<u8>] {
        self.bodies.as_slice()
    }

    /// Removes the messages, after they were sent.
    pub fn clear(&mut self) {
        self.bodies.clear();
    }

    // Appends a message.
    fn append(&mut self, message: Value) -> Result<(), AllocError> {
        let body = message.to_vec(self.alloc)?;
        self.bodies.push(body)?;
        Ok(())
    }

    // Returns the number of the next message.
    fn next(&mut self) -> u64 {
        self.last = self.last.saturating_add(1);
        self.last
    }

    /// Appends the response to a request that was done.
    pub fn respond(&mut self, request: &Request, body: Value) -> Result<(), AllocError> {
        let seq = self.next();
        let message = json!(in self.alloc; {
            "seq": seq,
            "type": "response",
            "request_seq": request.seq,
            "success": true,
            "command": request.name(),
            "body": body
        })?;
        self.append(message)
    }

    /// Appends the response to a request that was done, without a body.
    pub fn accept(&mut self, request: &Request) -> Result<(), AllocError> {
        let body = json!(in self.alloc; {})?;
        self.respond(request, body)
    }

    /// Appends the response to a request that was not done, and why.
    pub fn refuse(&mut self, request: &Request, message: &str) -> Result<(), AllocError> {
        let seq = self.next();
        let message = json!(in self.alloc; {
            "seq": seq,
            "type": "response",
            "request_seq": request.seq,
            "success": false,
            "command": request.name(),
            "message": message
        })?;
        self.append(message)
    }

    /// Appends an event.
    pub fn notify(&mut self, name: &str, body: Value) -> Result<(), AllocError> {
        let seq = self.next();
        let message = json!(in self.alloc; {
            "seq": seq,
            "type": "event",
            "event": name,
            "body": body
        })?;
        self.append(message)
    }

    /// Appends an event with text for the editor's console, unless the text is empty.
    pub fn print(&mut self, category: &str, text: &str) -> Result<(), AllocError> {
        if text.is_empty() {
            return Ok(());
        }
        let body = json!(in self.alloc; {"category": category, "output": text})?;
        self.notify("output", body)
    }
}
