//! The server: its state, and what it answers.

ghost use Rattle.std.specs.Prelude.{◌≡◌, ◌≤◌, true};
ghost use Rattle.a2_lsp.specs.declared.server.Stage.TheVariants.{Over};
ghost use Rattle.a2_lsp.specs.Ranks.{rank};

use crate::answers::{put_answer, put_workspace_symbols};
use crate::checks::put_published;
use crate::documents::{Document, Documents};
use crate::json::raw;
use crate::page::{Page, number_at};
use crate::replies::{Wrong, frame, put_result, put_shown, put_wrong};
use a2_text::cut;
use serde_json::Value;
use std::alloc::{AllocError, Global};

/// How far a session has come.
#[derive(Clone, Copy, Debug, PartialEq, Eq)]
pub enum Stage {
    /// Nothing was initialized.
    New,
    /// The session is open.
    Open,
    /// The client asked for the end.
    Down,
    /// The client ended the session, after it asked for the end or without.
    Over(bool),
}

/// A server of the Language Server Protocol: its open documents, and how far the session has come.
#[derive(Drop)]
pub struct Server {
    alloc: Global,
    stage: Stage,
    documents: Documents,
}

// What the server can do, as it answers `initialize`.
const ABILITIES: &[u8] =
    b"{\"capabilities\":{\"positionEncoding\":\"utf-16\",\"textDocumentSync\":{\"openClose\":true,\"change\":2},\"codeActionProvider\":{\"codeActionKinds\":[\"quickfix\"]},\"hoverProvider\":true,\"definitionProvider\":true,\"referencesProvider\":true,\"documentHighlightProvider\":true,\"renameProvider\":{\"prepareProvider\":true},\"documentSymbolProvider\":true,\"workspaceSymbolProvider\":true,\"completionProvider\":{},\"signatureHelpProvider\":{\"triggerCharacters\":[\" \"]},\"foldingRangeProvider\":true,\"inlayHintProvider\":true,\"semanticTokensProvider\":{\"legend\":{\"tokenTypes\":[\"function\",\"keyword\",\"variable\",\"number\",\"string\",\"comment\",\"parameter\",\"macro\"],\"tokenModifiers\":[]},\"full\":true},\"documentFormattingProvider\":true,\"documentRangeFormattingProvider\":true},\"serverInfo\":{\"name\":\"a2lab\"}}";

// The JSON text of no id.
const NO_ID: &[u8] = b"null";

// Returns the JSON text of an id, or `None` if it is none.
fn id_text(alloc: Global, id: &Value) -> Result<Option<Vec<u8>>, AllocError> {
    if id.is_string() || id.is_number() {
        Ok(Some(id.to_vec(alloc)?))
    } else {
        Ok(None)
    }
}

// Returns the name of the document that parameters are about.
fn uri_in(params: &Value) -> Option<&str> {
    params.pointer("/textDocument/uri").and_then(Value::as_str)
}

// Returns the message as a value, or what is wrong with it.
fn parsed(alloc: Global, message: &[u8]) -> Result<Option<Value>, AllocError> {
    match Value::from_slice(alloc, message) {
        Ok(value) => Ok(Some(value)),
        Err(fault) => if fault.is_memory() {
            Err(AllocError)
        } else {
            Ok(None)
        },
    }
}

// Returns the stage after `initialize`.
fn opened(stage: Stage) -> Stage
    ensures order { rank stage ≤ rank result }
    ensures ended { result ≡ Over true → 2 ≤ rank stage }
{
    match stage {
        Stage::New => Stage::Open,
        Stage::Open | Stage::Down | Stage::Over(_) => stage,
    }
}

// Returns the stage after `shutdown`.
fn downed(stage: Stage) -> Stage
    ensures order { rank stage ≤ rank result }
    ensures ended { result ≡ Over true → 2 ≤ rank stage }
{
    match stage {
        Stage::New | Stage::Open | Stage::Down => Stage::Down,
        Stage::Over(_) => stage,
    }
}

// Returns the stage after `exit`.
fn ended(stage: Stage) -> Stage
    ensures order { rank stage ≤ rank result }
    ensures ended { result ≡ Over true → 2 ≤ rank stage }
{
    match stage {
        Stage::Down => Stage::Over(true),
        Stage::New | Stage::Open | Stage::Over(_) => Stage::Over(false),
    }
}

impl Server {
    ghost use Rattle.a2_lsp.specs.declared.server.Stage.TheVariants.{New};
    ghost use Rattle.a2_lsp.specs.Stages.{stage_of};

    /// Returns a server with no documents that waits for `initialize`.
    pub fn new(alloc: Global) -> Server
        ensures { stage_of result ≡ New }
    {
        Server {
            alloc,
            stage: Stage::New,
            documents: Documents::new(alloc),
        }
    }

    /// Returns how far the session has come.
    pub fn stage(&self) -> Stage
        ensures { result ≡ stage_of self.now }
    {
        self.stage
    }

    // Appends the error of a request.
    fn refuse(&self, id: &[u8], wrong: Wrong, replies: &mut Vec<u8>) -> Result<(), AllocError> {
        let mut body = Vec::new(self.alloc);
        put_wrong(&mut body, id, wrong)?;
        frame(replies, body.as_slice())
    }

    // Appends a message that the client shows.
    fn complain(&self, wrong: Wrong, replies: &mut Vec<u8>) -> Result<(), AllocError> {
        let mut body = Vec::new(self.alloc);
        put_shown(&mut body, wrong)?;
        frame(replies, body.as_slice())
    }

    // Appends the diagnostics of a document.
    fn publish(&self, document: &Document, replies: &mut Vec<u8>) -> Result<(), AllocError> {
        let lines = cut(self.alloc, document.text.as_slice())?;
        let page = Page {
            alloc: self.alloc,
            uri: document.uri.as_str(),
            text: document.text.as_slice(),
            lines: lines.as_slice(),
            params: &Value::Null,
        };
        let mut body = Vec::new(self.alloc);
        put_published(&mut body, &page, document.version)?;
        frame(replies, body.as_slice())
    }

    // Appends the diagnostics of the document with this name.
    fn publish_named(&self, uri: &str, replies: &mut Vec<u8>) -> Result<(), AllocError> {
        match self.documents.get(uri) {
            Some(document) => self.publish(document, replies),
            None => Ok(()),
        }
    }

    // Opens a document.
    fn open(&mut self, params: &Value, replies: &mut Vec<u8>) -> Result<(), AllocError>
        ensures { self.new.stage ≡ self.old.stage }
    {
        let text = params.pointer("/textDocument/text").and_then(Value::as_str);
        let (Some(uri), Some(text)) = (uri_in(params), text) else {
            return self.complain(Wrong::Params, replies);
        };
        let version = number_at(params, "/textDocument/version");
        self.documents.open(self.alloc, uri, version, text)?;
        self.publish_named(uri, replies)
    }

    // Changes a document.
    fn change(&mut self, params: &Value, replies: &mut Vec<u8>) -> Result<(), AllocError>
        ensures { self.new.stage ≡ self.old.stage }
    {
        let changes = params.pointer("/contentChanges").and_then(Value::as_array);
        let (Some(uri), Some(changes)) = (uri_in(params), changes) else {
            return self.complain(Wrong::Params, replies);
        };
        if self.documents.get(uri).is_none() {
            return self.complain(Wrong::NotOpen, replies);
        }
        let version = number_at(params, "/textDocument/version");
        let is_changed = self
            .documents
            .change(self.alloc, uri, version, changes.as_slice())?;
        if !is_changed {
            self.complain(Wrong::Params, replies)?;
        }
        self.publish_named(uri, replies)
    }

    // Closes a document, and takes its diagnostics away.
    fn close(&mut self, params: &Value, replies: &mut Vec<u8>) -> Result<(), AllocError>
        ensures { self.new.stage ≡ self.old.stage }
    {
        let Some(uri) = uri_in(params) else {
            return self.complain(Wrong::Params, replies);
        };
        if !self.documents.close(uri) {
            return self.complain(Wrong::NotOpen, replies);
        }
        let nothing = Document {
            uri: String::from_str(self.alloc, uri)?,
            version: None,
            text: Vec::new(self.alloc),
        };
        let mut body = Vec::new(self.alloc);
        crate::checks::put_nothing(&mut body, nothing.uri.as_str())?;
        frame(replies, body.as_slice())
    }

    // Does what a notification says. One that is not known, or that comes too early or too late, is ignored.
    fn notified(
        &mut self,
        method: &str,
        params: &Value,
        replies: &mut Vec<u8>,
    ) -> Result<(), AllocError>
        ensures order { rank self.old.stage ≤ rank self.new.stage }
        ensures ended { self.new.stage ≡ Over true → 2 ≤ rank self.old.stage }
    {
        if method == "exit" {
            self.stage = ended(self.stage);
            return Ok(());
        }
        if self.stage != Stage::Open {
            return Ok(());
        }
        match method {
            "textDocument/didOpen" => self.open(params, replies),
            "textDocument/didChange" => self.change(params, replies),
            "textDocument/didClose" => self.close(params, replies),
            _ => Ok(()),
        }
    }

    // Appends the result of a request about a document to `result`, or returns what is wrong.
    fn asked(
        &self,
        method: &str,
        params: &Value,
        value: &mut Vec<u8>,
    ) -> Result<Option<Wrong>, AllocError> {
        if method == "workspace/symbol" {
            put_workspace_symbols(self.alloc, self.documents.all.as_slice(), params, value)?;
            return Ok(None);
        }
        let Some(uri) = uri_in(params) else {
            let is_known = method.starts_with("textDocument/");
            return Ok(Some(if is_known {
                Wrong::Params
            } else {
                Wrong::Unknown
            }));
        };
        let Some(document) = self.documents.get(uri) else {
            return Ok(Some(Wrong::NotOpen));
        };
        let lines = cut(self.alloc, document.text.as_slice())?;
        let page = Page {
            alloc: self.alloc,
            uri,
            text: document.text.as_slice(),
            lines: lines.as_slice(),
            params,
        };
        put_answer(method, &page, value)
    }

    // Appends the result of a request to `result`, or returns what is wrong.
    fn value_of(
        &mut self,
        method: &str,
        params: &Value,
        value: &mut Vec<u8>,
    ) -> Result<Option<Wrong>, AllocError>
        ensures order { rank self.old.stage ≤ rank self.new.stage }
        ensures ended { self.new.stage ≡ Over true → 2 ≤ rank self.old.stage }
    {
        match (self.stage, method) {
            (Stage::New, "initialize") => {
                raw(value, ABILITIES)?;
                self.stage = opened(self.stage);
                Ok(None)
            }
            (Stage::New, _) => Ok(Some(Wrong::Early)),
            (Stage::Open, "shutdown") => {
                raw(value, b"null")?;
                self.stage = downed(self.stage);
                Ok(None)
            }
            (Stage::Open, "initialize") => Ok(Some(Wrong::Invalid)),
            (Stage::Open, _) => self.asked(method, params, value),
            _ => Ok(Some(Wrong::Late)),
        }
    }

    // Answers a request.
    fn requested(
        &mut self,
        id: &[u8],
        method: &str,
        params: &Value,
        replies: &mut Vec<u8>,
    ) -> Result<(), AllocError>
        ensures order { rank self.old.stage ≤ rank self.new.stage }
        ensures ended { self.new.stage ≡ Over true → 2 ≤ rank self.old.stage }
    {
        let mut value = Vec::new(self.alloc);
        if let Some(wrong) = self.value_of(method, params, &mut value)? {
            return self.refuse(id, wrong, replies);
        }
        let mut body = Vec::new(self.alloc);
        put_result(&mut body, id, value.as_slice())?;
        frame(replies, body.as_slice())
    }

    // Answers a message that has an id.
    fn with_id(
        &mut self,
        id: &Value,
        message: &Value,
        replies: &mut Vec<u8>,
    ) -> Result<(), AllocError>
        ensures order { rank self.old.stage ≤ rank self.new.stage }
        ensures ended { self.new.stage ≡ Over true → 2 ≤ rank self.old.stage }
    {
        let Some(id) = id_text(self.alloc, id)? else {
            return self.refuse(NO_ID, Wrong::Invalid, replies);
        };
        match message.get("method").and_then(Value::as_str) {
            Some(method) => {
                let params = message.get("params").unwrap_or(&Value::Null);
                self.requested(id.as_slice(), method, params, replies)
            }
            // The answer to a request of the server. It sends none.
            None if message.get("result").is_some() || message.get("error").is_some() => Ok(()),
            None => self.refuse(id.as_slice(), Wrong::Invalid, replies),
        }
    }

    /// Answers a message: appends to `replies` the messages that the client is sent, each with the lines before it that say its length.
    pub fn answer(&mut self, message: &[u8], replies: &mut Vec<u8>) -> Result<(), AllocError>
        ensures order { rank (stage_of self.old) ≤ rank (stage_of self.new) }
        ensures ended { stage_of self.new ≡ Over true → 2 ≤ rank (stage_of self.old) }
    {
        let Some(message) = parsed(self.alloc, message)? else {
            return self.refuse(NO_ID, Wrong::Parse, replies);
        };
        if let Some(id) = message.get("id") {
            return self.with_id(id, &message, replies);
        }
        match message.get("method").and_then(Value::as_str) {
            Some(method) => {
                let params = message.get("params").unwrap_or(&Value::Null);
                self.notified(method, params, replies)
            }
            None => self.refuse(NO_ID, Wrong::Invalid, replies),
        }
    }

    /// Appends to `replies` the error of a message that was too long to be read.
    pub fn refuse_long(&self, replies: &mut Vec<u8>) -> Result<(), AllocError> {
        self.refuse(NO_ID, Wrong::TooLong, replies)?;
        self.complain(Wrong::TooLong, replies)
    }
}
