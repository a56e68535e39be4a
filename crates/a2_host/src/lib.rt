//! A program's arguments, the files that it reads, the files that it writes whole, and where it reports errors.
//!
//! CALLING.md shows how to call it.
#![tactic(auto)]

ghost use Rattle.std.specs.Prelude.{◌≡◌, ◌++◌, IfSome, None, codes};
ghost use Rattle.a2_host.specs.ErrorLines.{ReportsLine};
ghost use Rattle.a2_host.specs.Shelves.{Opens, ShelfState};

mod drafts;

use a2_stream::{FromRead, Input, Output, ReadFault, put, put_all};
use arrayvec::ArrayString;
pub use drafts::{Desk, HostDesk, HostDraft};
use std::alloc::AllocError;
use std::fs::File;
use std::{env, fs, io};

/// A place where files are opened.
pub trait Shelf {
    type Reader: Input + Drop;

    /// The contents that each name opens, if they are known, and how many calls of `open` were executed and how many
    /// failed. Each count stays at 2^64 - 1.
    ghost shelved: { Self → ShelfState };

    /// Opens the file `name` for reading from its first byte. Fails if it cannot be opened.
    fn open(&mut self, name: &str) -> Result<Self::Reader, ReadFault>
        ensures { Opens Self.Reader.giver name.now (shelved self.old) (shelved self.new) result };
}

/// The files of the operating system, as a shelf that counts its calls.
#[derive(Drop)]
pub struct HostFiles<'a> {
    rt: &'a HostRuntime,
    calls: u64,
    failed: u64,
}

impl<'a> HostFiles<'a> {
    /// Returns the files that `rt` reaches. Their contents are not known.
    pub fn new(rt: &'a HostRuntime) -> HostFiles<'a>
        ensures { ⟦<HostFiles<'a> as Shelf>⟧.shelved result ≡ record { texts = None; calls = 0; failures = 0 } }
    {
        HostFiles {
            rt,
            calls: 0,
            failed: 0,
        }
    }
}

impl Shelf for HostFiles<'_> {
    type Reader = FromRead<File>;

    ghost shelved = { λ files. record { texts = None; calls = files.calls; failures = files.failed } };

    fn open(&mut self, name: &str) -> Result<FromRead<File>, ReadFault> {
        self.calls = self.calls.saturating_add(1);
        match fs::open(self.rt, name) {
            Ok(file) => Ok(FromRead::new(file)),
            Err(_) => {
                self.failed = self.failed.saturating_add(1);
                Err(ReadFault)
            }
        }
    }
}

/// Why the arguments of the command line could not be read.
#[derive(Clone, Copy, Debug, PartialEq, Eq)]
pub enum HostArgumentsFault {
    /// An argument is not valid text.
    NotText,
    /// Memory ran out.
    Memory,
}

impl From<AllocError> for HostArgumentsFault {
    ghost use Rattle.a2_host.specs.declared.HostArgumentsFault.TheVariants.{Memory};

    ghost from_gives = { λ _ e. e ≡ Memory };

    fn from(_error: AllocError) -> HostArgumentsFault {
        HostArgumentsFault::Memory
    }
}

/// Returns the arguments of the command line, the program's name first. Fails if an argument is not valid text, or if
/// memory runs out.
pub fn arguments_of(rt: &HostRuntime) -> Result<Vec<String>, HostArgumentsFault> {
    match env::args(rt) {
        Ok(words) => Ok(words.collect(rt.alloc())?),
        Err(error) if matches!(error.kind(), io::ErrorKind::OutOfMemory) => {
            Err(HostArgumentsFault::Memory)
        }
        Err(_) => Err(HostArgumentsFault::NotText),
    }
}

// Returns a text and LF, or `None` if they do not fit in 64 bytes.
fn line_of(text: &str) -> Option<ArrayString<64>>
    ensures { IfSome result (λ line. line.bytes ≡ text.now ++ codes "\n") }
{
    let mut line = ArrayString::<64>::new();
    line.try_push_str(text).ok()?;
    line.try_push_str("\n").ok()?;
    Some(line)
}

/// Writes `text` and LF to `complaints`. If the text has at most 63 bytes, this is one write, unless the writer takes
/// less at a time. If a write fails, only a front of the line was sent, and the failure is not reported.
pub fn report<E: Output>(text: &str, complaints: &mut E)
    ensures { ReportsLine (E.taker complaints.old) (E.taker complaints.new) text.now }
{
    let _ = match line_of(text) {
        Some(line) => put(line.as_str().as_bytes(), complaints),
        None => put_all(&[text.as_bytes(), b"\n"], complaints),
    };
}
