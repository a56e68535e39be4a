//! Files that are written whole or not at all. A draft is a separate file next to the target file; renaming it replaces
//! the target.

ghost use Rattle.std.specs.Prelude.{◌≡◌, None};
ghost use Rattle.a2_host.specs.Desks.{Files, Begins, Finishes};

use a2_stream::{Output, WriteFault};
use std::fs::File;
use std::io::{BufWriter, Write};
use std::os::unix::fs::MetadataExt;
use std::{fs, str};

/// A place where files are written whole or not at all.
pub trait Desk {
    type Draft: Output + Drop;

    /// The contents of the files by name, if they are known.
    ghost files: { Self → Files };

    /// Begins new content for the file `name`; an existing file is unchanged until `finish`. Fails if no draft can be
    /// created next to it, or if `name` belongs to something other than a file.
    fn begin(&mut self, name: &str) -> Result<Self::Draft, WriteFault>
        ensures { Begins Self.Draft.taker (files self.old) (files self.new) result };

    /// Makes the content of `draft` the file `name`. If that fails, the file is unchanged.
    fn finish(&mut self, name: &str, draft: Self::Draft) -> Result<(), WriteFault>
        ensures { Finishes name.now (Self.Draft.taker draft) (files self.old) (files self.new) result };

    /// Discards `draft`; all files are unchanged.
    fn discard_draft(&mut self, draft: Self::Draft)
        ensures { files self.new ≡ files self.old };

    /// Returns whether two names belong to the same file, as far as this can be found out.
    fn are_same_file(&self, name: &str, other: &str) -> bool;
}

// How many names are tried for a draft.
const MOST_DRAFT_NAMES: u32 = 100;

/// The files of the operating system.
#[derive(Drop)]
pub struct HostDesk<'a> {
    rt: &'a HostRuntime,
}

impl<'a> HostDesk<'a> {
    /// Returns the files that `rt` reaches. Their contents are not known.
    pub fn new(rt: &'a HostRuntime) -> HostDesk<'a>
        ensures { ⟦<HostDesk<'a> as Desk>⟧.files result ≡ None }
    {
        HostDesk { rt }
    }
}

/// A draft: a file that is to replace another one.
#[derive(Drop)]
pub struct HostDraft {
    lines: BufWriter<File>,
    name: String,
    /// The path of the file that it is to replace. If that was named by a link, this is the file at the end of the link.
    target: String,
    failed: u64,
}

impl Output for HostDraft {
    ghost taker = { λ draft. record { bytes = None; failures = draft.failed } };

    fn write(&mut self, piece: &[u8]) -> Result<usize, WriteFault> {
        let taken = self.lines.write(piece).map_err(|_| WriteFault);
        let is_failed = match &taken {
            Ok(count) => *count == 0 && !piece.is_empty(),
            Err(_) => true,
        };
        if is_failed {
            self.failed = self.failed.saturating_add(1);
        }
        taken
    }
}

// Returns whether something with this name exists that is not a file.
fn is_not_a_file(rt: &HostRuntime, name: &str) -> bool {
    match fs::metadata(rt, name) {
        Ok(found) => !found.is_file(),
        Err(_) => false,
    }
}

// Returns the path of the file with this name, without links in it, or the name itself if there is no such file.
fn target_of(rt: &HostRuntime, name: &str) -> Result<String, WriteFault> {
    if let Ok(path) = fs::canonicalize(rt, name) {
        return Ok(path.into_string());
    }
    String::from_str(rt.alloc(), name).map_err(|_| WriteFault)
}

// Gives a draft the permissions of the file that it is to replace, if there is one. If that is not possible, it keeps its own.
fn keep_permissions(rt: &HostRuntime, target: &str, draft: &File) {
    if let Ok(found) = fs::metadata(rt, target) {
        let _ = draft.set_permissions(found.permissions());
    }
}

// Creates a new file next to the one with this name, and returns its name and the file.
fn beside(rt: &HostRuntime, name: &str) -> Result<(String, File), WriteFault> {
    for number in 0..MOST_DRAFT_NAMES {
        let Ok(other) = format!(in rt.alloc(); "{name}.{number}.part") else {
            return Err(WriteFault);
        };
        if let Ok(file) = File::create_new(rt, other.as_str()) {
            return Ok((other, file));
        }
    }
    Err(WriteFault)
}

// Discards the bytes in the buffer; simply dropping the buffer would write them.
fn discard_buffer(lines: BufWriter<File>) {
    let _ = lines.into_parts();
}

impl Desk for HostDesk<'_> {
    type Draft = HostDraft;

    ghost files = { λ _. None };

    fn begin(&mut self, name: &str) -> Result<HostDraft, WriteFault> {
        if is_not_a_file(self.rt, name) {
            return Err(WriteFault);
        }
        let target = target_of(self.rt, name)?;
        let (name, file) = beside(self.rt, target.as_str())?;
        keep_permissions(self.rt, target.as_str(), &file);
        match BufWriter::new(self.rt.alloc(), file) {
            Ok(lines) => Ok(HostDraft {
                lines,
                name,
                target,
                failed: 0,
            }),
            Err(_) => {
                let _ = fs::remove_file(self.rt, name.as_str());
                Err(WriteFault)
            }
        }
    }

    fn finish(&mut self, _name: &str, draft: HostDraft) -> Result<(), WriteFault> {
        let mut lines = draft.lines;
        let is_written = lines.flush().is_ok();
        discard_buffer(lines);
        if is_written && fs::rename(self.rt, draft.name.as_str(), draft.target.as_str()).is_ok() {
            return Ok(());
        }
        let _ = fs::remove_file(self.rt, draft.name.as_str());
        Err(WriteFault)
    }

    fn discard_draft(&mut self, draft: HostDraft) {
        discard_buffer(draft.lines);
        let _ = fs::remove_file(self.rt, draft.name.as_str());
    }

    fn are_same_file(&self, name: &str, other: &str) -> bool {
        match (fs::metadata(self.rt, name), fs::metadata(self.rt, other)) {
            (Ok(one), Ok(two)) => one.dev() == two.dev() && one.ino() == two.ino(),
            _ => false,
        }
    }
}
