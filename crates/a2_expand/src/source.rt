//! The lines of a text and of its files.

use crate::adding::add;
use crate::fault::{ExpandFault, Problem, trouble};
use crate::parts::{Word, parts_of, word_of};
use a2_text::cut;
use std::alloc::{AllocError, Allocator};

/// A file that a text may include, by the name that is made of the folder of the including file and the name that is written there.
#[derive(Clone, Copy)]
pub struct LoadedFile<'t> {
    pub name: &'t [u8],
    pub text: &'t [u8],
}

/// A line of a file.
#[derive(Clone, Copy)]
pub(crate) struct SourceLine<'t> {
    pub text: &'t [u8],
    pub file: usize,
    pub number: usize,
}

/// Where the lines of a file are among all lines.
#[derive(Clone, Copy)]
pub(crate) struct FileLines {
    pub file: usize,
    pub first: usize,
    pub end: usize,
}

/// The lines of all files that were read.
#[derive(Drop)]
pub(crate) struct Sources<'t, A: Allocator> {
    pub alloc: A,
    pub lines: Vec<SourceLine<'t>, A>,
    pub files: Vec<FileLines, A>,
}

impl<'t, A: Allocator + Copy> Sources<'t, A> {
    /// Adds the lines of a file with this number, and returns where they are.
    pub(crate) fn read(&mut self, file: usize, text: &'t [u8]) -> Result<FileLines, AllocError> {
        let first = self.lines.len();
        let lines = cut(self.alloc, text)?;
        for (i, text) in lines.iter().enumerate() {
            let line = SourceLine {
                text: *text,
                file,
                number: i.saturating_add(1),
            };
            add(&mut self.lines, line)?;
        }
        let end = self.lines.len();
        let lines = FileLines { file, first, end };
        add(&mut self.files, lines)?;
        Ok(lines)
    }

    /// Returns where the lines of a file are, if it was read.
    pub(crate) fn lines_of(&self, file: usize) -> Option<FileLines> {
        for lines in self.files.iter() {
            if lines.file == file {
                return Some(*lines);
            }
        }
        None
    }

    /// Returns the index of the line that closes a block whose lines begin with `from`, or `None` if it is not below `end`.
    pub(crate) fn closing(
        &self,
        from: usize,
        end: usize,
        open: Word,
        close: Word,
    ) -> Option<usize> {
        let mut depth: u32 = 0;
        for index in from..end {
            let line = self.lines.get(index)?;
            let word = word_of(parts_of(line.text).operation);
            if word == close {
                if depth == 0 {
                    return Some(index);
                }
                depth = depth.saturating_sub(1);
            } else if word == open {
                depth = depth.saturating_add(1);
            }
        }
        None
    }
}

// Returns the length of the folder of a file name, with its last `/`.
fn folder_len(name: &[u8]) -> usize {
    let mut len = 0;
    for (i, c) in name.iter().enumerate() {
        if *c == b'/' {
            len = i.saturating_add(1);
        }
    }
    len
}

// Whether a name leaves its folder: it begins with `/`, or has a part `..`.
fn leaves_folder(name: &[u8]) -> bool {
    if name.starts_with(b"/") {
        return true;
    }
    let mut dots: u32 = 0;
    let mut others = false;
    for c in name {
        if *c == b'/' {
            if dots == 2 && !others {
                return true;
            }
            dots = 0;
            others = false;
        } else if *c == b'.' {
            dots = dots.saturating_add(1);
        } else {
            others = true;
        }
    }
    dots == 2 && !others
}

/// Returns the name of a file that is written in a file with the name `from`. Fails if it leaves the folder.
pub(crate) fn joined_name<A: Allocator>(
    alloc: A,
    from: &[u8],
    name: &[u8],
) -> Result<Vec<u8, A>, ExpandFault> {
    if leaves_folder(name) {
        return Err(trouble(Problem::OutsideFolder, name));
    }
    let (folder, _) = from.split_at(folder_len(from).min(from.len()));
    let mut joined = Vec::from_slice(alloc, folder)?;
    joined.extend_from_slice(name)?;
    Ok(joined)
}
