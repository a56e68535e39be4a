//! The limits of an expansion.

use crate::fault::Problem;

/// The most files that a text includes.
pub const MOST_FILES: usize = 64;

/// The most macros, repeated blocks and files inside each other.
pub(crate) const MOST_DEPTH: usize = 64;

/// The most lines that are read, counted each time they are read.
pub(crate) const MOST_STEPS: usize = 200_000;

/// A line counts once more for each so many bytes: a long one may need the values of many names.
pub(crate) const BYTES_OF_A_STEP: usize = 8;

/// The most lines of a plain text.
pub(crate) const MOST_LINES: usize = 4096;

/// The most bytes of a plain text.
pub(crate) const MOST_BYTES: usize = 65536;

/// The most bytes of a line: of the source, after texts have replaced its parameters, and of the expansion.
pub(crate) const MOST_LINE_BYTES: usize = 255;

/// The most local labels that get names; a plain text has no more labels.
pub(crate) const MOST_NAMES: usize = 1024;

/// Returns the limit that a problem is about, or 0.
pub(crate) fn limit_of(problem: Problem) -> usize {
    match problem {
        Problem::Depth => MOST_DEPTH,
        Problem::ManyLines => MOST_LINES,
        Problem::ManyBytes => MOST_BYTES,
        Problem::ManyNames => MOST_NAMES,
        Problem::LongSource | Problem::GrownLine | Problem::LongLine => MOST_LINE_BYTES,
        Problem::ManySteps => MOST_STEPS,
        Problem::ManyFiles => MOST_FILES,
        _ => 0,
    }
}
