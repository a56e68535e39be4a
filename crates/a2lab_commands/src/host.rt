//! The files, streams and clock that a command uses.

use std::alloc::Global;

/// The files, streams and clock that a command uses; a test can supply its own.
#[derive(Drop)]
pub struct Host<S, D, C, R, W, E> {
    pub alloc: Global,
    /// Opens files for reading.
    pub shelf: S,
    /// Replaces files.
    pub desk: D,
    pub clock: C,
    pub input: R,
    pub output: W,
    pub complaints: E,
}
