//! The errors of an encoder over a writer.

use std::io;

/// The reasons that the start of a file or a frame is not written.
#[derive(Debug, Drop, thiserror::Error)]
pub enum EncodeError {
    /// An allocation failed. Nothing was written.
    #[error("out of memory")]
    OutOfMemory,
    /// The writer failed. It may have written the first bytes of the start or of the frame.
    #[error("{0}")]
    Writer(io::Error),
}
