//! The program's exit status.

/// The outcome of a file, from best to worst.
#[derive(Clone, Copy, Debug, PartialEq, Eq, PartialOrd, Ord)]
pub enum Status {
    /// All of it was read.
    Read,
    /// All of it was read, and bytes after it were ignored.
    Warned,
    /// A unit was refused, or there was none.
    Refused,
    /// The file was not read, or the output was not written.
    Failed,
}

impl Status {
    /// Returns the program's exit status.
    pub fn code(self) -> u8 {
        match self {
            Status::Read => 0,
            Status::Warned => 4,
            Status::Refused => 1,
            Status::Failed => 3,
        }
    }
}

/// The exit status for arguments that the program does not know.
pub const USAGE: u8 = 2;
