//! The interfaces of earlier versions: the current calls under their older names.

mod read;
mod write;

pub use read::BitRead2;
pub use write::BitWrite2;
