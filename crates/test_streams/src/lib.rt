//! Streams for tests: one with short reads and writes, one that refuses, one that counts and one
//! that never ends; and memory that refuses.
#![tactic(auto)]

mod count;
mod endless;
mod memory;
mod refuse;
mod short;

pub use count::Count;
pub use endless::Endless;
pub use memory::RefuseMemory;
pub use refuse::Refuse;
pub use short::Short;
