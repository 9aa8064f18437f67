//! Calls as values, and lists of calls that are made in order.

mod answers;
mod byte_list;
pub(crate) mod laws;
mod read_call;
mod reads;
mod write_call;
mod writes;

pub use answers::Answer;
pub use byte_list::ByteList;
pub use read_call::ReadCall;
pub use reads::read_calls;
pub use write_call::WriteCall;
pub use writes::write_calls;
