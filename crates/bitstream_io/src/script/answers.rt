//! The result of a read call as a value.

use crate::script::byte_list::ByteList;

/// The value that a [`ReadCall`](crate::script::ReadCall) returns.
#[derive(Drop)]
pub enum Answer {
    /// The call returns no value.
    Done,
    /// One bit: `true` for 1.
    Bit(bool),
    /// An unsigned number of at most 8 bits.
    U8(u8),
    /// An unsigned number of at most 16 bits.
    U16(u16),
    /// An unsigned number of at most 32 bits.
    U32(u32),
    /// An unsigned number of at most 64 bits.
    U64(u64),
    /// An unsigned number of at most 128 bits.
    U128(u128),
    /// A signed number of at most 8 bits.
    I8(i8),
    /// A signed number of at most 16 bits.
    I16(i16),
    /// A signed number of at most 32 bits.
    I32(i32),
    /// A signed number of at most 64 bits.
    I64(i64),
    /// A signed number of at most 128 bits.
    I128(i128),
    /// A unary number.
    Unary(u32),
    /// An unsigned number of variable width.
    Vbr(u64),
    /// A signed number of variable width.
    SignedVbr(i64),
    /// Bytes.
    Bytes(ByteList),
}
