//! A write call as a value.
ghost use Rattle.bitstream_stream.specs.Writing.Sink.{Writes};
ghost use Rattle.bitstream_io.specs.Script.{write_encoder};

use crate::script::byte_list::ByteList;
use bitstream_count::error::Error;
use bitstream_number::number::Bits;
use bitstream_stream::write::BitWrite;

/// A write call with its arguments. A number comes after its width in bits.
#[derive(Drop)]
pub enum WriteCall {
    /// One bit: 1 for `true`.
    Bit(bool),
    /// An unsigned number of at most 8 bits.
    U8(u32, u8),
    /// An unsigned number of at most 16 bits.
    U16(u32, u16),
    /// An unsigned number of at most 32 bits.
    U32(u32, u32),
    /// An unsigned number of at most 64 bits.
    U64(u32, u64),
    /// An unsigned number of at most 128 bits.
    U128(u32, u128),
    /// A signed number of at most 8 bits.
    I8(u32, i8),
    /// A signed number of at most 16 bits.
    I16(u32, i16),
    /// A signed number of at most 32 bits.
    I32(u32, i32),
    /// A signed number of at most 64 bits.
    I64(u32, i64),
    /// A signed number of at most 128 bits.
    I128(u32, i128),
    /// A unary number whose stop bit is 0.
    Unary0(u32),
    /// A unary number whose stop bit is 1.
    Unary1(u32),
    /// An unsigned number of variable width, in groups of 4 bits.
    Vbr4(u64),
    /// An unsigned number of variable width, in groups of 8 bits.
    Vbr8(u64),
    /// A signed number of variable width, in groups of 4 bits.
    SignedVbr4(i64),
    /// A signed number of variable width, in groups of 8 bits.
    SignedVbr8(i64),
    /// Bytes.
    Bytes(ByteList),
    /// This number of zeros.
    Pad(u32),
    /// Bits of 0 up to the next byte boundary.
    Align,
}

impl WriteCall {
    /// Makes the call.
    ///
    /// # Errors
    ///
    /// The errors of the call of [`BitWrite`].
    pub(crate) fn make<W: BitWrite>(&self, writer: &mut W) -> Result<(), Error>
        ensures writes { Writes W.sink (write_encoder W.sink.order self.now)
            writer.old result writer.new }
    {
        match self {
            WriteCall::Bit(bit) => writer.write_bit(*bit),
            WriteCall::U8(bits, value) => writer.write_unsigned_var(*bits, *value),
            WriteCall::U16(bits, value) => writer.write_unsigned_var(*bits, *value),
            WriteCall::U32(bits, value) => writer.write_unsigned_var(*bits, *value),
            WriteCall::U64(bits, value) => writer.write_unsigned_var(*bits, *value),
            WriteCall::U128(bits, value) => writer.write_unsigned_var(*bits, *value),
            WriteCall::I8(bits, value) => writer.write_signed_var(*bits, *value),
            WriteCall::I16(bits, value) => writer.write_signed_var(*bits, *value),
            WriteCall::I32(bits, value) => writer.write_signed_var(*bits, *value),
            WriteCall::I64(bits, value) => writer.write_signed_var(*bits, *value),
            WriteCall::I128(bits, value) => writer.write_signed_var(*bits, *value),
            WriteCall::Unary0(value) => writer.write_unary::<Bits<0>>(*value),
            WriteCall::Unary1(value) => writer.write_unary::<Bits<1>>(*value),
            WriteCall::Vbr4(value) => writer.write_unsigned_vbr::<Bits<4>, u64>(*value),
            WriteCall::Vbr8(value) => writer.write_unsigned_vbr::<Bits<8>, u64>(*value),
            WriteCall::SignedVbr4(value) => writer.write_signed_vbr::<Bits<4>, i64>(*value),
            WriteCall::SignedVbr8(value) => writer.write_signed_vbr::<Bits<8>, i64>(*value),
            WriteCall::Bytes(bytes) => writer.write_bytes(bytes.as_slice()),
            WriteCall::Pad(bits) => writer.pad(*bits),
            WriteCall::Align => writer.byte_align(),
        }
    }
}
