//! A read call as a value.
ghost use Rattle.bitstream_stream.specs.Reading.Reads.{ReadOutcome};
ghost use Rattle.bitstream_io.specs.ReadScript.{read_decoder, asks_memory};

use crate::script::answers::Answer;
use crate::script::byte_list::ByteList;
use bitstream_count::error::Error;
use bitstream_number::number::Bits;
use bitstream_stream::read::BitRead;
use std::alloc::Global;

/// A read call with its arguments. The argument of a number is its width in bits.
#[derive(Clone, Copy, Debug, PartialEq)]
pub enum ReadCall {
    /// One bit.
    Bit,
    /// An unsigned number of at most 8 bits.
    U8(u32),
    /// An unsigned number of at most 16 bits.
    U16(u32),
    /// An unsigned number of at most 32 bits.
    U32(u32),
    /// An unsigned number of at most 64 bits.
    U64(u32),
    /// An unsigned number of at most 128 bits.
    U128(u32),
    /// A signed number of at most 8 bits.
    I8(u32),
    /// A signed number of at most 16 bits.
    I16(u32),
    /// A signed number of at most 32 bits.
    I32(u32),
    /// A signed number of at most 64 bits.
    I64(u32),
    /// A signed number of at most 128 bits.
    I128(u32),
    /// A unary number whose stop bit is 0.
    Unary0,
    /// A unary number whose stop bit is 1.
    Unary1,
    /// An unsigned number of variable width, in groups of 4 bits.
    Vbr4,
    /// An unsigned number of variable width, in groups of 8 bits.
    Vbr8,
    /// An unsigned number of variable width, in groups of 4 bits. Its last groups may be 0.
    AnyVbr4,
    /// An unsigned number of variable width, in groups of 8 bits. Its last groups may be 0.
    AnyVbr8,
    /// A signed number of variable width, in groups of 4 bits.
    SignedVbr4,
    /// A signed number of variable width, in groups of 8 bits.
    SignedVbr8,
    /// This number of bytes.
    Bytes(usize),
    /// This number of bits, whatever their values.
    Skip(u32),
    /// The bits up to the next byte boundary, whatever their values.
    Align,
}

impl ReadCall {
    /// Makes the call. Only `Bytes` allocates.
    ///
    /// # Errors
    ///
    /// The errors of the call of [`BitRead`].
    pub(crate) fn make<R: BitRead>(&self, alloc: Global, reader: &mut R) -> Result<Answer, Error>
        ensures reads { ReadOutcome R.source (asks_memory self.now)
            (read_decoder R.source.order self.now) reader.old result reader.new }
    {
        match self {
            ReadCall::Bit => reader.read_bit().map(Answer::Bit),
            ReadCall::U8(bits) => reader.read_unsigned_var::<u8>(*bits).map(Answer::U8),
            ReadCall::U16(bits) => reader.read_unsigned_var::<u16>(*bits).map(Answer::U16),
            ReadCall::U32(bits) => reader.read_unsigned_var::<u32>(*bits).map(Answer::U32),
            ReadCall::U64(bits) => reader.read_unsigned_var::<u64>(*bits).map(Answer::U64),
            ReadCall::U128(bits) => reader.read_unsigned_var::<u128>(*bits).map(Answer::U128),
            ReadCall::I8(bits) => reader.read_signed_var::<i8>(*bits).map(Answer::I8),
            ReadCall::I16(bits) => reader.read_signed_var::<i16>(*bits).map(Answer::I16),
            ReadCall::I32(bits) => reader.read_signed_var::<i32>(*bits).map(Answer::I32),
            ReadCall::I64(bits) => reader.read_signed_var::<i64>(*bits).map(Answer::I64),
            ReadCall::I128(bits) => reader.read_signed_var::<i128>(*bits).map(Answer::I128),
            ReadCall::Unary0 => reader.read_unary::<Bits<0>>().map(Answer::Unary),
            ReadCall::Unary1 => reader.read_unary::<Bits<1>>().map(Answer::Unary),
            ReadCall::Vbr4 => reader.read_unsigned_vbr::<Bits<4>, u64>().map(Answer::Vbr),
            ReadCall::Vbr8 => reader.read_unsigned_vbr::<Bits<8>, u64>().map(Answer::Vbr),
            ReadCall::AnyVbr4 => reader
                .read_unsigned_vbr_any::<Bits<4>, u64>()
                .map(Answer::Vbr),
            ReadCall::AnyVbr8 => reader
                .read_unsigned_vbr_any::<Bits<8>, u64>()
                .map(Answer::Vbr),
            ReadCall::SignedVbr4 => reader
                .read_signed_vbr::<Bits<4>, i64>()
                .map(Answer::SignedVbr),
            ReadCall::SignedVbr8 => reader
                .read_signed_vbr::<Bits<8>, i64>()
                .map(Answer::SignedVbr),
            ReadCall::Bytes(bytes) => {
                let bytes = reader.read_to_vec(alloc, *bytes)?;
                Ok(Answer::Bytes(ByteList::new(bytes)))
            }
            ReadCall::Skip(bits) => {
                reader.skip(*bits)?;
                Ok(Answer::Done)
            }
            ReadCall::Align => {
                reader.byte_align();
                Ok(Answer::Done)
            }
        }
    }
}
