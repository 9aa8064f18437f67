//! A STREAM frame of QUIC that states its length, with an offset (RFC 9000, section 19.8).
//!
//! Made by `./format` from formats/quic_stream.fields: edit that file and make this one anew.
ghost use Rattle.network_messages.specs.QuicStream.{quic_stream_decoder, quic_stream_writes, quic_stream_size, quic_stream_bits, Fits, becomes_quic_stream};
ghost use Rattle.network_messages.specs.declared.quic_stream.QuicStream.{QuicStream};
ghost use Rattle.network_messages.specs.declared.quic_stream.QuicStreamError.{QuicStreamError};
ghost use Rattle.network_messages.specs.declared.quic_stream.QuicStreamError.TheVariants.{Reader};
ghost use Rattle.std.specs.Prelude.{◌≡◌, ◌<◌, ◌≤◌, ◌*◌, ◌++◌, ◌⊎◌, ℕ, Bool, true, List, Ok, Err, length, IfOk, IsOk};
ghost use Rattle.std.specs.declared.io.ErrorKind.TheVariants.{WriteZero};
ghost use Rattle.bitstream_io.specs.Callers.{Done, Error, Order, High, bits, write_sequence, OwnAnswer, WritesAll, AllAccepted, sequence_length, sure_answer, GrowsOwn, MayAllocate, OutOfMemory, Stream, same_error};
ghost use Rattle.bitstream_io.specs.SliceMut.{HoldsFirst, written_bytes};

use bitstream_format::varint::{read_varint, write_varint};
use bitstream_io::{
    BE, BitRead, BitReadExt, BitReader, BitWrite, BitWriteExt, Bits, Error, FromBitStreamUsing,
    SliceMut, ToBitStream, pack_into,
};
use std::alloc::Global;
use std::marker::Model;

/// A STREAM frame of QUIC that states its length, with an offset (RFC 9000, section 19.8).
///
/// ```text
///  0                   1                   2                   3
///  0 1 2 3 4 5 6 7 8 9 0 1 2 3 4 5 6 7 8 9 0 1 2 3 4 5 6 7 8 9 0 1
/// +-+-+-+-+-+-+-+-+
/// |      =7     |l|
/// +-+-+-+-+-+-+-+-+-+-+-+-+-+-+-+-+-+-+-+-+-+-+-+-+-+-+-+-+-+-+-+-+
/// /                  stream (1, 2, 4 or 8 bytes)                  /
/// +-+-+-+-+-+-+-+-+-+-+-+-+-+-+-+-+-+-+-+-+-+-+-+-+-+-+-+-+-+-+-+-+
/// /                  offset (1, 2, 4 or 8 bytes)                  /
/// +-+-+-+-+-+-+-+-+-+-+-+-+-+-+-+-+-+-+-+-+-+-+-+-+-+-+-+-+-+-+-+-+
/// /                data_bytes (1, 2, 4 or 8 bytes)                /
/// +-+-+-+-+-+-+-+-+-+-+-+-+-+-+-+-+-+-+-+-+-+-+-+-+-+-+-+-+-+-+-+-+
/// /                    data (data_bytes bytes)                    /
/// +-+-+-+-+-+-+-+-+-+-+-+-+-+-+-+-+-+-+-+-+-+-+-+-+-+-+-+-+-+-+-+-+
/// ```
#[derive(Debug, Drop)]
pub struct QuicStream {
    /// True if the stream ends with these data.
    pub last: bool,
    /// The stream. Below 2^62.
    pub stream: u64,
    /// The number of bytes before these in the stream. Below 2^62.
    pub offset: u64,
    /// The bytes.
    pub data: Vec<u8>,
}

impl Model for QuicStream {
    ghost use Rattle.network_messages.specs.QuicStreamFields.{QuicStreamFields};

    ghost Value = { QuicStreamFields };

    ghost view = { λ value. record {
      last = value.last;
      stream = value.stream;
      offset = value.offset;
      «data» = value.data.items;
    } };
}

/// The errors of reading a `QuicStream`.
#[derive(Debug, Drop, thiserror::Error)]
pub enum QuicStreamError {
    /// An error of the reader.
    #[error("{0}")]
    Reader(Error),
    /// The frame is of another type.
    #[error("the frame is of another type")]
    OtherFrame,
}

impl From<Error> for QuicStreamError {
    ghost from_gives = { becomes_quic_stream };

    fn from(error: Error) -> QuicStreamError {
        QuicStreamError::Reader(error)
    }
}

impl QuicStream {
    /// Reads the fields in order.
    ///
    /// # Errors
    ///
    /// `OtherFrame`, after the rejected bits have been read.
    /// `Reader(OutOfMemory)` if an allocation for a list fails. The items before the failure
    /// have been read.
    /// Otherwise the reader's errors, after which it has failed.
    pub fn read<R: BitRead>(reader: &mut R, alloc: Global) -> Result<QuicStream, QuicStreamError>
        ensures { GrowsOwn R.source becomes_quic_stream (quic_stream_decoder R.source.order) reader.old result reader.new }
    {
        reader.read_const::<Bits<7>, Bits<7>, QuicStreamError>(QuicStreamError::OtherFrame)?;
        let last = reader.read_bit()?;
        let stream = read_varint(reader)?;
        let offset = read_varint(reader)?;
        let data_bytes = read_varint(reader)?;
        let data_ = reader.read_to_vec(alloc, data_bytes as usize)?;
        Ok(QuicStream {
            last,
            stream,
            offset,
            data: data_,
        })
    }

    /// Parses the value at the start of `packet`.
    ///
    /// # Errors
    ///
    /// `OtherFrame` if bits are rejected.
    /// `Reader(EndOfInput)` if the bytes end before the fields do.
    /// `Reader(OutOfMemory)` if the allocation for an item of a list fails.
    pub fn parse(packet: &[u8], alloc: Global) -> Result<QuicStream, QuicStreamError>
        ensures answer { (OwnAnswer becomes_quic_stream (λ answer. answer)
            (sure_answer ((quic_stream_decoder High).reads 0 (bits High packet.now))) result)
            ⊎ ((result ≡ Err (QuicStreamError.Reader OutOfMemory))
            × MayAllocate (quic_stream_decoder High) 0 (bits High packet.now)) }
        ensures back { (value : QuicStream) (more : List Bool) → Fits value
            → bits High packet.now ≡ write_sequence (quic_stream_writes High value) 0 ++ more
            → (result ≡ Ok value)
            ⊎ (result ≡ Err (QuicStreamError.Reader OutOfMemory)) }
    {
        quic_stream_round_trip();
        QuicStream::read(&mut BitReader::<_, BE>::over(packet), alloc)
    }

    /// Writes the fields in order.
    ///
    /// # Errors
    ///
    /// `Checked` for a field that does not fit its bits. The fields before it have been written.
    /// Otherwise the sink's errors.
    pub fn write<W: BitWrite>(&self, writer: &mut W) -> Result<(), Error>
        ensures { WritesAll W.sink (quic_stream_writes W.sink.order self.now) writer.old result writer.new }
    {
        writer.write_const::<Bits<7>, Bits<7>>()?;
        writer.write_bit(self.last)?;
        write_varint(writer, self.stream)?;
        write_varint(writer, self.offset)?;
        write_varint(writer, self.data.len() as u64)?;
        writer.write_bytes(&self.data)?;
        Ok(())
    }

    /// Writes the fields to the first bytes of a buffer, and returns what was written. The other bytes
    /// stay as they were. Does not allocate.
    ///
    /// # Errors
    ///
    /// `Checked` for the first field that does not fit its bits, however long the buffer is.
    /// `Stream(WriteZero)` if all fields fit, and the buffer is too short for the bits.
    /// After an error, the first bytes of the buffer may have changed.
    pub fn pack_into<'a>(&self, buffer: &'a mut [u8]) -> Result<SliceMut<'a>, Error>
        ensures packed { IfOk result (λ packed. bits High (written_bytes packed) ≡ quic_stream_bits self.now) }
        ensures first { IfOk result (HoldsFirst buffer.entry.ghost_name buffer.old) }
        ensures accepted { IsOk result → AllAccepted (quic_stream_writes High self.now) 0 }
        ensures misfit { (error : Error) → sequence_length (quic_stream_writes High self.now) 0 ≡ Err error
            → result ≡ Err error }
        ensures room { Fits self.now → quic_stream_size High self.now ≤ 8 * length buffer.old
            → IsOk result }
        ensures short { Fits self.now → 8 * length buffer.old < quic_stream_size High self.now
            → result ≡ Err (Stream WriteZero) }
    {
        pack_into::<BE, QuicStream>(self, buffer)
    }
}

impl FromBitStreamUsing for QuicStream {
    type Context = Global;

    type Error = QuicStreamError;

    ghost grows = { true };

    ghost becomes = { becomes_quic_stream };

    ghost reads = { λ o _. quic_stream_decoder o };

    fn from_reader<R: BitRead>(
        reader: &mut R,
        alloc: Global,
    ) -> Result<QuicStream, QuicStreamError> {
        QuicStream::read(reader, alloc)
    }
}

impl ToBitStream for QuicStream {
    type Error = Error;

    ghost becomes = { same_error };

    ghost writes = { quic_stream_writes };

    fn to_writer<W: BitWrite>(&self, writer: &mut W) -> Result<(), Error> {
        self.write(writer)
    }
}

/// A value that fits its bits is read back as it was written, in either order of bits, at any place.
/// The read takes only the bits that were written: `quic_stream_size` is their number.
pub fn quic_stream_round_trip()
    ensures back { (o : Order) (value : QuicStream) (at from : ℕ) (more : List Bool) → Fits value
        → let written = write_sequence (quic_stream_writes o value) at in
        (quic_stream_decoder o).reads from (written ++ more) ≡ Done (length written) (Ok (Ok value)) }
    ensures size { (o : Order) (value : QuicStream) (at : ℕ) → Fits value
        → length (write_sequence (quic_stream_writes o value) at) ≡ quic_stream_size o value }
{}
