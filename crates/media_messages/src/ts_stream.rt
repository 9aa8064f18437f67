//! A stream of a program map section (ISO/IEC 13818-1, section 2.4.4.8).
//!
//! Made by `./format` from formats/ts_stream.fields: edit that file and make this one anew.
ghost use Rattle.media_messages.specs.TsStream.{ts_stream_decoder, ts_stream_writes, ts_stream_size, ts_stream_bits, Fits, becomes_ts_stream};
ghost use Rattle.media_messages.specs.declared.ts_stream.TsStream.{TsStream};
ghost use Rattle.media_messages.specs.declared.ts_stream.TsStreamError.{TsStreamError};
ghost use Rattle.media_messages.specs.declared.ts_stream.TsStreamError.TheVariants.{Reader};
ghost use Rattle.std.specs.Prelude.{◌≡◌, ◌<◌, ◌≤◌, ◌*◌, ◌++◌, ◌⊎◌, ℕ, Bool, true, List, Ok, Err, length, IfOk, IsOk};
ghost use Rattle.std.specs.declared.io.ErrorKind.TheVariants.{WriteZero};
ghost use Rattle.bitstream_io.specs.Callers.{Done, Error, Order, High, bits, write_sequence, OwnAnswer, WritesAll, AllAccepted, sequence_length, sure_answer, GrowsOwn, MayAllocate, OutOfMemory, Stream, same_error};
ghost use Rattle.bitstream_io.specs.SliceMut.{HoldsFirst, written_bytes};

use bitstream_io::{
    BE, BitRead, BitReadExt, BitReader, BitWrite, BitWriteExt, Bits, Error, FromBitStreamUsing,
    SliceMut, ToBitStream, pack_into,
};
use std::alloc::Global;
use std::marker::Model;

/// A stream of a program map section (ISO/IEC 13818-1, section 2.4.4.8).
///
/// ```text
///  0                   1                   2                   3
///  0 1 2 3 4 5 6 7 8 9 0 1 2 3 4 5 6 7 8 9 0 1 2 3 4 5 6 7 8 9 0 1
/// +-+-+-+-+-+-+-+-+-+-+-+-+-+-+-+-+-+-+-+-+-+-+-+-+-+-+-+-+-+-+-+-+
/// |      kind     |  =7 |         packets         |  =15  |       |
/// +-+-+-+-+-+-+-+-+-+-+-+-+-+-+-+-+-+-+-+-+-+-+-+-+-+-+-+-+-+-+-+-+
/// |descriptors_byt|
/// +-+-+-+-+-+-+-+-+-+-+-+-+-+-+-+-+-+-+-+-+-+-+-+-+-+-+-+-+-+-+-+-+
/// /             descriptors (descriptors_bytes bytes)             /
/// +-+-+-+-+-+-+-+-+-+-+-+-+-+-+-+-+-+-+-+-+-+-+-+-+-+-+-+-+-+-+-+-+
/// ```
#[derive(Debug, Drop)]
pub struct TsStream {
    /// The type of the stream.
    pub kind: u8,
    /// The PID of the packets that carry it. Below 2^13.
    pub packets: u16,
    /// The descriptors.
    pub descriptors: Vec<u8>,
}

impl Model for TsStream {
    ghost use Rattle.media_messages.specs.TsStreamFields.{TsStreamFields};

    ghost Value = { TsStreamFields };

    ghost view = { λ value. record {
      kind = value.kind;
      packets = value.packets;
      descriptors = value.descriptors.items;
    } };
}

/// The errors of reading a `TsStream`.
#[derive(Debug, Drop, thiserror::Error)]
pub enum TsStreamError {
    /// An error of the reader.
    #[error("{0}")]
    Reader(Error),
    /// A reserved bit is 0.
    #[error("a reserved bit is 0")]
    ZeroReserved,
}

impl From<Error> for TsStreamError {
    ghost from_gives = { becomes_ts_stream };

    fn from(error: Error) -> TsStreamError {
        TsStreamError::Reader(error)
    }
}

impl TsStream {
    /// The number of bits before each line of the description.
    pub const PLACES: [u64; 6] = [0, 8, 11, 24, 28, 40];

    /// Reads the fields in order.
    ///
    /// # Errors
    ///
    /// `ZeroReserved`, after the rejected bits have been read.
    /// `Reader(OutOfMemory)` if an allocation for a list fails. The items before the failure
    /// have been read.
    /// Otherwise the reader's errors, after which it has failed.
    pub fn read<R: BitRead>(reader: &mut R, alloc: Global) -> Result<TsStream, TsStreamError>
        ensures { GrowsOwn R.source becomes_ts_stream (ts_stream_decoder R.source.order) reader.old result reader.new }
    {
        let kind = reader.read::<Bits<8>, u8>()?;
        reader.read_const::<Bits<3>, Bits<7>, TsStreamError>(TsStreamError::ZeroReserved)?;
        let packets = reader.read::<Bits<13>, u16>()?;
        reader.read_const::<Bits<4>, Bits<15>, TsStreamError>(TsStreamError::ZeroReserved)?;
        let descriptors_bytes = reader.read::<Bits<12>, u64>()?;
        let descriptors = reader.read_to_vec(alloc, descriptors_bytes as usize)?;
        Ok(TsStream {
            kind,
            packets,
            descriptors,
        })
    }

    /// Parses the value at the start of `packet`.
    ///
    /// # Errors
    ///
    /// `ZeroReserved` if bits are rejected.
    /// `Reader(EndOfInput)` if the bytes end before the fields do.
    /// `Reader(OutOfMemory)` if the allocation for an item of a list fails.
    pub fn parse(packet: &[u8], alloc: Global) -> Result<TsStream, TsStreamError>
        ensures answer { (OwnAnswer becomes_ts_stream (λ answer. answer)
            (sure_answer ((ts_stream_decoder High).reads 0 (bits High packet.now))) result)
            ⊎ ((result ≡ Err (TsStreamError.Reader OutOfMemory))
            × MayAllocate (ts_stream_decoder High) 0 (bits High packet.now)) }
        ensures back { (value : TsStream) (more : List Bool) → Fits value
            → bits High packet.now ≡ write_sequence (ts_stream_writes High value) 0 ++ more
            → (result ≡ Ok value)
            ⊎ (result ≡ Err (TsStreamError.Reader OutOfMemory)) }
    {
        ts_stream_round_trip();
        TsStream::read(&mut BitReader::<_, BE>::over(packet), alloc)
    }

    /// Writes the fields in order.
    ///
    /// # Errors
    ///
    /// `Checked` for a field that does not fit its bits. The fields before it have been written.
    /// Otherwise the sink's errors.
    pub fn write<W: BitWrite>(&self, writer: &mut W) -> Result<(), Error>
        ensures { WritesAll W.sink (ts_stream_writes W.sink.order self.now) writer.old result writer.new }
    {
        writer.write::<Bits<8>, u8>(self.kind)?;
        writer.write_const::<Bits<3>, Bits<7>>()?;
        writer.write::<Bits<13>, u16>(self.packets)?;
        writer.write_const::<Bits<4>, Bits<15>>()?;
        writer.write::<Bits<12>, u64>(self.descriptors.len() as u64)?;
        writer.write_bytes(&self.descriptors)?;
        Ok(())
    }

    /// Writes the fields to the first bytes of a buffer, and returns what was written. The other bytes
    /// stay as they were. Does not allocate.
    ///
    /// # Errors
    ///
    /// `Checked` for the first field that does not fit its bits, however long the buffer is.
    /// `Stream(WriteZero)` if all fields fit, and the buffer is too short for the bits.
    /// After an error, the first bytes of the buffer may have changed.
    pub fn pack_into<'a>(&self, buffer: &'a mut [u8]) -> Result<SliceMut<'a>, Error>
        ensures packed { IfOk result (λ packed. bits High (written_bytes packed) ≡ ts_stream_bits self.now) }
        ensures first { IfOk result (HoldsFirst buffer.entry.ghost_name buffer.old) }
        ensures accepted { IsOk result → AllAccepted (ts_stream_writes High self.now) 0 }
        ensures misfit { (error : Error) → sequence_length (ts_stream_writes High self.now) 0 ≡ Err error
            → result ≡ Err error }
        ensures room { Fits self.now → ts_stream_size High self.now ≤ 8 * length buffer.old
            → IsOk result }
        ensures short { Fits self.now → 8 * length buffer.old < ts_stream_size High self.now
            → result ≡ Err (Stream WriteZero) }
    {
        pack_into::<BE, TsStream>(self, buffer)
    }
}

impl FromBitStreamUsing for TsStream {
    type Context = Global;

    type Error = TsStreamError;

    ghost grows = { true };

    ghost becomes = { becomes_ts_stream };

    ghost reads = { λ o _. ts_stream_decoder o };

    fn from_reader<R: BitRead>(reader: &mut R, alloc: Global) -> Result<TsStream, TsStreamError> {
        TsStream::read(reader, alloc)
    }
}

impl ToBitStream for TsStream {
    type Error = Error;

    ghost becomes = { same_error };

    ghost writes = { ts_stream_writes };

    fn to_writer<W: BitWrite>(&self, writer: &mut W) -> Result<(), Error> {
        self.write(writer)
    }
}

/// A value that fits its bits is read back as it was written, in either order of bits, at any place.
/// The read takes only the bits that were written: `ts_stream_size` is their number.
pub fn ts_stream_round_trip()
    ensures back { (o : Order) (value : TsStream) (at from : ℕ) (more : List Bool) → Fits value
        → let written = write_sequence (ts_stream_writes o value) at in
        (ts_stream_decoder o).reads from (written ++ more) ≡ Done (length written) (Ok (Ok value)) }
    ensures size { (o : Order) (value : TsStream) (at : ℕ) → Fits value
        → length (write_sequence (ts_stream_writes o value) at) ≡ ts_stream_size o value }
{}
