//! The start of a long header of QUIC (RFC 9000, section 17.2, and RFC 8999, section 5.1).
//!
//! Made by `./format` from formats/quic_long_header.fields: edit that file and make this one anew.
ghost use Rattle.protocols.specs.QuicLongHeader.{quic_long_header_decoder, quic_long_header_writes, quic_long_header_size, quic_long_header_bits, Fits, becomes_quic_long_header};
ghost use Rattle.protocols.specs.declared.quic_long_header.QuicLongHeader.{QuicLongHeader};
ghost use Rattle.protocols.specs.declared.quic_long_header.QuicError.{QuicError};
ghost use Rattle.protocols.specs.declared.quic_long_header.QuicError.TheVariants.{Reader};
ghost use Rattle.std.specs.Prelude.{◌≡◌, ◌<◌, ◌≤◌, ◌*◌, ◌++◌, ◌⊎◌, ℕ, Bool, true, List, Ok, Err, length, IfOk, IsOk};
ghost use Rattle.std.specs.declared.io.ErrorKind.TheVariants.{WriteZero};
ghost use Rattle.bitstream_io.specs.Callers.{Done, Error, Order, High, bits, write_sequence, OwnAnswer, WritesAll, AllAccepted, sequence_length, sure_answer, GrowsOwn, MayAllocate, OutOfMemory, Stream, same_error};
ghost use Rattle.bitstream_io.specs.SliceMut.{HoldsFirst, written_bytes};

use bitstream_io::{
    BE, BitRead, BitReadExt, BitReader, BitWrite, BitWriteExt, Bits, Error, FromBitStreamUsing,
    SliceMut, ToBitStream, pack_into,
};
use std::alloc::Global;
use std::marker::Model;

/// The start of a long header of QUIC (RFC 9000, section 17.2, and RFC 8999, section 5.1).
///
/// ```text
///  0                   1                   2                   3
///  0 1 2 3 4 5 6 7 8 9 0 1 2 3 4 5 6 7 8 9 0 1 2 3 4 5 6 7 8 9 0 1
/// +-+-+-+-+-+-+-+-+-+-+-+-+-+-+-+-+-+-+-+-+-+-+-+-+-+-+-+-+-+-+-+-+
/// |=|f|kin|specifi|                    version                    |
/// +-+-+-+-+-+-+-+-+-+-+-+-+-+-+-+-+-+-+-+-+-+-+-+-+-+-+-+-+-+-+-+-+
/// |               |  target_count |
/// +-+-+-+-+-+-+-+-+-+-+-+-+-+-+-+-+-+-+-+-+-+-+-+-+-+-+-+-+-+-+-+-+
/// /                  target (target_count bytes)                  /
/// +-+-+-+-+-+-+-+-+-+-+-+-+-+-+-+-+-+-+-+-+-+-+-+-+-+-+-+-+-+-+-+-+
/// |  source_count |
/// +-+-+-+-+-+-+-+-+-+-+-+-+-+-+-+-+-+-+-+-+-+-+-+-+-+-+-+-+-+-+-+-+
/// /                  source (source_count bytes)                  /
/// +-+-+-+-+-+-+-+-+-+-+-+-+-+-+-+-+-+-+-+-+-+-+-+-+-+-+-+-+-+-+-+-+
/// ```
#[derive(Debug, Drop)]
pub struct QuicLongHeader {
    /// True, except where version negotiation takes any value.
    pub fixed: bool,
    /// The kind of the packet, as 0 for an initial packet of version 1. Below 2^2.
    pub kind: u8,
    /// Bits whose meaning depends on the kind of the packet. Below 2^4.
    pub specific: u8,
    /// The version, or 0 for version negotiation.
    pub version: u32,
    /// The connection's identifier that the receiver chose. Fewer than 2^8.
    pub target: Vec<u8>,
    /// The connection's identifier that the sender chose. Fewer than 2^8.
    pub source: Vec<u8>,
}

impl Model for QuicLongHeader {
    ghost use Rattle.protocols.specs.QuicLongHeaderFields.{QuicLongHeaderFields};

    ghost Value = { QuicLongHeaderFields };

    ghost view = { λ value. record {
      fixed = value.fixed;
      kind = value.kind;
      specific = value.specific;
      version = value.version;
      target = value.target.items;
      source = value.source.items;
    } };
}

/// The errors of reading a `QuicLongHeader`.
#[derive(Debug, Drop, thiserror::Error)]
pub enum QuicError {
    /// An error of the reader.
    #[error("{0}")]
    Reader(Error),
    /// The header is a short one.
    #[error("the header is a short one")]
    ShortHeader,
}

impl From<Error> for QuicError {
    ghost from_gives = { becomes_quic_long_header };

    fn from(error: Error) -> QuicError {
        QuicError::Reader(error)
    }
}

impl QuicLongHeader {
    /// Reads the fields in order.
    ///
    /// # Errors
    ///
    /// `ShortHeader`, after the rejected bits have been read.
    /// `Reader(OutOfMemory)` if an allocation for a list fails. The items before the failure
    /// have been read.
    /// Otherwise the reader's errors, after which it has failed.
    pub fn read<R: BitRead>(reader: &mut R, alloc: Global) -> Result<QuicLongHeader, QuicError>
        ensures { GrowsOwn R.source becomes_quic_long_header (quic_long_header_decoder R.source.order) reader.old result reader.new }
    {
        reader.read_const::<Bits<1>, Bits<1>, QuicError>(QuicError::ShortHeader)?;
        let fixed = reader.read_bit()?;
        let kind = reader.read::<Bits<2>, u8>()?;
        let specific = reader.read::<Bits<4>, u8>()?;
        let version = reader.read::<Bits<32>, u32>()?;
        let target_count = reader.read::<Bits<8>, u64>()?;
        let target = reader.read_to_vec(alloc, target_count as usize)?;
        let source_count = reader.read::<Bits<8>, u64>()?;
        let source = reader.read_to_vec(alloc, source_count as usize)?;
        Ok(QuicLongHeader {
            fixed,
            kind,
            specific,
            version,
            target,
            source,
        })
    }

    /// Parses the value at the start of `packet`.
    ///
    /// # Errors
    ///
    /// `ShortHeader` if bits are rejected.
    /// `Reader(EndOfInput)` if the bytes end before the fields do.
    /// `Reader(OutOfMemory)` if the allocation for an item of a list fails.
    pub fn parse(packet: &[u8], alloc: Global) -> Result<QuicLongHeader, QuicError>
        ensures answer { (OwnAnswer becomes_quic_long_header (λ answer. answer)
            (sure_answer ((quic_long_header_decoder High).reads 0 (bits High packet.now))) result)
            ⊎ ((result ≡ Err (QuicError.Reader OutOfMemory))
            × MayAllocate (quic_long_header_decoder High) 0 (bits High packet.now)) }
        ensures back { (value : QuicLongHeader) (more : List Bool) → Fits value
            → bits High packet.now ≡ write_sequence (quic_long_header_writes High value) 0 ++ more
            → (result ≡ Ok value)
            ⊎ (result ≡ Err (QuicError.Reader OutOfMemory)) }
    {
        quic_long_header_round_trip();
        QuicLongHeader::read(&mut BitReader::<_, BE>::over(packet), alloc)
    }

    /// Writes the fields in order.
    ///
    /// # Errors
    ///
    /// `Checked` for a field that does not fit its bits. The fields before it have been written.
    /// Otherwise the sink's errors.
    pub fn write<W: BitWrite>(&self, writer: &mut W) -> Result<(), Error>
        ensures { WritesAll W.sink (quic_long_header_writes W.sink.order self.now) writer.old result writer.new }
    {
        writer.write_const::<Bits<1>, Bits<1>>()?;
        writer.write_bit(self.fixed)?;
        writer.write::<Bits<2>, u8>(self.kind)?;
        writer.write::<Bits<4>, u8>(self.specific)?;
        writer.write::<Bits<32>, u32>(self.version)?;
        writer.write::<Bits<8>, u64>(self.target.len() as u64)?;
        writer.write_bytes(&self.target)?;
        writer.write::<Bits<8>, u64>(self.source.len() as u64)?;
        writer.write_bytes(&self.source)?;
        Ok(())
    }

    /// Writes the fields to the first bytes of a buffer, and returns what was written. The other bytes
    /// stay as they were. Does not allocate.
    ///
    /// # Errors
    ///
    /// `Checked` for the first field that does not fit its bits, however long the buffer is.
    /// `Stream(WriteZero)` if all fields fit, and the buffer is too short for the bits.
    /// After an error, the first bytes of the buffer may have changed.
    pub fn pack_into<'a>(&self, buffer: &'a mut [u8]) -> Result<SliceMut<'a>, Error>
        ensures packed { IfOk result (λ packed. bits High (written_bytes packed) ≡ quic_long_header_bits self.now) }
        ensures first { IfOk result (HoldsFirst buffer.entry.ghost_name buffer.old) }
        ensures accepted { IsOk result → AllAccepted (quic_long_header_writes High self.now) 0 }
        ensures misfit { (error : Error) → sequence_length (quic_long_header_writes High self.now) 0 ≡ Err error
            → result ≡ Err error }
        ensures room { Fits self.now → quic_long_header_size High self.now ≤ 8 * length buffer.old
            → IsOk result }
        ensures short { Fits self.now → 8 * length buffer.old < quic_long_header_size High self.now
            → result ≡ Err (Stream WriteZero) }
    {
        pack_into::<BE, QuicLongHeader>(self, buffer)
    }
}

impl FromBitStreamUsing for QuicLongHeader {
    type Context = Global;

    type Error = QuicError;

    ghost grows = { true };

    ghost becomes = { becomes_quic_long_header };

    ghost reads = { λ o _. quic_long_header_decoder o };

    fn from_reader<R: BitRead>(reader: &mut R, alloc: Global) -> Result<QuicLongHeader, QuicError> {
        QuicLongHeader::read(reader, alloc)
    }
}

impl ToBitStream for QuicLongHeader {
    type Error = Error;

    ghost becomes = { same_error };

    ghost writes = { quic_long_header_writes };

    fn to_writer<W: BitWrite>(&self, writer: &mut W) -> Result<(), Error> {
        self.write(writer)
    }
}

/// A value that fits its bits is read back as it was written, in either order of bits, at any place.
/// The read takes only the bits that were written: `quic_long_header_size` is their number.
pub fn quic_long_header_round_trip()
    ensures back { (o : Order) (value : QuicLongHeader) (at from : ℕ) (more : List Bool) → Fits value
        → let written = write_sequence (quic_long_header_writes o value) at in
        (quic_long_header_decoder o).reads from (written ++ more) ≡ Done (length written) (Ok (Ok value)) }
    ensures size { (o : Order) (value : QuicLongHeader) (at : ℕ) → Fits value
        → length (write_sequence (quic_long_header_writes o value) at) ≡ quic_long_header_size o value }
{}
