//! A record of TLS (RFC 8446, section 5.1; RFC 5246, section 6.2.1).
//!
//! Made by `./format` from formats/tls_record.fields: edit that file and make this one anew.
ghost use Rattle.bitstream_messages.specs.TlsRecord.{tls_record_decoder, tls_record_writes, tls_record_size, tls_record_bits, Fits, content_of, content_number, content_read};
ghost use Rattle.bitstream_messages.specs.declared.tls_record.TlsRecord.{TlsRecord};
ghost use Rattle.std.specs.Prelude.{◌≡◌, ◌<◌, ◌≤◌, ◌*◌, ◌++◌, ◌⊎◌, ℕ, Bool, true, List, Ok, Err, length, IfOk, IsOk};
ghost use Rattle.std.specs.declared.io.ErrorKind.TheVariants.{WriteZero};
ghost use Rattle.bitstream_io.specs.Callers.{Done, Error, Order, High, bits, write_sequence, Reads, OwnAnswer, WritesAll, AllAccepted, sequence_length, sure_answer, GrowsOwn, MayAllocate, OutOfMemory, Stream, same_error};
ghost use Rattle.bitstream_io.specs.SliceMut.{HoldsFirst, written_bytes};

use bitstream_io::{
    BE, BitRead, BitReadExt, BitReader, BitWrite, BitWriteExt, Bits, Error, FromBitStreamUsing,
    SliceMut, ToBitStream, pack_into,
};
use std::alloc::Global;
use std::marker::Model;

/// A record of TLS (RFC 8446, section 5.1; RFC 5246, section 6.2.1).
///
/// ```text
///  0                   1                   2                   3
///  0 1 2 3 4 5 6 7 8 9 0 1 2 3 4 5 6 7 8 9 0 1 2 3 4 5 6 7 8 9 0 1
/// +-+-+-+-+-+-+-+-+-+-+-+-+-+-+-+-+-+-+-+-+-+-+-+-+-+-+-+-+-+-+-+-+
/// |    content    |            version            | fragment_bytes|
/// +-+-+-+-+-+-+-+-+-+-+-+-+-+-+-+-+-+-+-+-+-+-+-+-+-+-+-+-+-+-+-+-+
/// |               |
/// +-+-+-+-+-+-+-+-+-+-+-+-+-+-+-+-+-+-+-+-+-+-+-+-+-+-+-+-+-+-+-+-+
/// /                fragment (fragment_bytes bytes)                /
/// +-+-+-+-+-+-+-+-+-+-+-+-+-+-+-+-+-+-+-+-+-+-+-+-+-+-+-+-+-+-+-+-+
/// ```
#[derive(Debug, Drop)]
pub struct TlsRecord {
    /// The type of the content.
    pub content: Content,
    /// The version, 0x0301 to 0x0303.
    pub version: u16,
    /// The contents, which may be encrypted.
    pub fragment: Vec<u8>,
}

impl Model for TlsRecord {
    ghost use Rattle.bitstream_messages.specs.TlsRecordFields.{TlsRecordFields};

    ghost Value = { TlsRecordFields };

    ghost view = { λ value. record {
      content = value.content;
      version = value.version;
      fragment = value.fragment.items;
    } };
}

/// The type of the content.
#[derive(Clone, Copy, Debug, PartialEq)]
pub enum Content {
    /// Encoded as 20.
    ChangeCipherSpec,
    /// Encoded as 21.
    Alert,
    /// Encoded as 22.
    Handshake,
    /// Encoded as 23.
    Data,
    /// Any other number.
    Other(u8),
}

impl Content {
    /// Decodes a number.
    pub fn of(number: u8) -> Content
        ensures { result ≡ content_of number }
    {
        if number == 20 {
            return Content::ChangeCipherSpec;
        }
        if number == 21 {
            return Content::Alert;
        }
        if number == 22 {
            return Content::Handshake;
        }
        if number == 23 {
            return Content::Data;
        }
        Content::Other(number)
    }

    /// Returns the number of the case.
    pub fn number(self) -> u8
        ensures { result ≡ content_number self }
    {
        match self {
            Content::ChangeCipherSpec => 20,
            Content::Alert => 21,
            Content::Handshake => 22,
            Content::Data => 23,
            Content::Other(number) => number,
        }
    }

    /// Reads a number of 8 bits, and decodes it.
    pub fn read<R: BitRead>(reader: &mut R) -> Result<Content, Error>
        ensures { Reads R.source (content_read R.source.order) reader.old result reader.new }
    {
        let number = reader.read::<Bits<8>, u8>()?;
        Ok(Content::of(number))
    }
}

impl TlsRecord {
    /// The number of bits before each line of the description.
    pub const PLACES: [u64; 4] = [0, 8, 24, 40];

    /// Reads the fields in order.
    ///
    /// # Errors
    ///
    /// `OutOfMemory` if an allocation for a list fails. The items before the failure
    /// have been read.
    /// Otherwise the reader's errors, after which it has failed.
    pub fn read<R: BitRead>(reader: &mut R, alloc: Global) -> Result<TlsRecord, Error>
        ensures { GrowsOwn R.source same_error (tls_record_decoder R.source.order) reader.old result reader.new }
    {
        let content = Content::read(reader)?;
        let version = reader.read::<Bits<16>, u16>()?;
        let fragment_bytes = reader.read::<Bits<16>, u64>()?;
        let fragment = reader.read_to_vec(alloc, fragment_bytes as usize)?;
        Ok(TlsRecord {
            content,
            version,
            fragment,
        })
    }

    /// Parses the value at the start of `packet`.
    ///
    /// # Errors
    ///
    /// `EndOfInput` if the bytes end before the fields do.
    /// `OutOfMemory` if the allocation for an item of a list fails.
    pub fn parse(packet: &[u8], alloc: Global) -> Result<TlsRecord, Error>
        ensures answer { (OwnAnswer same_error (λ answer. answer)
            (sure_answer ((tls_record_decoder High).reads 0 (bits High packet.now))) result)
            ⊎ ((result ≡ Err OutOfMemory)
            × MayAllocate (tls_record_decoder High) 0 (bits High packet.now)) }
        ensures back { (value : TlsRecord) (more : List Bool) → Fits value
            → bits High packet.now ≡ write_sequence (tls_record_writes High value) 0 ++ more
            → (result ≡ Ok value)
            ⊎ (result ≡ Err OutOfMemory) }
    {
        tls_record_round_trip();
        TlsRecord::read(&mut BitReader::<_, BE>::over(packet), alloc)
    }

    /// Writes the fields in order.
    ///
    /// # Errors
    ///
    /// `Checked` for a field that does not fit its bits. The fields before it have been written.
    /// Otherwise the sink's errors.
    pub fn write<W: BitWrite>(&self, writer: &mut W) -> Result<(), Error>
        ensures { WritesAll W.sink (tls_record_writes W.sink.order self.now) writer.old result writer.new }
    {
        writer.write::<Bits<8>, u8>(self.content.number())?;
        writer.write::<Bits<16>, u16>(self.version)?;
        writer.write::<Bits<16>, u64>(self.fragment.len() as u64)?;
        writer.write_bytes(&self.fragment)?;
        Ok(())
    }

    /// Writes the fields to the first bytes of a buffer, and returns what was written. The other bytes
    /// stay as they were. Does not allocate.
    ///
    /// # Errors
    ///
    /// `Checked` for the first field that does not fit its bits, however long the buffer is.
    /// `Stream(WriteZero)` if all fields fit, and the buffer is too short for the bits.
    /// After an error, the first bytes of the buffer may have changed.
    pub fn pack_into<'a>(&self, buffer: &'a mut [u8]) -> Result<SliceMut<'a>, Error>
        ensures packed { IfOk result (λ packed. bits High (written_bytes packed) ≡ tls_record_bits self.now) }
        ensures first { IfOk result (HoldsFirst buffer.entry.ghost_name buffer.old) }
        ensures accepted { IsOk result → AllAccepted (tls_record_writes High self.now) 0 }
        ensures misfit { (error : Error) → sequence_length (tls_record_writes High self.now) 0 ≡ Err error
            → result ≡ Err error }
        ensures room { Fits self.now → tls_record_size High self.now ≤ 8 * length buffer.old
            → IsOk result }
        ensures short { Fits self.now → 8 * length buffer.old < tls_record_size High self.now
            → result ≡ Err (Stream WriteZero) }
    {
        pack_into::<BE, TlsRecord>(self, buffer)
    }
}

impl FromBitStreamUsing for TlsRecord {
    type Context = Global;

    type Error = Error;

    ghost grows = { true };

    ghost becomes = { same_error };

    ghost reads = { λ o _. tls_record_decoder o };

    fn from_reader<R: BitRead>(reader: &mut R, alloc: Global) -> Result<TlsRecord, Error> {
        TlsRecord::read(reader, alloc)
    }
}

impl ToBitStream for TlsRecord {
    type Error = Error;

    ghost becomes = { same_error };

    ghost writes = { tls_record_writes };

    fn to_writer<W: BitWrite>(&self, writer: &mut W) -> Result<(), Error> {
        self.write(writer)
    }
}

/// A value that fits its bits is read back as it was written, in either order of bits, at any place.
/// The read takes only the bits that were written: `tls_record_size` is their number.
pub fn tls_record_round_trip()
    ensures back { (o : Order) (value : TlsRecord) (at from : ℕ) (more : List Bool) → Fits value
        → let written = write_sequence (tls_record_writes o value) at in
        (tls_record_decoder o).reads from (written ++ more) ≡ Done (length written) (Ok (Ok value)) }
    ensures size { (o : Order) (value : TlsRecord) (at : ℕ) → Fits value
        → length (write_sequence (tls_record_writes o value) at) ≡ tls_record_size o value }
{}
