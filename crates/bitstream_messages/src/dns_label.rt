//! A label of a domain name, or a pointer to the rest of the name (RFC 1035, 4.1.4).
//!
//! Made by `./format` from formats/dns_label.fields: edit that file and make this one anew.
ghost use Rattle.bitstream_messages.specs.DnsLabel.{dns_label_decoder, dns_label_writes, dns_label_size, dns_label_bits, Fits, becomes_dns_label, body_number, body_read, body_writes};
ghost use Rattle.bitstream_messages.specs.declared.dns_label.DnsLabel.{DnsLabel};
ghost use Rattle.bitstream_messages.specs.declared.dns_label.DnsLabelError.{DnsLabelError};
ghost use Rattle.bitstream_messages.specs.declared.dns_label.DnsLabelError.TheVariants.{Reader};
ghost use Rattle.std.specs.Prelude.{◌≡◌, ◌<◌, ◌≤◌, ◌*◌, ◌++◌, ◌⊎◌, ℕ, Bool, true, List, Ok, Err, length, IfOk, IsOk};
ghost use Rattle.std.specs.declared.io.ErrorKind.TheVariants.{WriteZero};
ghost use Rattle.bitstream_io.specs.Callers.{Done, Error, Order, High, bits, write_sequence, OwnAnswer, WritesAll, AllAccepted, sequence_length, sure_answer, GrowsOwn, MayAllocate, OutOfMemory, Stream, same_error};
ghost use Rattle.bitstream_io.specs.SliceMut.{HoldsFirst, written_bytes};

use crate::dns_pointer::DnsPointer;
use crate::dns_text::DnsText;
use bitstream_io::{
    BE, BitRead, BitReadExt, BitReader, BitWrite, BitWriteExt, Bits, Error, FromBitStreamUsing,
    SliceMut, ToBitStream, pack_into,
};
use std::alloc::Global;
use std::marker::Model;

/// A label of a domain name, or a pointer to the rest of the name (RFC 1035, 4.1.4).
///
/// ```text
///  0                   1                   2                   3
///  0 1 2 3 4 5 6 7 8 9 0 1 2 3 4 5 6 7 8 9 0 1 2 3 4 5 6 7 8 9 0 1
/// +-+-+
/// |bod|
/// +-+-+-+-+-+-+-+-+-+-+-+-+-+-+-+-+-+-+-+-+-+-+-+-+-+-+-+-+-+-+-+-+
/// /                     body (Text or Pointer)                    /
/// +-+-+-+-+-+-+-+-+-+-+-+-+-+-+-+-+-+-+-+-+-+-+-+-+-+-+-+-+-+-+-+-+
/// ```
#[derive(Debug, Drop)]
pub struct DnsLabel {
    /// The label, or the pointer.
    pub body: Body,
}

impl Model for DnsLabel {
    ghost use Rattle.bitstream_messages.specs.DnsLabelFields.{DnsLabelFields};

    ghost Value = { DnsLabelFields };

    ghost view = { λ value. record {
      body = value.body;
    } };
}

/// The errors of reading a `DnsLabel`.
#[derive(Debug, Drop, thiserror::Error)]
pub enum DnsLabelError {
    /// An error of the reader.
    #[error("{0}")]
    Reader(Error),
    /// `Body` has no case for the number before `body`.
    #[error("`Body` has no case for the number before `body`")]
    NoBody,
}

impl From<Error> for DnsLabelError {
    ghost from_gives = { becomes_dns_label };

    fn from(error: Error) -> DnsLabelError {
        DnsLabelError::Reader(error)
    }
}

/// The label, or the pointer.
#[derive(Debug, Drop)]
pub enum Body {
    /// The case for the number 0.
    Text(DnsText),
    /// The case for the number 3.
    Pointer(DnsPointer),
}

impl Body {
    /// Returns the number of the case.
    pub fn number(&self) -> u8
        ensures { result ≡ body_number self.now }
    {
        match self {
            Body::Text(_) => 0,
            Body::Pointer(_) => 3,
        }
    }

    /// Reads what follows the number of a case.
    ///
    /// # Errors
    ///
    /// `NoBody` if no case has the number, before anything is read.
    /// Otherwise the reader's errors, after which it has failed.
    pub fn read<R: BitRead>(
        reader: &mut R,
        alloc: Global,
        number: u8,
    ) -> Result<Body, DnsLabelError>
        ensures { GrowsOwn R.source becomes_dns_label (body_read R.source.order number) reader.old result reader.new }
    {
        if number == 0 {
            return Ok(Body::Text(DnsText::read(reader, alloc)?));
        }
        if number == 3 {
            return Ok(Body::Pointer(DnsPointer::read(reader)?));
        }
        Err(DnsLabelError::NoBody)
    }

    /// Writes what follows the number of the case.
    ///
    /// # Errors
    ///
    /// `Checked` for a field that does not fit its bits. The fields before it have been written.
    /// Otherwise the sink's errors.
    pub fn write<W: BitWrite>(&self, writer: &mut W) -> Result<(), Error>
        ensures { WritesAll W.sink (body_writes W.sink.order self.now) writer.old result writer.new }
    {
        match self {
            Body::Text(it) => it.write(writer),
            Body::Pointer(it) => it.write(writer),
        }
    }
}

impl DnsLabel {
    /// The number of bits before each line of the description.
    pub const PLACES: [u64; 2] = [0, 2];

    /// Reads the fields in order.
    ///
    /// # Errors
    ///
    /// `NoBody`, after the rejected bits have been read.
    /// `Reader(OutOfMemory)` if an allocation for a list fails. The items before the failure
    /// have been read.
    /// Otherwise the reader's errors, after which it has failed.
    pub fn read<R: BitRead>(reader: &mut R, alloc: Global) -> Result<DnsLabel, DnsLabelError>
        ensures { GrowsOwn R.source becomes_dns_label (dns_label_decoder R.source.order) reader.old result reader.new }
    {
        let body_tag = reader.read::<Bits<2>, u8>()?;
        let body = Body::read(reader, alloc, body_tag)?;
        Ok(DnsLabel { body })
    }

    /// Parses the value at the start of `packet`.
    ///
    /// # Errors
    ///
    /// `NoBody` if bits are rejected.
    /// `Reader(EndOfInput)` if the bytes end before the fields do.
    /// `Reader(OutOfMemory)` if the allocation for an item of a list fails.
    pub fn parse(packet: &[u8], alloc: Global) -> Result<DnsLabel, DnsLabelError>
        ensures answer { (OwnAnswer becomes_dns_label (λ answer. answer)
            (sure_answer ((dns_label_decoder High).reads 0 (bits High packet.now))) result)
            ⊎ ((result ≡ Err (DnsLabelError.Reader OutOfMemory))
            × MayAllocate (dns_label_decoder High) 0 (bits High packet.now)) }
        ensures back { (value : DnsLabel) (more : List Bool) → Fits value
            → bits High packet.now ≡ write_sequence (dns_label_writes High value) 0 ++ more
            → (result ≡ Ok value)
            ⊎ (result ≡ Err (DnsLabelError.Reader OutOfMemory)) }
    {
        dns_label_round_trip();
        DnsLabel::read(&mut BitReader::<_, BE>::over(packet), alloc)
    }

    /// Writes the fields in order.
    ///
    /// # Errors
    ///
    /// `Checked` for a field that does not fit its bits. The fields before it have been written.
    /// Otherwise the sink's errors.
    pub fn write<W: BitWrite>(&self, writer: &mut W) -> Result<(), Error>
        ensures { WritesAll W.sink (dns_label_writes W.sink.order self.now) writer.old result writer.new }
    {
        writer.write::<Bits<2>, u8>(self.body.number())?;
        self.body.write(writer)?;
        Ok(())
    }

    /// Writes the fields to the first bytes of a buffer, and returns what was written. The other bytes
    /// stay as they were. Does not allocate.
    ///
    /// # Errors
    ///
    /// `Checked` for the first field that does not fit its bits, however long the buffer is.
    /// `Stream(WriteZero)` if all fields fit, and the buffer is too short for the bits.
    /// After an error, the first bytes of the buffer may have changed.
    pub fn pack_into<'a>(&self, buffer: &'a mut [u8]) -> Result<SliceMut<'a>, Error>
        ensures packed { IfOk result (λ packed. bits High (written_bytes packed) ≡ dns_label_bits self.now) }
        ensures first { IfOk result (HoldsFirst buffer.entry.ghost_name buffer.old) }
        ensures accepted { IsOk result → AllAccepted (dns_label_writes High self.now) 0 }
        ensures misfit { (error : Error) → sequence_length (dns_label_writes High self.now) 0 ≡ Err error
            → result ≡ Err error }
        ensures room { Fits self.now → dns_label_size High self.now ≤ 8 * length buffer.old
            → IsOk result }
        ensures short { Fits self.now → 8 * length buffer.old < dns_label_size High self.now
            → result ≡ Err (Stream WriteZero) }
    {
        pack_into::<BE, DnsLabel>(self, buffer)
    }
}

impl FromBitStreamUsing for DnsLabel {
    type Context = Global;

    type Error = DnsLabelError;

    ghost grows = { true };

    ghost becomes = { becomes_dns_label };

    ghost reads = { λ o _. dns_label_decoder o };

    fn from_reader<R: BitRead>(reader: &mut R, alloc: Global) -> Result<DnsLabel, DnsLabelError> {
        DnsLabel::read(reader, alloc)
    }
}

impl ToBitStream for DnsLabel {
    type Error = Error;

    ghost becomes = { same_error };

    ghost writes = { dns_label_writes };

    fn to_writer<W: BitWrite>(&self, writer: &mut W) -> Result<(), Error> {
        self.write(writer)
    }
}

/// A value that fits its bits is read back as it was written, in either order of bits, at any place.
/// The read takes only the bits that were written: `dns_label_size` is their number.
pub fn dns_label_round_trip()
    ensures back { (o : Order) (value : DnsLabel) (at from : ℕ) (more : List Bool) → Fits value
        → let written = write_sequence (dns_label_writes o value) at in
        (dns_label_decoder o).reads from (written ++ more) ≡ Done (length written) (Ok (Ok value)) }
    ensures size { (o : Order) (value : DnsLabel) (at : ℕ) → Fits value
        → length (write_sequence (dns_label_writes o value) at) ≡ dns_label_size o value }
{}
