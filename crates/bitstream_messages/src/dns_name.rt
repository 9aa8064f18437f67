//! A domain name: labels up to the empty one, or up to a pointer to the rest of the name (RFC 1035, 4.1.4).
//!
//! Made by `./format` from formats/dns_name.fields: edit that file and make this one anew.
ghost use Rattle.bitstream_messages.specs.DnsName.{dns_name_decoder, dns_name_writes, dns_name_size, dns_name_bits, Fits, becomes_dns_name, labels_last, labels_body_octets_empty, dns_label_error, dns_label_here};
ghost use Rattle.bitstream_messages.specs.DnsLabel.{dns_label_writes};
ghost use Rattle.bitstream_messages.specs.declared.dns_name.DnsName.{DnsName};
ghost use Rattle.bitstream_messages.specs.declared.dns_name.DnsNameError.{DnsNameError};
ghost use Rattle.bitstream_messages.specs.declared.dns_name.DnsNameError.TheVariants.{Reader};
ghost use Rattle.std.specs.Prelude.{◌≡◌, ◌<◌, ◌≤◌, ◌*◌, ◌++◌, ◌⊎◌, ℕ, Bool, true, List, Ok, Err, length, IfOk, IsOk};
ghost use Rattle.std.specs.List.{flat_map};
ghost use Rattle.std.specs.declared.io.ErrorKind.TheVariants.{WriteZero};
ghost use Rattle.bitstream_io.specs.Callers.{Done, Error, Order, High, bits, write_sequence, OwnAnswer, WritesAll, AllAccepted, sequence_length, sure_answer, GrowsOwn, MayAllocate, OutOfMemory, Stream, result_map, same_error};
ghost use Rattle.bitstream_format.specs.UpToLast.{up_to_last_decoder};
ghost use Rattle.bitstream_io.specs.SliceMut.{HoldsFirst, written_bytes};

use crate::dns_label::{Body, DnsLabel, DnsLabelError};
use bitstream_io::{
    BE, BitRead, BitReader, BitWrite, Error, FromBitStreamUsing, SliceMut, ToBitStream, pack_into,
};
use std::alloc::{AllocFailed, Global};
use std::marker::Model;

/// A domain name: labels up to the empty one, or up to a pointer to the rest of the name (RFC 1035, 4.1.4).
///
/// ```text
///  0                   1                   2                   3
///  0 1 2 3 4 5 6 7 8 9 0 1 2 3 4 5 6 7 8 9 0 1 2 3 4 5 6 7 8 9 0 1
/// +-+-+-+-+-+-+-+-+-+-+-+-+-+-+-+-+-+-+-+-+-+-+-+-+-+-+-+-+-+-+-+-+
/// /              labels (DnsLabel up to the last one)             /
/// +-+-+-+-+-+-+-+-+-+-+-+-+-+-+-+-+-+-+-+-+-+-+-+-+-+-+-+-+-+-+-+-+
/// ```
#[derive(Debug, Drop)]
pub struct DnsName {
    /// The labels. The last one, and no other one, has `body == Pointer or empty body.octets`.
    pub labels: Vec<DnsLabel>,
}

impl Model for DnsName {
    ghost use Rattle.bitstream_messages.specs.DnsNameFields.{DnsNameFields};

    ghost Value = { DnsNameFields };

    ghost view = { λ value. record {
      labels = value.labels.items;
    } };
}

/// The errors of reading a `DnsName`.
#[derive(Debug, Drop, thiserror::Error)]
pub enum DnsNameError {
    /// An error of the reader.
    #[error("{0}")]
    Reader(Error),
    /// An error of a `DnsLabel` that is not the reader's.
    #[error("in a `DnsLabel`: {0}")]
    InDnsLabel(DnsLabelError),
}

impl From<Error> for DnsNameError {
    ghost from_gives = { becomes_dns_name };

    fn from(error: Error) -> DnsNameError {
        DnsNameError::Reader(error)
    }
}

impl From<DnsLabelError> for DnsNameError {
    ghost from_gives = { λ error own. own ≡ dns_label_error error };

    fn from(error: DnsLabelError) -> DnsNameError {
        match error {
            DnsLabelError::Reader(error) => DnsNameError::Reader(error),
            DnsLabelError::NoBody => DnsNameError::InDnsLabel(DnsLabelError::NoBody),
        }
    }
}

impl<T: Drop> From<AllocFailed<T>> for DnsNameError {
    ghost from_gives = { λ _ own. own ≡ Reader OutOfMemory };

    fn from(_refused: AllocFailed<T>) -> DnsNameError {
        DnsNameError::Reader(Error::OutOfMemory)
    }
}

/// Returns true for a case with a field `octets` that has no item.
fn labels_body_octets_empty(value: &Body) -> bool
    ensures { result ≡ labels_body_octets_empty value.now }
{
    match value {
        Body::Text(it) => it.octets.is_empty(),
        Body::Pointer(_) => false,
    }
}

/// Returns true for the last part of `labels`, which has `body == Pointer or empty body.octets`.
fn labels_last(item: &DnsLabel) -> bool
    ensures { result ≡ labels_last item.now }
{
    item.body.number() == 3 || labels_body_octets_empty(&item.body)
}

/// Reads `labels`, up to the last part. Stops after a part that is rejected, or whose allocation fails.
fn read_labels<R: BitRead>(reader: &mut R, alloc: Global) -> Result<Vec<DnsLabel>, DnsNameError>
    ensures { GrowsOwn R.source becomes_dns_name (up_to_last_decoder (dns_label_here R.source.order) labels_last)
        reader.old (result_map (λ found. found.items) result) reader.new }
{
    let mut found = Vec::new(alloc);
    for _ in 0..4294967296_u64 {
        let item = DnsLabel::read(reader, alloc)?;
        let last = labels_last(&item);
        found.push(item)?;
        if last {
            return Ok(found);
        }
    }
    reader.fail();
    Err(DnsNameError::Reader(Error::RunTooLong))
}

/// Writes the items of `labels`.
fn write_labels<W: BitWrite>(writer: &mut W, items: &[DnsLabel]) -> Result<(), Error>
    ensures { WritesAll W.sink (flat_map (dns_label_writes W.sink.order) items.now)
        writer.old result writer.new }
{
    for item in items {
        item.write(writer)?;
    }
    Ok(())
}

impl DnsName {
    /// The number of bits before each line of the description.
    pub const PLACES: [u64; 1] = [0];

    /// Reads the fields in order.
    ///
    /// # Errors
    ///
    /// `InDnsLabel`, after the rejected bits have been read.
    /// `Reader(OutOfMemory)` if an allocation for a list fails. The items before the failure
    /// have been read.
    /// Otherwise the reader's errors, after which it has failed.
    pub fn read<R: BitRead>(reader: &mut R, alloc: Global) -> Result<DnsName, DnsNameError>
        ensures { GrowsOwn R.source becomes_dns_name (dns_name_decoder R.source.order) reader.old result reader.new }
    {
        let labels = read_labels(reader, alloc)?;
        Ok(DnsName { labels })
    }

    /// Parses the value at the start of `packet`.
    ///
    /// # Errors
    ///
    /// `InDnsLabel` if bits are rejected.
    /// `Reader(EndOfInput)` if the bytes end before the fields do.
    /// `Reader(RunTooLong)` if the last part is not among the first 2^32.
    /// `Reader(OutOfMemory)` if the allocation for an item of a list fails.
    pub fn parse(packet: &[u8], alloc: Global) -> Result<DnsName, DnsNameError>
        ensures answer { (OwnAnswer becomes_dns_name (λ answer. answer)
            (sure_answer ((dns_name_decoder High).reads 0 (bits High packet.now))) result)
            ⊎ ((result ≡ Err (DnsNameError.Reader OutOfMemory))
            × MayAllocate (dns_name_decoder High) 0 (bits High packet.now)) }
        ensures back { (value : DnsName) (more : List Bool) → Fits value
            → bits High packet.now ≡ write_sequence (dns_name_writes High value) 0 ++ more
            → (result ≡ Ok value)
            ⊎ (result ≡ Err (DnsNameError.Reader OutOfMemory)) }
    {
        dns_name_round_trip();
        DnsName::read(&mut BitReader::<_, BE>::over(packet), alloc)
    }

    /// Writes the fields in order.
    ///
    /// # Errors
    ///
    /// `Checked` for a field that does not fit its bits. The fields before it have been written.
    /// Otherwise the sink's errors.
    pub fn write<W: BitWrite>(&self, writer: &mut W) -> Result<(), Error>
        ensures { WritesAll W.sink (dns_name_writes W.sink.order self.now) writer.old result writer.new }
    {
        write_labels(writer, &self.labels)?;
        Ok(())
    }

    /// Writes the fields to the first bytes of a buffer, and returns what was written. The other bytes
    /// stay as they were. Does not allocate.
    ///
    /// # Errors
    ///
    /// `Checked` for the first field that does not fit its bits, however long the buffer is.
    /// `Stream(WriteZero)` if all fields fit, and the buffer is too short for the bits.
    /// After an error, the first bytes of the buffer may have changed.
    pub fn pack_into<'a>(&self, buffer: &'a mut [u8]) -> Result<SliceMut<'a>, Error>
        ensures packed { IfOk result (λ packed. bits High (written_bytes packed) ≡ dns_name_bits self.now) }
        ensures first { IfOk result (HoldsFirst buffer.entry.ghost_name buffer.old) }
        ensures accepted { IsOk result → AllAccepted (dns_name_writes High self.now) 0 }
        ensures misfit { (error : Error) → sequence_length (dns_name_writes High self.now) 0 ≡ Err error
            → result ≡ Err error }
        ensures room { Fits self.now → dns_name_size High self.now ≤ 8 * length buffer.old
            → IsOk result }
        ensures short { Fits self.now → 8 * length buffer.old < dns_name_size High self.now
            → result ≡ Err (Stream WriteZero) }
    {
        pack_into::<BE, DnsName>(self, buffer)
    }
}

impl FromBitStreamUsing for DnsName {
    type Context = Global;

    type Error = DnsNameError;

    ghost grows = { true };

    ghost becomes = { becomes_dns_name };

    ghost reads = { λ o _. dns_name_decoder o };

    fn from_reader<R: BitRead>(reader: &mut R, alloc: Global) -> Result<DnsName, DnsNameError> {
        DnsName::read(reader, alloc)
    }
}

impl ToBitStream for DnsName {
    type Error = Error;

    ghost becomes = { same_error };

    ghost writes = { dns_name_writes };

    fn to_writer<W: BitWrite>(&self, writer: &mut W) -> Result<(), Error> {
        self.write(writer)
    }
}

/// A value that fits its bits is read back as it was written, in either order of bits, at any place.
/// The read takes only the bits that were written: `dns_name_size` is their number.
pub fn dns_name_round_trip()
    ensures back { (o : Order) (value : DnsName) (at from : ℕ) (more : List Bool) → Fits value
        → let written = write_sequence (dns_name_writes o value) at in
        (dns_name_decoder o).reads from (written ++ more) ≡ Done (length written) (Ok (Ok value)) }
    ensures size { (o : Order) (value : DnsName) (at : ℕ) → Fits value
        → length (write_sequence (dns_name_writes o value) at) ≡ dns_name_size o value }
{}
