//! A resource record (RFC 1035, 4.1.3).
//!
//! Made by `./format` from formats/dns_record.fields: edit that file and make this one anew.
ghost use Rattle.bitstream_messages.specs.DnsRecord.{dns_record_decoder, dns_record_writes, dns_record_size, dns_record_bits, Fits, becomes_dns_record, dns_name_error};
ghost use Rattle.bitstream_messages.specs.declared.dns_record.DnsRecord.{DnsRecord};
ghost use Rattle.bitstream_messages.specs.declared.dns_record.DnsRecordError.{DnsRecordError};
ghost use Rattle.bitstream_messages.specs.declared.dns_record.DnsRecordError.TheVariants.{Reader};
ghost use Rattle.std.specs.Prelude.{◌≡◌, ◌<◌, ◌≤◌, ◌*◌, ◌++◌, ◌⊎◌, ℕ, Bool, true, List, Ok, Err, length, IfOk, IsOk};
ghost use Rattle.std.specs.declared.io.ErrorKind.TheVariants.{WriteZero};
ghost use Rattle.bitstream_io.specs.Callers.{Done, Error, Order, High, bits, write_sequence, OwnAnswer, WritesAll, AllAccepted, sequence_length, sure_answer, GrowsOwn, MayAllocate, OutOfMemory, Stream, same_error};
ghost use Rattle.bitstream_io.specs.SliceMut.{HoldsFirst, written_bytes};

use crate::dns_name::{DnsName, DnsNameError};
use bitstream_io::{
    BE, BitRead, BitReadExt, BitReader, BitWrite, BitWriteExt, Bits, Error, FromBitStreamUsing,
    SliceMut, ToBitStream, pack_into,
};
use std::alloc::Global;
use std::marker::Model;

/// A resource record (RFC 1035, 4.1.3).
///
/// ```text
///  0                   1                   2                   3
///  0 1 2 3 4 5 6 7 8 9 0 1 2 3 4 5 6 7 8 9 0 1 2 3 4 5 6 7 8 9 0 1
/// +-+-+-+-+-+-+-+-+-+-+-+-+-+-+-+-+-+-+-+-+-+-+-+-+-+-+-+-+-+-+-+-+
/// /                         name (DnsName)                        /
/// +-+-+-+-+-+-+-+-+-+-+-+-+-+-+-+-+-+-+-+-+-+-+-+-+-+-+-+-+-+-+-+-+
/// |              kind             |             class             |
/// +-+-+-+-+-+-+-+-+-+-+-+-+-+-+-+-+-+-+-+-+-+-+-+-+-+-+-+-+-+-+-+-+
/// |                              ttl                              |
/// +-+-+-+-+-+-+-+-+-+-+-+-+-+-+-+-+-+-+-+-+-+-+-+-+-+-+-+-+-+-+-+-+
/// |           data_bytes          |
/// +-+-+-+-+-+-+-+-+-+-+-+-+-+-+-+-+-+-+-+-+-+-+-+-+-+-+-+-+-+-+-+-+
/// /                    data (data_bytes bytes)                    /
/// +-+-+-+-+-+-+-+-+-+-+-+-+-+-+-+-+-+-+-+-+-+-+-+-+-+-+-+-+-+-+-+-+
/// ```
#[derive(Debug, Drop)]
pub struct DnsRecord {
    /// The name that it belongs to.
    pub name: DnsName,
    /// The type, as 1 for an address of IPv4.
    pub kind: u16,
    /// The class, 1 for the Internet.
    pub class: u16,
    /// The time that it may be kept, in seconds.
    pub ttl: u32,
    /// The data. Names in them may be pointers.
    pub data: Vec<u8>,
}

impl Model for DnsRecord {
    ghost use Rattle.bitstream_messages.specs.DnsRecordFields.{DnsRecordFields};

    ghost Value = { DnsRecordFields };

    ghost view = { λ value. record {
      name = value.name;
      kind = value.kind;
      class = value.class;
      ttl = value.ttl;
      «data» = value.data.items;
    } };
}

/// The errors of reading a `DnsRecord`.
#[derive(Debug, Drop, thiserror::Error)]
pub enum DnsRecordError {
    /// An error of the reader.
    #[error("{0}")]
    Reader(Error),
    /// An error of a `DnsName` that is not the reader's.
    #[error("in a `DnsName`: {0}")]
    InDnsName(DnsNameError),
}

impl From<Error> for DnsRecordError {
    ghost from_gives = { becomes_dns_record };

    fn from(error: Error) -> DnsRecordError {
        DnsRecordError::Reader(error)
    }
}

impl From<DnsNameError> for DnsRecordError {
    ghost from_gives = { λ error own. own ≡ dns_name_error error };

    fn from(error: DnsNameError) -> DnsRecordError {
        match error {
            DnsNameError::Reader(error) => DnsRecordError::Reader(error),
            DnsNameError::InDnsLabel(error) => DnsRecordError::InDnsName(DnsNameError::InDnsLabel(
                error,
            )),
        }
    }
}

impl DnsRecord {
    /// Reads the fields in order.
    ///
    /// # Errors
    ///
    /// `InDnsName`, after the rejected bits have been read.
    /// `Reader(OutOfMemory)` if an allocation for a list fails. The items before the failure
    /// have been read.
    /// Otherwise the reader's errors, after which it has failed.
    pub fn read<R: BitRead>(reader: &mut R, alloc: Global) -> Result<DnsRecord, DnsRecordError>
        ensures { GrowsOwn R.source becomes_dns_record (dns_record_decoder R.source.order) reader.old result reader.new }
    {
        let name = DnsName::read(reader, alloc)?;
        let kind = reader.read::<Bits<16>, u16>()?;
        let class = reader.read::<Bits<16>, u16>()?;
        let ttl = reader.read::<Bits<32>, u32>()?;
        let data_bytes = reader.read::<Bits<16>, u64>()?;
        let data_ = reader.read_to_vec(alloc, data_bytes as usize)?;
        Ok(DnsRecord {
            name,
            kind,
            class,
            ttl,
            data: data_,
        })
    }

    /// Parses the value at the start of `packet`.
    ///
    /// # Errors
    ///
    /// `InDnsName` if bits are rejected.
    /// `Reader(EndOfInput)` if the bytes end before the fields do.
    /// `Reader(RunTooLong)` if the last part is not among the first 2^32.
    /// `Reader(OutOfMemory)` if the allocation for an item of a list fails.
    pub fn parse(packet: &[u8], alloc: Global) -> Result<DnsRecord, DnsRecordError>
        ensures answer { (OwnAnswer becomes_dns_record (λ answer. answer)
            (sure_answer ((dns_record_decoder High).reads 0 (bits High packet.now))) result)
            ⊎ ((result ≡ Err (DnsRecordError.Reader OutOfMemory))
            × MayAllocate (dns_record_decoder High) 0 (bits High packet.now)) }
        ensures back { (value : DnsRecord) (more : List Bool) → Fits value
            → bits High packet.now ≡ write_sequence (dns_record_writes High value) 0 ++ more
            → (result ≡ Ok value)
            ⊎ (result ≡ Err (DnsRecordError.Reader OutOfMemory)) }
    {
        dns_record_round_trip();
        DnsRecord::read(&mut BitReader::<_, BE>::over(packet), alloc)
    }

    /// Writes the fields in order.
    ///
    /// # Errors
    ///
    /// `Checked` for a field that does not fit its bits. The fields before it have been written.
    /// Otherwise the sink's errors.
    pub fn write<W: BitWrite>(&self, writer: &mut W) -> Result<(), Error>
        ensures { WritesAll W.sink (dns_record_writes W.sink.order self.now) writer.old result writer.new }
    {
        self.name.write(writer)?;
        writer.write::<Bits<16>, u16>(self.kind)?;
        writer.write::<Bits<16>, u16>(self.class)?;
        writer.write::<Bits<32>, u32>(self.ttl)?;
        writer.write::<Bits<16>, u64>(self.data.len() as u64)?;
        writer.write_bytes(&self.data)?;
        Ok(())
    }

    /// Writes the fields to the first bytes of a buffer, and returns what was written. The other bytes
    /// stay as they were. Does not allocate.
    ///
    /// # Errors
    ///
    /// `Checked` for the first field that does not fit its bits, however long the buffer is.
    /// `Stream(WriteZero)` if all fields fit, and the buffer is too short for the bits.
    /// After an error, the first bytes of the buffer may have changed.
    pub fn pack_into<'a>(&self, buffer: &'a mut [u8]) -> Result<SliceMut<'a>, Error>
        ensures packed { IfOk result (λ packed. bits High (written_bytes packed) ≡ dns_record_bits self.now) }
        ensures first { IfOk result (HoldsFirst buffer.entry.ghost_name buffer.old) }
        ensures accepted { IsOk result → AllAccepted (dns_record_writes High self.now) 0 }
        ensures misfit { (error : Error) → sequence_length (dns_record_writes High self.now) 0 ≡ Err error
            → result ≡ Err error }
        ensures room { Fits self.now → dns_record_size High self.now ≤ 8 * length buffer.old
            → IsOk result }
        ensures short { Fits self.now → 8 * length buffer.old < dns_record_size High self.now
            → result ≡ Err (Stream WriteZero) }
    {
        pack_into::<BE, DnsRecord>(self, buffer)
    }
}

impl FromBitStreamUsing for DnsRecord {
    type Context = Global;

    type Error = DnsRecordError;

    ghost grows = { true };

    ghost becomes = { becomes_dns_record };

    ghost reads = { λ o _. dns_record_decoder o };

    fn from_reader<R: BitRead>(reader: &mut R, alloc: Global) -> Result<DnsRecord, DnsRecordError> {
        DnsRecord::read(reader, alloc)
    }
}

impl ToBitStream for DnsRecord {
    type Error = Error;

    ghost becomes = { same_error };

    ghost writes = { dns_record_writes };

    fn to_writer<W: BitWrite>(&self, writer: &mut W) -> Result<(), Error> {
        self.write(writer)
    }
}

/// A value that fits its bits is read back as it was written, in either order of bits, at any place.
/// The read takes only the bits that were written: `dns_record_size` is their number.
pub fn dns_record_round_trip()
    ensures back { (o : Order) (value : DnsRecord) (at from : ℕ) (more : List Bool) → Fits value
        → let written = write_sequence (dns_record_writes o value) at in
        (dns_record_decoder o).reads from (written ++ more) ≡ Done (length written) (Ok (Ok value)) }
    ensures size { (o : Order) (value : DnsRecord) (at : ℕ) → Fits value
        → length (write_sequence (dns_record_writes o value) at) ≡ dns_record_size o value }
{}
