//! A question of a DNS message (RFC 1035, 4.1.2).
//!
//! Made by `./format` from formats/dns_question.fields: edit that file and make this one anew.
ghost use Rattle.bitstream_messages.specs.DnsQuestion.{dns_question_decoder, dns_question_writes, dns_question_size, dns_question_bits, Fits, becomes_dns_question, dns_name_error};
ghost use Rattle.bitstream_messages.specs.declared.dns_question.DnsQuestion.{DnsQuestion};
ghost use Rattle.bitstream_messages.specs.declared.dns_question.DnsQuestionError.{DnsQuestionError};
ghost use Rattle.bitstream_messages.specs.declared.dns_question.DnsQuestionError.TheVariants.{Reader};
ghost use Rattle.std.specs.Prelude.{◌≡◌, ◌<◌, ◌≤◌, ◌*◌, ◌++◌, ◌⊎◌, ℕ, Bool, true, List, Ok, Err, length, IfOk, IsOk};
ghost use Rattle.std.specs.declared.io.ErrorKind.TheVariants.{WriteZero};
ghost use Rattle.bitstream_io.specs.Callers.{Done, Error, Order, High, bits, write_sequence, OwnAnswer, WritesAll, AllAccepted, sequence_length, sure_answer, GrowsOwn, MayAllocate, OutOfMemory, Stream, same_error};
ghost use Rattle.bitstream_io.specs.SliceMut.{HoldsFirst, written_bytes};

use crate::dns_name::{DnsName, DnsNameError};
use bitstream_io::{
    BE, BitRead, BitReadExt, BitReader, BitWrite, BitWriteExt, Bits, Error, FromBitStreamUsing,
    SliceMut, ToBitStream, pack_into,
};
use std::alloc::Global;
use std::marker::Model;

/// A question of a DNS message (RFC 1035, 4.1.2).
///
/// ```text
///  0                   1                   2                   3
///  0 1 2 3 4 5 6 7 8 9 0 1 2 3 4 5 6 7 8 9 0 1 2 3 4 5 6 7 8 9 0 1
/// +-+-+-+-+-+-+-+-+-+-+-+-+-+-+-+-+-+-+-+-+-+-+-+-+-+-+-+-+-+-+-+-+
/// /                         name (DnsName)                        /
/// +-+-+-+-+-+-+-+-+-+-+-+-+-+-+-+-+-+-+-+-+-+-+-+-+-+-+-+-+-+-+-+-+
/// |              kind             |             class             |
/// +-+-+-+-+-+-+-+-+-+-+-+-+-+-+-+-+-+-+-+-+-+-+-+-+-+-+-+-+-+-+-+-+
/// ```
#[derive(Debug, Drop)]
pub struct DnsQuestion {
    /// The name that is asked for.
    pub name: DnsName,
    /// The type of the records, as 1 for an address of IPv4.
    pub kind: u16,
    /// The class, 1 for the Internet.
    pub class: u16,
}

impl Model for DnsQuestion {
    ghost use Rattle.bitstream_messages.specs.DnsQuestionFields.{DnsQuestionFields};

    ghost Value = { DnsQuestionFields };

    ghost view = { λ value. record {
      name = value.name;
      kind = value.kind;
      class = value.class;
    } };
}

/// The errors of reading a `DnsQuestion`.
#[derive(Debug, Drop, thiserror::Error)]
pub enum DnsQuestionError {
    /// An error of the reader.
    #[error("{0}")]
    Reader(Error),
    /// An error of a `DnsName` that is not the reader's.
    #[error("in a `DnsName`: {0}")]
    InDnsName(DnsNameError),
}

impl From<Error> for DnsQuestionError {
    ghost from_gives = { becomes_dns_question };

    fn from(error: Error) -> DnsQuestionError {
        DnsQuestionError::Reader(error)
    }
}

impl From<DnsNameError> for DnsQuestionError {
    ghost from_gives = { λ error own. own ≡ dns_name_error error };

    fn from(error: DnsNameError) -> DnsQuestionError {
        match error {
            DnsNameError::Reader(error) => DnsQuestionError::Reader(error),
            DnsNameError::InDnsLabel(error) => DnsQuestionError::InDnsName(DnsNameError::InDnsLabel(
                error,
            )),
        }
    }
}

impl DnsQuestion {
    /// Reads the fields in order.
    ///
    /// # Errors
    ///
    /// `InDnsName`, after the rejected bits have been read.
    /// `Reader(OutOfMemory)` if an allocation for a list fails. The items before the failure
    /// have been read.
    /// Otherwise the reader's errors, after which it has failed.
    pub fn read<R: BitRead>(reader: &mut R, alloc: Global) -> Result<DnsQuestion, DnsQuestionError>
        ensures { GrowsOwn R.source becomes_dns_question (dns_question_decoder R.source.order) reader.old result reader.new }
    {
        let name = DnsName::read(reader, alloc)?;
        let kind = reader.read::<Bits<16>, u16>()?;
        let class = reader.read::<Bits<16>, u16>()?;
        Ok(DnsQuestion { name, kind, class })
    }

    /// Parses the value at the start of `packet`.
    ///
    /// # Errors
    ///
    /// `InDnsName` if bits are rejected.
    /// `Reader(EndOfInput)` if the bytes end before the fields do.
    /// `Reader(RunTooLong)` if the last part is not among the first 2^32.
    /// `Reader(OutOfMemory)` if the allocation for an item of a list fails.
    pub fn parse(packet: &[u8], alloc: Global) -> Result<DnsQuestion, DnsQuestionError>
        ensures answer { (OwnAnswer becomes_dns_question (λ answer. answer)
            (sure_answer ((dns_question_decoder High).reads 0 (bits High packet.now))) result)
            ⊎ ((result ≡ Err (DnsQuestionError.Reader OutOfMemory))
            × MayAllocate (dns_question_decoder High) 0 (bits High packet.now)) }
        ensures back { (value : DnsQuestion) (more : List Bool) → Fits value
            → bits High packet.now ≡ write_sequence (dns_question_writes High value) 0 ++ more
            → (result ≡ Ok value)
            ⊎ (result ≡ Err (DnsQuestionError.Reader OutOfMemory)) }
    {
        dns_question_round_trip();
        DnsQuestion::read(&mut BitReader::<_, BE>::over(packet), alloc)
    }

    /// Writes the fields in order.
    ///
    /// # Errors
    ///
    /// `Checked` for a field that does not fit its bits. The fields before it have been written.
    /// Otherwise the sink's errors.
    pub fn write<W: BitWrite>(&self, writer: &mut W) -> Result<(), Error>
        ensures { WritesAll W.sink (dns_question_writes W.sink.order self.now) writer.old result writer.new }
    {
        self.name.write(writer)?;
        writer.write::<Bits<16>, u16>(self.kind)?;
        writer.write::<Bits<16>, u16>(self.class)?;
        Ok(())
    }

    /// Writes the fields to the first bytes of a buffer, and returns what was written. The other bytes
    /// stay as they were. Does not allocate.
    ///
    /// # Errors
    ///
    /// `Checked` for the first field that does not fit its bits, however long the buffer is.
    /// `Stream(WriteZero)` if all fields fit, and the buffer is too short for the bits.
    /// After an error, the first bytes of the buffer may have changed.
    pub fn pack_into<'a>(&self, buffer: &'a mut [u8]) -> Result<SliceMut<'a>, Error>
        ensures packed { IfOk result (λ packed. bits High (written_bytes packed) ≡ dns_question_bits self.now) }
        ensures first { IfOk result (HoldsFirst buffer.entry.ghost_name buffer.old) }
        ensures accepted { IsOk result → AllAccepted (dns_question_writes High self.now) 0 }
        ensures misfit { (error : Error) → sequence_length (dns_question_writes High self.now) 0 ≡ Err error
            → result ≡ Err error }
        ensures room { Fits self.now → dns_question_size High self.now ≤ 8 * length buffer.old
            → IsOk result }
        ensures short { Fits self.now → 8 * length buffer.old < dns_question_size High self.now
            → result ≡ Err (Stream WriteZero) }
    {
        pack_into::<BE, DnsQuestion>(self, buffer)
    }
}

impl FromBitStreamUsing for DnsQuestion {
    type Context = Global;

    type Error = DnsQuestionError;

    ghost grows = { true };

    ghost becomes = { becomes_dns_question };

    ghost reads = { λ o _. dns_question_decoder o };

    fn from_reader<R: BitRead>(
        reader: &mut R,
        alloc: Global,
    ) -> Result<DnsQuestion, DnsQuestionError> {
        DnsQuestion::read(reader, alloc)
    }
}

impl ToBitStream for DnsQuestion {
    type Error = Error;

    ghost becomes = { same_error };

    ghost writes = { dns_question_writes };

    fn to_writer<W: BitWrite>(&self, writer: &mut W) -> Result<(), Error> {
        self.write(writer)
    }
}

/// A value that fits its bits is read back as it was written, in either order of bits, at any place.
/// The read takes only the bits that were written: `dns_question_size` is their number.
pub fn dns_question_round_trip()
    ensures back { (o : Order) (value : DnsQuestion) (at from : ℕ) (more : List Bool) → Fits value
        → let written = write_sequence (dns_question_writes o value) at in
        (dns_question_decoder o).reads from (written ++ more) ≡ Done (length written) (Ok (Ok value)) }
    ensures size { (o : Order) (value : DnsQuestion) (at : ℕ) → Fits value
        → length (write_sequence (dns_question_writes o value) at) ≡ dns_question_size o value }
{}
