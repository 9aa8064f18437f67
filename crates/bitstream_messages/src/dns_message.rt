//! A message of the Domain Name System (RFC 1035, 4.1, and RFC 4035, 3).
//!
//! Made by `./format` from formats/dns_message.fields: edit that file and make this one anew.
ghost use Rattle.bitstream_messages.specs.DnsMessage.{dns_message_decoder, dns_message_writes, dns_message_size, dns_message_bits, Fits, becomes_dns_message, dns_message_decoder_1, dns_message_decoder_2, dns_message_writes_2, dns_message_writes_3, dns_question_error, dns_question_here, dns_record_error, dns_record_here};
ghost use Rattle.bitstream_messages.specs.DnsQuestion.{dns_question_writes};
ghost use Rattle.bitstream_messages.specs.DnsRecord.{dns_record_writes};
ghost use Rattle.bitstream_messages.specs.declared.dns_message.DnsMessage.{DnsMessage};
ghost use Rattle.bitstream_messages.specs.declared.dns_message.DnsMessageError.{DnsMessageError};
ghost use Rattle.bitstream_messages.specs.declared.dns_message.DnsMessageError.TheVariants.{Reader};
ghost use Rattle.std.specs.Prelude.{◌≡◌, ◌<◌, ◌≤◌, ◌*◌, ◌++◌, ◌⊎◌, ℕ, Bool, true, List, Ok, Err, length, IfOk, IsOk};
ghost use Rattle.std.specs.List.{flat_map};
ghost use Rattle.std.specs.declared.io.ErrorKind.TheVariants.{WriteZero};
ghost use Rattle.bitstream_io.specs.Callers.{Done, Error, Order, High, bits, write_sequence, OwnAnswer, WritesAll, AllAccepted, sequence_length, sure_answer, GrowsOwn, MayAllocate, OutOfMemory, Stream, result_map, same_error, parts_decoder};
ghost use Rattle.bitstream_io.specs.SliceMut.{HoldsFirst, written_bytes};

use crate::dns_question::{DnsQuestion, DnsQuestionError};
use crate::dns_record::{DnsRecord, DnsRecordError};
use bitstream_io::{
    BE, BitRead, BitReadExt, BitReader, BitWrite, BitWriteExt, Bits, Error, FromBitStreamUsing,
    SliceMut, ToBitStream, pack_into,
};
use std::alloc::{AllocFailed, Global};
use std::marker::Model;

/// A message of the Domain Name System (RFC 1035, 4.1, and RFC 4035, 3).
///
/// ```text
///  0                   1                   2                   3
///  0 1 2 3 4 5 6 7 8 9 0 1 2 3 4 5 6 7 8 9 0 1 2 3 4 5 6 7 8 9 0 1
/// +-+-+-+-+-+-+-+-+-+-+-+-+-+-+-+-+-+-+-+-+-+-+-+-+-+-+-+-+-+-+-+-+
/// |               id              |r| opcode|a|t|r|a|=|a|u|  code |
/// +-+-+-+-+-+-+-+-+-+-+-+-+-+-+-+-+-+-+-+-+-+-+-+-+-+-+-+-+-+-+-+-+
/// |        questions_count        |         answers_count         |
/// +-+-+-+-+-+-+-+-+-+-+-+-+-+-+-+-+-+-+-+-+-+-+-+-+-+-+-+-+-+-+-+-+
/// |       authorities_count       |        additional_count       |
/// +-+-+-+-+-+-+-+-+-+-+-+-+-+-+-+-+-+-+-+-+-+-+-+-+-+-+-+-+-+-+-+-+
/// /           questions (questions_count of DnsQuestion)          /
/// +-+-+-+-+-+-+-+-+-+-+-+-+-+-+-+-+-+-+-+-+-+-+-+-+-+-+-+-+-+-+-+-+
/// /              answers (answers_count of DnsRecord)             /
/// +-+-+-+-+-+-+-+-+-+-+-+-+-+-+-+-+-+-+-+-+-+-+-+-+-+-+-+-+-+-+-+-+
/// /          authorities (authorities_count of DnsRecord)         /
/// +-+-+-+-+-+-+-+-+-+-+-+-+-+-+-+-+-+-+-+-+-+-+-+-+-+-+-+-+-+-+-+-+
/// /           additional (additional_count of DnsRecord)          /
/// +-+-+-+-+-+-+-+-+-+-+-+-+-+-+-+-+-+-+-+-+-+-+-+-+-+-+-+-+-+-+-+-+
/// ```
#[derive(Debug, Drop)]
pub struct DnsMessage {
    /// The number that an answer shares with its question.
    pub id: u16,
    /// True if the message is an answer.
    pub response: bool,
    /// The kind of the question, as 0 for a standard query. Below 2^4.
    pub opcode: u8,
    /// True if the server is an authority for the name.
    pub authoritative: bool,
    /// True if the message was truncated.
    pub truncated: bool,
    /// True if the server should ask other servers.
    pub recursion: bool,
    /// True if the server can ask other servers.
    pub available: bool,
    /// True if the server verified the data.
    pub authentic: bool,
    /// True if data that are not verified are accepted.
    pub unchecked: bool,
    /// The result, as 0 for no error and 3 for a name that does not exist. Below 2^4.
    pub code: u8,
    /// The questions. Fewer than 2^16.
    pub questions: Vec<DnsQuestion>,
    /// The answers. Fewer than 2^16.
    pub answers: Vec<DnsRecord>,
    /// The records that name the servers with authority. Fewer than 2^16.
    pub authorities: Vec<DnsRecord>,
    /// More records. Fewer than 2^16.
    pub additional: Vec<DnsRecord>,
}

impl Model for DnsMessage {
    ghost use Rattle.bitstream_messages.specs.DnsMessageFields.{DnsMessageFields};

    ghost Value = { DnsMessageFields };

    ghost view = { λ value. record {
      id = value.id;
      response = value.response;
      opcode = value.opcode;
      authoritative = value.authoritative;
      truncated = value.truncated;
      recursion = value.recursion;
      available = value.available;
      authentic = value.authentic;
      unchecked = value.unchecked;
      code = value.code;
      questions = value.questions.items;
      answers = value.answers.items;
      authorities = value.authorities.items;
      additional = value.additional.items;
    } };
}

/// The errors of reading a `DnsMessage`.
#[derive(Debug, Drop, thiserror::Error)]
pub enum DnsMessageError {
    /// An error of the reader.
    #[error("{0}")]
    Reader(Error),
    /// The reserved bit is set.
    #[error("the reserved bit is set")]
    ReservedSet,
    /// An error of a `DnsQuestion` that is not the reader's.
    #[error("in a `DnsQuestion`: {0}")]
    InDnsQuestion(DnsQuestionError),
    /// An error of a `DnsRecord` that is not the reader's.
    #[error("in a `DnsRecord`: {0}")]
    InDnsRecord(DnsRecordError),
}

impl From<Error> for DnsMessageError {
    ghost from_gives = { becomes_dns_message };

    fn from(error: Error) -> DnsMessageError {
        DnsMessageError::Reader(error)
    }
}

impl From<DnsQuestionError> for DnsMessageError {
    ghost from_gives = { λ error own. own ≡ dns_question_error error };

    fn from(error: DnsQuestionError) -> DnsMessageError {
        match error {
            DnsQuestionError::Reader(error) => DnsMessageError::Reader(error),
            DnsQuestionError::InDnsName(error) => DnsMessageError::InDnsQuestion(
                DnsQuestionError::InDnsName(error),
            ),
        }
    }
}

impl<T: Drop> From<AllocFailed<T>> for DnsMessageError {
    ghost from_gives = { λ _ own. own ≡ Reader OutOfMemory };

    fn from(_refused: AllocFailed<T>) -> DnsMessageError {
        DnsMessageError::Reader(Error::OutOfMemory)
    }
}

/// Reads `count` items of `questions`. Stops after an item that is rejected, or whose allocation fails.
fn read_questions<R: BitRead>(
    reader: &mut R,
    alloc: Global,
    count: u64,
) -> Result<Vec<DnsQuestion>, DnsMessageError>
    ensures { GrowsOwn R.source becomes_dns_message (parts_decoder (dns_question_here R.source.order) count)
        reader.old (result_map (λ found. found.items) result) reader.new }
{
    let mut found = Vec::new(alloc);
    for _ in 0..count {
        found.push(DnsQuestion::read(reader, alloc)?)?;
    }
    Ok(found)
}

/// Writes the items of `questions`.
fn write_questions<W: BitWrite>(writer: &mut W, items: &[DnsQuestion]) -> Result<(), Error>
    ensures { WritesAll W.sink (flat_map (dns_question_writes W.sink.order) items.now)
        writer.old result writer.new }
{
    for item in items {
        item.write(writer)?;
    }
    Ok(())
}

impl From<DnsRecordError> for DnsMessageError {
    ghost from_gives = { λ error own. own ≡ dns_record_error error };

    fn from(error: DnsRecordError) -> DnsMessageError {
        match error {
            DnsRecordError::Reader(error) => DnsMessageError::Reader(error),
            DnsRecordError::InDnsName(error) => DnsMessageError::InDnsRecord(
                DnsRecordError::InDnsName(error),
            ),
        }
    }
}

/// Reads `count` items of `answers`. Stops after an item that is rejected, or whose allocation fails.
fn read_answers<R: BitRead>(
    reader: &mut R,
    alloc: Global,
    count: u64,
) -> Result<Vec<DnsRecord>, DnsMessageError>
    ensures { GrowsOwn R.source becomes_dns_message (parts_decoder (dns_record_here R.source.order) count)
        reader.old (result_map (λ found. found.items) result) reader.new }
{
    let mut found = Vec::new(alloc);
    for _ in 0..count {
        found.push(DnsRecord::read(reader, alloc)?)?;
    }
    Ok(found)
}

/// Writes the items of `answers`.
fn write_answers<W: BitWrite>(writer: &mut W, items: &[DnsRecord]) -> Result<(), Error>
    ensures { WritesAll W.sink (flat_map (dns_record_writes W.sink.order) items.now)
        writer.old result writer.new }
{
    for item in items {
        item.write(writer)?;
    }
    Ok(())
}

/// Reads `count` items of `authorities`. Stops after an item that is rejected, or whose allocation fails.
fn read_authorities<R: BitRead>(
    reader: &mut R,
    alloc: Global,
    count: u64,
) -> Result<Vec<DnsRecord>, DnsMessageError>
    ensures { GrowsOwn R.source becomes_dns_message (parts_decoder (dns_record_here R.source.order) count)
        reader.old (result_map (λ found. found.items) result) reader.new }
{
    let mut found = Vec::new(alloc);
    for _ in 0..count {
        found.push(DnsRecord::read(reader, alloc)?)?;
    }
    Ok(found)
}

/// Writes the items of `authorities`.
fn write_authorities<W: BitWrite>(writer: &mut W, items: &[DnsRecord]) -> Result<(), Error>
    ensures { WritesAll W.sink (flat_map (dns_record_writes W.sink.order) items.now)
        writer.old result writer.new }
{
    for item in items {
        item.write(writer)?;
    }
    Ok(())
}

/// Reads `count` items of `additional`. Stops after an item that is rejected, or whose allocation fails.
fn read_additional<R: BitRead>(
    reader: &mut R,
    alloc: Global,
    count: u64,
) -> Result<Vec<DnsRecord>, DnsMessageError>
    ensures { GrowsOwn R.source becomes_dns_message (parts_decoder (dns_record_here R.source.order) count)
        reader.old (result_map (λ found. found.items) result) reader.new }
{
    let mut found = Vec::new(alloc);
    for _ in 0..count {
        found.push(DnsRecord::read(reader, alloc)?)?;
    }
    Ok(found)
}

/// Writes the items of `additional`.
fn write_additional<W: BitWrite>(writer: &mut W, items: &[DnsRecord]) -> Result<(), Error>
    ensures { WritesAll W.sink (flat_map (dns_record_writes W.sink.order) items.now)
        writer.old result writer.new }
{
    for item in items {
        item.write(writer)?;
    }
    Ok(())
}

impl DnsMessage {
    /// Reads the fields in order.
    ///
    /// # Errors
    ///
    /// `ReservedSet`, `InDnsQuestion` or `InDnsRecord`, after the rejected bits have been read.
    /// `Reader(OutOfMemory)` if an allocation for a list fails. The items before the failure
    /// have been read.
    /// Otherwise the reader's errors, after which it has failed.
    pub fn read<R: BitRead>(reader: &mut R, alloc: Global) -> Result<DnsMessage, DnsMessageError>
        ensures { GrowsOwn R.source becomes_dns_message (dns_message_decoder R.source.order) reader.old result reader.new }
    {
        let id = reader.read::<Bits<16>, u16>()?;
        let response = reader.read_bit()?;
        let opcode = reader.read::<Bits<4>, u8>()?;
        let authoritative = reader.read_bit()?;
        let truncated = reader.read_bit()?;
        let recursion = reader.read_bit()?;
        let available = reader.read_bit()?;
        reader.read_const::<Bits<1>, Bits<0>, DnsMessageError>(DnsMessageError::ReservedSet)?;
        DnsMessage::read_2(
            reader,
            alloc,
            id,
            response,
            opcode,
            authoritative,
            truncated,
            recursion,
            available,
        )
    }

    /// Reads the fields from `authentic` on.
    fn read_2<R: BitRead>(
        reader: &mut R,
        alloc: Global,
        id: u16,
        response: bool,
        opcode: u8,
        authoritative: bool,
        truncated: bool,
        recursion: bool,
        available: bool,
    ) -> Result<DnsMessage, DnsMessageError>
        ensures { GrowsOwn R.source becomes_dns_message
            (dns_message_decoder_1 R.source.order id response opcode authoritative truncated recursion available)
            reader.old result reader.new }
    {
        let authentic = reader.read_bit()?;
        let unchecked = reader.read_bit()?;
        let code = reader.read::<Bits<4>, u8>()?;
        let questions_count = reader.read::<Bits<16>, u64>()?;
        let answers_count = reader.read::<Bits<16>, u64>()?;
        let authorities_count = reader.read::<Bits<16>, u64>()?;
        let additional_count = reader.read::<Bits<16>, u64>()?;
        let questions = read_questions(reader, alloc, questions_count)?;
        DnsMessage::read_3(
            reader,
            alloc,
            id,
            response,
            opcode,
            authoritative,
            truncated,
            recursion,
            available,
            authentic,
            unchecked,
            code,
            questions_count,
            answers_count,
            authorities_count,
            additional_count,
            questions,
        )
    }

    /// Reads the fields from `answers` on.
    fn read_3<R: BitRead>(
        reader: &mut R,
        alloc: Global,
        id: u16,
        response: bool,
        opcode: u8,
        authoritative: bool,
        truncated: bool,
        recursion: bool,
        available: bool,
        authentic: bool,
        unchecked: bool,
        code: u8,
        questions_count: u64,
        answers_count: u64,
        authorities_count: u64,
        additional_count: u64,
        questions: Vec<DnsQuestion>,
    ) -> Result<DnsMessage, DnsMessageError>
        ensures { GrowsOwn R.source becomes_dns_message
            (dns_message_decoder_2 R.source.order id response opcode authoritative truncated recursion available authentic unchecked code questions_count answers_count authorities_count additional_count questions.items)
            reader.old result reader.new }
    {
        let answers = read_answers(reader, alloc, answers_count)?;
        let authorities = read_authorities(reader, alloc, authorities_count)?;
        let additional = read_additional(reader, alloc, additional_count)?;
        Ok(DnsMessage {
            id,
            response,
            opcode,
            authoritative,
            truncated,
            recursion,
            available,
            authentic,
            unchecked,
            code,
            questions,
            answers,
            authorities,
            additional,
        })
    }

    /// Parses the value at the start of `packet`.
    ///
    /// # Errors
    ///
    /// `ReservedSet`, `InDnsQuestion` or `InDnsRecord` if bits are rejected.
    /// `Reader(EndOfInput)` if the bytes end before the fields do.
    /// `Reader(RunTooLong)` if the last part is not among the first 2^32.
    /// `Reader(OutOfMemory)` if the allocation for an item of a list fails.
    pub fn parse(packet: &[u8], alloc: Global) -> Result<DnsMessage, DnsMessageError>
        ensures answer { (OwnAnswer becomes_dns_message (λ answer. answer)
            (sure_answer ((dns_message_decoder High).reads 0 (bits High packet.now))) result)
            ⊎ ((result ≡ Err (DnsMessageError.Reader OutOfMemory))
            × MayAllocate (dns_message_decoder High) 0 (bits High packet.now)) }
        ensures back { (value : DnsMessage) (more : List Bool) → Fits value
            → bits High packet.now ≡ write_sequence (dns_message_writes High value) 0 ++ more
            → (result ≡ Ok value)
            ⊎ (result ≡ Err (DnsMessageError.Reader OutOfMemory)) }
    {
        dns_message_round_trip();
        DnsMessage::read(&mut BitReader::<_, BE>::over(packet), alloc)
    }

    /// Writes the fields in order.
    ///
    /// # Errors
    ///
    /// `Checked` for a field that does not fit its bits. The fields before it have been written.
    /// Otherwise the sink's errors.
    pub fn write<W: BitWrite>(&self, writer: &mut W) -> Result<(), Error>
        ensures { WritesAll W.sink (dns_message_writes W.sink.order self.now) writer.old result writer.new }
    {
        writer.write::<Bits<16>, u16>(self.id)?;
        writer.write_bit(self.response)?;
        writer.write::<Bits<4>, u8>(self.opcode)?;
        writer.write_bit(self.authoritative)?;
        writer.write_bit(self.truncated)?;
        writer.write_bit(self.recursion)?;
        writer.write_bit(self.available)?;
        writer.write_const::<Bits<1>, Bits<0>>()?;
        self.write_2(writer)
    }

    /// Writes the fields from `authentic` on.
    fn write_2<W: BitWrite>(&self, writer: &mut W) -> Result<(), Error>
        ensures { WritesAll W.sink (dns_message_writes_2 W.sink.order self.now)
            writer.old result writer.new }
    {
        writer.write_bit(self.authentic)?;
        writer.write_bit(self.unchecked)?;
        writer.write::<Bits<4>, u8>(self.code)?;
        writer.write::<Bits<16>, u64>(self.questions.len() as u64)?;
        writer.write::<Bits<16>, u64>(self.answers.len() as u64)?;
        writer.write::<Bits<16>, u64>(self.authorities.len() as u64)?;
        writer.write::<Bits<16>, u64>(self.additional.len() as u64)?;
        write_questions(writer, &self.questions)?;
        self.write_3(writer)
    }

    /// Writes the fields from `answers` on.
    fn write_3<W: BitWrite>(&self, writer: &mut W) -> Result<(), Error>
        ensures { WritesAll W.sink (dns_message_writes_3 W.sink.order self.now)
            writer.old result writer.new }
    {
        write_answers(writer, &self.answers)?;
        write_authorities(writer, &self.authorities)?;
        write_additional(writer, &self.additional)?;
        Ok(())
    }

    /// Writes the fields to the first bytes of a buffer, and returns what was written. The other bytes
    /// stay as they were. Does not allocate.
    ///
    /// # Errors
    ///
    /// `Checked` for the first field that does not fit its bits, however long the buffer is.
    /// `Stream(WriteZero)` if all fields fit, and the buffer is too short for the bits.
    /// After an error, the first bytes of the buffer may have changed.
    pub fn pack_into<'a>(&self, buffer: &'a mut [u8]) -> Result<SliceMut<'a>, Error>
        ensures packed { IfOk result (λ packed. bits High (written_bytes packed) ≡ dns_message_bits self.now) }
        ensures first { IfOk result (HoldsFirst buffer.entry.ghost_name buffer.old) }
        ensures accepted { IsOk result → AllAccepted (dns_message_writes High self.now) 0 }
        ensures misfit { (error : Error) → sequence_length (dns_message_writes High self.now) 0 ≡ Err error
            → result ≡ Err error }
        ensures room { Fits self.now → dns_message_size High self.now ≤ 8 * length buffer.old
            → IsOk result }
        ensures short { Fits self.now → 8 * length buffer.old < dns_message_size High self.now
            → result ≡ Err (Stream WriteZero) }
    {
        pack_into::<BE, DnsMessage>(self, buffer)
    }
}

impl FromBitStreamUsing for DnsMessage {
    type Context = Global;

    type Error = DnsMessageError;

    ghost grows = { true };

    ghost becomes = { becomes_dns_message };

    ghost reads = { λ o _. dns_message_decoder o };

    fn from_reader<R: BitRead>(
        reader: &mut R,
        alloc: Global,
    ) -> Result<DnsMessage, DnsMessageError> {
        DnsMessage::read(reader, alloc)
    }
}

impl ToBitStream for DnsMessage {
    type Error = Error;

    ghost becomes = { same_error };

    ghost writes = { dns_message_writes };

    fn to_writer<W: BitWrite>(&self, writer: &mut W) -> Result<(), Error> {
        self.write(writer)
    }
}

/// A value that fits its bits is read back as it was written, in either order of bits, at any place.
/// The read takes only the bits that were written: `dns_message_size` is their number.
pub fn dns_message_round_trip()
    ensures back { (o : Order) (value : DnsMessage) (at from : ℕ) (more : List Bool) → Fits value
        → let written = write_sequence (dns_message_writes o value) at in
        (dns_message_decoder o).reads from (written ++ more) ≡ Done (length written) (Ok (Ok value)) }
    ensures size { (o : Order) (value : DnsMessage) (at : ℕ) → Fits value
        → length (write_sequence (dns_message_writes o value) at) ≡ dns_message_size o value }
{}
