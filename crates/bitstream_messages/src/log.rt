//! Acknowledgements and marks, each list after its size in bytes.
//!
//! Made by `./format` from formats/log.fields: edit that file and make this one anew.
ghost use Rattle.bitstream_messages.specs.Log.{log_decoder, log_writes, log_size, log_bits, Fits, becomes_log, acks_sized, acks_ended, marks_sized, marks_ended, mark_error, mark_here};
ghost use Rattle.bitstream_format.specs.Within.{UnlessMemory};
ghost use Rattle.bitstream_format.specs.Filled.{items_from};
ghost use Rattle.bitstream_io.specs.Lengths.{CountsBits};
ghost use Rattle.bitstream_messages.specs.Ack.{ack_decoder, ack_writes};
ghost use Rattle.bitstream_messages.specs.Mark.{mark_writes};
ghost use Rattle.bitstream_messages.specs.declared.log.Log.{Log};
ghost use Rattle.bitstream_messages.specs.declared.log.LogError.{LogError};
ghost use Rattle.bitstream_messages.specs.declared.log.LogError.TheVariants.{Reader, OddAcks, OddMarks};
ghost use Rattle.std.specs.Prelude.{◌≡◌, ◌<◌, ◌≤◌, ◌*◌, ◌++◌, ◌⊎◌, ℕ, Bool, List, Ok, Err, length, IfOk, IsOk};
ghost use Rattle.std.specs.List.{flat_map};
ghost use Rattle.std.specs.declared.io.ErrorKind.TheVariants.{WriteZero};
ghost use Rattle.bitstream_io.specs.Callers.{Done, Error, Order, High, bits, write_sequence, OwnAnswer, WritesAll, AllAccepted, sequence_length, sure_answer, GrowsOwn, MayAllocate, OutOfMemory, Stream, result_map, same_error, plain_reads};
ghost use Rattle.bitstream_io.specs.SliceMut.{HoldsFirst, written_bytes};

use crate::ack::Ack;
use crate::mark::{Mark, MarkError};
use bitstream_format::within::{is_end, write_size};
use bitstream_io::{
    BE, BitRead, BitReadExt, BitReader, BitWrite, Bits, BitsWritten, Error, SliceMut, SliceReader,
    ToBitStream, pack_into,
};
use std::alloc::{AllocFailed, Global};
use std::marker::Model;

/// Acknowledgements and marks, each list after its size in bytes.
///
/// ```text
///  0                   1                   2                   3
///  0 1 2 3 4 5 6 7 8 9 0 1 2 3 4 5 6 7 8 9 0 1 2 3 4 5 6 7 8 9 0 1
/// +-+-+-+-+-+-+-+-+-+-+-+-+-+-+-+-+
/// |   acks_bytes  |  marks_bytes  |
/// +-+-+-+-+-+-+-+-+-+-+-+-+-+-+-+-+-+-+-+-+-+-+-+-+-+-+-+-+-+-+-+-+
/// /                acks (Ack, of acks_bytes bytes)                /
/// +-+-+-+-+-+-+-+-+-+-+-+-+-+-+-+-+-+-+-+-+-+-+-+-+-+-+-+-+-+-+-+-+
/// /               marks (Mark, of marks_bytes bytes)              /
/// +-+-+-+-+-+-+-+-+-+-+-+-+-+-+-+-+-+-+-+-+-+-+-+-+-+-+-+-+-+-+-+-+
/// ```
#[derive(Debug, Drop)]
pub struct Log {
    /// The acknowledgements.
    pub acks: Vec<Ack>,
    /// The marks.
    pub marks: Vec<Mark>,
}

impl Model for Log {
    ghost use Rattle.bitstream_messages.specs.LogFields.{LogFields};

    ghost Value = { LogFields };

    ghost view = { λ value. record {
      acks = value.acks.items;
      marks = value.marks.items;
    } };
}

/// The errors of reading a `Log`.
#[derive(Debug, Drop, thiserror::Error)]
pub enum LogError {
    /// An error of the reader.
    #[error("{0}")]
    Reader(Error),
    /// `acks` does not fill the bytes that its size states.
    #[error("`acks` does not fill the bytes that its size states")]
    OddAcks,
    /// `marks` does not fill the bytes that its size states.
    #[error("`marks` does not fill the bytes that its size states")]
    OddMarks,
    /// An error of a `Mark` that is not the reader's.
    #[error("in a `Mark`: {0}")]
    InMark(MarkError),
}

impl From<Error> for LogError {
    ghost from_gives = { becomes_log };

    fn from(error: Error) -> LogError {
        LogError::Reader(error)
    }
}

impl<T: Drop> From<AllocFailed<T>> for LogError {
    ghost from_gives = { λ _ own. own ≡ Reader OutOfMemory };

    fn from(_refused: AllocFailed<T>) -> LogError {
        LogError::Reader(Error::OutOfMemory)
    }
}

/// Writes the items of `acks`.
fn write_acks<W: BitWrite>(writer: &mut W, items: &[Ack]) -> Result<(), Error>
    ensures { WritesAll W.sink (flat_map (ack_writes W.sink.order) items.now)
        writer.old result writer.new }
{
    for item in items {
        item.write(writer)?;
    }
    Ok(())
}

/// Returns the number of bits of the items of `acks`.
///
/// # Errors
///
/// `Checked` for a field that does not fit its bits.
fn count_acks(items: &[Ack]) -> Result<u64, Error>
    ensures { CountsBits (λ bits. bits) 18446744073709551615 same_error (flat_map (ack_writes High) items.now)
        (Ok tt) result }
{
    let mut counter = BitsWritten::<u64>::new();
    write_acks(&mut counter, items)?;
    Ok(counter.into_written())
}

/// Maps an error inside the bytes of `acks`: the end of these bytes becomes `OddAcks`.
fn acks_ended(error: LogError) -> LogError
    ensures { result ≡ acks_ended error }
{
    match error {
        LogError::Reader(error) => {
            if is_end(&error) {
                return LogError::OddAcks;
            }
            LogError::Reader(error)
        }
        LogError::OddAcks => LogError::OddAcks,
        LogError::OddMarks => LogError::OddMarks,
        LogError::InMark(error) => LogError::InMark(error),
    }
}

/// Parses these bytes as the items of `acks`, of which there are at most `size`.
///
/// # Errors
///
/// `OddAcks` if the items do not fill the bytes. Otherwise the error of an item.
fn acks_in(bytes: &[u8], alloc: Global, size: u64) -> Result<Vec<Ack>, LogError>
    ensures { UnlessMemory (λ error. Reader error)
        (items_from (plain_reads (ack_decoder High)) OddAcks (λ error. Reader error) acks_ended 0 (bits High bytes.now) size)
        (result_map (λ found. found.items) result) }
{
    let mut inside = SliceReader::<BE>::over(bytes);
    let mut found = Vec::new(alloc);
    for _ in 0..size {
        if inside.is_at_end() {
            return Ok(found);
        }
        match Ack::read(&mut inside) {
            Ok(item) => found.push(item)?,
            Err(error) => return Err(acks_ended(LogError::from(error))),
        }
    }
    if inside.is_at_end() {
        return Ok(found);
    }
    Err(LogError::OddAcks)
}

/// Reads `acks`, which has `size` bytes. No bit after them is read.
fn read_acks<R: BitRead>(reader: &mut R, alloc: Global, size: u64) -> Result<Vec<Ack>, LogError>
    requires { R.source.order ≡ High }
    ensures { GrowsOwn R.source becomes_log (acks_sized R.source.order size)
        reader.old (result_map (λ found. found.items) result) reader.new }
{
    let bytes = reader.read_to_vec(alloc, size as usize)?;
    acks_in(&bytes, alloc, size)
}

impl From<MarkError> for LogError {
    ghost from_gives = { λ error own. own ≡ mark_error error };

    fn from(error: MarkError) -> LogError {
        match error {
            MarkError::Reader(error) => LogError::Reader(error),
            MarkError::NoMark => LogError::InMark(MarkError::NoMark),
        }
    }
}

/// Writes the items of `marks`.
fn write_marks<W: BitWrite>(writer: &mut W, items: &[Mark]) -> Result<(), Error>
    ensures { WritesAll W.sink (flat_map (mark_writes W.sink.order) items.now)
        writer.old result writer.new }
{
    for item in items {
        item.write(writer)?;
    }
    Ok(())
}

/// Returns the number of bits of the items of `marks`.
///
/// # Errors
///
/// `Checked` for a field that does not fit its bits.
fn count_marks(items: &[Mark]) -> Result<u64, Error>
    ensures { CountsBits (λ bits. bits) 18446744073709551615 same_error (flat_map (mark_writes High) items.now)
        (Ok tt) result }
{
    let mut counter = BitsWritten::<u64>::new();
    write_marks(&mut counter, items)?;
    Ok(counter.into_written())
}

/// Maps an error inside the bytes of `marks`: the end of these bytes becomes `OddMarks`.
fn marks_ended(error: LogError) -> LogError
    ensures { result ≡ marks_ended error }
{
    match error {
        LogError::Reader(error) => {
            if is_end(&error) {
                return LogError::OddMarks;
            }
            LogError::Reader(error)
        }
        LogError::OddAcks => LogError::OddAcks,
        LogError::OddMarks => LogError::OddMarks,
        LogError::InMark(error) => LogError::InMark(error),
    }
}

/// Parses these bytes as the items of `marks`, of which there are at most `size`.
///
/// # Errors
///
/// `OddMarks` if the items do not fill the bytes. Otherwise the error of an item.
fn marks_in(bytes: &[u8], alloc: Global, size: u64) -> Result<Vec<Mark>, LogError>
    ensures { UnlessMemory (λ error. Reader error)
        (items_from (mark_here High) OddMarks (λ error. Reader error) marks_ended 0 (bits High bytes.now) size)
        (result_map (λ found. found.items) result) }
{
    let mut inside = SliceReader::<BE>::over(bytes);
    let mut found = Vec::new(alloc);
    for _ in 0..size {
        if inside.is_at_end() {
            return Ok(found);
        }
        match Mark::read(&mut inside) {
            Ok(item) => found.push(item)?,
            Err(error) => return Err(marks_ended(LogError::from(error))),
        }
    }
    if inside.is_at_end() {
        return Ok(found);
    }
    Err(LogError::OddMarks)
}

/// Reads `marks`, which has `size` bytes. No bit after them is read.
fn read_marks<R: BitRead>(reader: &mut R, alloc: Global, size: u64) -> Result<Vec<Mark>, LogError>
    requires { R.source.order ≡ High }
    ensures { GrowsOwn R.source becomes_log (marks_sized R.source.order size)
        reader.old (result_map (λ found. found.items) result) reader.new }
{
    let bytes = reader.read_to_vec(alloc, size as usize)?;
    marks_in(&bytes, alloc, size)
}

impl Log {
    /// Reads the fields in order.
    ///
    /// # Errors
    ///
    /// `OddAcks`, `OddMarks` or `InMark`, after the rejected bits have been read.
    /// `Reader(OutOfMemory)` if an allocation for a list fails. The items before the failure
    /// have been read.
    /// Otherwise the reader's errors, after which it has failed.
    pub fn read<R: BitRead>(reader: &mut R, alloc: Global) -> Result<Log, LogError>
        requires { R.source.order ≡ High }
        ensures { GrowsOwn R.source becomes_log (log_decoder R.source.order) reader.old result reader.new }
    {
        let acks_bytes = reader.read::<Bits<8>, u64>()?;
        let marks_bytes = reader.read::<Bits<8>, u64>()?;
        let acks = read_acks(reader, alloc, acks_bytes)?;
        let marks = read_marks(reader, alloc, marks_bytes)?;
        Ok(Log { acks, marks })
    }

    /// Parses the value at the start of `packet`.
    ///
    /// # Errors
    ///
    /// `OddAcks`, `OddMarks` or `InMark` if bits are rejected.
    /// `Reader(EndOfInput)` if the bytes end before the fields do.
    /// `Reader(OutOfMemory)` if the allocation for an item of a list fails.
    pub fn parse(packet: &[u8], alloc: Global) -> Result<Log, LogError>
        ensures answer { (OwnAnswer becomes_log (λ answer. answer)
            (sure_answer ((log_decoder High).reads 0 (bits High packet.now))) result)
            ⊎ ((result ≡ Err (LogError.Reader OutOfMemory))
            × MayAllocate (log_decoder High) 0 (bits High packet.now)) }
        ensures back { (value : Log) (more : List Bool) → Fits value
            → bits High packet.now ≡ write_sequence (log_writes High value) 0 ++ more
            → (result ≡ Ok value)
            ⊎ (result ≡ Err (LogError.Reader OutOfMemory)) }
    {
        log_round_trip();
        Log::read(&mut BitReader::<_, BE>::over(packet), alloc)
    }

    /// Writes the fields in order.
    ///
    /// # Errors
    ///
    /// `Checked` for a field that does not fit its bits. The fields before it have been written.
    /// Otherwise the sink's errors.
    pub fn write<W: BitWrite>(&self, writer: &mut W) -> Result<(), Error>
        ensures { WritesAll W.sink (log_writes W.sink.order self.now) writer.old result writer.new }
    {
        write_size(writer, 8, count_acks(&self.acks))?;
        write_size(writer, 8, count_marks(&self.marks))?;
        write_acks(writer, &self.acks)?;
        write_marks(writer, &self.marks)?;
        Ok(())
    }

    /// Writes the fields to the first bytes of a buffer, and returns what was written. The other bytes
    /// stay as they were. Does not allocate.
    ///
    /// # Errors
    ///
    /// `Checked` for the first field that does not fit its bits, however long the buffer is.
    /// `Stream(WriteZero)` if all fields fit, and the buffer is too short for the bits.
    /// After an error, the first bytes of the buffer may have changed.
    pub fn pack_into<'a>(&self, buffer: &'a mut [u8]) -> Result<SliceMut<'a>, Error>
        ensures packed { IfOk result (λ packed. bits High (written_bytes packed) ≡ log_bits self.now) }
        ensures first { IfOk result (HoldsFirst buffer.entry.ghost_name buffer.old) }
        ensures accepted { IsOk result → AllAccepted (log_writes High self.now) 0 }
        ensures misfit { (error : Error) → sequence_length (log_writes High self.now) 0 ≡ Err error
            → result ≡ Err error }
        ensures room { Fits self.now → log_size High self.now ≤ 8 * length buffer.old
            → IsOk result }
        ensures short { Fits self.now → 8 * length buffer.old < log_size High self.now
            → result ≡ Err (Stream WriteZero) }
    {
        pack_into::<BE, Log>(self, buffer)
    }
}

impl ToBitStream for Log {
    type Error = Error;

    ghost becomes = { same_error };

    ghost writes = { log_writes };

    fn to_writer<W: BitWrite>(&self, writer: &mut W) -> Result<(), Error> {
        self.write(writer)
    }
}

/// A value that fits its bits is read back as it was written, in either order of bits, at any place.
/// The read takes only the bits that were written: `log_size` is their number.
pub fn log_round_trip()
    ensures back { (o : Order) (value : Log) (at from : ℕ) (more : List Bool) → Fits value
        → let written = write_sequence (log_writes o value) at in
        (log_decoder o).reads from (written ++ more) ≡ Done (length written) (Ok (Ok value)) }
    ensures size { (o : Order) (value : Log) (at : ℕ) → Fits value
        → length (write_sequence (log_writes o value) at) ≡ log_size o value }
{}
