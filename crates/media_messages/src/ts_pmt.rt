//! A program map section without descriptors of the program (ISO/IEC 13818-1, section 2.4.4.8).
//!
//! Made by `./format` from formats/ts_pmt.fields: edit that file and make this one anew.
ghost use Rattle.media_messages.specs.TsPmt.{ts_pmt_decoder, ts_pmt_writes, ts_pmt_size, ts_pmt_bits, Fits, becomes_ts_pmt, crc32_mpeg_sum, crc32_mpeg_writes, streams_sized, streams_ended, streams_stated, ts_stream_error, ts_stream_here};
ghost use Rattle.bitstream_format.specs.Within.{UnlessMemory};
ghost use Rattle.bitstream_format.specs.Filled.{items_from};
ghost use Rattle.bitstream_io.specs.Lengths.{CountsBits};
ghost use Rattle.media_messages.specs.TsStream.{ts_stream_writes};
ghost use Rattle.media_messages.specs.declared.ts_pmt.TsPmt.{TsPmt};
ghost use Rattle.media_messages.specs.declared.ts_pmt.TsPmtError.{TsPmtError};
ghost use Rattle.media_messages.specs.declared.ts_pmt.TsPmtError.TheVariants.{Reader, Overlong};
ghost use Rattle.std.specs.Prelude.{◌≡◌, ◌<◌, ◌≤◌, ◌*◌, ◌++◌, ◌⊎◌, ℕ, Bool, List, Ok, Err, length, IfOk, IsOk};
ghost use Rattle.std.specs.List.{flat_map};
ghost use Rattle.std.specs.declared.io.ErrorKind.TheVariants.{WriteZero};
ghost use Rattle.bitstream_io.specs.Callers.{Done, Error, Order, High, bits, write_sequence, OwnAnswer, WritesAll, AllAccepted, sequence_length, sure_answer, GrowsOwn, MayAllocate, OutOfMemory, Stream, result_map, same_error};
ghost use Rattle.bitstream_io.specs.SliceMut.{HoldsFirst, written_bytes};

use crate::ts_stream::{TsStream, TsStreamError};
use bitstream_format::checksums::Crc32Mpeg;
use bitstream_format::stated::{stated_size, write_stored_size};
use bitstream_format::summed::{sum_of, summing_writer};
use bitstream_format::within::is_end;
use bitstream_io::{
    BE, BitRead, BitReadExt, BitReader, BitWrite, BitWriteExt, Bits, BitsWritten, Error, SliceMut,
    SliceReader, ToBitStream, pack_into,
};
use std::alloc::{AllocFailed, Global};
use std::marker::Model;

/// A program map section without descriptors of the program (ISO/IEC 13818-1, section 2.4.4.8).
///
/// ```text
///  0                   1                   2                   3
///  0 1 2 3 4 5 6 7 8 9 0 1 2 3 4 5 6 7 8 9 0 1 2 3 4 5 6 7 8 9 0 1
/// +-+-+-+-+-+-+-+-+-+-+-+-+-+-+-+-+-+-+-+-+-+-+-+-+-+-+-+-+-+-+-+-+
/// |       =2      |  =11  |     streams_bytes     |    program    |
/// +-+-+-+-+-+-+-+-+-+-+-+-+-+-+-+-+-+-+-+-+-+-+-+-+-+-+-+-+-+-+-+-+
/// |               | =3| version |c|               =0              |
/// +-+-+-+-+-+-+-+-+-+-+-+-+-+-+-+-+-+-+-+-+-+-+-+-+-+-+-+-+-+-+-+-+
/// |  =7 |          clock          |             =61440            |
/// +-+-+-+-+-+-+-+-+-+-+-+-+-+-+-+-+-+-+-+-+-+-+-+-+-+-+-+-+-+-+-+-+
/// /        streams (TsStream, of streams_bytes - 13 bytes)        /
/// +-+-+-+-+-+-+-+-+-+-+-+-+-+-+-+-+-+-+-+-+-+-+-+-+-+-+-+-+-+-+-+-+
/// |                       stored_crc32_mpeg                       |
/// +-+-+-+-+-+-+-+-+-+-+-+-+-+-+-+-+-+-+-+-+-+-+-+-+-+-+-+-+-+-+-+-+
/// ```
#[derive(Debug, Drop)]
pub struct TsPmt {
    /// The number of the program.
    pub program: u16,
    /// The version of the table. Below 2^5.
    pub version: u8,
    /// True if it holds now, and not later.
    pub current: bool,
    /// The PID of the packets with the clock of the program. Below 2^13.
    pub clock: u16,
    /// The streams of the program.
    pub streams: Vec<TsStream>,
}

impl Model for TsPmt {
    ghost use Rattle.media_messages.specs.TsPmtFields.{TsPmtFields};

    ghost Value = { TsPmtFields };

    ghost view = { λ value. record {
      program = value.program;
      version = value.version;
      current = value.current;
      clock = value.clock;
      streams = value.streams.items;
    } };
}

/// The errors of reading a `TsPmt`.
#[derive(Debug, Drop, thiserror::Error)]
pub enum TsPmtError {
    /// An error of the reader.
    #[error("{0}")]
    Reader(Error),
    /// The section is of another table.
    #[error("the section is of another table")]
    OtherTable,
    /// The section has no long head.
    #[error("the section has no long head")]
    OtherSyntax,
    /// A reserved bit is 0.
    #[error("a reserved bit is 0")]
    ZeroReserved,
    /// A program has one section.
    #[error("a program has one section")]
    OtherSection,
    /// The program has descriptors.
    #[error("the program has descriptors")]
    HasDescriptors,
    /// `streams` does not fill the bytes that its size states.
    #[error("`streams` does not fill the bytes that its size states")]
    Overlong,
    /// An error of a `TsStream` that is not the reader's.
    #[error("in a `TsStream`: {0}")]
    InTsStream(TsStreamError),
    /// The CRC is not that of the section.
    #[error("the CRC is not that of the section")]
    WrongCrc,
}

impl From<Error> for TsPmtError {
    ghost from_gives = { becomes_ts_pmt };

    fn from(error: Error) -> TsPmtError {
        TsPmtError::Reader(error)
    }
}

impl From<TsStreamError> for TsPmtError {
    ghost from_gives = { λ error own. own ≡ ts_stream_error error };

    fn from(error: TsStreamError) -> TsPmtError {
        match error {
            TsStreamError::Reader(error) => TsPmtError::Reader(error),
            TsStreamError::ZeroReserved => TsPmtError::InTsStream(TsStreamError::ZeroReserved),
        }
    }
}

impl<T: Drop> From<AllocFailed<T>> for TsPmtError {
    ghost from_gives = { λ _ own. own ≡ Reader OutOfMemory };

    fn from(_refused: AllocFailed<T>) -> TsPmtError {
        TsPmtError::Reader(Error::OutOfMemory)
    }
}

/// Writes the items of `streams`.
fn write_streams<W: BitWrite>(writer: &mut W, items: &[TsStream]) -> Result<(), Error>
    ensures { WritesAll W.sink (flat_map (ts_stream_writes W.sink.order) items.now)
        writer.old result writer.new }
{
    for item in items {
        item.write(writer)?;
    }
    Ok(())
}

/// Returns the number of bits of the items of `streams`.
///
/// # Errors
///
/// `Checked` for a field that does not fit its bits.
fn count_streams(items: &[TsStream]) -> Result<u64, Error>
    ensures { CountsBits (λ bits. bits) 18446744073709551615 same_error (flat_map (ts_stream_writes High) items.now)
        (Ok tt) result }
{
    let mut counter = BitsWritten::<u64>::new();
    write_streams(&mut counter, items)?;
    Ok(counter.into_written())
}

/// Maps an error inside the bytes of `streams`: the end of these bytes becomes `Overlong`.
fn streams_ended(error: TsPmtError) -> TsPmtError
    ensures { result ≡ streams_ended error }
{
    match error {
        TsPmtError::Reader(error) => {
            if is_end(&error) {
                return TsPmtError::Overlong;
            }
            TsPmtError::Reader(error)
        }
        TsPmtError::OtherTable => TsPmtError::OtherTable,
        TsPmtError::OtherSyntax => TsPmtError::OtherSyntax,
        TsPmtError::ZeroReserved => TsPmtError::ZeroReserved,
        TsPmtError::OtherSection => TsPmtError::OtherSection,
        TsPmtError::HasDescriptors => TsPmtError::HasDescriptors,
        TsPmtError::Overlong => TsPmtError::Overlong,
        TsPmtError::InTsStream(error) => TsPmtError::InTsStream(error),
        TsPmtError::WrongCrc => TsPmtError::WrongCrc,
    }
}

/// Parses these bytes as the items of `streams`, of which there are at most `size`.
///
/// # Errors
///
/// `Overlong` if the items do not fill the bytes. Otherwise the error of an item.
fn streams_in(bytes: &[u8], alloc: Global, size: u64) -> Result<Vec<TsStream>, TsPmtError>
    ensures { UnlessMemory (λ error. Reader error)
        (items_from (ts_stream_here High) Overlong (λ error. Reader error) streams_ended 0 (bits High bytes.now) size)
        (result_map (λ found. found.items) result) }
{
    let mut inside = SliceReader::<BE>::over(bytes);
    let mut found = Vec::new(alloc);
    for _ in 0..size {
        if inside.is_at_end() {
            return Ok(found);
        }
        match TsStream::read(&mut inside, alloc) {
            Ok(item) => found.push(item)?,
            Err(error) => return Err(streams_ended(TsPmtError::from(error))),
        }
    }
    if inside.is_at_end() {
        return Ok(found);
    }
    Err(TsPmtError::Overlong)
}

/// Reads `streams`, which has `size` bytes. No bit after them is read.
fn read_streams<R: BitRead>(
    reader: &mut R,
    alloc: Global,
    size: u64,
) -> Result<Vec<TsStream>, TsPmtError>
    requires { R.source.order ≡ High }
    ensures { GrowsOwn R.source becomes_ts_pmt (streams_sized R.source.order size)
        reader.old (result_map (λ found. found.items) result) reader.new }
{
    let bytes = reader.read_to_vec(alloc, size as usize)?;
    streams_in(&bytes, alloc, size)
}

/// Reads `streams`. The number `stored` states its size.
fn read_stated_streams<R: BitRead>(
    reader: &mut R,
    alloc: Global,
    stored: u64,
) -> Result<Vec<TsStream>, TsPmtError>
    requires { R.source.order ≡ High }
    ensures { GrowsOwn R.source becomes_ts_pmt (streams_stated R.source.order stored)
        reader.old (result_map (λ found. found.items) result) reader.new }
{
    match stated_size(stored, 1, 13, 0) {
        Some(size) => read_streams(reader, alloc, size),
        None => Err(TsPmtError::Overlong),
    }
}

impl TsPmt {
    /// Reads the fields in order.
    ///
    /// # Errors
    ///
    /// `OtherTable`, `OtherSyntax`, `ZeroReserved`, `OtherSection`, `HasDescriptors`, `Overlong`, `InTsStream` or `WrongCrc`, after the rejected bits have been read.
    /// `Reader(OutOfMemory)` if an allocation for a list fails. The items before the failure
    /// have been read.
    /// Otherwise the reader's errors, after which it has failed.
    pub fn read<R: BitRead>(reader: &mut R, alloc: Global) -> Result<TsPmt, TsPmtError>
        requires { R.source.order ≡ High }
        ensures { GrowsOwn R.source becomes_ts_pmt (ts_pmt_decoder R.source.order) reader.old result reader.new }
    {
        reader.read_const::<Bits<8>, Bits<2>, TsPmtError>(TsPmtError::OtherTable)?;
        reader.read_const::<Bits<4>, Bits<11>, TsPmtError>(TsPmtError::OtherSyntax)?;
        let streams_bytes = reader.read::<Bits<12>, u64>()?;
        let program = reader.read::<Bits<16>, u16>()?;
        reader.read_const::<Bits<2>, Bits<3>, TsPmtError>(TsPmtError::ZeroReserved)?;
        let version = reader.read::<Bits<5>, u8>()?;
        let current = reader.read_bit()?;
        reader.read_const::<Bits<16>, Bits<0>, TsPmtError>(TsPmtError::OtherSection)?;
        reader.read_const::<Bits<3>, Bits<7>, TsPmtError>(TsPmtError::ZeroReserved)?;
        let clock = reader.read::<Bits<13>, u16>()?;
        reader.read_const::<Bits<16>, Bits<61440>, TsPmtError>(TsPmtError::HasDescriptors)?;
        let streams = read_stated_streams(reader, alloc, streams_bytes)?;
        let stored_crc32_mpeg = reader.read::<Bits<32>, u64>()?;
        let value = TsPmt {
            program,
            version,
            current,
            clock,
            streams,
        };
        let is_crc32_mpeg = stored_crc32_mpeg == value.crc32_mpeg();
        if !is_crc32_mpeg {
            return Err(TsPmtError::WrongCrc);
        }
        Ok(value)
    }

    /// Parses the value at the start of `packet`.
    ///
    /// # Errors
    ///
    /// `OtherTable`, `OtherSyntax`, `ZeroReserved`, `OtherSection`, `HasDescriptors`, `Overlong`, `InTsStream` or `WrongCrc` if bits are rejected.
    /// `Reader(EndOfInput)` if the bytes end before the fields do.
    /// `Reader(OutOfMemory)` if the allocation for an item of a list fails.
    pub fn parse(packet: &[u8], alloc: Global) -> Result<TsPmt, TsPmtError>
        ensures answer { (OwnAnswer becomes_ts_pmt (λ answer. answer)
            (sure_answer ((ts_pmt_decoder High).reads 0 (bits High packet.now))) result)
            ⊎ ((result ≡ Err (TsPmtError.Reader OutOfMemory))
            × MayAllocate (ts_pmt_decoder High) 0 (bits High packet.now)) }
        ensures back { (value : TsPmt) (more : List Bool) → Fits value
            → bits High packet.now ≡ write_sequence (ts_pmt_writes High value) 0 ++ more
            → (result ≡ Ok value)
            ⊎ (result ≡ Err (TsPmtError.Reader OutOfMemory)) }
    {
        ts_pmt_round_trip();
        TsPmt::read(&mut BitReader::<_, BE>::over(packet), alloc)
    }

    /// Writes the fields in order.
    ///
    /// # Errors
    ///
    /// `Checked` for a field that does not fit its bits. The fields before it have been written.
    /// Otherwise the sink's errors.
    pub fn write<W: BitWrite>(&self, writer: &mut W) -> Result<(), Error>
        ensures { WritesAll W.sink (ts_pmt_writes W.sink.order self.now) writer.old result writer.new }
    {
        writer.write_const::<Bits<8>, Bits<2>>()?;
        writer.write_const::<Bits<4>, Bits<11>>()?;
        write_stored_size(writer, 12, count_streams(&self.streams), 1, 13, 0)?;
        writer.write::<Bits<16>, u16>(self.program)?;
        writer.write_const::<Bits<2>, Bits<3>>()?;
        writer.write::<Bits<5>, u8>(self.version)?;
        writer.write_bit(self.current)?;
        writer.write_const::<Bits<16>, Bits<0>>()?;
        writer.write_const::<Bits<3>, Bits<7>>()?;
        writer.write::<Bits<13>, u16>(self.clock)?;
        writer.write_const::<Bits<16>, Bits<61440>>()?;
        write_streams(writer, &self.streams)?;
        writer.write::<Bits<32>, u64>(self.crc32_mpeg())?;
        Ok(())
    }

    /// Returns the crc32-mpeg of its lines as they are written, or 0 if a field of theirs does not fit its bits.
    fn crc32_mpeg(&self) -> u64
        ensures { result ≡ crc32_mpeg_sum self.now }
    {
        let mut writer = summing_writer::<BE, Crc32Mpeg>();
        match self.write_for_crc32_mpeg(&mut writer) {
            Ok(()) => sum_of(writer),
            Err(_) => 0,
        }
    }

    /// Writes the lines that the crc32-mpeg covers.
    fn write_for_crc32_mpeg<W: BitWrite>(&self, writer: &mut W) -> Result<(), Error>
        ensures { WritesAll W.sink (crc32_mpeg_writes W.sink.order self.now) writer.old result writer.new }
    {
        writer.write_const::<Bits<8>, Bits<2>>()?;
        writer.write_const::<Bits<4>, Bits<11>>()?;
        write_stored_size(writer, 12, count_streams(&self.streams), 1, 13, 0)?;
        writer.write::<Bits<16>, u16>(self.program)?;
        writer.write_const::<Bits<2>, Bits<3>>()?;
        writer.write::<Bits<5>, u8>(self.version)?;
        writer.write_bit(self.current)?;
        writer.write_const::<Bits<16>, Bits<0>>()?;
        writer.write_const::<Bits<3>, Bits<7>>()?;
        writer.write::<Bits<13>, u16>(self.clock)?;
        writer.write_const::<Bits<16>, Bits<61440>>()?;
        write_streams(writer, &self.streams)?;
        Ok(())
    }

    /// Writes the fields to the first bytes of a buffer, and returns what was written. The other bytes
    /// stay as they were. Does not allocate.
    ///
    /// # Errors
    ///
    /// `Checked` for the first field that does not fit its bits, however long the buffer is.
    /// `Stream(WriteZero)` if all fields fit, and the buffer is too short for the bits.
    /// After an error, the first bytes of the buffer may have changed.
    pub fn pack_into<'a>(&self, buffer: &'a mut [u8]) -> Result<SliceMut<'a>, Error>
        ensures packed { IfOk result (λ packed. bits High (written_bytes packed) ≡ ts_pmt_bits self.now) }
        ensures first { IfOk result (HoldsFirst buffer.entry.ghost_name buffer.old) }
        ensures accepted { IsOk result → AllAccepted (ts_pmt_writes High self.now) 0 }
        ensures misfit { (error : Error) → sequence_length (ts_pmt_writes High self.now) 0 ≡ Err error
            → result ≡ Err error }
        ensures room { Fits self.now → ts_pmt_size High self.now ≤ 8 * length buffer.old
            → IsOk result }
        ensures short { Fits self.now → 8 * length buffer.old < ts_pmt_size High self.now
            → result ≡ Err (Stream WriteZero) }
    {
        pack_into::<BE, TsPmt>(self, buffer)
    }
}

impl ToBitStream for TsPmt {
    type Error = Error;

    ghost becomes = { same_error };

    ghost writes = { ts_pmt_writes };

    fn to_writer<W: BitWrite>(&self, writer: &mut W) -> Result<(), Error> {
        self.write(writer)
    }
}

/// A value that fits its bits is read back as it was written, in either order of bits, at any place.
/// The read takes only the bits that were written: `ts_pmt_size` is their number.
pub fn ts_pmt_round_trip()
    ensures back { (o : Order) (value : TsPmt) (at from : ℕ) (more : List Bool) → Fits value
        → let written = write_sequence (ts_pmt_writes o value) at in
        (ts_pmt_decoder o).reads from (written ++ more) ≡ Done (length written) (Ok (Ok value)) }
    ensures size { (o : Order) (value : TsPmt) (at : ℕ) → Fits value
        → length (write_sequence (ts_pmt_writes o value) at) ≡ ts_pmt_size o value }
{}
