//! A program association section of a transport stream (ISO/IEC 13818-1, section 2.4.4.3).
//!
//! Made by `./format` from formats/ts_pat.fields: edit that file and make this one anew.
ghost use Rattle.media_messages.specs.TsPat.{ts_pat_decoder, ts_pat_writes, ts_pat_size, ts_pat_bits, Fits, becomes_ts_pat, crc32_mpeg_sum, crc32_mpeg_writes, programs_sized, programs_ended, programs_stated, ts_program_error, ts_program_here};
ghost use Rattle.bitstream_format.specs.Within.{UnlessMemory};
ghost use Rattle.bitstream_format.specs.Filled.{items_from};
ghost use Rattle.bitstream_io.specs.Lengths.{CountsBits};
ghost use Rattle.media_messages.specs.TsProgram.{ts_program_writes};
ghost use Rattle.media_messages.specs.declared.ts_pat.TsPat.{TsPat};
ghost use Rattle.media_messages.specs.declared.ts_pat.TsPatError.{TsPatError};
ghost use Rattle.media_messages.specs.declared.ts_pat.TsPatError.TheVariants.{Reader, Overlong};
ghost use Rattle.std.specs.Prelude.{◌≡◌, ◌<◌, ◌≤◌, ◌*◌, ◌++◌, ◌⊎◌, ℕ, Bool, List, Ok, Err, length, IfOk, IsOk};
ghost use Rattle.std.specs.List.{flat_map};
ghost use Rattle.std.specs.declared.io.ErrorKind.TheVariants.{WriteZero};
ghost use Rattle.bitstream_io.specs.Callers.{Done, Error, Order, High, bits, write_sequence, OwnAnswer, WritesAll, AllAccepted, sequence_length, sure_answer, GrowsOwn, MayAllocate, OutOfMemory, Stream, result_map, same_error};
ghost use Rattle.bitstream_io.specs.SliceMut.{HoldsFirst, written_bytes};

use crate::ts_program::{TsProgram, TsProgramError};
use bitstream_format::checksums::Crc32Mpeg;
use bitstream_format::stated::{stated_size, write_stored_size};
use bitstream_format::summed::{sum_of, summing_writer};
use bitstream_format::within::is_end;
use bitstream_io::{
    BE, BitRead, BitReadExt, BitReader, BitWrite, BitWriteExt, Bits, BitsWritten, Error, SliceMut,
    SliceReader, ToBitStream, pack_into,
};
use std::alloc::{AllocFailed, Global};
use std::marker::Model;

/// A program association section of a transport stream (ISO/IEC 13818-1, section 2.4.4.3).
///
/// ```text
///  0                   1                   2                   3
///  0 1 2 3 4 5 6 7 8 9 0 1 2 3 4 5 6 7 8 9 0 1 2 3 4 5 6 7 8 9 0 1
/// +-+-+-+-+-+-+-+-+-+-+-+-+-+-+-+-+-+-+-+-+-+-+-+-+-+-+-+-+-+-+-+-+
/// |       =0      |=|=| =3|     programs_bytes    |     stream    |
/// +-+-+-+-+-+-+-+-+-+-+-+-+-+-+-+-+-+-+-+-+-+-+-+-+-+-+-+-+-+-+-+-+
/// |               | =3| version |c|    section    |      last     |
/// +-+-+-+-+-+-+-+-+-+-+-+-+-+-+-+-+-+-+-+-+-+-+-+-+-+-+-+-+-+-+-+-+
/// /       programs (TsProgram, of programs_bytes - 9 bytes)       /
/// +-+-+-+-+-+-+-+-+-+-+-+-+-+-+-+-+-+-+-+-+-+-+-+-+-+-+-+-+-+-+-+-+
/// |                       stored_crc32_mpeg                       |
/// +-+-+-+-+-+-+-+-+-+-+-+-+-+-+-+-+-+-+-+-+-+-+-+-+-+-+-+-+-+-+-+-+
/// ```
#[derive(Debug, Drop)]
pub struct TsPat {
    /// The number of the transport stream.
    pub stream: u16,
    /// The version of the table. Below 2^5.
    pub version: u8,
    /// True if it holds now, and not later.
    pub current: bool,
    /// The number of the section.
    pub section: u8,
    /// The number of the last section.
    pub last: u8,
    /// The programs.
    pub programs: Vec<TsProgram>,
}

impl Model for TsPat {
    ghost use Rattle.media_messages.specs.TsPatFields.{TsPatFields};

    ghost Value = { TsPatFields };

    ghost view = { λ value. record {
      stream = value.stream;
      version = value.version;
      current = value.current;
      section = value.section;
      last = value.last;
      programs = value.programs.items;
    } };
}

/// The errors of reading a `TsPat`.
#[derive(Debug, Drop, thiserror::Error)]
pub enum TsPatError {
    /// An error of the reader.
    #[error("{0}")]
    Reader(Error),
    /// The section is of another table.
    #[error("the section is of another table")]
    OtherTable,
    /// The section has no long head.
    #[error("the section has no long head")]
    NoSyntax,
    /// The bit that is 0 is 1.
    #[error("the bit that is 0 is 1")]
    NotZero,
    /// A reserved bit is 0.
    #[error("a reserved bit is 0")]
    ZeroReserved,
    /// `programs` does not fill the bytes that its size states.
    #[error("`programs` does not fill the bytes that its size states")]
    Overlong,
    /// An error of a `TsProgram` that is not the reader's.
    #[error("in a `TsProgram`: {0}")]
    InTsProgram(TsProgramError),
    /// The CRC is not that of the section.
    #[error("the CRC is not that of the section")]
    WrongCrc,
}

impl From<Error> for TsPatError {
    ghost from_gives = { becomes_ts_pat };

    fn from(error: Error) -> TsPatError {
        TsPatError::Reader(error)
    }
}

impl From<TsProgramError> for TsPatError {
    ghost from_gives = { λ error own. own ≡ ts_program_error error };

    fn from(error: TsProgramError) -> TsPatError {
        match error {
            TsProgramError::Reader(error) => TsPatError::Reader(error),
            TsProgramError::ZeroReserved => TsPatError::InTsProgram(TsProgramError::ZeroReserved),
        }
    }
}

impl<T: Drop> From<AllocFailed<T>> for TsPatError {
    ghost from_gives = { λ _ own. own ≡ Reader OutOfMemory };

    fn from(_refused: AllocFailed<T>) -> TsPatError {
        TsPatError::Reader(Error::OutOfMemory)
    }
}

/// Writes the items of `programs`.
fn write_programs<W: BitWrite>(writer: &mut W, items: &[TsProgram]) -> Result<(), Error>
    ensures { WritesAll W.sink (flat_map (ts_program_writes W.sink.order) items.now)
        writer.old result writer.new }
{
    for item in items {
        item.write(writer)?;
    }
    Ok(())
}

/// Returns the number of bits of the items of `programs`.
///
/// # Errors
///
/// `Checked` for a field that does not fit its bits.
fn count_programs(items: &[TsProgram]) -> Result<u64, Error>
    ensures { CountsBits (λ bits. bits) 18446744073709551615 same_error (flat_map (ts_program_writes High) items.now)
        (Ok tt) result }
{
    let mut counter = BitsWritten::<u64>::new();
    write_programs(&mut counter, items)?;
    Ok(counter.into_written())
}

/// Maps an error inside the bytes of `programs`: the end of these bytes becomes `Overlong`.
fn programs_ended(error: TsPatError) -> TsPatError
    ensures { result ≡ programs_ended error }
{
    match error {
        TsPatError::Reader(error) => {
            if is_end(&error) {
                return TsPatError::Overlong;
            }
            TsPatError::Reader(error)
        }
        TsPatError::OtherTable => TsPatError::OtherTable,
        TsPatError::NoSyntax => TsPatError::NoSyntax,
        TsPatError::NotZero => TsPatError::NotZero,
        TsPatError::ZeroReserved => TsPatError::ZeroReserved,
        TsPatError::Overlong => TsPatError::Overlong,
        TsPatError::InTsProgram(error) => TsPatError::InTsProgram(error),
        TsPatError::WrongCrc => TsPatError::WrongCrc,
    }
}

/// Parses these bytes as the items of `programs`, of which there are at most `size`.
///
/// # Errors
///
/// `Overlong` if the items do not fill the bytes. Otherwise the error of an item.
fn programs_in(bytes: &[u8], alloc: Global, size: u64) -> Result<Vec<TsProgram>, TsPatError>
    ensures { UnlessMemory (λ error. Reader error)
        (items_from (ts_program_here High) Overlong (λ error. Reader error) programs_ended 0 (bits High bytes.now) size)
        (result_map (λ found. found.items) result) }
{
    let mut inside = SliceReader::<BE>::over(bytes);
    let mut found = Vec::new(alloc);
    for _ in 0..size {
        if inside.is_at_end() {
            return Ok(found);
        }
        match TsProgram::read(&mut inside) {
            Ok(item) => found.push(item)?,
            Err(error) => return Err(programs_ended(TsPatError::from(error))),
        }
    }
    if inside.is_at_end() {
        return Ok(found);
    }
    Err(TsPatError::Overlong)
}

/// Reads `programs`, which has `size` bytes. No bit after them is read.
fn read_programs<R: BitRead>(
    reader: &mut R,
    alloc: Global,
    size: u64,
) -> Result<Vec<TsProgram>, TsPatError>
    requires { R.source.order ≡ High }
    ensures { GrowsOwn R.source becomes_ts_pat (programs_sized R.source.order size)
        reader.old (result_map (λ found. found.items) result) reader.new }
{
    let bytes = reader.read_to_vec(alloc, size as usize)?;
    programs_in(&bytes, alloc, size)
}

/// Reads `programs`. The number `stored` states its size.
fn read_stated_programs<R: BitRead>(
    reader: &mut R,
    alloc: Global,
    stored: u64,
) -> Result<Vec<TsProgram>, TsPatError>
    requires { R.source.order ≡ High }
    ensures { GrowsOwn R.source becomes_ts_pat (programs_stated R.source.order stored)
        reader.old (result_map (λ found. found.items) result) reader.new }
{
    match stated_size(stored, 1, 9, 0) {
        Some(size) => read_programs(reader, alloc, size),
        None => Err(TsPatError::Overlong),
    }
}

impl TsPat {
    /// Reads the fields in order.
    ///
    /// # Errors
    ///
    /// `OtherTable`, `NoSyntax`, `NotZero`, `ZeroReserved`, `Overlong`, `InTsProgram` or `WrongCrc`, after the rejected bits have been read.
    /// `Reader(OutOfMemory)` if an allocation for a list fails. The items before the failure
    /// have been read.
    /// Otherwise the reader's errors, after which it has failed.
    pub fn read<R: BitRead>(reader: &mut R, alloc: Global) -> Result<TsPat, TsPatError>
        requires { R.source.order ≡ High }
        ensures { GrowsOwn R.source becomes_ts_pat (ts_pat_decoder R.source.order) reader.old result reader.new }
    {
        reader.read_const::<Bits<8>, Bits<0>, TsPatError>(TsPatError::OtherTable)?;
        reader.read_const::<Bits<1>, Bits<1>, TsPatError>(TsPatError::NoSyntax)?;
        reader.read_const::<Bits<1>, Bits<0>, TsPatError>(TsPatError::NotZero)?;
        reader.read_const::<Bits<2>, Bits<3>, TsPatError>(TsPatError::ZeroReserved)?;
        let programs_bytes = reader.read::<Bits<12>, u64>()?;
        let stream = reader.read::<Bits<16>, u16>()?;
        reader.read_const::<Bits<2>, Bits<3>, TsPatError>(TsPatError::ZeroReserved)?;
        let version = reader.read::<Bits<5>, u8>()?;
        let current = reader.read_bit()?;
        let section = reader.read::<Bits<8>, u8>()?;
        let last = reader.read::<Bits<8>, u8>()?;
        let programs = read_stated_programs(reader, alloc, programs_bytes)?;
        let stored_crc32_mpeg = reader.read::<Bits<32>, u64>()?;
        let value = TsPat {
            stream,
            version,
            current,
            section,
            last,
            programs,
        };
        let is_crc32_mpeg = stored_crc32_mpeg == value.crc32_mpeg();
        if !is_crc32_mpeg {
            return Err(TsPatError::WrongCrc);
        }
        Ok(value)
    }

    /// Parses the value at the start of `packet`.
    ///
    /// # Errors
    ///
    /// `OtherTable`, `NoSyntax`, `NotZero`, `ZeroReserved`, `Overlong`, `InTsProgram` or `WrongCrc` if bits are rejected.
    /// `Reader(EndOfInput)` if the bytes end before the fields do.
    /// `Reader(OutOfMemory)` if the allocation for an item of a list fails.
    pub fn parse(packet: &[u8], alloc: Global) -> Result<TsPat, TsPatError>
        ensures answer { (OwnAnswer becomes_ts_pat (λ answer. answer)
            (sure_answer ((ts_pat_decoder High).reads 0 (bits High packet.now))) result)
            ⊎ ((result ≡ Err (TsPatError.Reader OutOfMemory))
            × MayAllocate (ts_pat_decoder High) 0 (bits High packet.now)) }
        ensures back { (value : TsPat) (more : List Bool) → Fits value
            → bits High packet.now ≡ write_sequence (ts_pat_writes High value) 0 ++ more
            → (result ≡ Ok value)
            ⊎ (result ≡ Err (TsPatError.Reader OutOfMemory)) }
    {
        ts_pat_round_trip();
        TsPat::read(&mut BitReader::<_, BE>::over(packet), alloc)
    }

    /// Writes the fields in order.
    ///
    /// # Errors
    ///
    /// `Checked` for a field that does not fit its bits. The fields before it have been written.
    /// Otherwise the sink's errors.
    pub fn write<W: BitWrite>(&self, writer: &mut W) -> Result<(), Error>
        ensures { WritesAll W.sink (ts_pat_writes W.sink.order self.now) writer.old result writer.new }
    {
        writer.write_const::<Bits<8>, Bits<0>>()?;
        writer.write_const::<Bits<1>, Bits<1>>()?;
        writer.write_const::<Bits<1>, Bits<0>>()?;
        writer.write_const::<Bits<2>, Bits<3>>()?;
        write_stored_size(writer, 12, count_programs(&self.programs), 1, 9, 0)?;
        writer.write::<Bits<16>, u16>(self.stream)?;
        writer.write_const::<Bits<2>, Bits<3>>()?;
        writer.write::<Bits<5>, u8>(self.version)?;
        writer.write_bit(self.current)?;
        writer.write::<Bits<8>, u8>(self.section)?;
        writer.write::<Bits<8>, u8>(self.last)?;
        write_programs(writer, &self.programs)?;
        writer.write::<Bits<32>, u64>(self.crc32_mpeg())?;
        Ok(())
    }

    /// Returns the crc32-mpeg of its lines as they are written, or 0 if a field of theirs does not fit its bits.
    fn crc32_mpeg(&self) -> u64
        ensures { result ≡ crc32_mpeg_sum self.now }
    {
        let mut writer = summing_writer::<BE, Crc32Mpeg>();
        match self.write_for_crc32_mpeg(&mut writer) {
            Ok(()) => sum_of(writer),
            Err(_) => 0,
        }
    }

    /// Writes the lines that the crc32-mpeg covers.
    fn write_for_crc32_mpeg<W: BitWrite>(&self, writer: &mut W) -> Result<(), Error>
        ensures { WritesAll W.sink (crc32_mpeg_writes W.sink.order self.now) writer.old result writer.new }
    {
        writer.write_const::<Bits<8>, Bits<0>>()?;
        writer.write_const::<Bits<1>, Bits<1>>()?;
        writer.write_const::<Bits<1>, Bits<0>>()?;
        writer.write_const::<Bits<2>, Bits<3>>()?;
        write_stored_size(writer, 12, count_programs(&self.programs), 1, 9, 0)?;
        writer.write::<Bits<16>, u16>(self.stream)?;
        writer.write_const::<Bits<2>, Bits<3>>()?;
        writer.write::<Bits<5>, u8>(self.version)?;
        writer.write_bit(self.current)?;
        writer.write::<Bits<8>, u8>(self.section)?;
        writer.write::<Bits<8>, u8>(self.last)?;
        write_programs(writer, &self.programs)?;
        Ok(())
    }

    /// Writes the fields to the first bytes of a buffer, and returns what was written. The other bytes
    /// stay as they were. Does not allocate.
    ///
    /// # Errors
    ///
    /// `Checked` for the first field that does not fit its bits, however long the buffer is.
    /// `Stream(WriteZero)` if all fields fit, and the buffer is too short for the bits.
    /// After an error, the first bytes of the buffer may have changed.
    pub fn pack_into<'a>(&self, buffer: &'a mut [u8]) -> Result<SliceMut<'a>, Error>
        ensures packed { IfOk result (λ packed. bits High (written_bytes packed) ≡ ts_pat_bits self.now) }
        ensures first { IfOk result (HoldsFirst buffer.entry.ghost_name buffer.old) }
        ensures accepted { IsOk result → AllAccepted (ts_pat_writes High self.now) 0 }
        ensures misfit { (error : Error) → sequence_length (ts_pat_writes High self.now) 0 ≡ Err error
            → result ≡ Err error }
        ensures room { Fits self.now → ts_pat_size High self.now ≤ 8 * length buffer.old
            → IsOk result }
        ensures short { Fits self.now → 8 * length buffer.old < ts_pat_size High self.now
            → result ≡ Err (Stream WriteZero) }
    {
        pack_into::<BE, TsPat>(self, buffer)
    }
}

impl ToBitStream for TsPat {
    type Error = Error;

    ghost becomes = { same_error };

    ghost writes = { ts_pat_writes };

    fn to_writer<W: BitWrite>(&self, writer: &mut W) -> Result<(), Error> {
        self.write(writer)
    }
}

/// A value that fits its bits is read back as it was written, in either order of bits, at any place.
/// The read takes only the bits that were written: `ts_pat_size` is their number.
pub fn ts_pat_round_trip()
    ensures back { (o : Order) (value : TsPat) (at from : ℕ) (more : List Bool) → Fits value
        → let written = write_sequence (ts_pat_writes o value) at in
        (ts_pat_decoder o).reads from (written ++ more) ≡ Done (length written) (Ok (Ok value)) }
    ensures size { (o : Order) (value : TsPat) (at : ℕ) → Fits value
        → length (write_sequence (ts_pat_writes o value) at) ≡ ts_pat_size o value }
{}
