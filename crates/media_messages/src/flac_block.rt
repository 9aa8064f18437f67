//! A metadata block of a FLAC file (RFC 9639, 8.1).
//!
//! Made by `./format` from formats/flac_block.fields: edit that file and make this one anew.
ghost use Rattle.media_messages.specs.FlacBlock.{flac_block_decoder, flac_block_writes, flac_block_size, flac_block_bits, Fits, becomes_flac_block, body_number, body_read, body_writes, other_body_read, body_sized, body_ended};
ghost use Rattle.bitstream_format.specs.Within.{within, UnlessMemory};
ghost use Rattle.media_messages.specs.declared.flac_block.FlacBlock.{FlacBlock};
ghost use Rattle.media_messages.specs.declared.flac_block.FlacBlockError.{FlacBlockError};
ghost use Rattle.media_messages.specs.declared.flac_block.FlacBlockError.TheVariants.{Reader, OtherSize};
ghost use Rattle.std.specs.Prelude.{◌≡◌, ◌<◌, ◌≤◌, ◌*◌, ◌++◌, ◌∷◌, [], ◌⊎◌, ℕ, Bool, List, Ok, Err, length, IfOk, IsOk};
ghost use Rattle.std.specs.declared.io.ErrorKind.TheVariants.{WriteZero};
ghost use Rattle.bitstream_io.specs.Callers.{Done, Error, Order, High, bits, buffer, write_sequence, OwnAnswer, WritesAll, AllAccepted, sequence_length, sure_answer, GrowsOwn, MayAllocate, OutOfMemory, Stream, same_error};
ghost use Rattle.bitstream_io.specs.SliceMut.{HoldsFirst, written_bytes};

use crate::flac_info::FlacInfo;
use bitstream_format::within::{is_end, write_size};
use bitstream_io::{
    BE, BitRead, BitReadExt, BitReader, BitWrite, BitWriteExt, Bits, Error, SliceMut, SliceReader,
    ToBitStream, pack_into,
};
use std::alloc::Global;
use std::marker::Model;

/// A metadata block of a FLAC file (RFC 9639, 8.1).
///
/// ```text
///  0                   1                   2                   3
///  0 1 2 3 4 5 6 7 8 9 0 1 2 3 4 5 6 7 8 9 0 1 2 3 4 5 6 7 8 9 0 1
/// +-+-+-+-+-+-+-+-+-+-+-+-+-+-+-+-+-+-+-+-+-+-+-+-+-+-+-+-+-+-+-+-+
/// |l|   body_tag  |                   body_bytes                  |
/// +-+-+-+-+-+-+-+-+-+-+-+-+-+-+-+-+-+-+-+-+-+-+-+-+-+-+-+-+-+-+-+-+
/// /                      body (Info or Other)                     /
/// +-+-+-+-+-+-+-+-+-+-+-+-+-+-+-+-+-+-+-+-+-+-+-+-+-+-+-+-+-+-+-+-+
/// ```
#[derive(Debug, Drop)]
pub struct FlacBlock {
    /// True for the last block before the frames.
    pub last: bool,
    /// The content.
    pub body: Body,
}

impl Model for FlacBlock {
    ghost use Rattle.media_messages.specs.FlacBlockFields.{FlacBlockFields};

    ghost Value = { FlacBlockFields };

    ghost view = { λ value. record {
      last = value.last;
      body = value.body;
    } };
}

/// The errors of reading a `FlacBlock`.
#[derive(Debug, Drop, thiserror::Error)]
pub enum FlacBlockError {
    /// An error of the reader.
    #[error("{0}")]
    Reader(Error),
    /// `body` does not fill the bytes that its size states.
    #[error("`body` does not fill the bytes that its size states")]
    OtherSize,
}

impl From<Error> for FlacBlockError {
    ghost from_gives = { becomes_flac_block };

    fn from(error: Error) -> FlacBlockError {
        FlacBlockError::Reader(error)
    }
}

/// A number that no other case of `Body` has, and the bytes after it.
#[derive(Debug, Drop)]
pub struct OtherBody {
    /// The number.
    pub number: u8,
    /// The bytes.
    pub bytes: Vec<u8>,
}

impl Model for OtherBody {
    ghost use Rattle.media_messages.specs.FlacBlockBytes.{OtherBodyFields};

    ghost Value = { OtherBodyFields };

    ghost view = { λ value. record {
      number = value.number;
      bytes = value.bytes.items;
    } };
}

impl OtherBody {
    /// Reads `size` bytes.
    fn read<R: BitRead>(
        reader: &mut R,
        alloc: Global,
        number: u8,
        size: u64,
    ) -> Result<OtherBody, FlacBlockError>
        ensures { GrowsOwn R.source becomes_flac_block (other_body_read R.source.order number size)
            reader.old result reader.new }
    {
        let bytes = reader.read_to_vec(alloc, size as usize)?;
        Ok(OtherBody { number, bytes })
    }

    /// Writes the bytes.
    fn write<W: BitWrite>(&self, writer: &mut W) -> Result<(), Error>
        ensures { WritesAll W.sink (buffer W.sink.order self.now.bytes ∷ []) writer.old result writer.new }
    {
        writer.write_bytes(&self.bytes)?;
        Ok(())
    }
}

/// The content.
#[derive(Debug, Drop)]
pub enum Body {
    /// The case for the number 0.
    Info(FlacInfo),
    /// Any other number, and the bytes after it.
    Other(OtherBody),
}

impl Body {
    /// Returns the number of the case.
    pub fn number(&self) -> u8
        ensures { result ≡ body_number self.now }
    {
        match self {
            Body::Info(_) => 0,
            Body::Other(it) => it.number,
        }
    }

    /// Reads what follows the number of a case.
    ///
    /// # Errors
    ///
    /// The reader's errors, after which it has failed.
    pub fn read<R: BitRead>(
        reader: &mut R,
        alloc: Global,
        number: u8,
        size: u64,
    ) -> Result<Body, FlacBlockError>
        ensures { GrowsOwn R.source becomes_flac_block (body_read R.source.order number size) reader.old result reader.new }
    {
        if number == 0 {
            return Ok(Body::Info(FlacInfo::read(reader)?));
        }
        Ok(Body::Other(OtherBody::read(reader, alloc, number, size)?))
    }

    /// Writes what follows the number of the case.
    ///
    /// # Errors
    ///
    /// `Checked` for a field that does not fit its bits. The fields before it have been written.
    /// Otherwise the sink's errors.
    pub fn write<W: BitWrite>(&self, writer: &mut W) -> Result<(), Error>
        ensures { WritesAll W.sink (body_writes W.sink.order self.now) writer.old result writer.new }
    {
        match self {
            Body::Info(it) => it.write(writer),
            Body::Other(it) => it.write(writer),
        }
    }
}

impl ToBitStream for Body {
    type Error = Error;

    ghost becomes = { same_error };

    ghost writes = { body_writes };

    fn to_writer<W: BitWrite>(&self, writer: &mut W) -> Result<(), Error> {
        self.write(writer)
    }
}

/// Maps an error inside the bytes of `body`: the end of these bytes becomes `OtherSize`.
fn body_ended(error: FlacBlockError) -> FlacBlockError
    ensures { result ≡ body_ended error }
{
    match error {
        FlacBlockError::Reader(error) => {
            if is_end(&error) {
                return FlacBlockError::OtherSize;
            }
            FlacBlockError::Reader(error)
        }
        FlacBlockError::OtherSize => FlacBlockError::OtherSize,
    }
}

/// Parses these bytes as `body`.
///
/// # Errors
///
/// `OtherSize` if `body` does not fill the bytes. Otherwise the errors of `body`.
fn body_in(bytes: &[u8], alloc: Global, number: u8, size: u64) -> Result<Body, FlacBlockError>
    ensures { UnlessMemory (λ error. Reader error)
        (within (body_read High number size) OtherSize (λ error. Reader error) body_ended (bits High bytes.now)) result }
{
    let mut inside = SliceReader::<BE>::over(bytes);
    match Body::read(&mut inside, alloc, number, size) {
        Ok(found) => {
            if inside.is_at_end() {
                return Ok(found);
            }
            Err(FlacBlockError::OtherSize)
        }
        Err(error) => Err(body_ended(error)),
    }
}

/// Reads `body`, which has `size` bytes. No bit after them is read.
fn read_body<R: BitRead>(
    reader: &mut R,
    alloc: Global,
    number: u8,
    size: u64,
) -> Result<Body, FlacBlockError>
    requires { R.source.order ≡ High }
    ensures { GrowsOwn R.source becomes_flac_block (body_sized R.source.order number size)
        reader.old result reader.new }
{
    let bytes = reader.read_to_vec(alloc, size as usize)?;
    body_in(&bytes, alloc, number, size)
}

impl FlacBlock {
    /// The number of bits before each line of the description.
    pub const PLACES: [u64; 4] = [0, 1, 8, 32];

    /// Reads the fields in order.
    ///
    /// # Errors
    ///
    /// `OtherSize`, after the rejected bits have been read.
    /// `Reader(OutOfMemory)` if an allocation for a list fails. The items before the failure
    /// have been read.
    /// Otherwise the reader's errors, after which it has failed.
    pub fn read<R: BitRead>(reader: &mut R, alloc: Global) -> Result<FlacBlock, FlacBlockError>
        requires { R.source.order ≡ High }
        ensures { GrowsOwn R.source becomes_flac_block (flac_block_decoder R.source.order) reader.old result reader.new }
    {
        let last = reader.read_bit()?;
        let body_tag = reader.read::<Bits<7>, u8>()?;
        let body_bytes = reader.read::<Bits<24>, u64>()?;
        let body = read_body(reader, alloc, body_tag, body_bytes)?;
        Ok(FlacBlock { last, body })
    }

    /// Parses the value at the start of `packet`.
    ///
    /// # Errors
    ///
    /// `OtherSize` if bits are rejected.
    /// `Reader(EndOfInput)` if the bytes end before the fields do.
    /// `Reader(OutOfMemory)` if the allocation for an item of a list fails.
    pub fn parse(packet: &[u8], alloc: Global) -> Result<FlacBlock, FlacBlockError>
        ensures answer { (OwnAnswer becomes_flac_block (λ answer. answer)
            (sure_answer ((flac_block_decoder High).reads 0 (bits High packet.now))) result)
            ⊎ ((result ≡ Err (FlacBlockError.Reader OutOfMemory))
            × MayAllocate (flac_block_decoder High) 0 (bits High packet.now)) }
        ensures back { (value : FlacBlock) (more : List Bool) → Fits value
            → bits High packet.now ≡ write_sequence (flac_block_writes High value) 0 ++ more
            → (result ≡ Ok value)
            ⊎ (result ≡ Err (FlacBlockError.Reader OutOfMemory)) }
    {
        flac_block_round_trip();
        FlacBlock::read(&mut BitReader::<_, BE>::over(packet), alloc)
    }

    /// Writes the fields in order.
    ///
    /// # Errors
    ///
    /// `Checked` for a field that does not fit its bits. The fields before it have been written.
    /// Otherwise the sink's errors.
    pub fn write<W: BitWrite>(&self, writer: &mut W) -> Result<(), Error>
        ensures { WritesAll W.sink (flac_block_writes W.sink.order self.now) writer.old result writer.new }
    {
        writer.write_bit(self.last)?;
        writer.write::<Bits<7>, u8>(self.body.number())?;
        write_size(writer, 24, self.body.bits::<u64>())?;
        self.body.write(writer)?;
        Ok(())
    }

    /// Writes the fields to the first bytes of a buffer, and returns what was written. The other bytes
    /// stay as they were. Does not allocate.
    ///
    /// # Errors
    ///
    /// `Checked` for the first field that does not fit its bits, however long the buffer is.
    /// `Stream(WriteZero)` if all fields fit, and the buffer is too short for the bits.
    /// After an error, the first bytes of the buffer may have changed.
    pub fn pack_into<'a>(&self, buffer: &'a mut [u8]) -> Result<SliceMut<'a>, Error>
        ensures packed { IfOk result (λ packed. bits High (written_bytes packed) ≡ flac_block_bits self.now) }
        ensures first { IfOk result (HoldsFirst buffer.entry.ghost_name buffer.old) }
        ensures accepted { IsOk result → AllAccepted (flac_block_writes High self.now) 0 }
        ensures misfit { (error : Error) → sequence_length (flac_block_writes High self.now) 0 ≡ Err error
            → result ≡ Err error }
        ensures room { Fits self.now → flac_block_size High self.now ≤ 8 * length buffer.old
            → IsOk result }
        ensures short { Fits self.now → 8 * length buffer.old < flac_block_size High self.now
            → result ≡ Err (Stream WriteZero) }
    {
        pack_into::<BE, FlacBlock>(self, buffer)
    }
}

impl ToBitStream for FlacBlock {
    type Error = Error;

    ghost becomes = { same_error };

    ghost writes = { flac_block_writes };

    fn to_writer<W: BitWrite>(&self, writer: &mut W) -> Result<(), Error> {
        self.write(writer)
    }
}

/// A value that fits its bits is read back as it was written, in either order of bits, at any place.
/// The read takes only the bits that were written: `flac_block_size` is their number.
pub fn flac_block_round_trip()
    ensures back { (o : Order) (value : FlacBlock) (at from : ℕ) (more : List Bool) → Fits value
        → let written = write_sequence (flac_block_writes o value) at in
        (flac_block_decoder o).reads from (written ++ more) ≡ Done (length written) (Ok (Ok value)) }
    ensures size { (o : Order) (value : FlacBlock) (at : ℕ) → Fits value
        → length (write_sequence (flac_block_writes o value) at) ≡ flac_block_size o value }
{}
