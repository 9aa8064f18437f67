//! The picture of a FLAC file, as types that own memory and have reads and writes of their own.
//! Their reads and writes are called one after the other.
ghost use Rattle.std.specs.Prelude.{◌≡◌, ◌++◌, true, ℕ, Bool, List, length, Ok};
ghost use Rattle.bitstream_io.specs.Callers.{same_error, WritesAll, Order, Done, write_sequence};
ghost use Rattle.bitstream_callers.specs.Picture.{counted_reads, counted_writes, picture_reads, picture_writes, size_reads, size_writes, IsPicture};
ghost use Rattle.bitstream_callers.specs.declared.picture.Picture.{Picture};

use bitstream_io::{
    BitRead, BitReadExt, BitWrite, BitWriteExt, Bits, Error, FromBitStream, FromBitStreamUsing,
    ToBitStream,
};
use std::alloc::Global;
use std::marker::Model;

/// Bytes, after their number in 32 bits.
#[derive(Drop)]
pub struct CountedBytes {
    /// The bytes, fewer than 2^32.
    pub bytes: Vec<u8>,
}

impl Model for CountedBytes {
    ghost use Rattle.std.specs.Prelude.{ℕ, List};

    ghost Value = { List ℕ };

    ghost view = { λ counted. counted.bytes.items };
}

impl FromBitStreamUsing for CountedBytes {
    type Context = Global;

    type Error = Error;

    ghost grows = { true };

    ghost becomes = { same_error };

    ghost reads = { λ o _. counted_reads o };

    fn from_reader<R: BitRead>(reader: &mut R, alloc: Global) -> Result<CountedBytes, Error> {
        let size = reader.read::<Bits<32>, u32>()?;
        let bytes = reader.read_to_vec(alloc, size as usize)?;
        Ok(CountedBytes { bytes })
    }
}

/// Writes bytes, after their number in 32 bits.
///
/// # Errors
///
/// `Checked` for 2^32 bytes or more, before anything is written. Otherwise the errors of the sink.
pub fn write_counted_bytes<W: BitWrite>(writer: &mut W, bytes: &[u8]) -> Result<(), Error>
    ensures { WritesAll W.sink (counted_writes W.sink.order bytes.now) writer.old result writer.new }
{
    writer.write::<Bits<32>, u64>(bytes.len() as u64)?;
    writer.write_bytes(bytes)
}

impl ToBitStream for CountedBytes {
    type Error = Error;

    ghost becomes = { same_error };

    ghost writes = { counted_writes };

    fn to_writer<W: BitWrite>(&self, writer: &mut W) -> Result<(), Error> {
        write_counted_bytes(writer, &self.bytes)
    }
}

/// The size of a picture.
#[derive(Clone, Copy, Debug, PartialEq)]
pub struct PictureSize {
    /// The width in pixels.
    pub width: u32,
    /// The height in pixels.
    pub height: u32,
    /// The number of bits of a pixel.
    pub depth: u32,
    /// The number of colors in its palette, or 0 if it has none.
    pub colors: u32,
}

impl FromBitStream for PictureSize {
    type Error = Error;

    ghost becomes = { same_error };

    ghost reads = { size_reads };

    fn from_reader<R: BitRead>(reader: &mut R) -> Result<PictureSize, Error> {
        Ok(PictureSize {
            width: reader.read::<Bits<32>, u32>()?,
            height: reader.read::<Bits<32>, u32>()?,
            depth: reader.read::<Bits<32>, u32>()?,
            colors: reader.read::<Bits<32>, u32>()?,
        })
    }
}

impl ToBitStream for PictureSize {
    type Error = Error;

    ghost becomes = { same_error };

    ghost writes = { size_writes };

    fn to_writer<W: BitWrite>(&self, writer: &mut W) -> Result<(), Error> {
        writer.write::<Bits<32>, u32>(self.width)?;
        writer.write::<Bits<32>, u32>(self.height)?;
        writer.write::<Bits<32>, u32>(self.depth)?;
        writer.write::<Bits<32>, u32>(self.colors)
    }
}

/// A picture, as it is in a file.
#[derive(Drop)]
pub struct Picture {
    /// The kind of picture: 3 for a front cover.
    pub kind: u32,
    /// The name of its format, such as `image/png`.
    pub media: CountedBytes,
    /// A text in UTF-8.
    pub description: CountedBytes,
    /// The size of the picture.
    pub size: PictureSize,
    /// The picture itself.
    pub image: CountedBytes,
}

impl FromBitStreamUsing for Picture {
    type Context = Global;

    type Error = Error;

    ghost grows = { true };

    ghost becomes = { same_error };

    ghost reads = { λ o _. picture_reads o };

    fn from_reader<R: BitRead>(reader: &mut R, alloc: Global) -> Result<Picture, Error> {
        Ok(Picture {
            kind: reader.read::<Bits<32>, u32>()?,
            media: reader.parse_using(alloc)?,
            description: reader.parse_using(alloc)?,
            size: reader.parse()?,
            image: reader.parse_using(alloc)?,
        })
    }
}

impl ToBitStream for Picture {
    type Error = Error;

    ghost becomes = { same_error };

    ghost writes = { picture_writes };

    fn to_writer<W: BitWrite>(&self, writer: &mut W) -> Result<(), Error> {
        writer.write::<Bits<32>, u32>(self.kind)?;
        writer.build(&self.media)?;
        writer.build(&self.description)?;
        writer.build(&self.size)?;
        writer.build(&self.image)
    }
}

/// A picture whose numbers fit their bits is read back as it was written, in either order of bits,
/// at any place. The read takes only the bits that were written.
pub fn pictures_round_trip()
    ensures { (o : Order) (picture : Picture) (at from : ℕ) (more : List Bool) → IsPicture picture
        → let word = write_sequence (picture_writes o picture) at in
        (picture_reads o).reads from (word ++ more) ≡ Done (length word) (Ok (Ok picture)) }
{}
