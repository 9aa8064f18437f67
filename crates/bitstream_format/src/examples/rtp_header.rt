//! The fixed header of an RTP packet, and the sources that contributed to it.
ghost use Rattle.bitstream_format.specs.Format.{RoundTripLaw, LengthLaw};
ghost use Rattle.bitstream_format.specs.Examples.RtpHeader.{rtp_header, becomes_rtp_header};
ghost use Rattle.std.specs.Prelude.{◌∷◌, []};
ghost use Rattle.std.specs.List.{flat_map};
ghost use Rattle.bitstream_io.specs.Callers.{unsigned_decoder, list_item, items_decoder, unsigned, WritesAll, GrowsOwn, result_map};
ghost use Rattle.bitstream_io.specs.Grows.{GrowingOutcome};

use bitstream_io::{BitRead, BitReadExt, BitWrite, BitWriteExt, Bits, Error};
use std::alloc::Global;
use std::marker::Model;

/// The fixed header of an RTP packet, and the sources that contributed to it.
#[derive(Debug, Drop)]
pub struct RtpHeader {
    /// True if padding ends the packet.
    pub padding: bool,
    /// True if an extension of the header follows.
    pub extension: bool,
    /// A mark that the profile defines, such as the end of a frame.
    pub marker: bool,
    /// The type of the payload. Below 2^7.
    pub payload_type: u8,
    /// The number of the packet in its stream.
    pub sequence: u16,
    /// The time at which the first byte of the payload was sampled.
    pub timestamp: u32,
    /// The source that the packet is synchronized to.
    pub ssrc: u32,
    /// The sources from which a mixer made the payload. Fewer than 2^4.
    pub csrc: Vec<u32>,
}

impl Model for RtpHeader {
    ghost use Rattle.bitstream_format.specs.Examples.RtpHeaderFields.{RtpHeaderFields};

    ghost Value = { RtpHeaderFields };

    ghost view = { λ value. record {
      padding = value.padding;
      extension = value.extension;
      marker = value.marker;
      payload_type = value.payload_type;
      sequence = value.sequence;
      timestamp = value.timestamp;
      ssrc = value.ssrc;
      csrc = value.csrc.items;
    } };
}

/// The errors of reading a `RtpHeader`.
#[derive(Debug, Drop)]
pub enum RtpError {
    /// An error of the reader.
    Reader(Error),
    /// The version is not 2.
    WrongVersion,
}

impl From<Error> for RtpError {
    ghost from_gives = { becomes_rtp_header };

    fn from(error: Error) -> RtpError {
        RtpError::Reader(error)
    }
}

/// Reads `count` items of `csrc`. If the allocation for an item fails, that item is the last one read.
fn read_csrc<R: BitRead>(reader: &mut R, alloc: Global, count: u64) -> Result<Vec<u32>, Error>
    ensures { GrowingOutcome R.source (items_decoder (list_item (unsigned_decoder R.source.order 32 32)) count)
        reader.old (result_map (λ found. found.items) result) reader.new }
{
    let mut found = Vec::new(alloc);
    for _ in 0..count {
        found.push(reader.read::<Bits<32>, u32>()?)?;
    }
    Ok(found)
}

/// Writes the items of `csrc`.
fn write_csrc<W: BitWrite>(writer: &mut W, items: &[u32]) -> Result<(), Error>
    ensures { WritesAll W.sink (flat_map (λ x. unsigned W.sink.order 32 32 x ∷ []) items.now)
        writer.old result writer.new }
{
    for item in items {
        writer.write::<Bits<32>, u32>(*item)?;
    }
    Ok(())
}

impl RtpHeader {
    /// Reads the fields in order.
    ///
    /// # Errors
    ///
    /// `WrongVersion`, after the bits that differ have been read. `Reader(OutOfMemory)` if the allocation for an item
    /// fails, after the bits up to the end of that item have been read. Otherwise, the errors of the reader, after
    /// which it has failed.
    pub fn read<R: BitRead>(reader: &mut R, alloc: Global) -> Result<RtpHeader, RtpError>
        ensures { GrowsOwn R.source becomes_rtp_header (rtp_header.read R.source.order) reader.old result reader.new }
    {
        reader.read_const::<Bits<2>, Bits<2>, RtpError>(RtpError::WrongVersion)?;
        let padding = reader.read_bit()?;
        let extension = reader.read_bit()?;
        let csrc_count = reader.read::<Bits<4>, u64>()?;
        let marker = reader.read_bit()?;
        let payload_type = reader.read::<Bits<7>, u8>()?;
        let sequence = reader.read::<Bits<16>, u16>()?;
        let timestamp = reader.read::<Bits<32>, u32>()?;
        let ssrc = reader.read::<Bits<32>, u32>()?;
        let csrc = read_csrc(reader, alloc, csrc_count)?;
        Ok(RtpHeader {
            padding,
            extension,
            marker,
            payload_type,
            sequence,
            timestamp,
            ssrc,
            csrc,
        })
    }

    /// Writes the fields in order.
    ///
    /// # Errors
    ///
    /// `Checked` for a field that does not fit its bits. The fields before it have been written. Otherwise, the errors
    /// of the writer.
    pub fn write<W: BitWrite>(&self, writer: &mut W) -> Result<(), Error>
        ensures { WritesAll W.sink (rtp_header.write W.sink.order self.now) writer.old result writer.new }
    {
        writer.write_const::<Bits<2>, Bits<2>>()?;
        writer.write_bit(self.padding)?;
        writer.write_bit(self.extension)?;
        writer.write::<Bits<4>, u64>(self.csrc.len() as u64)?;
        writer.write_bit(self.marker)?;
        writer.write::<Bits<7>, u8>(self.payload_type)?;
        writer.write::<Bits<16>, u16>(self.sequence)?;
        writer.write::<Bits<32>, u32>(self.timestamp)?;
        writer.write::<Bits<32>, u32>(self.ssrc)?;
        write_csrc(writer, &self.csrc)?;
        Ok(())
    }
}

/// States that what was written is read back, in either order of bits, at any position, and that a read takes only
/// its bits.
pub fn rtp_header_laws()
    ensures round_trip { RoundTripLaw rtp_header }
    ensures length { LengthLaw rtp_header }
{}
