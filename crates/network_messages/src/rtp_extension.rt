//! The extension of an RTP header (RFC 3550, section 5.3.1).
//!
//! Made by `./format` from formats/rtp_extension.fields: edit that file and make this one anew.
ghost use Rattle.network_messages.specs.RtpExtension.{rtp_extension_decoder, rtp_extension_writes, rtp_extension_size, rtp_extension_bits, Fits};
ghost use Rattle.network_messages.specs.declared.rtp_extension.RtpExtension.{RtpExtension};
ghost use Rattle.std.specs.Prelude.{◌≡◌, ◌<◌, ◌≤◌, ◌*◌, ◌++◌, ◌⊎◌, ℕ, Bool, true, List, Ok, Err, length, IfOk, IsOk};
ghost use Rattle.std.specs.declared.io.ErrorKind.TheVariants.{WriteZero};
ghost use Rattle.bitstream_io.specs.Callers.{Done, Error, Order, High, bits, write_sequence, OwnAnswer, WritesAll, AllAccepted, sequence_length, sure_answer, GrowsOwn, MayAllocate, OutOfMemory, Stream, same_error};
ghost use Rattle.bitstream_io.specs.SliceMut.{HoldsFirst, written_bytes};

use bitstream_format::stated::{size_in_units, stored_size};
use bitstream_io::{
    BE, BitRead, BitReadExt, BitReader, BitWrite, BitWriteExt, Bits, Error, FromBitStreamUsing,
    SliceMut, ToBitStream, pack_into,
};
use std::alloc::Global;
use std::marker::Model;

/// The extension of an RTP header (RFC 3550, section 5.3.1).
///
/// ```text
///  0                   1                   2                   3
///  0 1 2 3 4 5 6 7 8 9 0 1 2 3 4 5 6 7 8 9 0 1 2 3 4 5 6 7 8 9 0 1
/// +-+-+-+-+-+-+-+-+-+-+-+-+-+-+-+-+-+-+-+-+-+-+-+-+-+-+-+-+-+-+-+-+
/// |            profile            |           data_bytes          |
/// +-+-+-+-+-+-+-+-+-+-+-+-+-+-+-+-+-+-+-+-+-+-+-+-+-+-+-+-+-+-+-+-+
/// /                  data (4 * data_bytes bytes)                  /
/// +-+-+-+-+-+-+-+-+-+-+-+-+-+-+-+-+-+-+-+-+-+-+-+-+-+-+-+-+-+-+-+-+
/// ```
#[derive(Debug, Drop)]
pub struct RtpExtension {
    /// The kind of the extension, which the profile defines.
    pub profile: u16,
    /// The data, in words of 4 bytes.
    pub data: Vec<u8>,
}

impl Model for RtpExtension {
    ghost use Rattle.network_messages.specs.RtpExtensionFields.{RtpExtensionFields};

    ghost Value = { RtpExtensionFields };

    ghost view = { λ value. record {
      profile = value.profile;
      «data» = value.data.items;
    } };
}

impl RtpExtension {
    /// The number of bits before each line of the description.
    pub const PLACES: [u64; 3] = [0, 16, 32];

    /// Reads the fields in order.
    ///
    /// # Errors
    ///
    /// `OutOfMemory` if an allocation for a list fails. The items before the failure
    /// have been read.
    /// Otherwise the reader's errors, after which it has failed.
    pub fn read<R: BitRead>(reader: &mut R, alloc: Global) -> Result<RtpExtension, Error>
        ensures { GrowsOwn R.source same_error (rtp_extension_decoder R.source.order) reader.old result reader.new }
    {
        let profile = reader.read::<Bits<16>, u16>()?;
        let data_bytes = reader.read::<Bits<16>, u64>()?;
        let data_ = reader.read_to_vec(alloc, size_in_units(data_bytes, 4, 0) as usize)?;
        Ok(RtpExtension {
            profile,
            data: data_,
        })
    }

    /// Parses the value at the start of `packet`.
    ///
    /// # Errors
    ///
    /// `EndOfInput` if the bytes end before the fields do.
    /// `OutOfMemory` if the allocation for an item of a list fails.
    pub fn parse(packet: &[u8], alloc: Global) -> Result<RtpExtension, Error>
        ensures answer { (OwnAnswer same_error (λ answer. answer)
            (sure_answer ((rtp_extension_decoder High).reads 0 (bits High packet.now))) result)
            ⊎ ((result ≡ Err OutOfMemory)
            × MayAllocate (rtp_extension_decoder High) 0 (bits High packet.now)) }
        ensures back { (value : RtpExtension) (more : List Bool) → Fits value
            → bits High packet.now ≡ write_sequence (rtp_extension_writes High value) 0 ++ more
            → (result ≡ Ok value)
            ⊎ (result ≡ Err OutOfMemory) }
    {
        rtp_extension_round_trip();
        RtpExtension::read(&mut BitReader::<_, BE>::over(packet), alloc)
    }

    /// Writes the fields in order.
    ///
    /// # Errors
    ///
    /// `Checked` for a field that does not fit its bits. The fields before it have been written.
    /// Otherwise the sink's errors.
    pub fn write<W: BitWrite>(&self, writer: &mut W) -> Result<(), Error>
        ensures { WritesAll W.sink (rtp_extension_writes W.sink.order self.now) writer.old result writer.new }
    {
        writer.write::<Bits<16>, u16>(self.profile)?;
        writer.write::<Bits<16>, u64>(stored_size(self.data.len() as u64, 4, 0, 0))?;
        writer.write_bytes(&self.data)?;
        Ok(())
    }

    /// Writes the fields to the first bytes of a buffer, and returns what was written. The other bytes
    /// stay as they were. Does not allocate.
    ///
    /// # Errors
    ///
    /// `Checked` for the first field that does not fit its bits, however long the buffer is.
    /// `Stream(WriteZero)` if all fields fit, and the buffer is too short for the bits.
    /// After an error, the first bytes of the buffer may have changed.
    pub fn pack_into<'a>(&self, buffer: &'a mut [u8]) -> Result<SliceMut<'a>, Error>
        ensures packed { IfOk result (λ packed. bits High (written_bytes packed) ≡ rtp_extension_bits self.now) }
        ensures first { IfOk result (HoldsFirst buffer.entry.ghost_name buffer.old) }
        ensures accepted { IsOk result → AllAccepted (rtp_extension_writes High self.now) 0 }
        ensures misfit { (error : Error) → sequence_length (rtp_extension_writes High self.now) 0 ≡ Err error
            → result ≡ Err error }
        ensures room { Fits self.now → rtp_extension_size High self.now ≤ 8 * length buffer.old
            → IsOk result }
        ensures short { Fits self.now → 8 * length buffer.old < rtp_extension_size High self.now
            → result ≡ Err (Stream WriteZero) }
    {
        pack_into::<BE, RtpExtension>(self, buffer)
    }
}

impl FromBitStreamUsing for RtpExtension {
    type Context = Global;

    type Error = Error;

    ghost grows = { true };

    ghost becomes = { same_error };

    ghost reads = { λ o _. rtp_extension_decoder o };

    fn from_reader<R: BitRead>(reader: &mut R, alloc: Global) -> Result<RtpExtension, Error> {
        RtpExtension::read(reader, alloc)
    }
}

impl ToBitStream for RtpExtension {
    type Error = Error;

    ghost becomes = { same_error };

    ghost writes = { rtp_extension_writes };

    fn to_writer<W: BitWrite>(&self, writer: &mut W) -> Result<(), Error> {
        self.write(writer)
    }
}

/// A value that fits its bits is read back as it was written, in either order of bits, at any place.
/// The read takes only the bits that were written: `rtp_extension_size` is their number.
pub fn rtp_extension_round_trip()
    ensures back { (o : Order) (value : RtpExtension) (at from : ℕ) (more : List Bool) → Fits value
        → let written = write_sequence (rtp_extension_writes o value) at in
        (rtp_extension_decoder o).reads from (written ++ more) ≡ Done (length written) (Ok (Ok value)) }
    ensures size { (o : Order) (value : RtpExtension) (at : ℕ) → Fits value
        → length (write_sequence (rtp_extension_writes o value) at) ≡ rtp_extension_size o value }
{}
