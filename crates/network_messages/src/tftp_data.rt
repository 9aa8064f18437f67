//! A block of a file (RFC 1350, section 5).
//!
//! Made by `./format` from formats/tftp_data.fields: edit that file and make this one anew.
ghost use Rattle.network_messages.specs.TftpData.{tftp_data_decoder, tftp_data_writes, tftp_data_size, tftp_data_bits, Fits, becomes_tftp_data};
ghost use Rattle.network_messages.specs.declared.tftp_data.TftpData.{TftpData};
ghost use Rattle.network_messages.specs.declared.tftp_data.TftpDataError.{TftpDataError};
ghost use Rattle.network_messages.specs.declared.tftp_data.TftpDataError.TheVariants.{Reader};
ghost use Rattle.std.specs.Prelude.{◌≡◌, ◌<◌, ◌≤◌, ◌-◌, ◌*◌, ◌++◌, ◌⊎◌, ℕ, Bool, List, Ok, Err, length, IfOk, IsOk};
ghost use Rattle.std.specs.declared.io.ErrorKind.TheVariants.{WriteZero};
ghost use Rattle.bitstream_io.specs.Callers.{Done, Error, Order, High, bits, write_sequence, OwnAnswer, WritesAll, AllAccepted, sequence_length, sure_answer, GrowsOwn, MayAllocate, OutOfMemory, Stream, same_error};
ghost use Rattle.bitstream_io.specs.SliceMut.{HoldsFirst, written_bytes};

use bitstream_format::rest::rest_of;
use bitstream_io::{
    BE, BitRead, BitReadExt, BitReader, BitWrite, BitWriteExt, Bits, Error, SliceMut, ToBitStream,
    pack_into,
};
use std::alloc::Global;
use std::marker::Model;

/// A block of a file (RFC 1350, section 5).
///
/// ```text
///  0                   1                   2                   3
///  0 1 2 3 4 5 6 7 8 9 0 1 2 3 4 5 6 7 8 9 0 1 2 3 4 5 6 7 8 9 0 1
/// +-+-+-+-+-+-+-+-+-+-+-+-+-+-+-+-+-+-+-+-+-+-+-+-+-+-+-+-+-+-+-+-+
/// |               =3              |             block             |
/// +-+-+-+-+-+-+-+-+-+-+-+-+-+-+-+-+-+-+-+-+-+-+-+-+-+-+-+-+-+-+-+-+
/// /                    data (bytes to the end)                    /
/// +-+-+-+-+-+-+-+-+-+-+-+-+-+-+-+-+-+-+-+-+-+-+-+-+-+-+-+-+-+-+-+-+
/// ```
#[derive(Debug, Drop)]
pub struct TftpData {
    /// The number of the block, from 1 on.
    pub block: u16,
    /// The data: 512 bytes, or fewer in the last block.
    pub data: Vec<u8>,
}

impl Model for TftpData {
    ghost use Rattle.network_messages.specs.TftpDataFields.{TftpDataFields};

    ghost Value = { TftpDataFields };

    ghost view = { λ value. record {
      block = value.block;
      «data» = value.data.items;
    } };
}

/// The errors of reading a `TftpData`.
#[derive(Debug, Drop, thiserror::Error)]
pub enum TftpDataError {
    /// An error of the reader.
    #[error("{0}")]
    Reader(Error),
    /// The opcode is not 3, that of data.
    #[error("the opcode is not 3, that of data")]
    NoData,
}

impl From<Error> for TftpDataError {
    ghost from_gives = { becomes_tftp_data };

    fn from(error: Error) -> TftpDataError {
        TftpDataError::Reader(error)
    }
}

impl TftpData {
    /// The number of bits before each line of the description.
    pub const PLACES: [u64; 3] = [0, 16, 32];

    /// Reads the fields in order, and `data_bytes` bytes of `data`.
    ///
    /// # Errors
    ///
    /// `NoData`, after the rejected bits have been read.
    /// `Reader(OutOfMemory)` if an allocation for a list fails. The items before the failure
    /// have been read.
    /// Otherwise the reader's errors, after which it has failed.
    pub fn read<R: BitRead>(
        reader: &mut R,
        alloc: Global,
        data_bytes: u64,
    ) -> Result<TftpData, TftpDataError>
        ensures { GrowsOwn R.source becomes_tftp_data (tftp_data_decoder R.source.order data_bytes) reader.old result reader.new }
    {
        reader.read_const::<Bits<16>, Bits<3>, TftpDataError>(TftpDataError::NoData)?;
        let block = reader.read::<Bits<16>, u16>()?;
        let data_ = reader.read_to_vec(alloc, data_bytes as usize)?;
        Ok(TftpData { block, data: data_ })
    }

    /// Parses `packet`, whose last bytes are `data`.
    ///
    /// # Errors
    ///
    /// `NoData` if bits are rejected.
    /// `Reader(EndOfInput)` if the bytes end before the fields do.
    /// `Reader(OutOfMemory)` if the allocation for an item of a list fails.
    pub fn parse(packet: &[u8], alloc: Global) -> Result<TftpData, TftpDataError>
        ensures answer { (OwnAnswer becomes_tftp_data (λ answer. answer)
            (sure_answer ((tftp_data_decoder High (length packet.now - 4)).reads 0 (bits High packet.now))) result)
            ⊎ ((result ≡ Err (TftpDataError.Reader OutOfMemory))
            × MayAllocate (tftp_data_decoder High (length packet.now - 4)) 0 (bits High packet.now)) }
        ensures back { (value : TftpData) → Fits value
            → bits High packet.now ≡ write_sequence (tftp_data_writes High value) 0
            → (result ≡ Ok value)
            ⊎ (result ≡ Err (TftpDataError.Reader OutOfMemory)) }
    {
        tftp_data_round_trip();
        let data_bytes = rest_of(packet, 4);
        TftpData::read(&mut BitReader::<_, BE>::over(packet), alloc, data_bytes)
    }

    /// Writes the fields in order.
    ///
    /// # Errors
    ///
    /// `Checked` for a field that does not fit its bits. The fields before it have been written.
    /// Otherwise the sink's errors.
    pub fn write<W: BitWrite>(&self, writer: &mut W) -> Result<(), Error>
        ensures { WritesAll W.sink (tftp_data_writes W.sink.order self.now) writer.old result writer.new }
    {
        writer.write_const::<Bits<16>, Bits<3>>()?;
        writer.write::<Bits<16>, u16>(self.block)?;
        writer.write_bytes(&self.data)?;
        Ok(())
    }

    /// Writes the fields to the first bytes of a buffer, and returns what was written. The other bytes
    /// stay as they were. Does not allocate.
    ///
    /// # Errors
    ///
    /// `Checked` for the first field that does not fit its bits, however long the buffer is.
    /// `Stream(WriteZero)` if all fields fit, and the buffer is too short for the bits.
    /// After an error, the first bytes of the buffer may have changed.
    pub fn pack_into<'a>(&self, buffer: &'a mut [u8]) -> Result<SliceMut<'a>, Error>
        ensures packed { IfOk result (λ packed. bits High (written_bytes packed) ≡ tftp_data_bits self.now) }
        ensures first { IfOk result (HoldsFirst buffer.entry.ghost_name buffer.old) }
        ensures accepted { IsOk result → AllAccepted (tftp_data_writes High self.now) 0 }
        ensures misfit { (error : Error) → sequence_length (tftp_data_writes High self.now) 0 ≡ Err error
            → result ≡ Err error }
        ensures room { Fits self.now → tftp_data_size High self.now ≤ 8 * length buffer.old
            → IsOk result }
        ensures short { Fits self.now → 8 * length buffer.old < tftp_data_size High self.now
            → result ≡ Err (Stream WriteZero) }
    {
        pack_into::<BE, TftpData>(self, buffer)
    }
}

impl ToBitStream for TftpData {
    type Error = Error;

    ghost becomes = { same_error };

    ghost writes = { tftp_data_writes };

    fn to_writer<W: BitWrite>(&self, writer: &mut W) -> Result<(), Error> {
        self.write(writer)
    }
}

/// A value that fits its bits is read back as it was written, in either order of bits, at any place.
/// The read takes only the bits that were written: `tftp_data_size` is their number.
pub fn tftp_data_round_trip()
    ensures back { (o : Order) (value : TftpData) (at from : ℕ) (more : List Bool) → Fits value
        → let written = write_sequence (tftp_data_writes o value) at in
        (tftp_data_decoder o (length value.data)).reads from (written ++ more) ≡ Done (length written) (Ok (Ok value)) }
    ensures size { (o : Order) (value : TftpData) (at : ℕ) → Fits value
        → length (write_sequence (tftp_data_writes o value) at) ≡ tftp_data_size o value }
{}
