//! The numbers that identify an echo.
//!
//! Made by `./format` from formats/icmp_ids.fields: edit that file and make this one anew.
ghost use Rattle.protocols.specs.IcmpIds.{icmp_ids_decoder, icmp_ids_writes, icmp_ids_bits, icmp_ids_at, Fits};
ghost use Rattle.protocols.specs.declared.icmp_ids.IcmpIds.{IcmpIds};
ghost use Rattle.std.specs.Prelude.{◌≡◌, ◌<◌, ◌≤◌, ◌++◌, ℕ, Bool, List, Ok, Err, length, IfOk, IsOk};
ghost use Rattle.std.specs.declared.io.ErrorKind.TheVariants.{WriteZero};
ghost use Rattle.bitstream_io.specs.Callers.{Done, Error, EndOfInput, Order, High, bits, write_sequence, Reads, WritesAll, sequence_length, sure_answer, Stream, same_error, plain_reads};
ghost use Rattle.bitstream_io.specs.SliceMut.{HoldsFirst, written_bytes};

use bitstream_io::{
    BE, BitRead, BitReadExt, BitReader, BitWrite, BitWriteExt, Bits, Error, FromBitStream,
    SliceMut, ToBitStream, pack_into,
};

/// The numbers that identify an echo.
///
/// ```text
///  0                   1                   2                   3
///  0 1 2 3 4 5 6 7 8 9 0 1 2 3 4 5 6 7 8 9 0 1 2 3 4 5 6 7 8 9 0 1
/// +-+-+-+-+-+-+-+-+-+-+-+-+-+-+-+-+-+-+-+-+-+-+-+-+-+-+-+-+-+-+-+-+
/// |           identifier          |            sequence           |
/// +-+-+-+-+-+-+-+-+-+-+-+-+-+-+-+-+-+-+-+-+-+-+-+-+-+-+-+-+-+-+-+-+
/// ```
#[derive(Clone, Copy, Debug, PartialEq)]
pub struct IcmpIds {
    /// The number that a reply shares with its request.
    pub identifier: u16,
    /// The number of the request among its sender's requests.
    pub sequence: u16,
}

impl IcmpIds {
    /// The number of bits before each line of the description.
    pub const PLACES: [u64; 2] = [0, 16];

    /// Reads the fields in order.
    ///
    /// # Errors
    ///
    /// The reader's errors, after which it has failed.
    pub fn read<R: BitRead>(reader: &mut R) -> Result<IcmpIds, Error>
        ensures { Reads R.source (icmp_ids_decoder R.source.order) reader.old result reader.new }
    {
        let identifier = reader.read::<Bits<16>, u16>()?;
        let sequence = reader.read::<Bits<16>, u16>()?;
        Ok(IcmpIds {
            identifier,
            sequence,
        })
    }

    /// Parses the value at the start of `packet`.
    ///
    /// # Errors
    ///
    /// `EndOfInput` for fewer than 4 bytes.
    pub fn parse(packet: &[u8]) -> Result<IcmpIds, Error>
        ensures answer { result ≡ sure_answer ((icmp_ids_decoder High).reads 0 (bits High packet.now)) }
        ensures there { 4 ≤ length packet.now → result ≡ Ok (icmp_ids_at (bits High packet.now)) }
        ensures short { length packet.now < 4 → result ≡ Err EndOfInput }
        ensures back { (value : IcmpIds) (more : List Bool) → Fits value
            → bits High packet.now ≡ icmp_ids_bits value ++ more → result ≡ Ok value }
    {
        icmp_ids_round_trip();
        IcmpIds::read(&mut BitReader::<_, BE>::over(packet))
    }

    /// Writes the fields in order.
    ///
    /// # Errors
    ///
    /// `Checked` for a field that does not fit its bits. The fields before it have been written.
    /// Otherwise the sink's errors.
    pub fn write<W: BitWrite>(&self, writer: &mut W) -> Result<(), Error>
        ensures { WritesAll W.sink (icmp_ids_writes W.sink.order self.now) writer.old result writer.new }
    {
        writer.write::<Bits<16>, u16>(self.identifier)?;
        writer.write::<Bits<16>, u16>(self.sequence)?;
        Ok(())
    }

    /// Writes the fields to the first bytes of a buffer, and returns what was written. The other bytes
    /// stay as they were. Does not allocate.
    ///
    /// # Errors
    ///
    /// `Checked` for the first field that does not fit its bits, however long the buffer is.
    /// `Stream(WriteZero)` if all fields fit, and the buffer has fewer than 4 bytes.
    /// After an error, the first bytes of the buffer may have changed.
    pub fn pack_into<'a>(&self, buffer: &'a mut [u8]) -> Result<SliceMut<'a>, Error>
        ensures packed { IfOk result (λ packed. bits High (written_bytes packed) ≡ icmp_ids_bits self.now) }
        ensures first { IfOk result (HoldsFirst buffer.entry.ghost_name buffer.old) }
        ensures fits { IsOk result → Fits self.now }
        ensures misfit { (error : Error) → sequence_length (icmp_ids_writes High self.now) 0 ≡ Err error
            → result ≡ Err error }
        ensures room { Fits self.now → 4 ≤ length buffer.old → IsOk result }
        ensures short { Fits self.now → length buffer.old < 4 → result ≡ Err (Stream WriteZero) }
    {
        pack_into::<BE, IcmpIds>(self, buffer)
    }
}

impl FromBitStream for IcmpIds {
    type Error = Error;

    ghost becomes = { same_error };

    ghost reads = { λ o. plain_reads (icmp_ids_decoder o) };

    fn from_reader<R: BitRead>(reader: &mut R) -> Result<IcmpIds, Error> {
        IcmpIds::read(reader)
    }
}

impl ToBitStream for IcmpIds {
    type Error = Error;

    ghost becomes = { same_error };

    ghost writes = { icmp_ids_writes };

    fn to_writer<W: BitWrite>(&self, writer: &mut W) -> Result<(), Error> {
        self.write(writer)
    }
}

/// A value that fits its bits is read back as it was written, in either order of bits, at any place.
/// The read takes only the bits that were written: 32 bits.
pub fn icmp_ids_round_trip()
    ensures back { (o : Order) (value : IcmpIds) (at from : ℕ) (more : List Bool) → Fits value
        → let written = write_sequence (icmp_ids_writes o value) at in
        (icmp_ids_decoder o).reads from (written ++ more) ≡ Done (length written) (Ok value) }
    ensures size { (o : Order) (value : IcmpIds) (at : ℕ) → Fits value
        → length (write_sequence (icmp_ids_writes o value) at) ≡ 32 }
{}
