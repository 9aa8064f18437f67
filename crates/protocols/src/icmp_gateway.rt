//! The router of a redirect.
//!
//! Made by `./format` from formats/icmp_gateway.fields: edit that file and make this one anew.
ghost use Rattle.protocols.specs.IcmpGateway.{icmp_gateway_decoder, icmp_gateway_writes, icmp_gateway_bits, icmp_gateway_at, Fits};
ghost use Rattle.protocols.specs.declared.icmp_gateway.IcmpGateway.{IcmpGateway};
ghost use Rattle.std.specs.Prelude.{◌≡◌, ◌<◌, ◌≤◌, ◌++◌, ℕ, Bool, List, Ok, Err, length, IfOk, IsOk};
ghost use Rattle.std.specs.declared.io.ErrorKind.TheVariants.{WriteZero};
ghost use Rattle.bitstream_io.specs.Callers.{Done, Error, EndOfInput, Order, High, bits, write_sequence, Reads, WritesAll, AllAccepted, sequence_length, sure_answer, Stream, same_error, plain_reads};
ghost use Rattle.bitstream_io.specs.SliceMut.{HoldsFirst, written_bytes};

use bitstream_io::{
    BE, BitRead, BitReadExt, BitReader, BitWrite, BitWriteExt, Error, FromBitStream, SliceMut,
    ToBitStream, pack_into,
};

/// The router of a redirect.
///
/// ```text
///  0                   1                   2                   3
///  0 1 2 3 4 5 6 7 8 9 0 1 2 3 4 5 6 7 8 9 0 1 2 3 4 5 6 7 8 9 0 1
/// +-+-+-+-+-+-+-+-+-+-+-+-+-+-+-+-+-+-+-+-+-+-+-+-+-+-+-+-+-+-+-+-+
/// |                            address                            |
/// +-+-+-+-+-+-+-+-+-+-+-+-+-+-+-+-+-+-+-+-+-+-+-+-+-+-+-+-+-+-+-+-+
/// ```
#[derive(Clone, Copy, Debug, PartialEq)]
pub struct IcmpGateway {
    /// The IPv4 address of the router.
    pub address: [u8; 4],
}

impl IcmpGateway {
    /// The number of bits before each line of the description.
    pub const PLACES: [u64; 1] = [0];

    /// Reads the fields in order.
    ///
    /// # Errors
    ///
    /// The reader's errors, after which it has failed.
    pub fn read<R: BitRead>(reader: &mut R) -> Result<IcmpGateway, Error>
        ensures { Reads R.source (icmp_gateway_decoder R.source.order) reader.old result reader.new }
    {
        let address = reader.read_to_bytes::<[u8; 4]>()?;
        Ok(IcmpGateway { address })
    }

    /// Parses the value at the start of `packet`.
    ///
    /// # Errors
    ///
    /// `EndOfInput` for fewer than 4 bytes.
    pub fn parse(packet: &[u8]) -> Result<IcmpGateway, Error>
        ensures answer { result ≡ sure_answer ((icmp_gateway_decoder High).reads 0 (bits High packet.now)) }
        ensures there { 4 ≤ length packet.now
            → result ≡ Ok (icmp_gateway_at (bits High packet.now)) }
        ensures short { length packet.now < 4 → result ≡ Err EndOfInput }
        ensures back { (value : IcmpGateway) (more : List Bool) → Fits value
            → bits High packet.now ≡ icmp_gateway_bits value ++ more → result ≡ Ok value }
    {
        icmp_gateway_round_trip();
        IcmpGateway::read(&mut BitReader::<_, BE>::over(packet))
    }

    /// Writes the fields in order.
    ///
    /// # Errors
    ///
    /// `Checked` for a field that does not fit its bits. The fields before it have been written.
    /// Otherwise the sink's errors.
    pub fn write<W: BitWrite>(&self, writer: &mut W) -> Result<(), Error>
        ensures { WritesAll W.sink (icmp_gateway_writes W.sink.order self.now) writer.old result writer.new }
    {
        writer.write_bytes(&self.address)?;
        Ok(())
    }

    /// Writes the fields to the first bytes of a buffer, and returns what was written. The other bytes
    /// stay as they were. Does not allocate.
    ///
    /// # Errors
    ///
    /// `Checked` for the first field that does not fit its bits, however long the buffer is.
    /// `Stream(WriteZero)` if all fields fit, and the buffer has fewer than 4 bytes.
    /// After an error, the first bytes of the buffer may have changed.
    pub fn pack_into<'a>(&self, buffer: &'a mut [u8]) -> Result<SliceMut<'a>, Error>
        ensures packed { IfOk result (λ packed. bits High (written_bytes packed) ≡ icmp_gateway_bits self.now) }
        ensures first { IfOk result (HoldsFirst buffer.entry.ghost_name buffer.old) }
        ensures accepted { IsOk result → AllAccepted (icmp_gateway_writes High self.now) 0 }
        ensures misfit { (error : Error) → sequence_length (icmp_gateway_writes High self.now) 0 ≡ Err error
            → result ≡ Err error }
        ensures room { Fits self.now → 4 ≤ length buffer.old → IsOk result }
        ensures short { Fits self.now → length buffer.old < 4 → result ≡ Err (Stream WriteZero) }
    {
        pack_into::<BE, IcmpGateway>(self, buffer)
    }
}

impl FromBitStream for IcmpGateway {
    type Error = Error;

    ghost becomes = { same_error };

    ghost reads = { λ o. plain_reads (icmp_gateway_decoder o) };

    fn from_reader<R: BitRead>(reader: &mut R) -> Result<IcmpGateway, Error> {
        IcmpGateway::read(reader)
    }
}

impl ToBitStream for IcmpGateway {
    type Error = Error;

    ghost becomes = { same_error };

    ghost writes = { icmp_gateway_writes };

    fn to_writer<W: BitWrite>(&self, writer: &mut W) -> Result<(), Error> {
        self.write(writer)
    }
}

/// A value that fits its bits is read back as it was written, in either order of bits, at any place.
/// The read takes only the bits that were written: 32 bits.
pub fn icmp_gateway_round_trip()
    ensures back { (o : Order) (value : IcmpGateway) (at from : ℕ) (more : List Bool) → Fits value
        → let written = write_sequence (icmp_gateway_writes o value) at in
        (icmp_gateway_decoder o).reads from (written ++ more) ≡ Done (length written) (Ok value) }
    ensures size { (o : Order) (value : IcmpGateway) (at : ℕ) → Fits value
        → length (write_sequence (icmp_gateway_writes o value) at) ≡ 32 }
{}
