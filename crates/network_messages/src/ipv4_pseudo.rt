//! The fields of a header of IPv4 that the checksums of UDP and TCP cover (RFC 768; RFC 9293, section 3.1).
//!
//! Made by `./format` from formats/ipv4_pseudo.fields: edit that file and make this one anew.
ghost use Rattle.network_messages.specs.Ipv4Pseudo.{ipv4_pseudo_decoder, ipv4_pseudo_writes, ipv4_pseudo_bits, ipv4_pseudo_at, Fits};
ghost use Rattle.network_messages.specs.declared.ipv4_pseudo.Ipv4Pseudo.{Ipv4Pseudo};
ghost use Rattle.std.specs.Prelude.{◌≡◌, ◌<◌, ◌≤◌, ◌++◌, ℕ, Bool, List, Ok, Err, length, IfOk, IsOk};
ghost use Rattle.std.specs.declared.io.ErrorKind.TheVariants.{WriteZero};
ghost use Rattle.bitstream_io.specs.Callers.{Done, Error, EndOfInput, Order, High, bits, write_sequence, Reads, WritesAll, AllAccepted, sequence_length, sure_answer, Stream, same_error, plain_reads};
ghost use Rattle.bitstream_io.specs.SliceMut.{HoldsFirst, written_bytes};

use bitstream_io::{
    BE, BitRead, BitReadExt, BitReader, BitWrite, BitWriteExt, Bits, Error, FromBitStream,
    SliceMut, ToBitStream, pack_into,
};

/// The fields of a header of IPv4 that the checksums of UDP and TCP cover (RFC 768; RFC 9293, section 3.1).
///
/// ```text
///  0                   1                   2                   3
///  0 1 2 3 4 5 6 7 8 9 0 1 2 3 4 5 6 7 8 9 0 1 2 3 4 5 6 7 8 9 0 1
/// +-+-+-+-+-+-+-+-+-+-+-+-+-+-+-+-+-+-+-+-+-+-+-+-+-+-+-+-+-+-+-+-+
/// |                             source                            |
/// +-+-+-+-+-+-+-+-+-+-+-+-+-+-+-+-+-+-+-+-+-+-+-+-+-+-+-+-+-+-+-+-+
/// |                             target                            |
/// +-+-+-+-+-+-+-+-+-+-+-+-+-+-+-+-+-+-+-+-+-+-+-+-+-+-+-+-+-+-+-+-+
/// |       0       |    protocol   |             length            |
/// +-+-+-+-+-+-+-+-+-+-+-+-+-+-+-+-+-+-+-+-+-+-+-+-+-+-+-+-+-+-+-+-+
/// ```
#[derive(Clone, Copy, Debug, PartialEq)]
pub struct Ipv4Pseudo {
    /// The sender.
    pub source: [u8; 4],
    /// The receiver.
    pub target: [u8; 4],
    /// The protocol.
    pub protocol: u8,
    /// The bytes of the datagram or the segment.
    pub length: u16,
}

impl Ipv4Pseudo {
    /// The number of bits before each line of the description.
    pub const PLACES: [u64; 5] = [0, 32, 64, 72, 80];

    /// Reads the fields in order.
    ///
    /// # Errors
    ///
    /// The reader's errors, after which it has failed.
    pub fn read<R: BitRead>(reader: &mut R) -> Result<Ipv4Pseudo, Error>
        ensures { Reads R.source (ipv4_pseudo_decoder R.source.order) reader.old result reader.new }
    {
        let source = reader.read_to_bytes::<[u8; 4]>()?;
        let target = reader.read_to_bytes::<[u8; 4]>()?;
        reader.skip(8)?;
        let protocol = reader.read::<Bits<8>, u8>()?;
        let length = reader.read::<Bits<16>, u16>()?;
        Ok(Ipv4Pseudo {
            source,
            target,
            protocol,
            length,
        })
    }

    /// Parses the value at the start of `packet`.
    ///
    /// # Errors
    ///
    /// `EndOfInput` for fewer than 12 bytes.
    pub fn parse(packet: &[u8]) -> Result<Ipv4Pseudo, Error>
        ensures answer { result ≡ sure_answer ((ipv4_pseudo_decoder High).reads 0 (bits High packet.now)) }
        ensures there { 12 ≤ length packet.now
            → result ≡ Ok (ipv4_pseudo_at (bits High packet.now)) }
        ensures short { length packet.now < 12 → result ≡ Err EndOfInput }
        ensures back { (value : Ipv4Pseudo) (more : List Bool) → Fits value
            → bits High packet.now ≡ ipv4_pseudo_bits value ++ more → result ≡ Ok value }
    {
        ipv4_pseudo_round_trip();
        Ipv4Pseudo::read(&mut BitReader::<_, BE>::over(packet))
    }

    /// Writes the fields in order.
    ///
    /// # Errors
    ///
    /// `Checked` for a field that does not fit its bits. The fields before it have been written.
    /// Otherwise the sink's errors.
    pub fn write<W: BitWrite>(&self, writer: &mut W) -> Result<(), Error>
        ensures { WritesAll W.sink (ipv4_pseudo_writes W.sink.order self.now) writer.old result writer.new }
    {
        writer.write_bytes(&self.source)?;
        writer.write_bytes(&self.target)?;
        writer.pad(8)?;
        writer.write::<Bits<8>, u8>(self.protocol)?;
        writer.write::<Bits<16>, u16>(self.length)?;
        Ok(())
    }

    /// Writes the fields to the first bytes of a buffer, and returns what was written. The other bytes
    /// stay as they were. Does not allocate.
    ///
    /// # Errors
    ///
    /// `Checked` for the first field that does not fit its bits, however long the buffer is.
    /// `Stream(WriteZero)` if all fields fit, and the buffer has fewer than 12 bytes.
    /// After an error, the first bytes of the buffer may have changed.
    pub fn pack_into<'a>(&self, buffer: &'a mut [u8]) -> Result<SliceMut<'a>, Error>
        ensures packed { IfOk result (λ packed. bits High (written_bytes packed) ≡ ipv4_pseudo_bits self.now) }
        ensures first { IfOk result (HoldsFirst buffer.entry.ghost_name buffer.old) }
        ensures accepted { IsOk result → AllAccepted (ipv4_pseudo_writes High self.now) 0 }
        ensures misfit { (error : Error) → sequence_length (ipv4_pseudo_writes High self.now) 0 ≡ Err error
            → result ≡ Err error }
        ensures room { Fits self.now → 12 ≤ length buffer.old → IsOk result }
        ensures short { Fits self.now → length buffer.old < 12 → result ≡ Err (Stream WriteZero) }
    {
        pack_into::<BE, Ipv4Pseudo>(self, buffer)
    }
}

impl FromBitStream for Ipv4Pseudo {
    type Error = Error;

    ghost becomes = { same_error };

    ghost reads = { λ o. plain_reads (ipv4_pseudo_decoder o) };

    fn from_reader<R: BitRead>(reader: &mut R) -> Result<Ipv4Pseudo, Error> {
        Ipv4Pseudo::read(reader)
    }
}

impl ToBitStream for Ipv4Pseudo {
    type Error = Error;

    ghost becomes = { same_error };

    ghost writes = { ipv4_pseudo_writes };

    fn to_writer<W: BitWrite>(&self, writer: &mut W) -> Result<(), Error> {
        self.write(writer)
    }
}

/// A value that fits its bits is read back as it was written, in either order of bits, at any place.
/// The read takes only the bits that were written: 96 bits.
pub fn ipv4_pseudo_round_trip()
    ensures back { (o : Order) (value : Ipv4Pseudo) (at from : ℕ) (more : List Bool) → Fits value
        → let written = write_sequence (ipv4_pseudo_writes o value) at in
        (ipv4_pseudo_decoder o).reads from (written ++ more) ≡ Done (length written) (Ok value) }
    ensures size { (o : Order) (value : Ipv4Pseudo) (at : ℕ) → Fits value
        → length (write_sequence (ipv4_pseudo_writes o value) at) ≡ 96 }
{}
