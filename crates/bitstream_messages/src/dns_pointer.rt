//! A pointer to the rest of a domain name (RFC 1035, 4.1.4).
//!
//! Made by `./format` from formats/dns_pointer.fields: edit that file and make this one anew.
ghost use Rattle.bitstream_messages.specs.DnsPointer.{dns_pointer_decoder, dns_pointer_writes, dns_pointer_size, dns_pointer_bits, Fits};
ghost use Rattle.bitstream_messages.specs.declared.dns_pointer.DnsPointer.{DnsPointer};
ghost use Rattle.std.specs.Prelude.{◌≡◌, ◌<◌, ◌≤◌, ◌*◌, ◌++◌, ℕ, Bool, List, Ok, Err, length, IfOk, IsOk};
ghost use Rattle.std.specs.declared.io.ErrorKind.TheVariants.{WriteZero};
ghost use Rattle.bitstream_io.specs.Callers.{Done, Error, Order, High, bits, write_sequence, Reads, WritesAll, sequence_length, sure_answer, Stream, same_error, plain_reads};
ghost use Rattle.bitstream_io.specs.SliceMut.{HoldsFirst, written_bytes};

use bitstream_io::{
    BE, BitRead, BitReadExt, BitReader, BitWrite, BitWriteExt, Bits, Error, FromBitStream,
    SliceMut, ToBitStream, pack_into,
};

/// A pointer to the rest of a domain name (RFC 1035, 4.1.4).
///
/// ```text
///  0                   1                   2                   3
///  0 1 2 3 4 5 6 7 8 9 0 1 2 3 4 5 6 7 8 9 0 1 2 3 4 5 6 7 8 9 0 1
/// +-+-+-+-+-+-+-+-+-+-+-+-+-+-+
/// |           offset          |
/// +-+-+-+-+-+-+-+-+-+-+-+-+-+-+
/// ```
#[derive(Clone, Copy, Debug, PartialEq)]
pub struct DnsPointer {
    /// The place of the rest, in bytes from the start of the message. Below 2^14.
    pub offset: u16,
}

impl DnsPointer {
    /// The number of bits before each line of the description.
    pub const PLACES: [u64; 1] = [0];

    /// Reads the fields in order.
    ///
    /// # Errors
    ///
    /// The reader's errors, after which it has failed.
    pub fn read<R: BitRead>(reader: &mut R) -> Result<DnsPointer, Error>
        ensures { Reads R.source (dns_pointer_decoder R.source.order) reader.old result reader.new }
    {
        let offset = reader.read::<Bits<14>, u16>()?;
        Ok(DnsPointer { offset })
    }

    /// Parses the value at the start of `packet`.
    ///
    /// # Errors
    ///
    /// `EndOfInput` if the bytes end before the fields do.
    pub fn parse(packet: &[u8]) -> Result<DnsPointer, Error>
        ensures answer { result ≡ sure_answer ((dns_pointer_decoder High).reads 0 (bits High packet.now)) }
        ensures back { (value : DnsPointer) (more : List Bool) → Fits value
            → bits High packet.now ≡ write_sequence (dns_pointer_writes High value) 0 ++ more → result ≡ Ok value }
    {
        dns_pointer_round_trip();
        DnsPointer::read(&mut BitReader::<_, BE>::over(packet))
    }

    /// Writes the fields in order.
    ///
    /// # Errors
    ///
    /// `Checked` for a field that does not fit its bits. The fields before it have been written.
    /// Otherwise the sink's errors.
    pub fn write<W: BitWrite>(&self, writer: &mut W) -> Result<(), Error>
        ensures { WritesAll W.sink (dns_pointer_writes W.sink.order self.now) writer.old result writer.new }
    {
        writer.write::<Bits<14>, u16>(self.offset)?;
        Ok(())
    }

    /// Writes the fields to the first bytes of a buffer, and returns what was written. The other bytes
    /// stay as they were. Does not allocate.
    ///
    /// # Errors
    ///
    /// `Checked` for the first field that does not fit its bits, however long the buffer is.
    /// `Stream(WriteZero)` if all fields fit, and the buffer is too short for the bits.
    /// After an error, the first bytes of the buffer may have changed.
    pub fn pack_into<'a>(&self, buffer: &'a mut [u8]) -> Result<SliceMut<'a>, Error>
        ensures packed { IfOk result (λ packed. bits High (written_bytes packed) ≡ dns_pointer_bits self.now) }
        ensures first { IfOk result (HoldsFirst buffer.entry.ghost_name buffer.old) }
        ensures fits { IsOk result → Fits self.now }
        ensures misfit { (error : Error) → sequence_length (dns_pointer_writes High self.now) 0 ≡ Err error
            → result ≡ Err error }
        ensures room { Fits self.now → dns_pointer_size High self.now ≤ 8 * length buffer.old
            → IsOk result }
        ensures short { Fits self.now → 8 * length buffer.old < dns_pointer_size High self.now
            → result ≡ Err (Stream WriteZero) }
    {
        pack_into::<BE, DnsPointer>(self, buffer)
    }
}

impl FromBitStream for DnsPointer {
    type Error = Error;

    ghost becomes = { same_error };

    ghost reads = { λ o. plain_reads (dns_pointer_decoder o) };

    fn from_reader<R: BitRead>(reader: &mut R) -> Result<DnsPointer, Error> {
        DnsPointer::read(reader)
    }
}

impl ToBitStream for DnsPointer {
    type Error = Error;

    ghost becomes = { same_error };

    ghost writes = { dns_pointer_writes };

    fn to_writer<W: BitWrite>(&self, writer: &mut W) -> Result<(), Error> {
        self.write(writer)
    }
}

/// A value that fits its bits is read back as it was written, in either order of bits, at any place.
/// The read takes only the bits that were written: `dns_pointer_size` is their number.
pub fn dns_pointer_round_trip()
    ensures back { (o : Order) (value : DnsPointer) (at from : ℕ) (more : List Bool) → Fits value
        → let written = write_sequence (dns_pointer_writes o value) at in
        (dns_pointer_decoder o).reads from (written ++ more) ≡ Done (length written) (Ok value) }
    ensures size { (o : Order) (value : DnsPointer) (at : ℕ) → Fits value
        → length (write_sequence (dns_pointer_writes o value) at) ≡ dns_pointer_size o value }
{}
