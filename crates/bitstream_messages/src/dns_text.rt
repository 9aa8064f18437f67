//! The bytes of a label of a domain name (RFC 1035, 3.1). The empty label ends a name.
//!
//! Made by `./format` from formats/dns_text.fields: edit that file and make this one anew.
ghost use Rattle.bitstream_messages.specs.DnsText.{dns_text_decoder, dns_text_writes, dns_text_size, dns_text_bits, Fits};
ghost use Rattle.bitstream_messages.specs.declared.dns_text.DnsText.{DnsText};
ghost use Rattle.std.specs.Prelude.{◌≡◌, ◌<◌, ◌≤◌, ◌*◌, ◌++◌, ◌⊎◌, ℕ, Bool, true, List, Ok, Err, length, IfOk, IsOk};
ghost use Rattle.std.specs.declared.io.ErrorKind.TheVariants.{WriteZero};
ghost use Rattle.bitstream_io.specs.Callers.{Done, Error, Order, High, bits, write_sequence, OwnAnswer, WritesAll, AllAccepted, sequence_length, sure_answer, GrowsOwn, MayAllocate, OutOfMemory, Stream, same_error};
ghost use Rattle.bitstream_io.specs.SliceMut.{HoldsFirst, written_bytes};

use bitstream_io::{
    BE, BitRead, BitReadExt, BitReader, BitWrite, BitWriteExt, Bits, Error, FromBitStreamUsing,
    SliceMut, ToBitStream, pack_into,
};
use std::alloc::Global;
use std::marker::Model;

/// The bytes of a label of a domain name (RFC 1035, 3.1). The empty label ends a name.
///
/// ```text
///  0                   1                   2                   3
///  0 1 2 3 4 5 6 7 8 9 0 1 2 3 4 5 6 7 8 9 0 1 2 3 4 5 6 7 8 9 0 1
/// +-+-+-+-+-+-+
/// |octets_coun|
/// +-+-+-+-+-+-+-+-+-+-+-+-+-+-+-+-+-+-+-+-+-+-+-+-+-+-+-+-+-+-+-+-+
/// /                  octets (octets_count bytes)                  /
/// +-+-+-+-+-+-+-+-+-+-+-+-+-+-+-+-+-+-+-+-+-+-+-+-+-+-+-+-+-+-+-+-+
/// ```
#[derive(Debug, Drop)]
pub struct DnsText {
    /// The bytes. Fewer than 2^6.
    pub octets: Vec<u8>,
}

impl Model for DnsText {
    ghost use Rattle.bitstream_messages.specs.DnsTextFields.{DnsTextFields};

    ghost Value = { DnsTextFields };

    ghost view = { λ value. record {
      octets = value.octets.items;
    } };
}

impl DnsText {
    /// The number of bits before each line of the description.
    pub const PLACES: [u64; 2] = [0, 6];

    /// Reads the fields in order.
    ///
    /// # Errors
    ///
    /// `OutOfMemory` if an allocation for a list fails. The items before the failure
    /// have been read.
    /// Otherwise the reader's errors, after which it has failed.
    pub fn read<R: BitRead>(reader: &mut R, alloc: Global) -> Result<DnsText, Error>
        ensures { GrowsOwn R.source same_error (dns_text_decoder R.source.order) reader.old result reader.new }
    {
        let octets_count = reader.read::<Bits<6>, u64>()?;
        let octets = reader.read_to_vec(alloc, octets_count as usize)?;
        Ok(DnsText { octets })
    }

    /// Parses the value at the start of `packet`.
    ///
    /// # Errors
    ///
    /// `EndOfInput` if the bytes end before the fields do.
    /// `OutOfMemory` if the allocation for an item of a list fails.
    pub fn parse(packet: &[u8], alloc: Global) -> Result<DnsText, Error>
        ensures answer { (OwnAnswer same_error (λ answer. answer)
            (sure_answer ((dns_text_decoder High).reads 0 (bits High packet.now))) result)
            ⊎ ((result ≡ Err OutOfMemory)
            × MayAllocate (dns_text_decoder High) 0 (bits High packet.now)) }
        ensures back { (value : DnsText) (more : List Bool) → Fits value
            → bits High packet.now ≡ write_sequence (dns_text_writes High value) 0 ++ more
            → (result ≡ Ok value)
            ⊎ (result ≡ Err OutOfMemory) }
    {
        dns_text_round_trip();
        DnsText::read(&mut BitReader::<_, BE>::over(packet), alloc)
    }

    /// Writes the fields in order.
    ///
    /// # Errors
    ///
    /// `Checked` for a field that does not fit its bits. The fields before it have been written.
    /// Otherwise the sink's errors.
    pub fn write<W: BitWrite>(&self, writer: &mut W) -> Result<(), Error>
        ensures { WritesAll W.sink (dns_text_writes W.sink.order self.now) writer.old result writer.new }
    {
        writer.write::<Bits<6>, u64>(self.octets.len() as u64)?;
        writer.write_bytes(&self.octets)?;
        Ok(())
    }

    /// Writes the fields to the first bytes of a buffer, and returns what was written. The other bytes
    /// stay as they were. Does not allocate.
    ///
    /// # Errors
    ///
    /// `Checked` for the first field that does not fit its bits, however long the buffer is.
    /// `Stream(WriteZero)` if all fields fit, and the buffer is too short for the bits.
    /// After an error, the first bytes of the buffer may have changed.
    pub fn pack_into<'a>(&self, buffer: &'a mut [u8]) -> Result<SliceMut<'a>, Error>
        ensures packed { IfOk result (λ packed. bits High (written_bytes packed) ≡ dns_text_bits self.now) }
        ensures first { IfOk result (HoldsFirst buffer.entry.ghost_name buffer.old) }
        ensures accepted { IsOk result → AllAccepted (dns_text_writes High self.now) 0 }
        ensures misfit { (error : Error) → sequence_length (dns_text_writes High self.now) 0 ≡ Err error
            → result ≡ Err error }
        ensures room { Fits self.now → dns_text_size High self.now ≤ 8 * length buffer.old
            → IsOk result }
        ensures short { Fits self.now → 8 * length buffer.old < dns_text_size High self.now
            → result ≡ Err (Stream WriteZero) }
    {
        pack_into::<BE, DnsText>(self, buffer)
    }
}

impl FromBitStreamUsing for DnsText {
    type Context = Global;

    type Error = Error;

    ghost grows = { true };

    ghost becomes = { same_error };

    ghost reads = { λ o _. dns_text_decoder o };

    fn from_reader<R: BitRead>(reader: &mut R, alloc: Global) -> Result<DnsText, Error> {
        DnsText::read(reader, alloc)
    }
}

impl ToBitStream for DnsText {
    type Error = Error;

    ghost becomes = { same_error };

    ghost writes = { dns_text_writes };

    fn to_writer<W: BitWrite>(&self, writer: &mut W) -> Result<(), Error> {
        self.write(writer)
    }
}

/// A value that fits its bits is read back as it was written, in either order of bits, at any place.
/// The read takes only the bits that were written: `dns_text_size` is their number.
pub fn dns_text_round_trip()
    ensures back { (o : Order) (value : DnsText) (at from : ℕ) (more : List Bool) → Fits value
        → let written = write_sequence (dns_text_writes o value) at in
        (dns_text_decoder o).reads from (written ++ more) ≡ Done (length written) (Ok (Ok value)) }
    ensures size { (o : Order) (value : DnsText) (at : ℕ) → Fits value
        → length (write_sequence (dns_text_writes o value) at) ≡ dns_text_size o value }
{}
