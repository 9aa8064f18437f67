//! The tag of a virtual network, after its EtherType 0x8100 (IEEE 802.1Q, section 9.6).
//!
//! Made by `./format` from formats/vlan_tag.fields: edit that file and make this one anew.
ghost use Rattle.protocols.specs.VlanTag.{vlan_tag_decoder, vlan_tag_writes, vlan_tag_bits, vlan_tag_at, Fits};
ghost use Rattle.protocols.specs.declared.vlan_tag.VlanTag.{VlanTag};
ghost use Rattle.std.specs.Prelude.{◌≡◌, ◌<◌, ◌≤◌, ◌++◌, ℕ, Bool, List, Ok, Err, length, IfOk, IsOk};
ghost use Rattle.std.specs.declared.io.ErrorKind.TheVariants.{WriteZero};
ghost use Rattle.bitstream_io.specs.Callers.{Done, Error, EndOfInput, Order, High, bits, write_sequence, Reads, WritesAll, sequence_length, sure_answer, Stream, same_error, plain_reads};
ghost use Rattle.bitstream_io.specs.SliceMut.{HoldsFirst, written_bytes};

use bitstream_io::{
    BE, BitRead, BitReadExt, BitReader, BitWrite, BitWriteExt, Bits, Error, FromBitStream,
    SliceMut, ToBitStream, pack_into,
};

/// The tag of a virtual network, after its EtherType 0x8100 (IEEE 802.1Q, section 9.6).
///
/// ```text
///  0                   1                   2                   3
///  0 1 2 3 4 5 6 7 8 9 0 1 2 3 4 5 6 7 8 9 0 1 2 3 4 5 6 7 8 9 0 1
/// +-+-+-+-+-+-+-+-+-+-+-+-+-+-+-+-+-+-+-+-+-+-+-+-+-+-+-+-+-+-+-+-+
/// |prior|d|          vlan         |              kind             |
/// +-+-+-+-+-+-+-+-+-+-+-+-+-+-+-+-+-+-+-+-+-+-+-+-+-+-+-+-+-+-+-+-+
/// ```
#[derive(Clone, Copy, Debug, PartialEq)]
pub struct VlanTag {
    /// The priority code point. Below 2^3.
    pub priority: u8,
    /// True if the frame may be dropped first.
    pub drop_eligible: bool,
    /// The identifier of the network. Below 2^12.
    pub vlan: u16,
    /// The EtherType of what follows.
    pub kind: u16,
}

impl VlanTag {
    /// The number of bits before each line of the description.
    pub const PLACES: [u64; 4] = [0, 3, 4, 16];

    /// Reads the fields in order.
    ///
    /// # Errors
    ///
    /// The reader's errors, after which it has failed.
    pub fn read<R: BitRead>(reader: &mut R) -> Result<VlanTag, Error>
        ensures { Reads R.source (vlan_tag_decoder R.source.order) reader.old result reader.new }
    {
        let priority = reader.read::<Bits<3>, u8>()?;
        let drop_eligible = reader.read_bit()?;
        let vlan = reader.read::<Bits<12>, u16>()?;
        let kind = reader.read::<Bits<16>, u16>()?;
        Ok(VlanTag {
            priority,
            drop_eligible,
            vlan,
            kind,
        })
    }

    /// Parses the value at the start of `packet`.
    ///
    /// # Errors
    ///
    /// `EndOfInput` for fewer than 4 bytes.
    pub fn parse(packet: &[u8]) -> Result<VlanTag, Error>
        ensures answer { result ≡ sure_answer ((vlan_tag_decoder High).reads 0 (bits High packet.now)) }
        ensures there { 4 ≤ length packet.now → result ≡ Ok (vlan_tag_at (bits High packet.now)) }
        ensures short { length packet.now < 4 → result ≡ Err EndOfInput }
        ensures back { (value : VlanTag) (more : List Bool) → Fits value
            → bits High packet.now ≡ vlan_tag_bits value ++ more → result ≡ Ok value }
    {
        vlan_tag_round_trip();
        VlanTag::read(&mut BitReader::<_, BE>::over(packet))
    }

    /// Writes the fields in order.
    ///
    /// # Errors
    ///
    /// `Checked` for a field that does not fit its bits. The fields before it have been written.
    /// Otherwise the sink's errors.
    pub fn write<W: BitWrite>(&self, writer: &mut W) -> Result<(), Error>
        ensures { WritesAll W.sink (vlan_tag_writes W.sink.order self.now) writer.old result writer.new }
    {
        writer.write::<Bits<3>, u8>(self.priority)?;
        writer.write_bit(self.drop_eligible)?;
        writer.write::<Bits<12>, u16>(self.vlan)?;
        writer.write::<Bits<16>, u16>(self.kind)?;
        Ok(())
    }

    /// Writes the fields to the first bytes of a buffer, and returns what was written. The other bytes
    /// stay as they were. Does not allocate.
    ///
    /// # Errors
    ///
    /// `Checked` for the first field that does not fit its bits, however long the buffer is.
    /// `Stream(WriteZero)` if all fields fit, and the buffer has fewer than 4 bytes.
    /// After an error, the first bytes of the buffer may have changed.
    pub fn pack_into<'a>(&self, buffer: &'a mut [u8]) -> Result<SliceMut<'a>, Error>
        ensures packed { IfOk result (λ packed. bits High (written_bytes packed) ≡ vlan_tag_bits self.now) }
        ensures first { IfOk result (HoldsFirst buffer.entry.ghost_name buffer.old) }
        ensures fits { IsOk result → Fits self.now }
        ensures misfit { (error : Error) → sequence_length (vlan_tag_writes High self.now) 0 ≡ Err error
            → result ≡ Err error }
        ensures room { Fits self.now → 4 ≤ length buffer.old → IsOk result }
        ensures short { Fits self.now → length buffer.old < 4 → result ≡ Err (Stream WriteZero) }
    {
        pack_into::<BE, VlanTag>(self, buffer)
    }
}

impl FromBitStream for VlanTag {
    type Error = Error;

    ghost becomes = { same_error };

    ghost reads = { λ o. plain_reads (vlan_tag_decoder o) };

    fn from_reader<R: BitRead>(reader: &mut R) -> Result<VlanTag, Error> {
        VlanTag::read(reader)
    }
}

impl ToBitStream for VlanTag {
    type Error = Error;

    ghost becomes = { same_error };

    ghost writes = { vlan_tag_writes };

    fn to_writer<W: BitWrite>(&self, writer: &mut W) -> Result<(), Error> {
        self.write(writer)
    }
}

/// A value that fits its bits is read back as it was written, in either order of bits, at any place.
/// The read takes only the bits that were written: 32 bits.
pub fn vlan_tag_round_trip()
    ensures back { (o : Order) (value : VlanTag) (at from : ℕ) (more : List Bool) → Fits value
        → let written = write_sequence (vlan_tag_writes o value) at in
        (vlan_tag_decoder o).reads from (written ++ more) ≡ Done (length written) (Ok value) }
    ensures size { (o : Order) (value : VlanTag) (at : ℕ) → Fits value
        → length (write_sequence (vlan_tag_writes o value) at) ≡ 32 }
{}
