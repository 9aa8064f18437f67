//! The frame control field of IEEE 802.15.4 (IEEE 802.15.4-2020, section 7.2.2).
//!
//! Made by `./format` from formats/mac_frame_control.fields: edit that file and make this one anew.
ghost use Rattle.protocols.specs.MacFrameControl.{mac_frame_control_decoder, mac_frame_control_writes, mac_frame_control_bits, mac_frame_control_at, Fits, frame_kind_of, frame_kind_number, frame_kind_read, address_mode_of, address_mode_number, address_mode_read};
ghost use Rattle.protocols.specs.declared.mac_frame_control.MacFrameControl.{MacFrameControl};
ghost use Rattle.std.specs.Prelude.{◌≡◌, ◌<◌, ◌≤◌, ◌++◌, ℕ, Bool, List, Ok, Err, length, IfOk, IsOk};
ghost use Rattle.std.specs.declared.io.ErrorKind.TheVariants.{WriteZero};
ghost use Rattle.bitstream_io.specs.Callers.{Done, Error, EndOfInput, Order, Low, bits, write_sequence, Reads, WritesAll, sequence_length, sure_answer, Stream, same_error, plain_reads};
ghost use Rattle.bitstream_io.specs.SliceMut.{HoldsFirst, written_bytes};

use bitstream_io::{
    BitRead, BitReadExt, BitReader, BitWrite, BitWriteExt, Bits, Error, FromBitStream, LE,
    SliceMut, ToBitStream, pack_into,
};

/// The frame control field of IEEE 802.15.4 (IEEE 802.15.4-2020, section 7.2.2).
///
/// ```text
///  0                   1                   2                   3
///  0 1 2 3 4 5 6 7 8 9 0 1 2 3 4 5 6 7 8 9 0 1 2 3 4 5 6 7 8 9 0 1
/// +-+-+-+-+-+-+-+-+-+-+-+-+-+-+-+-+
/// | kind|s|p|w|c|0|n|e|tar|ver|sou|
/// +-+-+-+-+-+-+-+-+-+-+-+-+-+-+-+-+
/// ```
#[derive(Clone, Copy, Debug, PartialEq)]
pub struct MacFrameControl {
    /// The type of the frame.
    pub kind: FrameKind,
    /// True if the frame is protected.
    pub secured: bool,
    /// True if the sender has more data for the receiver.
    pub pending: bool,
    /// True if the receiver is to acknowledge the frame.
    pub wants_ack: bool,
    /// True if an identifier of a network is left out.
    pub compressed: bool,
    /// True if the sequence number is left out.
    pub no_sequence: bool,
    /// True if information elements follow.
    pub elements: bool,
    /// The kind of the receiver's address.
    pub target_mode: AddressMode,
    /// The version of the frame. Below 2^2.
    pub version: u8,
    /// The kind of the sender's address.
    pub source_mode: AddressMode,
}

/// The type of the frame.
#[derive(Clone, Copy, Debug, PartialEq)]
pub enum FrameKind {
    /// Encoded as 0.
    Beacon,
    /// Encoded as 1.
    Data,
    /// Encoded as 2.
    Ack,
    /// Encoded as 3.
    Command,
    /// Encoded as 4.
    Unused,
    /// Encoded as 5.
    Multipurpose,
    /// Encoded as 6.
    Fragment,
    /// Encoded as 7.
    Further,
}

impl FrameKind {
    /// Decodes a number.
    pub fn of(number: u8) -> FrameKind
        ensures { result ≡ frame_kind_of number }
    {
        if number == 0 {
            return FrameKind::Beacon;
        }
        if number == 1 {
            return FrameKind::Data;
        }
        if number == 2 {
            return FrameKind::Ack;
        }
        if number == 3 {
            return FrameKind::Command;
        }
        if number == 4 {
            return FrameKind::Unused;
        }
        if number == 5 {
            return FrameKind::Multipurpose;
        }
        if number == 6 {
            return FrameKind::Fragment;
        }
        FrameKind::Further
    }

    /// Returns the number of the case.
    pub fn number(self) -> u8
        ensures { result ≡ frame_kind_number self }
    {
        match self {
            FrameKind::Beacon => 0,
            FrameKind::Data => 1,
            FrameKind::Ack => 2,
            FrameKind::Command => 3,
            FrameKind::Unused => 4,
            FrameKind::Multipurpose => 5,
            FrameKind::Fragment => 6,
            FrameKind::Further => 7,
        }
    }

    /// Reads a number of 3 bits, and decodes it.
    pub fn read<R: BitRead>(reader: &mut R) -> Result<FrameKind, Error>
        ensures { Reads R.source (frame_kind_read R.source.order) reader.old result reader.new }
    {
        let number = reader.read::<Bits<3>, u8>()?;
        Ok(FrameKind::of(number))
    }
}

/// The kind of the receiver's address.
#[derive(Clone, Copy, Debug, PartialEq)]
pub enum AddressMode {
    /// Encoded as 0.
    Absent,
    /// Encoded as 1.
    Reserved,
    /// Encoded as 2.
    Short,
    /// Encoded as 3.
    Extended,
}

impl AddressMode {
    /// Decodes a number.
    pub fn of(number: u8) -> AddressMode
        ensures { result ≡ address_mode_of number }
    {
        if number == 0 {
            return AddressMode::Absent;
        }
        if number == 1 {
            return AddressMode::Reserved;
        }
        if number == 2 {
            return AddressMode::Short;
        }
        AddressMode::Extended
    }

    /// Returns the number of the case.
    pub fn number(self) -> u8
        ensures { result ≡ address_mode_number self }
    {
        match self {
            AddressMode::Absent => 0,
            AddressMode::Reserved => 1,
            AddressMode::Short => 2,
            AddressMode::Extended => 3,
        }
    }

    /// Reads a number of 2 bits, and decodes it.
    pub fn read<R: BitRead>(reader: &mut R) -> Result<AddressMode, Error>
        ensures { Reads R.source (address_mode_read R.source.order) reader.old result reader.new }
    {
        let number = reader.read::<Bits<2>, u8>()?;
        Ok(AddressMode::of(number))
    }
}

impl MacFrameControl {
    /// The number of bits before each line of the description.
    pub const PLACES: [u64; 11] = [0, 3, 4, 5, 6, 7, 8, 9, 10, 12, 14];

    /// Reads the fields in order.
    ///
    /// # Errors
    ///
    /// The reader's errors, after which it has failed.
    pub fn read<R: BitRead>(reader: &mut R) -> Result<MacFrameControl, Error>
        ensures { Reads R.source (mac_frame_control_decoder R.source.order) reader.old result reader.new }
    {
        let kind = FrameKind::read(reader)?;
        let secured = reader.read_bit()?;
        let pending = reader.read_bit()?;
        let wants_ack = reader.read_bit()?;
        let compressed = reader.read_bit()?;
        reader.skip(1)?;
        let no_sequence = reader.read_bit()?;
        let elements = reader.read_bit()?;
        let target_mode = AddressMode::read(reader)?;
        let version = reader.read::<Bits<2>, u8>()?;
        let source_mode = AddressMode::read(reader)?;
        Ok(MacFrameControl {
            kind,
            secured,
            pending,
            wants_ack,
            compressed,
            no_sequence,
            elements,
            target_mode,
            version,
            source_mode,
        })
    }

    /// Parses the value at the start of `packet`.
    ///
    /// # Errors
    ///
    /// `EndOfInput` for fewer than 2 bytes.
    pub fn parse(packet: &[u8]) -> Result<MacFrameControl, Error>
        ensures answer { result ≡ sure_answer ((mac_frame_control_decoder Low).reads 0 (bits Low packet.now)) }
        ensures there { 2 ≤ length packet.now
            → result ≡ Ok (mac_frame_control_at (bits Low packet.now)) }
        ensures short { length packet.now < 2 → result ≡ Err EndOfInput }
        ensures back { (value : MacFrameControl) (more : List Bool) → Fits value
            → bits Low packet.now ≡ mac_frame_control_bits value ++ more → result ≡ Ok value }
    {
        mac_frame_control_round_trip();
        MacFrameControl::read(&mut BitReader::<_, LE>::over(packet))
    }

    /// Writes the fields in order.
    ///
    /// # Errors
    ///
    /// `Checked` for a field that does not fit its bits. The fields before it have been written.
    /// Otherwise the sink's errors.
    pub fn write<W: BitWrite>(&self, writer: &mut W) -> Result<(), Error>
        ensures { WritesAll W.sink (mac_frame_control_writes W.sink.order self.now) writer.old result writer.new }
    {
        writer.write::<Bits<3>, u8>(self.kind.number())?;
        writer.write_bit(self.secured)?;
        writer.write_bit(self.pending)?;
        writer.write_bit(self.wants_ack)?;
        writer.write_bit(self.compressed)?;
        writer.pad(1)?;
        writer.write_bit(self.no_sequence)?;
        writer.write_bit(self.elements)?;
        writer.write::<Bits<2>, u8>(self.target_mode.number())?;
        writer.write::<Bits<2>, u8>(self.version)?;
        writer.write::<Bits<2>, u8>(self.source_mode.number())?;
        Ok(())
    }

    /// Writes the fields to the first bytes of a buffer, and returns what was written. The other bytes
    /// stay as they were. Does not allocate.
    ///
    /// # Errors
    ///
    /// `Checked` for the first field that does not fit its bits, however long the buffer is.
    /// `Stream(WriteZero)` if all fields fit, and the buffer has fewer than 2 bytes.
    /// After an error, the first bytes of the buffer may have changed.
    pub fn pack_into<'a>(&self, buffer: &'a mut [u8]) -> Result<SliceMut<'a>, Error>
        ensures packed { IfOk result (λ packed. bits Low (written_bytes packed) ≡ mac_frame_control_bits self.now) }
        ensures first { IfOk result (HoldsFirst buffer.entry.ghost_name buffer.old) }
        ensures fits { IsOk result → Fits self.now }
        ensures misfit { (error : Error) → sequence_length (mac_frame_control_writes Low self.now) 0 ≡ Err error
            → result ≡ Err error }
        ensures room { Fits self.now → 2 ≤ length buffer.old → IsOk result }
        ensures short { Fits self.now → length buffer.old < 2 → result ≡ Err (Stream WriteZero) }
    {
        pack_into::<LE, MacFrameControl>(self, buffer)
    }
}

impl FromBitStream for MacFrameControl {
    type Error = Error;

    ghost becomes = { same_error };

    ghost reads = { λ o. plain_reads (mac_frame_control_decoder o) };

    fn from_reader<R: BitRead>(reader: &mut R) -> Result<MacFrameControl, Error> {
        MacFrameControl::read(reader)
    }
}

impl ToBitStream for MacFrameControl {
    type Error = Error;

    ghost becomes = { same_error };

    ghost writes = { mac_frame_control_writes };

    fn to_writer<W: BitWrite>(&self, writer: &mut W) -> Result<(), Error> {
        self.write(writer)
    }
}

/// A value that fits its bits is read back as it was written, in either order of bits, at any place.
/// The read takes only the bits that were written: 16 bits.
pub fn mac_frame_control_round_trip()
    ensures back { (o : Order) (value : MacFrameControl) (at from : ℕ) (more : List Bool) → Fits value
        → let written = write_sequence (mac_frame_control_writes o value) at in
        (mac_frame_control_decoder o).reads from (written ++ more) ≡ Done (length written) (Ok value) }
    ensures size { (o : Order) (value : MacFrameControl) (at : ℕ) → Fits value
        → length (write_sequence (mac_frame_control_writes o value) at) ≡ 16 }
{}
