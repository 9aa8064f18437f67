//! The header of an NTP packet (RFC 5905, section 7.3), without extensions and authentication.
//!
//! Made by `./format` from formats/ntp_packet.fields: edit that file and make this one anew.
ghost use Rattle.protocols.specs.NtpPacket.{ntp_packet_decoder, ntp_packet_writes, ntp_packet_bits, ntp_packet_at, Fits, leap_of, leap_number, leap_read, mode_of, mode_number, mode_read};
ghost use Rattle.protocols.specs.declared.ntp_packet.NtpPacket.{NtpPacket};
ghost use Rattle.std.specs.Prelude.{◌≡◌, ◌<◌, ◌≤◌, ◌++◌, ℕ, Bool, List, Ok, Err, length, IfOk, IsOk};
ghost use Rattle.std.specs.declared.io.ErrorKind.TheVariants.{WriteZero};
ghost use Rattle.bitstream_io.specs.Callers.{Done, Error, EndOfInput, Order, High, bits, write_sequence, Reads, WritesAll, AllAccepted, sequence_length, sure_answer, Stream, same_error, plain_reads};
ghost use Rattle.bitstream_io.specs.SliceMut.{HoldsFirst, written_bytes};

use crate::ntp_timestamp::NtpTimestamp;
use bitstream_io::{
    BE, BitRead, BitReadExt, BitReader, BitWrite, BitWriteExt, Bits, Error, FromBitStream,
    SliceMut, ToBitStream, pack_into,
};

/// The header of an NTP packet (RFC 5905, section 7.3), without extensions and authentication.
///
/// ```text
///  0                   1                   2                   3
///  0 1 2 3 4 5 6 7 8 9 0 1 2 3 4 5 6 7 8 9 0 1 2 3 4 5 6 7 8 9 0 1
/// +-+-+-+-+-+-+-+-+-+-+-+-+-+-+-+-+-+-+-+-+-+-+-+-+-+-+-+-+-+-+-+-+
/// |lea|versi| mode|    stratum    |      poll     |   precision   |
/// +-+-+-+-+-+-+-+-+-+-+-+-+-+-+-+-+-+-+-+-+-+-+-+-+-+-+-+-+-+-+-+-+
/// |                           root_delay                          |
/// +-+-+-+-+-+-+-+-+-+-+-+-+-+-+-+-+-+-+-+-+-+-+-+-+-+-+-+-+-+-+-+-+
/// |                        root_dispersion                        |
/// +-+-+-+-+-+-+-+-+-+-+-+-+-+-+-+-+-+-+-+-+-+-+-+-+-+-+-+-+-+-+-+-+
/// |                           reference                           |
/// +-+-+-+-+-+-+-+-+-+-+-+-+-+-+-+-+-+-+-+-+-+-+-+-+-+-+-+-+-+-+-+-+
/// |                        updated (2 rows)                       |
/// +-+-+-+-+-+-+-+-+-+-+-+-+-+-+-+-+-+-+-+-+-+-+-+-+-+-+-+-+-+-+-+-+
/// |                        origin (2 rows)                        |
/// +-+-+-+-+-+-+-+-+-+-+-+-+-+-+-+-+-+-+-+-+-+-+-+-+-+-+-+-+-+-+-+-+
/// |                       received (2 rows)                       |
/// +-+-+-+-+-+-+-+-+-+-+-+-+-+-+-+-+-+-+-+-+-+-+-+-+-+-+-+-+-+-+-+-+
/// |                         sent (2 rows)                         |
/// +-+-+-+-+-+-+-+-+-+-+-+-+-+-+-+-+-+-+-+-+-+-+-+-+-+-+-+-+-+-+-+-+
/// ```
#[derive(Clone, Copy, Debug, PartialEq)]
pub struct NtpPacket {
    /// The leap second that is due.
    pub leap: Leap,
    /// The version of NTP. Below 2^3.
    pub version: u8,
    /// The role of the sender.
    pub mode: Mode,
    /// The distance of the sender from a clock, or 0 if it is not known.
    pub stratum: u8,
    /// The logarithm of the seconds between messages, to the base 2.
    pub poll: i8,
    /// The logarithm of the clock's precision in seconds, to the base 2.
    pub precision: i8,
    /// The time to the clock and back, in units of 2^-16 seconds.
    pub root_delay: u32,
    /// The error of the clock, in units of 2^-16 seconds.
    pub root_dispersion: u32,
    /// The server or the clock that the sender follows.
    pub reference: [u8; 4],
    /// The time at which the sender's clock was last set.
    pub updated: NtpTimestamp,
    /// The time at which the request left the client.
    pub origin: NtpTimestamp,
    /// The time at which the request reached the server.
    pub received: NtpTimestamp,
    /// The time at which the packet left the sender.
    pub sent: NtpTimestamp,
}

/// The leap second that is due.
#[derive(Clone, Copy, Debug, PartialEq)]
pub enum Leap {
    /// Encoded as 0.
    NoWarning,
    /// Encoded as 1.
    LongMinute,
    /// Encoded as 2.
    ShortMinute,
    /// Encoded as 3.
    Unsynchronized,
}

impl Leap {
    /// Decodes a number.
    pub fn of(number: u8) -> Leap
        ensures { result ≡ leap_of number }
    {
        if number == 0 {
            return Leap::NoWarning;
        }
        if number == 1 {
            return Leap::LongMinute;
        }
        if number == 2 {
            return Leap::ShortMinute;
        }
        Leap::Unsynchronized
    }

    /// Returns the number of the case.
    pub fn number(self) -> u8
        ensures { result ≡ leap_number self }
    {
        match self {
            Leap::NoWarning => 0,
            Leap::LongMinute => 1,
            Leap::ShortMinute => 2,
            Leap::Unsynchronized => 3,
        }
    }

    /// Reads a number of 2 bits, and decodes it.
    pub fn read<R: BitRead>(reader: &mut R) -> Result<Leap, Error>
        ensures { Reads R.source (leap_read R.source.order) reader.old result reader.new }
    {
        let number = reader.read::<Bits<2>, u8>()?;
        Ok(Leap::of(number))
    }
}

/// The role of the sender.
#[derive(Clone, Copy, Debug, PartialEq)]
pub enum Mode {
    /// Encoded as 0.
    Reserved,
    /// Encoded as 1.
    Active,
    /// Encoded as 2.
    Passive,
    /// Encoded as 3.
    Client,
    /// Encoded as 4.
    Server,
    /// Encoded as 5.
    Broadcast,
    /// Encoded as 6.
    Control,
    /// Encoded as 7.
    Private,
}

impl Mode {
    /// Decodes a number.
    pub fn of(number: u8) -> Mode
        ensures { result ≡ mode_of number }
    {
        if number == 0 {
            return Mode::Reserved;
        }
        if number == 1 {
            return Mode::Active;
        }
        if number == 2 {
            return Mode::Passive;
        }
        if number == 3 {
            return Mode::Client;
        }
        if number == 4 {
            return Mode::Server;
        }
        if number == 5 {
            return Mode::Broadcast;
        }
        if number == 6 {
            return Mode::Control;
        }
        Mode::Private
    }

    /// Returns the number of the case.
    pub fn number(self) -> u8
        ensures { result ≡ mode_number self }
    {
        match self {
            Mode::Reserved => 0,
            Mode::Active => 1,
            Mode::Passive => 2,
            Mode::Client => 3,
            Mode::Server => 4,
            Mode::Broadcast => 5,
            Mode::Control => 6,
            Mode::Private => 7,
        }
    }

    /// Reads a number of 3 bits, and decodes it.
    pub fn read<R: BitRead>(reader: &mut R) -> Result<Mode, Error>
        ensures { Reads R.source (mode_read R.source.order) reader.old result reader.new }
    {
        let number = reader.read::<Bits<3>, u8>()?;
        Ok(Mode::of(number))
    }
}

impl NtpPacket {
    /// The number of bits before each line of the description.
    pub const PLACES: [u64; 13] = [0, 2, 5, 8, 16, 24, 32, 64, 96, 128, 192, 256, 320];

    /// Reads the fields in order.
    ///
    /// # Errors
    ///
    /// The reader's errors, after which it has failed.
    pub fn read<R: BitRead>(reader: &mut R) -> Result<NtpPacket, Error>
        ensures { Reads R.source (ntp_packet_decoder R.source.order) reader.old result reader.new }
    {
        let leap = Leap::read(reader)?;
        let version = reader.read::<Bits<3>, u8>()?;
        let mode = Mode::read(reader)?;
        let stratum = reader.read::<Bits<8>, u8>()?;
        let poll = reader.read::<Bits<8>, i8>()?;
        let precision = reader.read::<Bits<8>, i8>()?;
        let root_delay = reader.read::<Bits<32>, u32>()?;
        let root_dispersion = reader.read::<Bits<32>, u32>()?;
        let reference = reader.read_to_bytes::<[u8; 4]>()?;
        let updated = NtpTimestamp::read(reader)?;
        let origin = NtpTimestamp::read(reader)?;
        let received = NtpTimestamp::read(reader)?;
        let sent = NtpTimestamp::read(reader)?;
        Ok(NtpPacket {
            leap,
            version,
            mode,
            stratum,
            poll,
            precision,
            root_delay,
            root_dispersion,
            reference,
            updated,
            origin,
            received,
            sent,
        })
    }

    /// Parses the value at the start of `packet`.
    ///
    /// # Errors
    ///
    /// `EndOfInput` for fewer than 48 bytes.
    pub fn parse(packet: &[u8]) -> Result<NtpPacket, Error>
        ensures answer { result ≡ sure_answer ((ntp_packet_decoder High).reads 0 (bits High packet.now)) }
        ensures there { 48 ≤ length packet.now
            → result ≡ Ok (ntp_packet_at (bits High packet.now)) }
        ensures short { length packet.now < 48 → result ≡ Err EndOfInput }
        ensures back { (value : NtpPacket) (more : List Bool) → Fits value
            → bits High packet.now ≡ ntp_packet_bits value ++ more → result ≡ Ok value }
    {
        ntp_packet_round_trip();
        NtpPacket::read(&mut BitReader::<_, BE>::over(packet))
    }

    /// Writes the fields in order.
    ///
    /// # Errors
    ///
    /// `Checked` for a field that does not fit its bits. The fields before it have been written.
    /// Otherwise the sink's errors.
    pub fn write<W: BitWrite>(&self, writer: &mut W) -> Result<(), Error>
        ensures { WritesAll W.sink (ntp_packet_writes W.sink.order self.now) writer.old result writer.new }
    {
        writer.write::<Bits<2>, u8>(self.leap.number())?;
        writer.write::<Bits<3>, u8>(self.version)?;
        writer.write::<Bits<3>, u8>(self.mode.number())?;
        writer.write::<Bits<8>, u8>(self.stratum)?;
        writer.write::<Bits<8>, i8>(self.poll)?;
        writer.write::<Bits<8>, i8>(self.precision)?;
        writer.write::<Bits<32>, u32>(self.root_delay)?;
        writer.write::<Bits<32>, u32>(self.root_dispersion)?;
        writer.write_bytes(&self.reference)?;
        self.updated.write(writer)?;
        self.origin.write(writer)?;
        self.received.write(writer)?;
        self.sent.write(writer)?;
        Ok(())
    }

    /// Writes the fields to the first bytes of a buffer, and returns what was written. The other bytes
    /// stay as they were. Does not allocate.
    ///
    /// # Errors
    ///
    /// `Checked` for the first field that does not fit its bits, however long the buffer is.
    /// `Stream(WriteZero)` if all fields fit, and the buffer has fewer than 48 bytes.
    /// After an error, the first bytes of the buffer may have changed.
    pub fn pack_into<'a>(&self, buffer: &'a mut [u8]) -> Result<SliceMut<'a>, Error>
        ensures packed { IfOk result (λ packed. bits High (written_bytes packed) ≡ ntp_packet_bits self.now) }
        ensures first { IfOk result (HoldsFirst buffer.entry.ghost_name buffer.old) }
        ensures accepted { IsOk result → AllAccepted (ntp_packet_writes High self.now) 0 }
        ensures misfit { (error : Error) → sequence_length (ntp_packet_writes High self.now) 0 ≡ Err error
            → result ≡ Err error }
        ensures room { Fits self.now → 48 ≤ length buffer.old → IsOk result }
        ensures short { Fits self.now → length buffer.old < 48 → result ≡ Err (Stream WriteZero) }
    {
        pack_into::<BE, NtpPacket>(self, buffer)
    }
}

impl FromBitStream for NtpPacket {
    type Error = Error;

    ghost becomes = { same_error };

    ghost reads = { λ o. plain_reads (ntp_packet_decoder o) };

    fn from_reader<R: BitRead>(reader: &mut R) -> Result<NtpPacket, Error> {
        NtpPacket::read(reader)
    }
}

impl ToBitStream for NtpPacket {
    type Error = Error;

    ghost becomes = { same_error };

    ghost writes = { ntp_packet_writes };

    fn to_writer<W: BitWrite>(&self, writer: &mut W) -> Result<(), Error> {
        self.write(writer)
    }
}

/// A value that fits its bits is read back as it was written, in either order of bits, at any place.
/// The read takes only the bits that were written: 384 bits.
pub fn ntp_packet_round_trip()
    ensures back { (o : Order) (value : NtpPacket) (at from : ℕ) (more : List Bool) → Fits value
        → let written = write_sequence (ntp_packet_writes o value) at in
        (ntp_packet_decoder o).reads from (written ++ more) ≡ Done (length written) (Ok value) }
    ensures size { (o : Order) (value : NtpPacket) (at : ℕ) → Fits value
        → length (write_sequence (ntp_packet_writes o value) at) ≡ 384 }
{}
