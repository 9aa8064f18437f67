//! An IPv4 header without options, with its checksum (RFC 791, section 3.1).
//!
//! Made by `./format` from formats/checked_ipv4.fields: edit that file and make this one anew.
ghost use Rattle.network_messages.specs.CheckedIpv4.{checked_ipv4_decoder, checked_ipv4_writes, checked_ipv4_size, checked_ipv4_bits, Fits, becomes_checked_ipv4, start_of, start_number, start_read};
ghost use Rattle.network_messages.specs.declared.checked_ipv4.CheckedIpv4.{CheckedIpv4};
ghost use Rattle.std.specs.Prelude.{◌≡◌, ◌<◌, ◌≤◌, ◌*◌, ◌++◌, ℕ, Bool, List, Ok, Err, length, IfOk, IsOk};
ghost use Rattle.std.specs.declared.io.ErrorKind.TheVariants.{WriteZero};
ghost use Rattle.bitstream_io.specs.Callers.{Done, Error, Order, High, bits, write_sequence, ReadsOwn, OwnAnswer, WritesAll, AllAccepted, sequence_length, sure_answer, Stream, same_error};
ghost use Rattle.bitstream_format.specs.Checks.{bytes1, bytes2, bytes4, sum16};
ghost use Rattle.bitstream_io.specs.SliceMut.{HoldsFirst, written_bytes};

use bitstream_format::checks::{octets_of_u8, octets_of_u16, octets_of_u32, sum16_more};
use bitstream_io::{
    BE, BitRead, BitReadExt, BitReader, BitWrite, BitWriteExt, Bits, Error, FromBitStream,
    SliceMut, ToBitStream, pack_into,
};

/// An IPv4 header without options, with its checksum (RFC 791, section 3.1).
///
/// ```text
///  0                   1                   2                   3
///  0 1 2 3 4 5 6 7 8 9 0 1 2 3 4 5 6 7 8 9 0 1 2 3 4 5 6 7 8 9 0 1
/// +-+-+-+-+-+-+-+-+-+-+-+-+-+-+-+-+-+-+-+-+-+-+-+-+-+-+-+-+-+-+-+-+
/// |     start     |    service    |             length            |
/// +-+-+-+-+-+-+-+-+-+-+-+-+-+-+-+-+-+-+-+-+-+-+-+-+-+-+-+-+-+-+-+-+
/// |         identification        |            fragment           |
/// +-+-+-+-+-+-+-+-+-+-+-+-+-+-+-+-+-+-+-+-+-+-+-+-+-+-+-+-+-+-+-+-+
/// |      time     |    protocol   |          stored_sum16         |
/// +-+-+-+-+-+-+-+-+-+-+-+-+-+-+-+-+-+-+-+-+-+-+-+-+-+-+-+-+-+-+-+-+
/// |                             source                            |
/// +-+-+-+-+-+-+-+-+-+-+-+-+-+-+-+-+-+-+-+-+-+-+-+-+-+-+-+-+-+-+-+-+
/// |                             target                            |
/// +-+-+-+-+-+-+-+-+-+-+-+-+-+-+-+-+-+-+-+-+-+-+-+-+-+-+-+-+-+-+-+-+
/// ```
#[derive(Clone, Copy, Debug, PartialEq)]
pub struct CheckedIpv4 {
    /// The version, 4, and the words of the header, 5.
    pub start: Start,
    /// The type of service.
    pub service: u8,
    /// The bytes of the datagram.
    pub length: u16,
    /// The datagram whose fragment it is.
    pub identification: u16,
    /// The flags, and the place of the fragment.
    pub fragment: u16,
    /// The hops that are left.
    pub time: u8,
    /// The protocol of the data.
    pub protocol: u8,
    /// The address of the sender.
    pub source: u32,
    /// The address of the receiver.
    pub target: u32,
}

/// The errors of reading a `CheckedIpv4`.
#[derive(Debug, Drop, thiserror::Error)]
pub enum CheckedIpv4Error {
    /// An error of the reader.
    #[error("{0}")]
    Reader(Error),
    /// `start` is not the number of a case of `Start`.
    #[error("`start` is not the number of a case of `Start`")]
    NoStart,
    /// The checksum is not that of the header.
    #[error("the checksum is not that of the header")]
    WrongSum,
}

impl From<Error> for CheckedIpv4Error {
    ghost from_gives = { becomes_checked_ipv4 };

    fn from(error: Error) -> CheckedIpv4Error {
        CheckedIpv4Error::Reader(error)
    }
}

/// The version, 4, and the words of the header, 5.
#[derive(Clone, Copy, Debug, PartialEq)]
pub enum Start {
    /// Encoded as 69.
    NoOptions,
}

impl Start {
    /// Decodes a number.
    pub fn of(number: u8) -> Result<Start, CheckedIpv4Error>
        ensures { result ≡ start_of number }
    {
        if number == 69 {
            return Ok(Start::NoOptions);
        }
        Err(CheckedIpv4Error::NoStart)
    }

    /// Returns the number of the case.
    pub fn number(self) -> u8
        ensures { result ≡ start_number self }
    {
        match self {
            Start::NoOptions => 69,
        }
    }

    /// Reads a number of 8 bits, and decodes it.
    pub fn read<R: BitRead>(reader: &mut R) -> Result<Start, CheckedIpv4Error>
        ensures { ReadsOwn R.source becomes_checked_ipv4 (start_read R.source.order) reader.old result reader.new }
    {
        let number = reader.read::<Bits<8>, u8>()?;
        Start::of(number)
    }
}

/// Returns the checksum of these numbers and bytes, in order.
fn sum16_of(
    number_1: u8,
    number_2: u8,
    number_3: u16,
    number_4: u16,
    number_5: u16,
    number_6: u8,
    number_7: u8,
    number_8: u32,
    number_9: u32,
) -> u16
    ensures { result ≡ sum16 (bytes1 number_1 ++ bytes1 number_2 ++ bytes2 number_3 ++ bytes2 number_4 ++ bytes2 number_5 ++ bytes1 number_6 ++ bytes1 number_7 ++ bytes4 number_8 ++ bytes4 number_9) }
{
    let octets_1 = octets_of_u8(number_1);
    let state_1 = sum16_more(0, 0, &octets_1);
    let octets_2 = octets_of_u8(number_2);
    let state_2 = sum16_more(state_1, 1, &octets_2);
    let octets_3 = octets_of_u16(number_3);
    let state_3 = sum16_more(state_2, 2, &octets_3);
    let octets_4 = octets_of_u16(number_4);
    let state_4 = sum16_more(state_3, 4, &octets_4);
    let octets_5 = octets_of_u16(number_5);
    let state_5 = sum16_more(state_4, 6, &octets_5);
    let octets_6 = octets_of_u8(number_6);
    let state_6 = sum16_more(state_5, 8, &octets_6);
    let octets_7 = octets_of_u8(number_7);
    let state_7 = sum16_more(state_6, 9, &octets_7);
    let octets_8 = octets_of_u32(number_8);
    let state_8 = sum16_more(state_7, 10, &octets_8);
    let octets_9 = octets_of_u32(number_9);
    let state_9 = sum16_more(state_8, 14, &octets_9);
    65535 - state_9
}

impl CheckedIpv4 {
    /// The number of bits before each line of the description.
    pub const PLACES: [u64; 10] = [0, 8, 16, 32, 48, 64, 72, 80, 96, 128];

    /// Reads the fields in order.
    ///
    /// # Errors
    ///
    /// `NoStart` or `WrongSum`, after the rejected bits have been read.
    /// Otherwise the reader's errors, after which it has failed.
    pub fn read<R: BitRead>(reader: &mut R) -> Result<CheckedIpv4, CheckedIpv4Error>
        ensures { ReadsOwn R.source becomes_checked_ipv4 (checked_ipv4_decoder R.source.order) reader.old result reader.new }
    {
        let start = Start::read(reader)?;
        let service = reader.read::<Bits<8>, u8>()?;
        let length = reader.read::<Bits<16>, u16>()?;
        let identification = reader.read::<Bits<16>, u16>()?;
        let fragment = reader.read::<Bits<16>, u16>()?;
        let time = reader.read::<Bits<8>, u8>()?;
        let protocol = reader.read::<Bits<8>, u8>()?;
        let stored_sum16 = reader.read::<Bits<16>, u16>()?;
        let source = reader.read::<Bits<32>, u32>()?;
        let target = reader.read::<Bits<32>, u32>()?;
        let is_sum16 = stored_sum16
            == sum16_of(
                start.number(),
                service,
                length,
                identification,
                fragment,
                time,
                protocol,
                source,
                target,
            );
        if !is_sum16 {
            return Err(CheckedIpv4Error::WrongSum);
        }
        Ok(CheckedIpv4 {
            start,
            service,
            length,
            identification,
            fragment,
            time,
            protocol,
            source,
            target,
        })
    }

    /// Parses the value at the start of `packet`.
    ///
    /// # Errors
    ///
    /// `NoStart` or `WrongSum` if bits are rejected.
    /// `Reader(EndOfInput)` if the bytes end before the fields do.
    pub fn parse(packet: &[u8]) -> Result<CheckedIpv4, CheckedIpv4Error>
        ensures answer { OwnAnswer becomes_checked_ipv4 (λ answer. answer)
            (sure_answer ((checked_ipv4_decoder High).reads 0 (bits High packet.now))) result }
        ensures back { (value : CheckedIpv4) (more : List Bool) → Fits value
            → bits High packet.now ≡ write_sequence (checked_ipv4_writes High value) 0 ++ more → result ≡ Ok value }
    {
        checked_ipv4_round_trip();
        CheckedIpv4::read(&mut BitReader::<_, BE>::over(packet))
    }

    /// Writes the fields in order.
    ///
    /// # Errors
    ///
    /// `Checked` for a field that does not fit its bits. The fields before it have been written.
    /// Otherwise the sink's errors.
    pub fn write<W: BitWrite>(&self, writer: &mut W) -> Result<(), Error>
        ensures { WritesAll W.sink (checked_ipv4_writes W.sink.order self.now) writer.old result writer.new }
    {
        writer.write::<Bits<8>, u8>(self.start.number())?;
        writer.write::<Bits<8>, u8>(self.service)?;
        writer.write::<Bits<16>, u16>(self.length)?;
        writer.write::<Bits<16>, u16>(self.identification)?;
        writer.write::<Bits<16>, u16>(self.fragment)?;
        writer.write::<Bits<8>, u8>(self.time)?;
        writer.write::<Bits<8>, u8>(self.protocol)?;
        writer.write::<Bits<16>, u16>(sum16_of(
            self.start.number(),
            self.service,
            self.length,
            self.identification,
            self.fragment,
            self.time,
            self.protocol,
            self.source,
            self.target,
        ))?;
        writer.write::<Bits<32>, u32>(self.source)?;
        writer.write::<Bits<32>, u32>(self.target)?;
        Ok(())
    }

    /// Writes the fields to the first bytes of a buffer, and returns what was written. The other bytes
    /// stay as they were. Does not allocate.
    ///
    /// # Errors
    ///
    /// `Checked` for the first field that does not fit its bits, however long the buffer is.
    /// `Stream(WriteZero)` if all fields fit, and the buffer is too short for the bits.
    /// After an error, the first bytes of the buffer may have changed.
    pub fn pack_into<'a>(&self, buffer: &'a mut [u8]) -> Result<SliceMut<'a>, Error>
        ensures packed { IfOk result (λ packed. bits High (written_bytes packed) ≡ checked_ipv4_bits self.now) }
        ensures first { IfOk result (HoldsFirst buffer.entry.ghost_name buffer.old) }
        ensures accepted { IsOk result → AllAccepted (checked_ipv4_writes High self.now) 0 }
        ensures misfit { (error : Error) → sequence_length (checked_ipv4_writes High self.now) 0 ≡ Err error
            → result ≡ Err error }
        ensures room { Fits self.now → checked_ipv4_size High self.now ≤ 8 * length buffer.old
            → IsOk result }
        ensures short { Fits self.now → 8 * length buffer.old < checked_ipv4_size High self.now
            → result ≡ Err (Stream WriteZero) }
    {
        pack_into::<BE, CheckedIpv4>(self, buffer)
    }
}

impl FromBitStream for CheckedIpv4 {
    type Error = CheckedIpv4Error;

    ghost becomes = { becomes_checked_ipv4 };

    ghost reads = { checked_ipv4_decoder };

    fn from_reader<R: BitRead>(reader: &mut R) -> Result<CheckedIpv4, CheckedIpv4Error> {
        CheckedIpv4::read(reader)
    }
}

impl ToBitStream for CheckedIpv4 {
    type Error = Error;

    ghost becomes = { same_error };

    ghost writes = { checked_ipv4_writes };

    fn to_writer<W: BitWrite>(&self, writer: &mut W) -> Result<(), Error> {
        self.write(writer)
    }
}

/// A value that fits its bits is read back as it was written, in either order of bits, at any place.
/// The read takes only the bits that were written: `checked_ipv4_size` is their number.
pub fn checked_ipv4_round_trip()
    ensures back { (o : Order) (value : CheckedIpv4) (at from : ℕ) (more : List Bool) → Fits value
        → let written = write_sequence (checked_ipv4_writes o value) at in
        (checked_ipv4_decoder o).reads from (written ++ more) ≡ Done (length written) (Ok (Ok value)) }
    ensures size { (o : Order) (value : CheckedIpv4) (at : ℕ) → Fits value
        → length (write_sequence (checked_ipv4_writes o value) at) ≡ checked_ipv4_size o value }
{}
