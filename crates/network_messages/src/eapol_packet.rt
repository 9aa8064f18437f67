//! A packet of EAP in a frame of IEEE 802.1X (802.1X-2010, section 11.3; RFC 3748, section 4).
//!
//! Made by `./format` from formats/eapol_packet.fields: edit that file and make this one anew.
ghost use Rattle.network_messages.specs.EapolPacket.{eapol_packet_decoder, eapol_packet_writes, eapol_packet_size, eapol_packet_bits, Fits, becomes_eapol_packet, body_bytes_sum, body_bytes_writes, eap_code_of, eap_code_number, eap_code_read, data_stated};
ghost use Rattle.network_messages.specs.declared.eapol_packet.EapolPacket.{EapolPacket};
ghost use Rattle.network_messages.specs.declared.eapol_packet.EapolPacketError.{EapolPacketError};
ghost use Rattle.network_messages.specs.declared.eapol_packet.EapolPacketError.TheVariants.{Reader};
ghost use Rattle.std.specs.Prelude.{◌≡◌, ◌<◌, ◌≤◌, ◌*◌, ◌++◌, ◌⊎◌, ℕ, Bool, true, List, Ok, Err, length, IfOk, IsOk};
ghost use Rattle.std.specs.declared.io.ErrorKind.TheVariants.{WriteZero};
ghost use Rattle.bitstream_io.specs.Callers.{Done, Error, Order, High, bits, write_sequence, ReadsOwn, OwnAnswer, WritesAll, AllAccepted, sequence_length, sure_answer, GrowsOwn, MayAllocate, OutOfMemory, Stream, result_map, same_error};
ghost use Rattle.bitstream_io.specs.SliceMut.{HoldsFirst, written_bytes};

use bitstream_format::checksums::ByteCount;
use bitstream_format::stated::{stated_size, stored_size};
use bitstream_format::summed::{sum_of, summing_writer};
use bitstream_io::{
    BE, BitRead, BitReadExt, BitReader, BitWrite, BitWriteExt, Bits, Error, FromBitStreamUsing,
    SliceMut, ToBitStream, pack_into,
};
use std::alloc::Global;
use std::marker::Model;

/// A packet of EAP in a frame of IEEE 802.1X (802.1X-2010, section 11.3; RFC 3748, section 4).
///
/// ```text
///  0                   1                   2                   3
///  0 1 2 3 4 5 6 7 8 9 0 1 2 3 4 5 6 7 8 9 0 1 2 3 4 5 6 7 8 9 0 1
/// +-+-+-+-+-+-+-+-+-+-+-+-+-+-+-+-+-+-+-+-+-+-+-+-+-+-+-+-+-+-+-+-+
/// |    version    |       =0      |       stored_body_bytes       |
/// +-+-+-+-+-+-+-+-+-+-+-+-+-+-+-+-+-+-+-+-+-+-+-+-+-+-+-+-+-+-+-+-+
/// |      code     |       id      |           data_bytes          |
/// +-+-+-+-+-+-+-+-+-+-+-+-+-+-+-+-+-+-+-+-+-+-+-+-+-+-+-+-+-+-+-+-+
/// /                  data (data_bytes - 4 bytes)                  /
/// +-+-+-+-+-+-+-+-+-+-+-+-+-+-+-+-+-+-+-+-+-+-+-+-+-+-+-+-+-+-+-+-+
/// ```
#[derive(Debug, Drop)]
pub struct EapolPacket {
    /// The version of the protocol.
    pub version: u8,
    /// The kind of the packet.
    pub code: EapCode,
    /// The number of the request.
    pub id: u8,
    /// The data, which begin with the type of a request or a response.
    pub data: Vec<u8>,
}

impl Model for EapolPacket {
    ghost use Rattle.network_messages.specs.EapolPacketFields.{EapolPacketFields};

    ghost Value = { EapolPacketFields };

    ghost view = { λ value. record {
      version = value.version;
      code = value.code;
      id = value.id;
      «data» = value.data.items;
    } };
}

/// The errors of reading an `EapolPacket`.
#[derive(Debug, Drop, thiserror::Error)]
pub enum EapolPacketError {
    /// An error of the reader.
    #[error("{0}")]
    Reader(Error),
    /// The frame does not hold a packet of EAP.
    #[error("the frame does not hold a packet of EAP")]
    OtherType,
    /// `code` is not the number of a case of `EapCode`.
    #[error("`code` is not the number of a case of `EapCode`")]
    NoEapCode,
    /// The size of `data` is below the 4 bytes that it counts too.
    #[error("the size of `data` is below the 4 bytes that it counts too")]
    ShortLength,
    /// The length of the frame is not that of the packet.
    #[error("the length of the frame is not that of the packet")]
    OtherLength,
}

impl From<Error> for EapolPacketError {
    ghost from_gives = { becomes_eapol_packet };

    fn from(error: Error) -> EapolPacketError {
        EapolPacketError::Reader(error)
    }
}

/// The kind of the packet.
#[derive(Clone, Copy, Debug, PartialEq)]
pub enum EapCode {
    /// Encoded as 1.
    Request,
    /// Encoded as 2.
    Response,
    /// Encoded as 3.
    Success,
    /// Encoded as 4.
    Failure,
}

impl EapCode {
    /// Decodes a number.
    pub fn of(number: u8) -> Result<EapCode, EapolPacketError>
        ensures { result ≡ eap_code_of number }
    {
        if number == 1 {
            return Ok(EapCode::Request);
        }
        if number == 2 {
            return Ok(EapCode::Response);
        }
        if number == 3 {
            return Ok(EapCode::Success);
        }
        if number == 4 {
            return Ok(EapCode::Failure);
        }
        Err(EapolPacketError::NoEapCode)
    }

    /// Returns the number of the case.
    pub fn number(self) -> u8
        ensures { result ≡ eap_code_number self }
    {
        match self {
            EapCode::Request => 1,
            EapCode::Response => 2,
            EapCode::Success => 3,
            EapCode::Failure => 4,
        }
    }

    /// Reads a number of 8 bits, and decodes it.
    pub fn read<R: BitRead>(reader: &mut R) -> Result<EapCode, EapolPacketError>
        ensures { ReadsOwn R.source becomes_eapol_packet (eap_code_read R.source.order) reader.old result reader.new }
    {
        let number = reader.read::<Bits<8>, u8>()?;
        EapCode::of(number)
    }
}

/// Reads `data`. The number `stored` states its size.
fn read_stated_data<R: BitRead>(
    reader: &mut R,
    alloc: Global,
    stored: u64,
) -> Result<Vec<u8>, EapolPacketError>
    ensures { GrowsOwn R.source becomes_eapol_packet (data_stated R.source.order stored)
        reader.old (result_map (λ found. found.items) result) reader.new }
{
    match stated_size(stored, 1, 4, 0) {
        Some(size) => Ok(reader.read_to_vec(alloc, size as usize)?),
        None => Err(EapolPacketError::ShortLength),
    }
}

impl EapolPacket {
    /// The number of bits before each line of the description.
    pub const PLACES: [u64; 7] = [0, 8, 16, 32, 40, 48, 64];

    /// Reads the fields in order.
    ///
    /// # Errors
    ///
    /// `OtherType`, `NoEapCode`, `ShortLength` or `OtherLength`, after the rejected bits have been read.
    /// `Reader(OutOfMemory)` if an allocation for a list fails. The items before the failure
    /// have been read.
    /// Otherwise the reader's errors, after which it has failed.
    pub fn read<R: BitRead>(reader: &mut R, alloc: Global) -> Result<EapolPacket, EapolPacketError>
        ensures { GrowsOwn R.source becomes_eapol_packet (eapol_packet_decoder R.source.order) reader.old result reader.new }
    {
        let version = reader.read::<Bits<8>, u8>()?;
        reader.read_const::<Bits<8>, Bits<0>, EapolPacketError>(EapolPacketError::OtherType)?;
        let stored_body_bytes = reader.read::<Bits<16>, u64>()?;
        let code = EapCode::read(reader)?;
        let id = reader.read::<Bits<8>, u8>()?;
        let data_bytes = reader.read::<Bits<16>, u64>()?;
        let data_ = read_stated_data(reader, alloc, data_bytes)?;
        let value = EapolPacket {
            version,
            code,
            id,
            data: data_,
        };
        let is_body_bytes = stored_body_bytes == value.body_bytes();
        if !is_body_bytes {
            return Err(EapolPacketError::OtherLength);
        }
        Ok(value)
    }

    /// Parses the value at the start of `packet`.
    ///
    /// # Errors
    ///
    /// `OtherType`, `NoEapCode`, `ShortLength` or `OtherLength` if bits are rejected.
    /// `Reader(EndOfInput)` if the bytes end before the fields do.
    /// `Reader(OutOfMemory)` if the allocation for an item of a list fails.
    pub fn parse(packet: &[u8], alloc: Global) -> Result<EapolPacket, EapolPacketError>
        ensures answer { (OwnAnswer becomes_eapol_packet (λ answer. answer)
            (sure_answer ((eapol_packet_decoder High).reads 0 (bits High packet.now))) result)
            ⊎ ((result ≡ Err (EapolPacketError.Reader OutOfMemory))
            × MayAllocate (eapol_packet_decoder High) 0 (bits High packet.now)) }
        ensures back { (value : EapolPacket) (more : List Bool) → Fits value
            → bits High packet.now ≡ write_sequence (eapol_packet_writes High value) 0 ++ more
            → (result ≡ Ok value)
            ⊎ (result ≡ Err (EapolPacketError.Reader OutOfMemory)) }
    {
        eapol_packet_round_trip();
        EapolPacket::read(&mut BitReader::<_, BE>::over(packet), alloc)
    }

    /// Writes the fields in order.
    ///
    /// # Errors
    ///
    /// `Checked` for a field that does not fit its bits. The fields before it have been written.
    /// Otherwise the sink's errors.
    pub fn write<W: BitWrite>(&self, writer: &mut W) -> Result<(), Error>
        ensures { WritesAll W.sink (eapol_packet_writes W.sink.order self.now) writer.old result writer.new }
    {
        writer.write::<Bits<8>, u8>(self.version)?;
        writer.write_const::<Bits<8>, Bits<0>>()?;
        writer.write::<Bits<16>, u64>(self.body_bytes())?;
        writer.write::<Bits<8>, u8>(self.code.number())?;
        writer.write::<Bits<8>, u8>(self.id)?;
        writer.write::<Bits<16>, u64>(stored_size(self.data.len() as u64, 1, 4, 0))?;
        writer.write_bytes(&self.data)?;
        Ok(())
    }

    /// Returns the number of bytes of its lines as they are written, or 0 if a field of theirs does not fit its bits.
    fn body_bytes(&self) -> u64
        ensures { result ≡ body_bytes_sum self.now }
    {
        let mut writer = summing_writer::<BE, ByteCount>();
        match self.write_for_body_bytes(&mut writer) {
            Ok(()) => sum_of(writer),
            Err(_) => 0,
        }
    }

    /// Writes the lines that the number of bytes covers.
    fn write_for_body_bytes<W: BitWrite>(&self, writer: &mut W) -> Result<(), Error>
        ensures { WritesAll W.sink (body_bytes_writes W.sink.order self.now) writer.old result writer.new }
    {
        writer.write::<Bits<8>, u8>(self.code.number())?;
        writer.write::<Bits<8>, u8>(self.id)?;
        writer.write::<Bits<16>, u64>(stored_size(self.data.len() as u64, 1, 4, 0))?;
        writer.write_bytes(&self.data)?;
        Ok(())
    }

    /// Writes the fields to the first bytes of a buffer, and returns what was written. The other bytes
    /// stay as they were. Does not allocate.
    ///
    /// # Errors
    ///
    /// `Checked` for the first field that does not fit its bits, however long the buffer is.
    /// `Stream(WriteZero)` if all fields fit, and the buffer is too short for the bits.
    /// After an error, the first bytes of the buffer may have changed.
    pub fn pack_into<'a>(&self, buffer: &'a mut [u8]) -> Result<SliceMut<'a>, Error>
        ensures packed { IfOk result (λ packed. bits High (written_bytes packed) ≡ eapol_packet_bits self.now) }
        ensures first { IfOk result (HoldsFirst buffer.entry.ghost_name buffer.old) }
        ensures accepted { IsOk result → AllAccepted (eapol_packet_writes High self.now) 0 }
        ensures misfit { (error : Error) → sequence_length (eapol_packet_writes High self.now) 0 ≡ Err error
            → result ≡ Err error }
        ensures room { Fits self.now → eapol_packet_size High self.now ≤ 8 * length buffer.old
            → IsOk result }
        ensures short { Fits self.now → 8 * length buffer.old < eapol_packet_size High self.now
            → result ≡ Err (Stream WriteZero) }
    {
        pack_into::<BE, EapolPacket>(self, buffer)
    }
}

impl FromBitStreamUsing for EapolPacket {
    type Context = Global;

    type Error = EapolPacketError;

    ghost grows = { true };

    ghost becomes = { becomes_eapol_packet };

    ghost reads = { λ o _. eapol_packet_decoder o };

    fn from_reader<R: BitRead>(
        reader: &mut R,
        alloc: Global,
    ) -> Result<EapolPacket, EapolPacketError> {
        EapolPacket::read(reader, alloc)
    }
}

impl ToBitStream for EapolPacket {
    type Error = Error;

    ghost becomes = { same_error };

    ghost writes = { eapol_packet_writes };

    fn to_writer<W: BitWrite>(&self, writer: &mut W) -> Result<(), Error> {
        self.write(writer)
    }
}

/// A value that fits its bits is read back as it was written, in either order of bits, at any place.
/// The read takes only the bits that were written: `eapol_packet_size` is their number.
pub fn eapol_packet_round_trip()
    ensures back { (o : Order) (value : EapolPacket) (at from : ℕ) (more : List Bool) → Fits value
        → let written = write_sequence (eapol_packet_writes o value) at in
        (eapol_packet_decoder o).reads from (written ++ more) ≡ Done (length written) (Ok (Ok value)) }
    ensures size { (o : Order) (value : EapolPacket) (at : ℕ) → Fits value
        → length (write_sequence (eapol_packet_writes o value) at) ≡ eapol_packet_size o value }
{}
