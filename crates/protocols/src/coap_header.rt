//! The header of a CoAP message and its token (RFC 7252, section 3).
//!
//! Made by `./format` from formats/coap_header.fields: edit that file and make this one anew.
ghost use Rattle.protocols.specs.CoapHeader.{coap_header_decoder, coap_header_writes, coap_header_size, coap_header_bits, Fits, becomes_coap_header, message_of, message_number, message_read};
ghost use Rattle.protocols.specs.declared.coap_header.CoapHeader.{CoapHeader};
ghost use Rattle.protocols.specs.declared.coap_header.CoapError.{CoapError};
ghost use Rattle.protocols.specs.declared.coap_header.CoapError.TheVariants.{Reader};
ghost use Rattle.std.specs.Prelude.{◌≡◌, ◌<◌, ◌≤◌, ◌*◌, ◌++◌, ◌⊎◌, ℕ, Bool, true, List, Ok, Err, length, IfOk, IsOk};
ghost use Rattle.std.specs.declared.io.ErrorKind.TheVariants.{WriteZero};
ghost use Rattle.bitstream_io.specs.Callers.{Done, Error, Order, High, bits, write_sequence, Reads, OwnAnswer, WritesAll, AllAccepted, sequence_length, sure_answer, GrowsOwn, MayAllocate, OutOfMemory, Stream, same_error};
ghost use Rattle.bitstream_io.specs.SliceMut.{HoldsFirst, written_bytes};

use bitstream_io::{
    BE, BitRead, BitReadExt, BitReader, BitWrite, BitWriteExt, Bits, Error, FromBitStreamUsing,
    SliceMut, ToBitStream, pack_into,
};
use std::alloc::Global;
use std::marker::Model;

/// The header of a CoAP message and its token (RFC 7252, section 3).
///
/// ```text
///  0                   1                   2                   3
///  0 1 2 3 4 5 6 7 8 9 0 1 2 3 4 5 6 7 8 9 0 1 2 3 4 5 6 7 8 9 0 1
/// +-+-+-+-+-+-+-+-+-+-+-+-+-+-+-+-+-+-+-+-+-+-+-+-+-+-+-+-+-+-+-+-+
/// | =1|kin|token_c|class|  detail |               id              |
/// +-+-+-+-+-+-+-+-+-+-+-+-+-+-+-+-+-+-+-+-+-+-+-+-+-+-+-+-+-+-+-+-+
/// /                   token (token_count bytes)                   /
/// +-+-+-+-+-+-+-+-+-+-+-+-+-+-+-+-+-+-+-+-+-+-+-+-+-+-+-+-+-+-+-+-+
/// ```
#[derive(Debug, Drop)]
pub struct CoapHeader {
    /// The kind of the message.
    pub kind: Message,
    /// The class of the code: a request, or how it went. Below 2^3.
    pub class: u8,
    /// The method of a request, or the detail of a response. Below 2^5.
    pub detail: u8,
    /// The number that an acknowledgement shares with its message.
    pub id: u16,
    /// The bytes that a response shares with its request. Fewer than 2^4.
    pub token: Vec<u8>,
}

impl Model for CoapHeader {
    ghost use Rattle.protocols.specs.CoapHeaderFields.{CoapHeaderFields};

    ghost Value = { CoapHeaderFields };

    ghost view = { λ value. record {
      kind = value.kind;
      class = value.class;
      detail = value.detail;
      id = value.id;
      token = value.token.items;
    } };
}

/// The errors of reading a `CoapHeader`.
#[derive(Debug, Drop, thiserror::Error)]
pub enum CoapError {
    /// An error of the reader.
    #[error("{0}")]
    Reader(Error),
    /// The version is not 1.
    #[error("the version is not 1")]
    OtherVersion,
}

impl From<Error> for CoapError {
    ghost from_gives = { becomes_coap_header };

    fn from(error: Error) -> CoapError {
        CoapError::Reader(error)
    }
}

/// The kind of the message.
#[derive(Clone, Copy, Debug, PartialEq)]
pub enum Message {
    /// Encoded as 0.
    Confirmable,
    /// Encoded as 1.
    NonConfirmable,
    /// Encoded as 2.
    Acknowledgement,
    /// Encoded as 3.
    Reset,
}

impl Message {
    /// Decodes a number.
    pub fn of(number: u8) -> Message
        ensures { result ≡ message_of number }
    {
        if number == 0 {
            return Message::Confirmable;
        }
        if number == 1 {
            return Message::NonConfirmable;
        }
        if number == 2 {
            return Message::Acknowledgement;
        }
        Message::Reset
    }

    /// Returns the number of the case.
    pub fn number(self) -> u8
        ensures { result ≡ message_number self }
    {
        match self {
            Message::Confirmable => 0,
            Message::NonConfirmable => 1,
            Message::Acknowledgement => 2,
            Message::Reset => 3,
        }
    }

    /// Reads a number of 2 bits, and decodes it.
    pub fn read<R: BitRead>(reader: &mut R) -> Result<Message, Error>
        ensures { Reads R.source (message_read R.source.order) reader.old result reader.new }
    {
        let number = reader.read::<Bits<2>, u8>()?;
        Ok(Message::of(number))
    }
}

impl CoapHeader {
    /// The number of bits before each line of the description.
    pub const PLACES: [u64; 7] = [0, 2, 4, 8, 11, 16, 32];

    /// Reads the fields in order.
    ///
    /// # Errors
    ///
    /// `OtherVersion`, after the rejected bits have been read.
    /// `Reader(OutOfMemory)` if an allocation for a list fails. The items before the failure
    /// have been read.
    /// Otherwise the reader's errors, after which it has failed.
    pub fn read<R: BitRead>(reader: &mut R, alloc: Global) -> Result<CoapHeader, CoapError>
        ensures { GrowsOwn R.source becomes_coap_header (coap_header_decoder R.source.order) reader.old result reader.new }
    {
        reader.read_const::<Bits<2>, Bits<1>, CoapError>(CoapError::OtherVersion)?;
        let kind = Message::read(reader)?;
        let token_count = reader.read::<Bits<4>, u64>()?;
        let class = reader.read::<Bits<3>, u8>()?;
        let detail = reader.read::<Bits<5>, u8>()?;
        let id = reader.read::<Bits<16>, u16>()?;
        let token = reader.read_to_vec(alloc, token_count as usize)?;
        Ok(CoapHeader {
            kind,
            class,
            detail,
            id,
            token,
        })
    }

    /// Parses the value at the start of `packet`.
    ///
    /// # Errors
    ///
    /// `OtherVersion` if bits are rejected.
    /// `Reader(EndOfInput)` if the bytes end before the fields do.
    /// `Reader(OutOfMemory)` if the allocation for an item of a list fails.
    pub fn parse(packet: &[u8], alloc: Global) -> Result<CoapHeader, CoapError>
        ensures answer { (OwnAnswer becomes_coap_header (λ answer. answer)
            (sure_answer ((coap_header_decoder High).reads 0 (bits High packet.now))) result)
            ⊎ ((result ≡ Err (CoapError.Reader OutOfMemory))
            × MayAllocate (coap_header_decoder High) 0 (bits High packet.now)) }
        ensures back { (value : CoapHeader) (more : List Bool) → Fits value
            → bits High packet.now ≡ write_sequence (coap_header_writes High value) 0 ++ more
            → (result ≡ Ok value)
            ⊎ (result ≡ Err (CoapError.Reader OutOfMemory)) }
    {
        coap_header_round_trip();
        CoapHeader::read(&mut BitReader::<_, BE>::over(packet), alloc)
    }

    /// Writes the fields in order.
    ///
    /// # Errors
    ///
    /// `Checked` for a field that does not fit its bits. The fields before it have been written.
    /// Otherwise the sink's errors.
    pub fn write<W: BitWrite>(&self, writer: &mut W) -> Result<(), Error>
        ensures { WritesAll W.sink (coap_header_writes W.sink.order self.now) writer.old result writer.new }
    {
        writer.write_const::<Bits<2>, Bits<1>>()?;
        writer.write::<Bits<2>, u8>(self.kind.number())?;
        writer.write::<Bits<4>, u64>(self.token.len() as u64)?;
        writer.write::<Bits<3>, u8>(self.class)?;
        writer.write::<Bits<5>, u8>(self.detail)?;
        writer.write::<Bits<16>, u16>(self.id)?;
        writer.write_bytes(&self.token)?;
        Ok(())
    }

    /// Writes the fields to the first bytes of a buffer, and returns what was written. The other bytes
    /// stay as they were. Does not allocate.
    ///
    /// # Errors
    ///
    /// `Checked` for the first field that does not fit its bits, however long the buffer is.
    /// `Stream(WriteZero)` if all fields fit, and the buffer is too short for the bits.
    /// After an error, the first bytes of the buffer may have changed.
    pub fn pack_into<'a>(&self, buffer: &'a mut [u8]) -> Result<SliceMut<'a>, Error>
        ensures packed { IfOk result (λ packed. bits High (written_bytes packed) ≡ coap_header_bits self.now) }
        ensures first { IfOk result (HoldsFirst buffer.entry.ghost_name buffer.old) }
        ensures accepted { IsOk result → AllAccepted (coap_header_writes High self.now) 0 }
        ensures misfit { (error : Error) → sequence_length (coap_header_writes High self.now) 0 ≡ Err error
            → result ≡ Err error }
        ensures room { Fits self.now → coap_header_size High self.now ≤ 8 * length buffer.old
            → IsOk result }
        ensures short { Fits self.now → 8 * length buffer.old < coap_header_size High self.now
            → result ≡ Err (Stream WriteZero) }
    {
        pack_into::<BE, CoapHeader>(self, buffer)
    }
}

impl FromBitStreamUsing for CoapHeader {
    type Context = Global;

    type Error = CoapError;

    ghost grows = { true };

    ghost becomes = { becomes_coap_header };

    ghost reads = { λ o _. coap_header_decoder o };

    fn from_reader<R: BitRead>(reader: &mut R, alloc: Global) -> Result<CoapHeader, CoapError> {
        CoapHeader::read(reader, alloc)
    }
}

impl ToBitStream for CoapHeader {
    type Error = Error;

    ghost becomes = { same_error };

    ghost writes = { coap_header_writes };

    fn to_writer<W: BitWrite>(&self, writer: &mut W) -> Result<(), Error> {
        self.write(writer)
    }
}

/// A value that fits its bits is read back as it was written, in either order of bits, at any place.
/// The read takes only the bits that were written: `coap_header_size` is their number.
pub fn coap_header_round_trip()
    ensures back { (o : Order) (value : CoapHeader) (at from : ℕ) (more : List Bool) → Fits value
        → let written = write_sequence (coap_header_writes o value) at in
        (coap_header_decoder o).reads from (written ++ more) ≡ Done (length written) (Ok (Ok value)) }
    ensures size { (o : Order) (value : CoapHeader) (at : ℕ) → Fits value
        → length (write_sequence (coap_header_writes o value) at) ≡ coap_header_size o value }
{}
