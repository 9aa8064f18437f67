//! A TFTP read or write request (RFC 1350, section 5).
//!
//! Made by `./format` from formats/tftp_request.fields: edit that file and make this one anew.
ghost use Rattle.network_messages.specs.TftpRequest.{tftp_request_decoder, tftp_request_writes, tftp_request_size, tftp_request_bits, Fits, becomes_tftp_request, request_of, request_number, request_read};
ghost use Rattle.network_messages.specs.declared.tftp_request.TftpRequest.{TftpRequest};
ghost use Rattle.network_messages.specs.declared.tftp_request.TftpRequestError.{TftpRequestError};
ghost use Rattle.network_messages.specs.declared.tftp_request.TftpRequestError.TheVariants.{Reader};
ghost use Rattle.std.specs.Prelude.{◌≡◌, ◌<◌, ◌≤◌, ◌*◌, ◌++◌, ◌⊎◌, ℕ, Bool, true, List, Ok, Err, length, IfOk, IsOk};
ghost use Rattle.std.specs.declared.io.ErrorKind.TheVariants.{WriteZero};
ghost use Rattle.bitstream_io.specs.Callers.{Done, Error, Order, High, bits, write_sequence, ReadsOwn, OwnAnswer, WritesAll, AllAccepted, sequence_length, sure_answer, GrowsOwn, MayAllocate, OutOfMemory, Stream, same_error};
ghost use Rattle.bitstream_io.specs.SliceMut.{HoldsFirst, written_bytes};

use bitstream_format::until::{read_until, write_until};
use bitstream_io::{
    BE, BitRead, BitReadExt, BitReader, BitWrite, BitWriteExt, Bits, Error, FromBitStreamUsing,
    SliceMut, ToBitStream, pack_into,
};
use std::alloc::Global;
use std::marker::Model;

/// A TFTP read or write request (RFC 1350, section 5).
///
/// ```text
///  0                   1                   2                   3
///  0 1 2 3 4 5 6 7 8 9 0 1 2 3 4 5 6 7 8 9 0 1 2 3 4 5 6 7 8 9 0 1
/// +-+-+-+-+-+-+-+-+-+-+-+-+-+-+-+-+
/// |             opcode            |
/// +-+-+-+-+-+-+-+-+-+-+-+-+-+-+-+-+-+-+-+-+-+-+-+-+-+-+-+-+-+-+-+-+
/// /                      name (bytes up to 0)                     /
/// +-+-+-+-+-+-+-+-+-+-+-+-+-+-+-+-+-+-+-+-+-+-+-+-+-+-+-+-+-+-+-+-+
/// /                      mode (bytes up to 0)                     /
/// +-+-+-+-+-+-+-+-+-+-+-+-+-+-+-+-+-+-+-+-+-+-+-+-+-+-+-+-+-+-+-+-+
/// ```
#[derive(Debug, Drop)]
pub struct TftpRequest {
    /// The request.
    pub opcode: Request,
    /// The name of the file, in netascii. No byte is 0, which ends it.
    pub name: Vec<u8>,
    /// The mode, `netascii`, `octet` or `mail` in any case. No byte is 0, which ends it.
    pub mode: Vec<u8>,
}

impl Model for TftpRequest {
    ghost use Rattle.network_messages.specs.TftpRequestFields.{TftpRequestFields};

    ghost Value = { TftpRequestFields };

    ghost view = { λ value. record {
      opcode = value.opcode;
      name = value.name.items;
      mode = value.mode.items;
    } };
}

/// The errors of reading a `TftpRequest`.
#[derive(Debug, Drop, thiserror::Error)]
pub enum TftpRequestError {
    /// An error of the reader.
    #[error("{0}")]
    Reader(Error),
    /// `opcode` is not the number of a case of `Request`.
    #[error("`opcode` is not the number of a case of `Request`")]
    NoRequest,
}

impl From<Error> for TftpRequestError {
    ghost from_gives = { becomes_tftp_request };

    fn from(error: Error) -> TftpRequestError {
        TftpRequestError::Reader(error)
    }
}

/// The request.
#[derive(Clone, Copy, Debug, PartialEq)]
pub enum Request {
    /// Encoded as 1.
    Read,
    /// Encoded as 2.
    Write,
}

impl Request {
    /// Decodes a number.
    pub fn of(number: u16) -> Result<Request, TftpRequestError>
        ensures { result ≡ request_of number }
    {
        if number == 1 {
            return Ok(Request::Read);
        }
        if number == 2 {
            return Ok(Request::Write);
        }
        Err(TftpRequestError::NoRequest)
    }

    /// Returns the number of the case.
    pub fn number(self) -> u16
        ensures { result ≡ request_number self }
    {
        match self {
            Request::Read => 1,
            Request::Write => 2,
        }
    }

    /// Reads a number of 16 bits, and decodes it.
    pub fn read<R: BitRead>(reader: &mut R) -> Result<Request, TftpRequestError>
        ensures { ReadsOwn R.source becomes_tftp_request (request_read R.source.order) reader.old result reader.new }
    {
        let number = reader.read::<Bits<16>, u16>()?;
        Request::of(number)
    }
}

impl TftpRequest {
    /// Reads the fields in order.
    ///
    /// # Errors
    ///
    /// `NoRequest`, after the rejected bits have been read.
    /// `Reader(OutOfMemory)` if an allocation for a list fails. The items before the failure
    /// have been read.
    /// Otherwise the reader's errors, after which it has failed.
    pub fn read<R: BitRead>(reader: &mut R, alloc: Global) -> Result<TftpRequest, TftpRequestError>
        ensures { GrowsOwn R.source becomes_tftp_request (tftp_request_decoder R.source.order) reader.old result reader.new }
    {
        let opcode = Request::read(reader)?;
        let name = read_until(reader, alloc, 0)?;
        let mode = read_until(reader, alloc, 0)?;
        Ok(TftpRequest { opcode, name, mode })
    }

    /// Parses the value at the start of `packet`.
    ///
    /// # Errors
    ///
    /// `NoRequest` if bits are rejected.
    /// `Reader(EndOfInput)` if the bytes end before the fields do.
    /// `Reader(RunTooLong)` if what ends bytes is not among the first 2^32.
    /// `Reader(OutOfMemory)` if the allocation for an item of a list fails.
    pub fn parse(packet: &[u8], alloc: Global) -> Result<TftpRequest, TftpRequestError>
        ensures answer { (OwnAnswer becomes_tftp_request (λ answer. answer)
            (sure_answer ((tftp_request_decoder High).reads 0 (bits High packet.now))) result)
            ⊎ ((result ≡ Err (TftpRequestError.Reader OutOfMemory))
            × MayAllocate (tftp_request_decoder High) 0 (bits High packet.now)) }
        ensures back { (value : TftpRequest) (more : List Bool) → Fits value
            → bits High packet.now ≡ write_sequence (tftp_request_writes High value) 0 ++ more
            → (result ≡ Ok value)
            ⊎ (result ≡ Err (TftpRequestError.Reader OutOfMemory)) }
    {
        tftp_request_round_trip();
        TftpRequest::read(&mut BitReader::<_, BE>::over(packet), alloc)
    }

    /// Writes the fields in order.
    ///
    /// # Errors
    ///
    /// `Checked` for a field that does not fit its bits. The fields before it have been written.
    /// Otherwise the sink's errors.
    pub fn write<W: BitWrite>(&self, writer: &mut W) -> Result<(), Error>
        ensures { WritesAll W.sink (tftp_request_writes W.sink.order self.now) writer.old result writer.new }
    {
        writer.write::<Bits<16>, u16>(self.opcode.number())?;
        write_until(writer, &self.name, 0)?;
        write_until(writer, &self.mode, 0)?;
        Ok(())
    }

    /// Writes the fields to the first bytes of a buffer, and returns what was written. The other bytes
    /// stay as they were. Does not allocate.
    ///
    /// # Errors
    ///
    /// `Checked` for the first field that does not fit its bits, however long the buffer is.
    /// `Stream(WriteZero)` if all fields fit, and the buffer is too short for the bits.
    /// After an error, the first bytes of the buffer may have changed.
    pub fn pack_into<'a>(&self, buffer: &'a mut [u8]) -> Result<SliceMut<'a>, Error>
        ensures packed { IfOk result (λ packed. bits High (written_bytes packed) ≡ tftp_request_bits self.now) }
        ensures first { IfOk result (HoldsFirst buffer.entry.ghost_name buffer.old) }
        ensures accepted { IsOk result → AllAccepted (tftp_request_writes High self.now) 0 }
        ensures misfit { (error : Error) → sequence_length (tftp_request_writes High self.now) 0 ≡ Err error
            → result ≡ Err error }
        ensures room { Fits self.now → tftp_request_size High self.now ≤ 8 * length buffer.old
            → IsOk result }
        ensures short { Fits self.now → 8 * length buffer.old < tftp_request_size High self.now
            → result ≡ Err (Stream WriteZero) }
    {
        pack_into::<BE, TftpRequest>(self, buffer)
    }
}

impl FromBitStreamUsing for TftpRequest {
    type Context = Global;

    type Error = TftpRequestError;

    ghost grows = { true };

    ghost becomes = { becomes_tftp_request };

    ghost reads = { λ o _. tftp_request_decoder o };

    fn from_reader<R: BitRead>(
        reader: &mut R,
        alloc: Global,
    ) -> Result<TftpRequest, TftpRequestError> {
        TftpRequest::read(reader, alloc)
    }
}

impl ToBitStream for TftpRequest {
    type Error = Error;

    ghost becomes = { same_error };

    ghost writes = { tftp_request_writes };

    fn to_writer<W: BitWrite>(&self, writer: &mut W) -> Result<(), Error> {
        self.write(writer)
    }
}

/// A value that fits its bits is read back as it was written, in either order of bits, at any place.
/// The read takes only the bits that were written: `tftp_request_size` is their number.
pub fn tftp_request_round_trip()
    ensures back { (o : Order) (value : TftpRequest) (at from : ℕ) (more : List Bool) → Fits value
        → let written = write_sequence (tftp_request_writes o value) at in
        (tftp_request_decoder o).reads from (written ++ more) ≡ Done (length written) (Ok (Ok value)) }
    ensures size { (o : Order) (value : TftpRequest) (at : ℕ) → Fits value
        → length (write_sequence (tftp_request_writes o value) at) ≡ tftp_request_size o value }
{}
