//! The first message of a TLS connection.
//!
//! Made by `./format` from formats/client_hello.fields: edit that file and make this one anew.
ghost use Rattle.bitstream_callers.specs.ClientHello.{client_hello_decoder, client_hello_writes, client_hello_size, client_hello_bits, Fits, becomes_client_hello, compression_of, compression_number, compression_read};
ghost use Rattle.bitstream_callers.specs.declared.client_hello.ClientHello.{ClientHello};
ghost use Rattle.bitstream_callers.specs.declared.client_hello.ClientHelloError.{ClientHelloError};
ghost use Rattle.bitstream_callers.specs.declared.client_hello.ClientHelloError.TheVariants.{Reader};
ghost use Rattle.std.specs.Prelude.{◌≡◌, ◌<◌, ◌≤◌, ◌*◌, ◌++◌, ◌∷◌, [], ◌⊎◌, ℕ, Bool, true, List, Ok, Err, length, IfOk, IsOk};
ghost use Rattle.std.specs.List.{flat_map};
ghost use Rattle.std.specs.declared.io.ErrorKind.TheVariants.{WriteZero};
ghost use Rattle.bitstream_io.specs.Callers.{Done, Error, Order, High, bits, unsigned, write_sequence, ReadsOwn, OwnAnswer, WritesAll, AllAccepted, sequence_length, sure_answer, GrowsOwn, MayAllocate, OutOfMemory, Stream, result_map, same_error, parts_decoder};
ghost use Rattle.bitstream_io.specs.SliceMut.{HoldsFirst, written_bytes};

use bitstream_io::{
    BE, BitRead, BitReadExt, BitReader, BitWrite, BitWriteExt, Bits, Error, FromBitStreamUsing,
    SliceMut, ToBitStream, pack_into,
};
use std::alloc::{AllocFailed, Global};
use std::marker::Model;

/// The first message of a TLS connection.
///
/// ```text
///  0                   1                   2                   3
///  0 1 2 3 4 5 6 7 8 9 0 1 2 3 4 5 6 7 8 9 0 1 2 3 4 5 6 7 8 9 0 1
/// +-+-+-+-+-+-+-+-+-+-+-+-+-+-+-+-+-+-+-+-+-+-+-+-+-+-+-+-+-+-+-+-+
/// |       =1      |                      size                     |
/// +-+-+-+-+-+-+-+-+-+-+-+-+-+-+-+-+-+-+-+-+-+-+-+-+-+-+-+-+-+-+-+-+
/// |            version            |                               |
/// +-+-+-+-+-+-+-+-+-+-+-+-+-+-+-+-+-+-+-+-+-+-+-+-+-+-+-+-+-+-+-+-+
/// |                        random (7 rows)                        |
/// +-+-+-+-+-+-+-+-+-+-+-+-+-+-+-+-+-+-+-+-+-+-+-+-+-+-+-+-+-+-+-+-+
/// |                               | session_count |
/// +-+-+-+-+-+-+-+-+-+-+-+-+-+-+-+-+-+-+-+-+-+-+-+-+-+-+-+-+-+-+-+-+
/// /                 session (session_count bytes)                 /
/// +-+-+-+-+-+-+-+-+-+-+-+-+-+-+-+-+-+-+-+-+-+-+-+-+-+-+-+-+-+-+-+-+
/// |          suites_count         |
/// +-+-+-+-+-+-+-+-+-+-+-+-+-+-+-+-+-+-+-+-+-+-+-+-+-+-+-+-+-+-+-+-+
/// /                  suites (suites_count bytes)                  /
/// +-+-+-+-+-+-+-+-+-+-+-+-+-+-+-+-+-+-+-+-+-+-+-+-+-+-+-+-+-+-+-+-+
/// |compressions_co|
/// +-+-+-+-+-+-+-+-+-+-+-+-+-+-+-+-+-+-+-+-+-+-+-+-+-+-+-+-+-+-+-+-+
/// /        compressions (compressions_count of Compression)       /
/// +-+-+-+-+-+-+-+-+-+-+-+-+-+-+-+-+-+-+-+-+-+-+-+-+-+-+-+-+-+-+-+-+
/// |        extensions_count       |
/// +-+-+-+-+-+-+-+-+-+-+-+-+-+-+-+-+-+-+-+-+-+-+-+-+-+-+-+-+-+-+-+-+
/// /              extensions (extensions_count bytes)              /
/// +-+-+-+-+-+-+-+-+-+-+-+-+-+-+-+-+-+-+-+-+-+-+-+-+-+-+-+-+-+-+-+-+
/// ```
#[derive(Debug, Drop)]
pub struct ClientHello {
    /// The number of bytes that follow in the message. Below 2^24.
    pub size: u32,
    /// The version, which is 0x0303 since TLS 1.2.
    pub version: u16,
    /// Random bytes.
    pub random: [u8; 32],
    /// The session to resume. Fewer than 2^8.
    pub session: Vec<u8>,
    /// The bytes of the cipher suites, two for each. Fewer than 2^16.
    pub suites: Vec<u8>,
    /// The compression methods that are offered. Fewer than 2^8.
    pub compressions: Vec<Compression>,
    /// The extensions, undecoded. Fewer than 2^16.
    pub extensions: Vec<u8>,
}

impl Model for ClientHello {
    ghost use Rattle.bitstream_callers.specs.ClientHelloFields.{ClientHelloFields};

    ghost Value = { ClientHelloFields };

    ghost view = { λ value. record {
      size = value.size;
      version = value.version;
      random = value.random;
      session = value.session.items;
      suites = value.suites.items;
      compressions = value.compressions.items;
      extensions = value.extensions.items;
    } };
}

/// The errors of reading a `ClientHello`.
#[derive(Debug, Drop, thiserror::Error)]
pub enum ClientHelloError {
    /// An error of the reader.
    #[error("{0}")]
    Reader(Error),
    /// The message is no ClientHello.
    #[error("the message is no ClientHello")]
    OtherMessage,
    /// An item of `compressions` is not the number of a case of `Compression`.
    #[error("an item of `compressions` is not the number of a case of `Compression`")]
    NoCompression,
}

impl From<Error> for ClientHelloError {
    ghost from_gives = { becomes_client_hello };

    fn from(error: Error) -> ClientHelloError {
        ClientHelloError::Reader(error)
    }
}

/// The compression methods that are offered.
#[derive(Clone, Copy, Debug, PartialEq)]
pub enum Compression {
    /// Encoded as 0.
    Null,
    /// Encoded as 1.
    Deflate,
}

impl Compression {
    /// Decodes a number.
    pub fn of(number: u8) -> Result<Compression, ClientHelloError>
        ensures { result ≡ compression_of number }
    {
        if number == 0 {
            return Ok(Compression::Null);
        }
        if number == 1 {
            return Ok(Compression::Deflate);
        }
        Err(ClientHelloError::NoCompression)
    }

    /// Returns the number of the case.
    pub fn number(self) -> u8
        ensures { result ≡ compression_number self }
    {
        match self {
            Compression::Null => 0,
            Compression::Deflate => 1,
        }
    }

    /// Reads a number of 8 bits, and decodes it.
    pub fn read<R: BitRead>(reader: &mut R) -> Result<Compression, ClientHelloError>
        ensures { ReadsOwn R.source becomes_client_hello (compression_read R.source.order) reader.old result reader.new }
    {
        let number = reader.read::<Bits<8>, u8>()?;
        Compression::of(number)
    }
}

impl<T: Drop> From<AllocFailed<T>> for ClientHelloError {
    ghost from_gives = { λ _ own. own ≡ Reader OutOfMemory };

    fn from(_refused: AllocFailed<T>) -> ClientHelloError {
        ClientHelloError::Reader(Error::OutOfMemory)
    }
}

/// Reads `count` items of `compressions`. Stops after an item that is rejected, or whose allocation fails.
fn read_compressions<R: BitRead>(
    reader: &mut R,
    alloc: Global,
    count: u64,
) -> Result<Vec<Compression>, ClientHelloError>
    ensures { GrowsOwn R.source becomes_client_hello (parts_decoder (compression_read R.source.order) count)
        reader.old (result_map (λ found. found.items) result) reader.new }
{
    let mut found = Vec::new(alloc);
    for _ in 0..count {
        found.push(Compression::read(reader)?)?;
    }
    Ok(found)
}

/// Writes the items of `compressions`.
fn write_compressions<W: BitWrite>(writer: &mut W, items: &[Compression]) -> Result<(), Error>
    ensures { WritesAll W.sink (flat_map (λ x. unsigned W.sink.order 8 8 (compression_number x) ∷ []) items.now)
        writer.old result writer.new }
{
    for item in items {
        writer.write::<Bits<8>, u8>(item.number())?;
    }
    Ok(())
}

impl ClientHello {
    /// Reads the fields in order.
    ///
    /// # Errors
    ///
    /// `OtherMessage` or `NoCompression`, after the rejected bits have been read.
    /// `Reader(OutOfMemory)` if an allocation for a list fails. The items before the failure
    /// have been read.
    /// Otherwise the reader's errors, after which it has failed.
    pub fn read<R: BitRead>(reader: &mut R, alloc: Global) -> Result<ClientHello, ClientHelloError>
        ensures { GrowsOwn R.source becomes_client_hello (client_hello_decoder R.source.order) reader.old result reader.new }
    {
        reader.read_const::<Bits<8>, Bits<1>, ClientHelloError>(ClientHelloError::OtherMessage)?;
        let size = reader.read::<Bits<24>, u32>()?;
        let version = reader.read::<Bits<16>, u16>()?;
        let random = reader.read_to_bytes::<[u8; 32]>()?;
        let session_count = reader.read::<Bits<8>, u64>()?;
        let session = reader.read_to_vec(alloc, session_count as usize)?;
        let suites_count = reader.read::<Bits<16>, u64>()?;
        let suites = reader.read_to_vec(alloc, suites_count as usize)?;
        let compressions_count = reader.read::<Bits<8>, u64>()?;
        let compressions = read_compressions(reader, alloc, compressions_count)?;
        let extensions_count = reader.read::<Bits<16>, u64>()?;
        let extensions = reader.read_to_vec(alloc, extensions_count as usize)?;
        Ok(ClientHello {
            size,
            version,
            random,
            session,
            suites,
            compressions,
            extensions,
        })
    }

    /// Parses the value at the start of `packet`.
    ///
    /// # Errors
    ///
    /// `OtherMessage` or `NoCompression` if bits are rejected.
    /// `Reader(EndOfInput)` if the bytes end before the fields do.
    /// `Reader(OutOfMemory)` if the allocation for an item of a list fails.
    pub fn parse(packet: &[u8], alloc: Global) -> Result<ClientHello, ClientHelloError>
        ensures answer { (OwnAnswer becomes_client_hello (λ answer. answer)
            (sure_answer ((client_hello_decoder High).reads 0 (bits High packet.now))) result)
            ⊎ ((result ≡ Err (ClientHelloError.Reader OutOfMemory))
            × MayAllocate (client_hello_decoder High) 0 (bits High packet.now)) }
        ensures back { (value : ClientHello) (more : List Bool) → Fits value
            → bits High packet.now ≡ write_sequence (client_hello_writes High value) 0 ++ more
            → (result ≡ Ok value)
            ⊎ (result ≡ Err (ClientHelloError.Reader OutOfMemory)) }
    {
        client_hello_round_trip();
        ClientHello::read(&mut BitReader::<_, BE>::over(packet), alloc)
    }

    /// Writes the fields in order.
    ///
    /// # Errors
    ///
    /// `Checked` for a field that does not fit its bits. The fields before it have been written.
    /// Otherwise the sink's errors.
    pub fn write<W: BitWrite>(&self, writer: &mut W) -> Result<(), Error>
        ensures { WritesAll W.sink (client_hello_writes W.sink.order self.now) writer.old result writer.new }
    {
        writer.write_const::<Bits<8>, Bits<1>>()?;
        writer.write::<Bits<24>, u32>(self.size)?;
        writer.write::<Bits<16>, u16>(self.version)?;
        writer.write_bytes(&self.random)?;
        writer.write::<Bits<8>, u64>(self.session.len() as u64)?;
        writer.write_bytes(&self.session)?;
        writer.write::<Bits<16>, u64>(self.suites.len() as u64)?;
        writer.write_bytes(&self.suites)?;
        writer.write::<Bits<8>, u64>(self.compressions.len() as u64)?;
        write_compressions(writer, &self.compressions)?;
        writer.write::<Bits<16>, u64>(self.extensions.len() as u64)?;
        writer.write_bytes(&self.extensions)?;
        Ok(())
    }

    /// Writes the fields to the first bytes of a buffer, and returns what was written. The other bytes
    /// stay as they were. Does not allocate.
    ///
    /// # Errors
    ///
    /// `Checked` for the first field that does not fit its bits, however long the buffer is.
    /// `Stream(WriteZero)` if all fields fit, and the buffer is too short for the bits.
    /// After an error, the first bytes of the buffer may have changed.
    pub fn pack_into<'a>(&self, buffer: &'a mut [u8]) -> Result<SliceMut<'a>, Error>
        ensures packed { IfOk result (λ packed. bits High (written_bytes packed) ≡ client_hello_bits self.now) }
        ensures first { IfOk result (HoldsFirst buffer.entry.ghost_name buffer.old) }
        ensures accepted { IsOk result → AllAccepted (client_hello_writes High self.now) 0 }
        ensures misfit { (error : Error) → sequence_length (client_hello_writes High self.now) 0 ≡ Err error
            → result ≡ Err error }
        ensures room { Fits self.now → client_hello_size High self.now ≤ 8 * length buffer.old
            → IsOk result }
        ensures short { Fits self.now → 8 * length buffer.old < client_hello_size High self.now
            → result ≡ Err (Stream WriteZero) }
    {
        pack_into::<BE, ClientHello>(self, buffer)
    }
}

impl FromBitStreamUsing for ClientHello {
    type Context = Global;

    type Error = ClientHelloError;

    ghost grows = { true };

    ghost becomes = { becomes_client_hello };

    ghost reads = { λ o _. client_hello_decoder o };

    fn from_reader<R: BitRead>(
        reader: &mut R,
        alloc: Global,
    ) -> Result<ClientHello, ClientHelloError> {
        ClientHello::read(reader, alloc)
    }
}

impl ToBitStream for ClientHello {
    type Error = Error;

    ghost becomes = { same_error };

    ghost writes = { client_hello_writes };

    fn to_writer<W: BitWrite>(&self, writer: &mut W) -> Result<(), Error> {
        self.write(writer)
    }
}

/// A value that fits its bits is read back as it was written, in either order of bits, at any place.
/// The read takes only the bits that were written: `client_hello_size` is their number.
pub fn client_hello_round_trip()
    ensures back { (o : Order) (value : ClientHello) (at from : ℕ) (more : List Bool) → Fits value
        → let written = write_sequence (client_hello_writes o value) at in
        (client_hello_decoder o).reads from (written ++ more) ≡ Done (length written) (Ok (Ok value)) }
    ensures size { (o : Order) (value : ClientHello) (at : ℕ) → Fits value
        → length (write_sequence (client_hello_writes o value) at) ≡ client_hello_size o value }
{}
