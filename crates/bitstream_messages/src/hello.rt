//! The first message of a TLS 1.2 client, with typed extensions (RFC 5246, 7.4.1.2).
//!
//! Made by `./format` from formats/hello.fields: edit that file and make this one anew.
ghost use Rattle.bitstream_messages.specs.Hello.{hello_decoder, hello_writes, hello_size, hello_bits, Fits, becomes_hello, extensions_error};
ghost use Rattle.bitstream_messages.specs.declared.hello.Hello.{Hello};
ghost use Rattle.bitstream_messages.specs.declared.hello.HelloError.{HelloError};
ghost use Rattle.bitstream_messages.specs.declared.hello.HelloError.TheVariants.{Reader};
ghost use Rattle.std.specs.Prelude.{◌≡◌, ◌<◌, ◌≤◌, ◌*◌, ◌++◌, ◌⊎◌, ℕ, Bool, List, Ok, Err, length, IfOk, IsOk};
ghost use Rattle.std.specs.declared.io.ErrorKind.TheVariants.{WriteZero};
ghost use Rattle.bitstream_io.specs.Callers.{Done, Error, Order, High, bits, write_sequence, OwnAnswer, WritesAll, AllAccepted, sequence_length, sure_answer, GrowsOwn, MayAllocate, OutOfMemory, Stream, same_error};
ghost use Rattle.bitstream_io.specs.SliceMut.{HoldsFirst, written_bytes};

use crate::extensions::{Extensions, ExtensionsError};
use bitstream_io::{
    BE, BitRead, BitReadExt, BitReader, BitWrite, BitWriteExt, Bits, Error, SliceMut, ToBitStream,
    pack_into,
};
use std::alloc::Global;
use std::marker::Model;

/// The first message of a TLS 1.2 client, with typed extensions (RFC 5246, 7.4.1.2).
///
/// ```text
///  0                   1                   2                   3
///  0 1 2 3 4 5 6 7 8 9 0 1 2 3 4 5 6 7 8 9 0 1 2 3 4 5 6 7 8 9 0 1
/// +-+-+-+-+-+-+-+-+-+-+-+-+-+-+-+-+-+-+-+-+-+-+-+-+-+-+-+-+-+-+-+-+
/// |       =1      |                     length                    |
/// +-+-+-+-+-+-+-+-+-+-+-+-+-+-+-+-+-+-+-+-+-+-+-+-+-+-+-+-+-+-+-+-+
/// |            version            |                               |
/// +-+-+-+-+-+-+-+-+-+-+-+-+-+-+-+-+-+-+-+-+-+-+-+-+-+-+-+-+-+-+-+-+
/// |                        random (7 rows)                        |
/// +-+-+-+-+-+-+-+-+-+-+-+-+-+-+-+-+-+-+-+-+-+-+-+-+-+-+-+-+-+-+-+-+
/// |                               | session_count |
/// +-+-+-+-+-+-+-+-+-+-+-+-+-+-+-+-+-+-+-+-+-+-+-+-+-+-+-+-+-+-+-+-+
/// /                 session (session_count bytes)                 /
/// +-+-+-+-+-+-+-+-+-+-+-+-+-+-+-+-+-+-+-+-+-+-+-+-+-+-+-+-+-+-+-+-+
/// |          suites_count         |
/// +-+-+-+-+-+-+-+-+-+-+-+-+-+-+-+-+-+-+-+-+-+-+-+-+-+-+-+-+-+-+-+-+
/// /                  suites (suites_count bytes)                  /
/// +-+-+-+-+-+-+-+-+-+-+-+-+-+-+-+-+-+-+-+-+-+-+-+-+-+-+-+-+-+-+-+-+
/// |compressions_co|
/// +-+-+-+-+-+-+-+-+-+-+-+-+-+-+-+-+-+-+-+-+-+-+-+-+-+-+-+-+-+-+-+-+
/// /            compressions (compressions_count bytes)            /
/// +-+-+-+-+-+-+-+-+-+-+-+-+-+-+-+-+-+-+-+-+-+-+-+-+-+-+-+-+-+-+-+-+
/// /                    extensions (Extensions)                    /
/// +-+-+-+-+-+-+-+-+-+-+-+-+-+-+-+-+-+-+-+-+-+-+-+-+-+-+-+-+-+-+-+-+
/// ```
#[derive(Debug, Drop)]
pub struct Hello {
    /// The bytes of the message that follow. Below 2^24.
    pub length: u32,
    /// The version, 0x0303 for TLS 1.2.
    pub version: u16,
    /// Random bytes.
    pub random: [u8; 32],
    /// The session to resume. Fewer than 2^8.
    pub session: Vec<u8>,
    /// The cipher suites, of two bytes each. Fewer than 2^16.
    pub suites: Vec<u8>,
    /// The compression methods that are offered. Fewer than 2^8.
    pub compressions: Vec<u8>,
    /// The extensions.
    pub extensions: Extensions,
}

impl Model for Hello {
    ghost use Rattle.bitstream_messages.specs.HelloFields.{HelloFields};

    ghost Value = { HelloFields };

    ghost view = { λ value. record {
      length = value.length;
      version = value.version;
      random = value.random;
      session = value.session.items;
      suites = value.suites.items;
      compressions = value.compressions.items;
      extensions = value.extensions;
    } };
}

/// The errors of reading a `Hello`.
#[derive(Debug, Drop, thiserror::Error)]
pub enum HelloError {
    /// An error of the reader.
    #[error("{0}")]
    Reader(Error),
    /// The message is no ClientHello.
    #[error("the message is no ClientHello")]
    OtherMessage,
    /// An error of an `Extensions` that is not the reader's.
    #[error("in an `Extensions`: {0}")]
    InExtensions(ExtensionsError),
}

impl From<Error> for HelloError {
    ghost from_gives = { becomes_hello };

    fn from(error: Error) -> HelloError {
        HelloError::Reader(error)
    }
}

impl From<ExtensionsError> for HelloError {
    ghost from_gives = { λ error own. own ≡ extensions_error error };

    fn from(error: ExtensionsError) -> HelloError {
        match error {
            ExtensionsError::Reader(error) => HelloError::Reader(error),
            ExtensionsError::Overlong => HelloError::InExtensions(ExtensionsError::Overlong),
            ExtensionsError::InExtension(error) => HelloError::InExtensions(
                ExtensionsError::InExtension(error),
            ),
        }
    }
}

impl Hello {
    /// Reads the fields in order.
    ///
    /// # Errors
    ///
    /// `OtherMessage` or `InExtensions`, after the rejected bits have been read.
    /// `Reader(OutOfMemory)` if an allocation for a list fails. The items before the failure
    /// have been read.
    /// Otherwise the reader's errors, after which it has failed.
    pub fn read<R: BitRead>(reader: &mut R, alloc: Global) -> Result<Hello, HelloError>
        requires { R.source.order ≡ High }
        ensures { GrowsOwn R.source becomes_hello (hello_decoder R.source.order) reader.old result reader.new }
    {
        reader.read_const::<Bits<8>, Bits<1>, HelloError>(HelloError::OtherMessage)?;
        let length_ = reader.read::<Bits<24>, u32>()?;
        let version = reader.read::<Bits<16>, u16>()?;
        let random = reader.read_to_bytes::<[u8; 32]>()?;
        let session_count = reader.read::<Bits<8>, u64>()?;
        let session = reader.read_to_vec(alloc, session_count as usize)?;
        let suites_count = reader.read::<Bits<16>, u64>()?;
        let suites = reader.read_to_vec(alloc, suites_count as usize)?;
        let compressions_count = reader.read::<Bits<8>, u64>()?;
        let compressions = reader.read_to_vec(alloc, compressions_count as usize)?;
        let extensions = Extensions::read(reader, alloc)?;
        Ok(Hello {
            length: length_,
            version,
            random,
            session,
            suites,
            compressions,
            extensions,
        })
    }

    /// Parses the value at the start of `packet`.
    ///
    /// # Errors
    ///
    /// `OtherMessage` or `InExtensions` if bits are rejected.
    /// `Reader(EndOfInput)` if the bytes end before the fields do.
    /// `Reader(OutOfMemory)` if the allocation for an item of a list fails.
    pub fn parse(packet: &[u8], alloc: Global) -> Result<Hello, HelloError>
        ensures answer { (OwnAnswer becomes_hello (λ answer. answer)
            (sure_answer ((hello_decoder High).reads 0 (bits High packet.now))) result)
            ⊎ ((result ≡ Err (HelloError.Reader OutOfMemory))
            × MayAllocate (hello_decoder High) 0 (bits High packet.now)) }
        ensures back { (value : Hello) (more : List Bool) → Fits value
            → bits High packet.now ≡ write_sequence (hello_writes High value) 0 ++ more
            → (result ≡ Ok value)
            ⊎ (result ≡ Err (HelloError.Reader OutOfMemory)) }
    {
        hello_round_trip();
        Hello::read(&mut BitReader::<_, BE>::over(packet), alloc)
    }

    /// Writes the fields in order.
    ///
    /// # Errors
    ///
    /// `Checked` for a field that does not fit its bits. The fields before it have been written.
    /// Otherwise the sink's errors.
    pub fn write<W: BitWrite>(&self, writer: &mut W) -> Result<(), Error>
        ensures { WritesAll W.sink (hello_writes W.sink.order self.now) writer.old result writer.new }
    {
        writer.write_const::<Bits<8>, Bits<1>>()?;
        writer.write::<Bits<24>, u32>(self.length)?;
        writer.write::<Bits<16>, u16>(self.version)?;
        writer.write_bytes(&self.random)?;
        writer.write::<Bits<8>, u64>(self.session.len() as u64)?;
        writer.write_bytes(&self.session)?;
        writer.write::<Bits<16>, u64>(self.suites.len() as u64)?;
        writer.write_bytes(&self.suites)?;
        writer.write::<Bits<8>, u64>(self.compressions.len() as u64)?;
        writer.write_bytes(&self.compressions)?;
        self.extensions.write(writer)?;
        Ok(())
    }

    /// Writes the fields to the first bytes of a buffer, and returns what was written. The other bytes
    /// stay as they were. Does not allocate.
    ///
    /// # Errors
    ///
    /// `Checked` for the first field that does not fit its bits, however long the buffer is.
    /// `Stream(WriteZero)` if all fields fit, and the buffer is too short for the bits.
    /// After an error, the first bytes of the buffer may have changed.
    pub fn pack_into<'a>(&self, buffer: &'a mut [u8]) -> Result<SliceMut<'a>, Error>
        ensures packed { IfOk result (λ packed. bits High (written_bytes packed) ≡ hello_bits self.now) }
        ensures first { IfOk result (HoldsFirst buffer.entry.ghost_name buffer.old) }
        ensures accepted { IsOk result → AllAccepted (hello_writes High self.now) 0 }
        ensures misfit { (error : Error) → sequence_length (hello_writes High self.now) 0 ≡ Err error
            → result ≡ Err error }
        ensures room { Fits self.now → hello_size High self.now ≤ 8 * length buffer.old
            → IsOk result }
        ensures short { Fits self.now → 8 * length buffer.old < hello_size High self.now
            → result ≡ Err (Stream WriteZero) }
    {
        pack_into::<BE, Hello>(self, buffer)
    }
}

impl ToBitStream for Hello {
    type Error = Error;

    ghost becomes = { same_error };

    ghost writes = { hello_writes };

    fn to_writer<W: BitWrite>(&self, writer: &mut W) -> Result<(), Error> {
        self.write(writer)
    }
}

/// A value that fits its bits is read back as it was written, in either order of bits, at any place.
/// The read takes only the bits that were written: `hello_size` is their number.
pub fn hello_round_trip()
    ensures back { (o : Order) (value : Hello) (at from : ℕ) (more : List Bool) → Fits value
        → let written = write_sequence (hello_writes o value) at in
        (hello_decoder o).reads from (written ++ more) ≡ Done (length written) (Ok (Ok value)) }
    ensures size { (o : Order) (value : Hello) (at : ℕ) → Fits value
        → length (write_sequence (hello_writes o value) at) ≡ hello_size o value }
{}
