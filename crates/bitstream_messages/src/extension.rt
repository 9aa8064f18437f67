//! An extension of a TLS hello (RFC 8446, 4.2).
//!
//! Made by `./format` from formats/extension.fields: edit that file and make this one anew.
ghost use Rattle.bitstream_messages.specs.Extension.{extension_decoder, extension_writes, extension_size, extension_bits, Fits, becomes_extension, body_number, body_read, body_writes, other_body_read, body_sized, body_ended};
ghost use Rattle.bitstream_format.specs.Within.{within, UnlessMemory};
ghost use Rattle.bitstream_messages.specs.declared.extension.Extension.{Extension};
ghost use Rattle.bitstream_messages.specs.declared.extension.ExtensionError.{ExtensionError};
ghost use Rattle.bitstream_messages.specs.declared.extension.ExtensionError.TheVariants.{Reader, OtherSize};
ghost use Rattle.std.specs.Prelude.{◌≡◌, ◌<◌, ◌≤◌, ◌*◌, ◌++◌, ◌∷◌, [], ◌⊎◌, ℕ, Bool, List, Ok, Err, length, IfOk, IsOk};
ghost use Rattle.std.specs.declared.io.ErrorKind.TheVariants.{WriteZero};
ghost use Rattle.bitstream_io.specs.Callers.{Done, Error, Order, High, bits, buffer, write_sequence, OwnAnswer, WritesAll, AllAccepted, sequence_length, sure_answer, GrowsOwn, MayAllocate, OutOfMemory, Stream, same_error};
ghost use Rattle.bitstream_io.specs.SliceMut.{HoldsFirst, written_bytes};

use crate::renegotiation::Renegotiation;
use bitstream_format::within::{is_end, write_size};
use bitstream_io::{
    BE, BitRead, BitReadExt, BitReader, BitWrite, BitWriteExt, Bits, Error, SliceMut, SliceReader,
    ToBitStream, pack_into,
};
use std::alloc::Global;
use std::marker::Model;

/// An extension of a TLS hello (RFC 8446, 4.2).
///
/// ```text
///  0                   1                   2                   3
///  0 1 2 3 4 5 6 7 8 9 0 1 2 3 4 5 6 7 8 9 0 1 2 3 4 5 6 7 8 9 0 1
/// +-+-+-+-+-+-+-+-+-+-+-+-+-+-+-+-+-+-+-+-+-+-+-+-+-+-+-+-+-+-+-+-+
/// |            body_tag           |           body_bytes          |
/// +-+-+-+-+-+-+-+-+-+-+-+-+-+-+-+-+-+-+-+-+-+-+-+-+-+-+-+-+-+-+-+-+
/// /         body (ExtendedSecret, Renegotiation or Other)         /
/// +-+-+-+-+-+-+-+-+-+-+-+-+-+-+-+-+-+-+-+-+-+-+-+-+-+-+-+-+-+-+-+-+
/// ```
#[derive(Debug, Drop)]
pub struct Extension {
    /// The content.
    pub body: Body,
}

impl Model for Extension {
    ghost use Rattle.bitstream_messages.specs.ExtensionFields.{ExtensionFields};

    ghost Value = { ExtensionFields };

    ghost view = { λ value. record {
      body = value.body;
    } };
}

/// The errors of reading an `Extension`.
#[derive(Debug, Drop, thiserror::Error)]
pub enum ExtensionError {
    /// An error of the reader.
    #[error("{0}")]
    Reader(Error),
    /// `body` does not fill the bytes that its size states.
    #[error("`body` does not fill the bytes that its size states")]
    OtherSize,
}

impl From<Error> for ExtensionError {
    ghost from_gives = { becomes_extension };

    fn from(error: Error) -> ExtensionError {
        ExtensionError::Reader(error)
    }
}

/// A number that no other case of `Body` has, and the bytes after it.
#[derive(Debug, Drop)]
pub struct OtherBody {
    /// The number.
    pub number: u16,
    /// The bytes.
    pub bytes: Vec<u8>,
}

impl Model for OtherBody {
    ghost use Rattle.bitstream_messages.specs.ExtensionBytes.{OtherBodyFields};

    ghost Value = { OtherBodyFields };

    ghost view = { λ value. record {
      number = value.number;
      bytes = value.bytes.items;
    } };
}

impl OtherBody {
    /// Reads `size` bytes.
    fn read<R: BitRead>(
        reader: &mut R,
        alloc: Global,
        number: u16,
        size: u64,
    ) -> Result<OtherBody, ExtensionError>
        ensures { GrowsOwn R.source becomes_extension (other_body_read R.source.order number size)
            reader.old result reader.new }
    {
        let bytes = reader.read_to_vec(alloc, size as usize)?;
        Ok(OtherBody { number, bytes })
    }

    /// Writes the bytes.
    fn write<W: BitWrite>(&self, writer: &mut W) -> Result<(), Error>
        ensures { WritesAll W.sink (buffer W.sink.order self.now.bytes ∷ []) writer.old result writer.new }
    {
        writer.write_bytes(&self.bytes)?;
        Ok(())
    }
}

/// The content.
#[derive(Debug, Drop)]
pub enum Body {
    /// The case for the number 23.
    ExtendedSecret,
    /// The case for the number 65281.
    Renegotiation(Renegotiation),
    /// Any other number, and the bytes after it.
    Other(OtherBody),
}

impl Body {
    /// Returns the number of the case.
    pub fn number(&self) -> u16
        ensures { result ≡ body_number self.now }
    {
        match self {
            Body::ExtendedSecret => 23,
            Body::Renegotiation(_) => 65281,
            Body::Other(it) => it.number,
        }
    }

    /// Reads what follows the number of a case.
    ///
    /// # Errors
    ///
    /// The reader's errors, after which it has failed.
    pub fn read<R: BitRead>(
        reader: &mut R,
        alloc: Global,
        number: u16,
        size: u64,
    ) -> Result<Body, ExtensionError>
        ensures { GrowsOwn R.source becomes_extension (body_read R.source.order number size) reader.old result reader.new }
    {
        if number == 23 {
            return Ok(Body::ExtendedSecret);
        }
        if number == 65281 {
            return Ok(Body::Renegotiation(Renegotiation::read(reader, alloc)?));
        }
        Ok(Body::Other(OtherBody::read(reader, alloc, number, size)?))
    }

    /// Writes what follows the number of the case.
    ///
    /// # Errors
    ///
    /// `Checked` for a field that does not fit its bits. The fields before it have been written.
    /// Otherwise the sink's errors.
    pub fn write<W: BitWrite>(&self, writer: &mut W) -> Result<(), Error>
        ensures { WritesAll W.sink (body_writes W.sink.order self.now) writer.old result writer.new }
    {
        match self {
            Body::ExtendedSecret => Ok(()),
            Body::Renegotiation(it) => it.write(writer),
            Body::Other(it) => it.write(writer),
        }
    }
}

impl ToBitStream for Body {
    type Error = Error;

    ghost becomes = { same_error };

    ghost writes = { body_writes };

    fn to_writer<W: BitWrite>(&self, writer: &mut W) -> Result<(), Error> {
        self.write(writer)
    }
}

/// Maps an error inside the bytes of `body`: the end of these bytes becomes `OtherSize`.
fn body_ended(error: ExtensionError) -> ExtensionError
    ensures { result ≡ body_ended error }
{
    match error {
        ExtensionError::Reader(error) => {
            if is_end(&error) {
                return ExtensionError::OtherSize;
            }
            ExtensionError::Reader(error)
        }
        ExtensionError::OtherSize => ExtensionError::OtherSize,
    }
}

/// Parses these bytes as `body`.
///
/// # Errors
///
/// `OtherSize` if `body` does not fill the bytes. Otherwise the errors of `body`.
fn body_in(bytes: &[u8], alloc: Global, number: u16, size: u64) -> Result<Body, ExtensionError>
    ensures { UnlessMemory (λ error. Reader error)
        (within (body_read High number size) OtherSize (λ error. Reader error) body_ended (bits High bytes.now)) result }
{
    let mut inside = SliceReader::<BE>::over(bytes);
    match Body::read(&mut inside, alloc, number, size) {
        Ok(found) => {
            if inside.is_at_end() {
                return Ok(found);
            }
            Err(ExtensionError::OtherSize)
        }
        Err(error) => Err(body_ended(error)),
    }
}

/// Reads `body`, which has `size` bytes. No bit after them is read.
fn read_body<R: BitRead>(
    reader: &mut R,
    alloc: Global,
    number: u16,
    size: u64,
) -> Result<Body, ExtensionError>
    requires { R.source.order ≡ High }
    ensures { GrowsOwn R.source becomes_extension (body_sized R.source.order number size)
        reader.old result reader.new }
{
    let bytes = reader.read_to_vec(alloc, size as usize)?;
    body_in(&bytes, alloc, number, size)
}

impl Extension {
    /// The number of bits before each line of the description.
    pub const PLACES: [u64; 3] = [0, 16, 32];

    /// Reads the fields in order.
    ///
    /// # Errors
    ///
    /// `OtherSize`, after the rejected bits have been read.
    /// `Reader(OutOfMemory)` if an allocation for a list fails. The items before the failure
    /// have been read.
    /// Otherwise the reader's errors, after which it has failed.
    pub fn read<R: BitRead>(reader: &mut R, alloc: Global) -> Result<Extension, ExtensionError>
        requires { R.source.order ≡ High }
        ensures { GrowsOwn R.source becomes_extension (extension_decoder R.source.order) reader.old result reader.new }
    {
        let body_tag = reader.read::<Bits<16>, u16>()?;
        let body_bytes = reader.read::<Bits<16>, u64>()?;
        let body = read_body(reader, alloc, body_tag, body_bytes)?;
        Ok(Extension { body })
    }

    /// Parses the value at the start of `packet`.
    ///
    /// # Errors
    ///
    /// `OtherSize` if bits are rejected.
    /// `Reader(EndOfInput)` if the bytes end before the fields do.
    /// `Reader(OutOfMemory)` if the allocation for an item of a list fails.
    pub fn parse(packet: &[u8], alloc: Global) -> Result<Extension, ExtensionError>
        ensures answer { (OwnAnswer becomes_extension (λ answer. answer)
            (sure_answer ((extension_decoder High).reads 0 (bits High packet.now))) result)
            ⊎ ((result ≡ Err (ExtensionError.Reader OutOfMemory))
            × MayAllocate (extension_decoder High) 0 (bits High packet.now)) }
        ensures back { (value : Extension) (more : List Bool) → Fits value
            → bits High packet.now ≡ write_sequence (extension_writes High value) 0 ++ more
            → (result ≡ Ok value)
            ⊎ (result ≡ Err (ExtensionError.Reader OutOfMemory)) }
    {
        extension_round_trip();
        Extension::read(&mut BitReader::<_, BE>::over(packet), alloc)
    }

    /// Writes the fields in order.
    ///
    /// # Errors
    ///
    /// `Checked` for a field that does not fit its bits. The fields before it have been written.
    /// Otherwise the sink's errors.
    pub fn write<W: BitWrite>(&self, writer: &mut W) -> Result<(), Error>
        ensures { WritesAll W.sink (extension_writes W.sink.order self.now) writer.old result writer.new }
    {
        writer.write::<Bits<16>, u16>(self.body.number())?;
        write_size(writer, 16, self.body.bits::<u64>())?;
        self.body.write(writer)?;
        Ok(())
    }

    /// Writes the fields to the first bytes of a buffer, and returns what was written. The other bytes
    /// stay as they were. Does not allocate.
    ///
    /// # Errors
    ///
    /// `Checked` for the first field that does not fit its bits, however long the buffer is.
    /// `Stream(WriteZero)` if all fields fit, and the buffer is too short for the bits.
    /// After an error, the first bytes of the buffer may have changed.
    pub fn pack_into<'a>(&self, buffer: &'a mut [u8]) -> Result<SliceMut<'a>, Error>
        ensures packed { IfOk result (λ packed. bits High (written_bytes packed) ≡ extension_bits self.now) }
        ensures first { IfOk result (HoldsFirst buffer.entry.ghost_name buffer.old) }
        ensures accepted { IsOk result → AllAccepted (extension_writes High self.now) 0 }
        ensures misfit { (error : Error) → sequence_length (extension_writes High self.now) 0 ≡ Err error
            → result ≡ Err error }
        ensures room { Fits self.now → extension_size High self.now ≤ 8 * length buffer.old
            → IsOk result }
        ensures short { Fits self.now → 8 * length buffer.old < extension_size High self.now
            → result ≡ Err (Stream WriteZero) }
    {
        pack_into::<BE, Extension>(self, buffer)
    }
}

impl ToBitStream for Extension {
    type Error = Error;

    ghost becomes = { same_error };

    ghost writes = { extension_writes };

    fn to_writer<W: BitWrite>(&self, writer: &mut W) -> Result<(), Error> {
        self.write(writer)
    }
}

/// A value that fits its bits is read back as it was written, in either order of bits, at any place.
/// The read takes only the bits that were written: `extension_size` is their number.
pub fn extension_round_trip()
    ensures back { (o : Order) (value : Extension) (at from : ℕ) (more : List Bool) → Fits value
        → let written = write_sequence (extension_writes o value) at in
        (extension_decoder o).reads from (written ++ more) ≡ Done (length written) (Ok (Ok value)) }
    ensures size { (o : Order) (value : Extension) (at : ℕ) → Fits value
        → length (write_sequence (extension_writes o value) at) ≡ extension_size o value }
{}
