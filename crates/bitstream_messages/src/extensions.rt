//! The extensions of a TLS hello, after their size (RFC 8446, 4.2).
//!
//! Made by `./format` from formats/extensions.fields: edit that file and make this one anew.
ghost use Rattle.bitstream_messages.specs.Extensions.{extensions_decoder, extensions_writes, extensions_size, extensions_bits, Fits, becomes_extensions, items_sized, items_ended, extension_error, extension_here};
ghost use Rattle.bitstream_format.specs.Within.{UnlessMemory};
ghost use Rattle.bitstream_format.specs.Filled.{items_from};
ghost use Rattle.bitstream_io.specs.Lengths.{CountsBits};
ghost use Rattle.bitstream_messages.specs.Extension.{extension_writes};
ghost use Rattle.bitstream_messages.specs.declared.extensions.Extensions.{Extensions};
ghost use Rattle.bitstream_messages.specs.declared.extensions.ExtensionsError.{ExtensionsError};
ghost use Rattle.bitstream_messages.specs.declared.extensions.ExtensionsError.TheVariants.{Reader, Overlong};
ghost use Rattle.std.specs.Prelude.{◌≡◌, ◌<◌, ◌≤◌, ◌*◌, ◌++◌, ◌⊎◌, ℕ, Bool, List, Ok, Err, length, IfOk, IsOk};
ghost use Rattle.std.specs.List.{flat_map};
ghost use Rattle.std.specs.declared.io.ErrorKind.TheVariants.{WriteZero};
ghost use Rattle.bitstream_io.specs.Callers.{Done, Error, Order, High, bits, write_sequence, OwnAnswer, WritesAll, AllAccepted, sequence_length, sure_answer, GrowsOwn, MayAllocate, OutOfMemory, Stream, result_map, same_error};
ghost use Rattle.bitstream_io.specs.SliceMut.{HoldsFirst, written_bytes};

use crate::extension::{Extension, ExtensionError};
use bitstream_format::within::{is_end, write_size};
use bitstream_io::{
    BE, BitRead, BitReadExt, BitReader, BitWrite, Bits, BitsWritten, Error, SliceMut, SliceReader,
    ToBitStream, pack_into,
};
use std::alloc::{AllocFailed, Global};
use std::marker::Model;

/// The extensions of a TLS hello, after their size (RFC 8446, 4.2).
///
/// ```text
///  0                   1                   2                   3
///  0 1 2 3 4 5 6 7 8 9 0 1 2 3 4 5 6 7 8 9 0 1 2 3 4 5 6 7 8 9 0 1
/// +-+-+-+-+-+-+-+-+-+-+-+-+-+-+-+-+
/// |          items_bytes          |
/// +-+-+-+-+-+-+-+-+-+-+-+-+-+-+-+-+-+-+-+-+-+-+-+-+-+-+-+-+-+-+-+-+
/// /            items (Extension, of items_bytes bytes)            /
/// +-+-+-+-+-+-+-+-+-+-+-+-+-+-+-+-+-+-+-+-+-+-+-+-+-+-+-+-+-+-+-+-+
/// ```
#[derive(Debug, Drop)]
pub struct Extensions {
    /// The extensions.
    pub items: Vec<Extension>,
}

impl Model for Extensions {
    ghost use Rattle.bitstream_messages.specs.ExtensionsFields.{ExtensionsFields};

    ghost Value = { ExtensionsFields };

    ghost view = { λ value. record {
      items = value.items.items;
    } };
}

/// The errors of reading an `Extensions`.
#[derive(Debug, Drop, thiserror::Error)]
pub enum ExtensionsError {
    /// An error of the reader.
    #[error("{0}")]
    Reader(Error),
    /// `items` does not fill the bytes that its size states.
    #[error("`items` does not fill the bytes that its size states")]
    Overlong,
    /// An error of an `Extension` that is not the reader's.
    #[error("in an `Extension`: {0}")]
    InExtension(ExtensionError),
}

impl From<Error> for ExtensionsError {
    ghost from_gives = { becomes_extensions };

    fn from(error: Error) -> ExtensionsError {
        ExtensionsError::Reader(error)
    }
}

impl From<ExtensionError> for ExtensionsError {
    ghost from_gives = { λ error own. own ≡ extension_error error };

    fn from(error: ExtensionError) -> ExtensionsError {
        match error {
            ExtensionError::Reader(error) => ExtensionsError::Reader(error),
            ExtensionError::OtherSize => ExtensionsError::InExtension(ExtensionError::OtherSize),
        }
    }
}

impl<T: Drop> From<AllocFailed<T>> for ExtensionsError {
    ghost from_gives = { λ _ own. own ≡ Reader OutOfMemory };

    fn from(_refused: AllocFailed<T>) -> ExtensionsError {
        ExtensionsError::Reader(Error::OutOfMemory)
    }
}

/// Writes the items of `items`.
fn write_items<W: BitWrite>(writer: &mut W, items: &[Extension]) -> Result<(), Error>
    ensures { WritesAll W.sink (flat_map (extension_writes W.sink.order) items.now)
        writer.old result writer.new }
{
    for item in items {
        item.write(writer)?;
    }
    Ok(())
}

/// Returns the number of bits of the items of `items`.
///
/// # Errors
///
/// `Checked` for a field that does not fit its bits.
fn count_items(items: &[Extension]) -> Result<u64, Error>
    ensures { CountsBits (λ bits. bits) 18446744073709551615 same_error (flat_map (extension_writes High) items.now)
        (Ok tt) result }
{
    let mut counter = BitsWritten::<u64>::new();
    write_items(&mut counter, items)?;
    Ok(counter.into_written())
}

/// Maps an error inside the bytes of `items`: the end of these bytes becomes `Overlong`.
fn items_ended(error: ExtensionsError) -> ExtensionsError
    ensures { result ≡ items_ended error }
{
    match error {
        ExtensionsError::Reader(error) => {
            if is_end(&error) {
                return ExtensionsError::Overlong;
            }
            ExtensionsError::Reader(error)
        }
        ExtensionsError::Overlong => ExtensionsError::Overlong,
        ExtensionsError::InExtension(error) => ExtensionsError::InExtension(error),
    }
}

/// Parses these bytes as the items of `items`, of which there are at most `size`.
///
/// # Errors
///
/// `Overlong` if the items do not fill the bytes. Otherwise the error of an item.
fn items_in(bytes: &[u8], alloc: Global, size: u64) -> Result<Vec<Extension>, ExtensionsError>
    ensures { UnlessMemory (λ error. Reader error)
        (items_from (extension_here High) Overlong (λ error. Reader error) items_ended 0 (bits High bytes.now) size)
        (result_map (λ found. found.items) result) }
{
    let mut inside = SliceReader::<BE>::over(bytes);
    let mut found = Vec::new(alloc);
    for _ in 0..size {
        if inside.is_at_end() {
            return Ok(found);
        }
        match Extension::read(&mut inside, alloc) {
            Ok(item) => found.push(item)?,
            Err(error) => return Err(items_ended(ExtensionsError::from(error))),
        }
    }
    if inside.is_at_end() {
        return Ok(found);
    }
    Err(ExtensionsError::Overlong)
}

/// Reads `items`, which has `size` bytes. No bit after them is read.
fn read_items<R: BitRead>(
    reader: &mut R,
    alloc: Global,
    size: u64,
) -> Result<Vec<Extension>, ExtensionsError>
    requires { R.source.order ≡ High }
    ensures { GrowsOwn R.source becomes_extensions (items_sized R.source.order size)
        reader.old (result_map (λ found. found.items) result) reader.new }
{
    let bytes = reader.read_to_vec(alloc, size as usize)?;
    items_in(&bytes, alloc, size)
}

impl Extensions {
    /// The number of bits before each line of the description.
    pub const PLACES: [u64; 2] = [0, 16];

    /// Reads the fields in order.
    ///
    /// # Errors
    ///
    /// `Overlong` or `InExtension`, after the rejected bits have been read.
    /// `Reader(OutOfMemory)` if an allocation for a list fails. The items before the failure
    /// have been read.
    /// Otherwise the reader's errors, after which it has failed.
    pub fn read<R: BitRead>(reader: &mut R, alloc: Global) -> Result<Extensions, ExtensionsError>
        requires { R.source.order ≡ High }
        ensures { GrowsOwn R.source becomes_extensions (extensions_decoder R.source.order) reader.old result reader.new }
    {
        let items_bytes = reader.read::<Bits<16>, u64>()?;
        let items = read_items(reader, alloc, items_bytes)?;
        Ok(Extensions { items })
    }

    /// Parses the value at the start of `packet`.
    ///
    /// # Errors
    ///
    /// `Overlong` or `InExtension` if bits are rejected.
    /// `Reader(EndOfInput)` if the bytes end before the fields do.
    /// `Reader(OutOfMemory)` if the allocation for an item of a list fails.
    pub fn parse(packet: &[u8], alloc: Global) -> Result<Extensions, ExtensionsError>
        ensures answer { (OwnAnswer becomes_extensions (λ answer. answer)
            (sure_answer ((extensions_decoder High).reads 0 (bits High packet.now))) result)
            ⊎ ((result ≡ Err (ExtensionsError.Reader OutOfMemory))
            × MayAllocate (extensions_decoder High) 0 (bits High packet.now)) }
        ensures back { (value : Extensions) (more : List Bool) → Fits value
            → bits High packet.now ≡ write_sequence (extensions_writes High value) 0 ++ more
            → (result ≡ Ok value)
            ⊎ (result ≡ Err (ExtensionsError.Reader OutOfMemory)) }
    {
        extensions_round_trip();
        Extensions::read(&mut BitReader::<_, BE>::over(packet), alloc)
    }

    /// Writes the fields in order.
    ///
    /// # Errors
    ///
    /// `Checked` for a field that does not fit its bits. The fields before it have been written.
    /// Otherwise the sink's errors.
    pub fn write<W: BitWrite>(&self, writer: &mut W) -> Result<(), Error>
        ensures { WritesAll W.sink (extensions_writes W.sink.order self.now) writer.old result writer.new }
    {
        write_size(writer, 16, count_items(&self.items))?;
        write_items(writer, &self.items)?;
        Ok(())
    }

    /// Writes the fields to the first bytes of a buffer, and returns what was written. The other bytes
    /// stay as they were. Does not allocate.
    ///
    /// # Errors
    ///
    /// `Checked` for the first field that does not fit its bits, however long the buffer is.
    /// `Stream(WriteZero)` if all fields fit, and the buffer is too short for the bits.
    /// After an error, the first bytes of the buffer may have changed.
    pub fn pack_into<'a>(&self, buffer: &'a mut [u8]) -> Result<SliceMut<'a>, Error>
        ensures packed { IfOk result (λ packed. bits High (written_bytes packed) ≡ extensions_bits self.now) }
        ensures first { IfOk result (HoldsFirst buffer.entry.ghost_name buffer.old) }
        ensures accepted { IsOk result → AllAccepted (extensions_writes High self.now) 0 }
        ensures misfit { (error : Error) → sequence_length (extensions_writes High self.now) 0 ≡ Err error
            → result ≡ Err error }
        ensures room { Fits self.now → extensions_size High self.now ≤ 8 * length buffer.old
            → IsOk result }
        ensures short { Fits self.now → 8 * length buffer.old < extensions_size High self.now
            → result ≡ Err (Stream WriteZero) }
    {
        pack_into::<BE, Extensions>(self, buffer)
    }
}

impl ToBitStream for Extensions {
    type Error = Error;

    ghost becomes = { same_error };

    ghost writes = { extensions_writes };

    fn to_writer<W: BitWrite>(&self, writer: &mut W) -> Result<(), Error> {
        self.write(writer)
    }
}

/// A value that fits its bits is read back as it was written, in either order of bits, at any place.
/// The read takes only the bits that were written: `extensions_size` is their number.
pub fn extensions_round_trip()
    ensures back { (o : Order) (value : Extensions) (at from : ℕ) (more : List Bool) → Fits value
        → let written = write_sequence (extensions_writes o value) at in
        (extensions_decoder o).reads from (written ++ more) ≡ Done (length written) (Ok (Ok value)) }
    ensures size { (o : Order) (value : Extensions) (at : ℕ) → Fits value
        → length (write_sequence (extensions_writes o value) at) ≡ extensions_size o value }
{}
