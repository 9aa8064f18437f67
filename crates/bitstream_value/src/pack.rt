//! Values that are packed into a buffer.
ghost use Rattle.std.specs.Prelude.{◌≡◌, ◌∷◌, ◌++◌, [], Ok};
ghost use Rattle.bitstream_count.specs.declared.error.Error.{Error};
ghost use Rattle.bitstream_stream.specs.Writing.Sink.{WritesAll};
ghost use Rattle.bitstream_stream.specs.Writing.WriteTable.{align};
ghost use Rattle.bitstream_value.specs.Lengths.{sequence_length};
ghost use Rattle.bitstream_value.specs.PackInto.{PacksInto, error_or};

use crate::build::ToBitStream;
use bitstream_count::error::Error;
use bitstream_order::order::Endianness;
use bitstream_order::streams::slice_mut::SliceMut;
use bitstream_order::streams::target::Target;
use bitstream_stream::write::BitWrite;
use bitstream_stream::write::writer::BitWriter;
use std::io;

/// A target that accepts all bytes and keeps none.
#[derive(Drop)]
struct Discard {}

impl Target for Discard {
    ghost use Rattle.bitstream_value.specs.PackInto.{discard_stream};

    ghost stream = { discard_stream };

    fn write_all(&mut self, _bytes: &[u8]) -> io::Result<()> {
        Ok(())
    }

    fn flush(&mut self) -> io::Result<()> {
        Ok(())
    }
}

/// Writes a value, and then zeros up to the next byte boundary.
#[inline(always)]
fn write_whole<T: ToBitStream<Error = Error>, W: BitWrite>(
    value: &T,
    writer: &mut W,
) -> Result<(), Error>
    requires same { (error own : Error) → T.becomes error own → own ≡ error }
    requires plain { T.answers value.now ≡ Ok tt }
    ensures writes { WritesAll W.sink (T.writes W.sink.order value.now ++ align ∷ [])
        writer.old result writer.new }
{
    value.to_writer(writer)?;
    writer.byte_align()
}

/// Returns the first error of writing the value with room for all its bits, or `other` if there is no such error.
#[inline(never)]
fn misfit_or<E: Endianness, T: ToBitStream<Error = Error>>(value: &T, other: Error) -> Error
    requires same { (error own : Error) → T.becomes error own → own ≡ error }
    requires plain { T.answers value.now ≡ Ok tt }
    ensures { result ≡ error_or (sequence_length (T.writes E.order value.now) 0) other }
{
    let mut writer = BitWriter::<_, E>::new(Discard {});
    match value.to_writer(&mut writer) {
        Ok(()) => other,
        Err(misfit) => misfit,
    }
}

/// Writes a value to the first bytes of a buffer, and then zeros up to the next byte boundary. The other bytes of the
/// buffer are unchanged. Does not allocate.
///
/// # Errors
///
/// The first error of a part of the value, such as `Checked` for a number that does not fit its bits, whatever the
/// length of the buffer. If all parts fit, `Stream(WriteZero)` if the buffer is too short. After an error, some bytes
/// of the buffer may have been written.
#[inline(always)]
pub fn pack_into<'a, E: Endianness, T: ToBitStream<Error = Error>>(
    value: &T,
    buffer: &'a mut [u8],
) -> Result<SliceMut<'a>, Error>
    // The type's errors are the errors of the sink.
    requires same { (error own : Error) → T.becomes error own → own ≡ error }
    // The type has no errors of its own.
    requires plain { T.answers value.now ≡ Ok tt }
    ensures { PacksInto E.order (T.writes E.order value.now) buffer.entry.ghost_name buffer.old result }
{
    let mut writer = BitWriter::<_, E>::over(buffer);
    match write_whole(value, &mut writer) {
        Ok(()) => Ok(writer.into_writer()),
        Err(error) => Err(misfit_or::<E, T>(value, error)),
    }
}
