//! The size of a part in groups of 8 bits. Code printed by `./format` calls the function.
ghost use Rattle.bitstream_format.specs.InGroups.{grouped_of};
ghost use Rattle.std.specs.Prelude.{◌∷◌, []};
ghost use Rattle.bitstream_io.specs.Callers.{WritesAll};

use bitstream_io::{BitWrite, BitWriteExt, Bits, Error};

/// Writes the size of a part in bytes, in the fewest groups of 8 bits. `bits` is the number of bits of the part.
///
/// # Errors
///
/// `Failed` if the sink has failed before. Otherwise, the error of `bits`. After these errors nothing is written.
/// Otherwise, the errors of the sink.
pub fn write_size_in_groups<W: BitWrite>(
    writer: &mut W,
    bits: Result<u64, Error>,
) -> Result<(), Error>
    ensures { WritesAll W.sink (grouped_of W.sink.order bits ∷ []) writer.old result writer.new }
{
    match bits {
        Ok(bits) => writer.write_vbr::<Bits<8>, u64>(bits / 8),
        Err(error) => {
            // A sink that has failed returns `Failed`.
            writer.pad(0)?;
            Err(error)
        }
    }
}
