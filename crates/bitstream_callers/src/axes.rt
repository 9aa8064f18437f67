//! Reads numbers of a known length: one check of the bits left shows that all of them are there.
ghost use Rattle.std.specs.Prelude.{◌≡◌, ◌≤◌, false, length, IfSome, IsOk};
ghost use Rattle.bitstream_io.specs.Callers.{Reads, High, bits_left, memory_source};
ghost use Rattle.bitstream_callers.specs.Axes.{axes_decoder};

use bitstream_io::{BE, BitRead, Error, SliceReader};

/// The measurement of an accelerometer: three numbers of 12 bits.
#[derive(Clone, Copy, Debug, PartialEq)]
pub struct Axes {
    /// The acceleration to the right.
    pub x: u16,
    /// The acceleration to the front.
    pub y: u16,
    /// The acceleration upwards.
    pub z: u16,
}

/// Reads the measurement of an accelerometer. A caller that has checked that 36 bits are left gets no error.
///
/// # Errors
///
/// The errors of the reader.
pub fn read_axes(reader: &mut SliceReader<'_, BE>) -> Result<Axes, Error>
    // Takes only 36 bits and returns their numbers, or returns an error.
    ensures reads { Reads (memory_source High) axes_decoder reader.old result reader.new }
    // If 36 bits are left to a reader that has not failed, it returns no error.
    ensures done { ((memory_source High).state reader.old).failed ≡ false
        → IfSome (bits_left High ((memory_source High).state reader.old))
        (λ left. 36 ≤ length left → IsOk result) }
{
    Ok(Axes {
        x: reader.read_unsigned_var(12)?,
        y: reader.read_unsigned_var(12)?,
        z: reader.read_unsigned_var(12)?,
    })
}
