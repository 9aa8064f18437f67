//! Made by `./format --c`, which prints the same for each crate: edit tools/describing/c/shared.py.
//!
//! The result of a pack, and the write of a value to the first bytes of a buffer.
ghost use Rattle.network_messages_c.specs.Shared.{BeginsWith, packed_bytes};
ghost use Rattle.std.specs.Prelude.{◌≡◌, ◌≤◌, Ok, length};
ghost use Rattle.bitstream_io.specs.Callers.{AllAccepted, Error};
ghost use Rattle.bitstream_io.specs.SliceMut.{slice_bytes, slice_name};

use bitstream_io::{BitWrite, BitWriter, Endianness, Error, SliceMut, ToBitStream};

/// The result of a pack.
#[repr(C)]
#[derive(Clone, Copy)]
pub struct Packed {
    /// The status.
    pub status: i32,
    /// The number of bytes that were written; 0 after an error.
    pub written: usize,
}

/// Returns the result of a pack that writes nothing.
#[inline(always)]
pub(crate) fn refused(status: i32) -> Packed
    ensures { result ≡ record { status = status; written = 0 } }
{
    Packed { status, written: 0 }
}

/// Writes a value to the first bytes of a buffer that has room for it, and zeros up to a whole byte. Returns the target
/// that has written them.
#[inline(always)]
fn written<'a, E: Endianness, T: ToBitStream<Error = Error>>(
    value: &T,
    buffer: &'a mut [u8],
) -> SliceMut<'a>
    // The type's errors are the errors of the sink.
    requires same { (error own : Error) → T.becomes error own → own ≡ error }
    // The type has no errors of its own.
    requires plain { T.answers value.now ≡ Ok tt }
    requires accepted { AllAccepted (T.writes E.order value.now) 0 }
    requires room { packed_bytes (T.writes E.order value.now) ≤ length buffer.old }
    ensures name { slice_name result ≡ buffer.entry.ghost_name }
    ensures begins { BeginsWith E.order (T.writes E.order value.now) buffer.old (slice_bytes result) }
{
    let mut writer = BitWriter::<_, E>::over(buffer);
    match value.to_writer(&mut writer) {
        Ok(()) => match writer.byte_align() {
            Ok(()) => writer.into_writer(),
            Err(_) => unreachable!(),
        },
        Err(_) => unreachable!(),
    }
}

/// Writes a value to the first bytes of a buffer that has room for it, and zeros up to a whole byte.
#[inline(always)]
pub(crate) fn write_first<E: Endianness, T: ToBitStream<Error = Error>>(
    value: &T,
    buffer: &mut [u8],
)
    // The type's errors are the errors of the sink.
    requires same { (error own : Error) → T.becomes error own → own ≡ error }
    // The type has no errors of its own.
    requires plain { T.answers value.now ≡ Ok tt }
    requires accepted { AllAccepted (T.writes E.order value.now) 0 }
    requires room { packed_bytes (T.writes E.order value.now) ≤ length buffer.old }
    ensures { BeginsWith E.order (T.writes E.order value.now) buffer.old buffer.new }
{
    let _target = written::<E, T>(value, buffer);
}
