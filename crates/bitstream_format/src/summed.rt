//! The checksum of lines of a format. The lines are written to a writer that keeps no byte, and a checksum takes each
//! byte when it is complete. Code printed by `./format` calls these functions.
ghost use Rattle.std.specs.Prelude.{◌≡◌, ℕ, ◌<◌, Bool, false, List, [], Some, slice_index};
ghost use Rattle.bitstream_stream.specs.Writing.Carries.{Carries};
ghost use Rattle.bitstream_stream.specs.Writing.Writer.{has_failed, new_writer_state, writer_state};
ghost use Rattle.bitstream_format.specs.Summed.{whole_bytes};

use crate::checksums::Checksum;
use crate::summed::taken::TakenBytes;
use bitstream_io::{BitWrite, BitWriter, Endianness, Target};
use std::io;

pub mod taken;

/// A target that keeps no byte: a checksum takes each byte. No request fails.
#[derive(Drop)]
pub struct Summing<C: Checksum> {
    sum: C,
    taken: TakenBytes,
    ghost is: { C.state sum ≡ C.after taken.list },
    ghost bytes: { (k : ℕ) → slice_index taken.list k < 256 },
}

impl<C: Checksum + Drop> Target for Summing<C> {
    ghost stream = { record {
      contents = λ it. Some it.taken.list;
      references = λ _. [];
      refuses = λ _ _ _ _. ⊥;
      flushes = λ _ _. Unit {0};
    } };

    fn write_all(&mut self, bytes: &[u8]) -> io::Result<()> {
        self.sum.take(bytes);
        self.taken.append(bytes);
        Ok(())
    }

    fn flush(&mut self) -> io::Result<()> {
        Ok(())
    }
}

/// Returns a new writer that keeps no byte: a checksum takes each byte.
pub fn summing_writer<E: Endianness, C: Checksum + Drop>() -> BitWriter<Summing<C>, E>
    ensures { writer_state ⟦<Summing<C> as Target>⟧.stream result ≡ new_writer_state (Some []) [] }
{
    BitWriter::new(Summing {
        sum: C::start(),
        taken: TakenBytes::new(),
    })
}

/// Returns the checksum of all bits that were written, with zeros up to a whole byte.
///
/// # Examples
///
/// ```
/// use bitstream_format::checksums::Crc32Mpeg;
/// use bitstream_format::summed::{sum_of, summing_writer};
/// use bitstream_io::{BE, BitWrite};
///
/// let mut writer = summing_writer::<BE, Crc32Mpeg>();
/// writer.write_unsigned_var(4, 3u8)?;
/// writer.write_unsigned_var(4, 1u8)?;
/// writer.write_bytes(b"23456789")?;
/// assert_eq!(rt; sum_of(writer), 0x0376_e6e7);
/// ```
pub fn sum_of<E: Endianness, C: Checksum + Drop>(writer: BitWriter<Summing<C>, E>) -> u64
    ensures { (x : List Bool) → has_failed writer ≡ false
        → Carries E.order (new_writer_state (Some []) []) x (writer_state ⟦<Summing<C> as Target>⟧.stream writer)
        → result ≡ C.sum (whole_bytes E.order x) }
{
    let mut writer = writer;
    match writer.byte_align() {
        Ok(()) => writer.into_writer().sum.number(),
        Err(_) => 0,
    }
}
