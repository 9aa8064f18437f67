//! The bytes and the number of bits that a writer to bytes in memory has written.
ghost use Rattle.std.specs.Prelude.{◌≡◌, ◌+◌, ◌-◌, ◌*◌, ◌<◌, ◌≤◌, ◌^◌, length};

use super::BitWriter;
use crate::capped::capped;
use bitstream_order::order::Endianness;
use bitstream_order::streams::slice_mut::SliceMut;

impl<'a, E: Endianness> BitWriter<SliceMut<'a>, E> {
    ghost use Rattle.bitstream_order.specs.Streaming.SliceMut.{slice_capacity, written_bytes};
    ghost use Rattle.bitstream_stream.specs.Ways.{writer_stream};
    ghost use Rattle.bitstream_stream.specs.Writing.Writer.{queued_bits};

    /// Returns the whole bytes that were written.
    pub fn written(&self) -> &[u8]
        ensures { result.now ≡ written_bytes (writer_stream self.now) }
    {
        self.port.stream().as_slice()
    }

    /// Returns the number of bits written, including the bits of the last, unfinished byte. Returns
    /// 2^64 - 1 if that number is greater. A writer that has failed has lost the bits of the last
    /// byte.
    pub fn bits_written(&self) -> u64
        // The result is at most the number of bits in the bytes written and in the queue.
        ensures most { result
            ≤ 8 * length (written_bytes (writer_stream self.now)) + queued_bits self.now }
        // If that number is below 2^64, it is the result.
        ensures exact { 8 * length (written_bytes (writer_stream self.now)) + queued_bits self.now < 2 ^ 64
            → result ≡ 8 * length (written_bytes (writer_stream self.now)) + queued_bits self.now }
    {
        capped(8 * self.written().len() as u128 + self.queued as u128)
    }

    /// Returns the number of free bytes. The bits of an unfinished byte will take one of these
    /// bytes.
    pub fn bytes_left(&self) -> usize
        ensures { result ≡ slice_capacity (writer_stream self.now)
            - length (written_bytes (writer_stream self.now)) }
    {
        self.port.stream().free()
    }
}
