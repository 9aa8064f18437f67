//! Access to the queue of a writer.
ghost use Rattle.std.specs.Prelude.{◌≡◌, ◌<◌, ◌^◌, [], Some};

use super::BitWriter;
use bitstream_order::order::Endianness;
use bitstream_order::streams::growing::Growing;
use bitstream_order::streams::target::Target;
use std::alloc::Allocator;

impl<W: Target, E: Endianness> BitWriter<W, E> {
    ghost use Rattle.bitstream_stream.specs.Ways.{writer_stream};
    ghost use Rattle.bitstream_stream.specs.Writing.Writer.{queued_bits, queue_number, has_failed};

    /// Returns the stream, by shared reference.
    pub fn stream(&self) -> &W
        ensures { result.now ≡ writer_stream self.now }
    {
        self.port.stream()
    }

    /// Returns the number of queued bits.
    pub fn queued(&self) -> u32
        ensures bits { result ≡ queued_bits self.now }
        ensures few { result < 8 }
    {
        self.queued
    }

    /// Returns the queued bits as a number.
    pub fn queue(&self) -> u8
        ensures number { result ≡ queue_number self.now }
        ensures small { result < 2 ^ queued_bits self.now }
    {
        self.queue
    }

    /// Returns true if the writer has failed.
    pub fn failed(&self) -> bool
        ensures { result ≡ has_failed self.now }
    {
        self.failed
    }
}

impl<A: Allocator, E: Endianness> BitWriter<Growing<A>, E> {
    ghost use Rattle.bitstream_order.specs.Streaming.Growing.{growing_stream};
    ghost use Rattle.bitstream_stream.specs.Writing.Writer.{writer_state, new_writer_state};

    /// Removes all bits and bytes, even if the writer has failed. The writer is then like a new
    /// one. The vector keeps its memory.
    pub fn clear(&mut self)
        ensures { writer_state growing_stream self.new ≡ new_writer_state (Some []) [] }
    {
        // The earlier counts and failed requests are forgotten, too.
        self.port.restart();
        self.port.lend().clear();
        self.queue = 0;
        self.queued = 0;
        self.failed = false;
    }
}
