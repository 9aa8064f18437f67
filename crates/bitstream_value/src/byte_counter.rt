//! A counter of written bytes.
ghost use Rattle.std.specs.Prelude.{◌≡◌, ℕ, ◌≤◌, List, length};
ghost use Rattle.bitstream_sink.specs.Counter.{Counts};

use bitstream_count::error::Error;
use bitstream_number::number::Primitive;
use bitstream_order::order::{BigEndian, Endianness};
use bitstream_sink::counter::{Counter, Overflowed};
use bitstream_stream::bytes::byte_write::ByteWrite;

/// A sink that counts the bytes written to it, and keeps none of them. If the sum is above N's
/// greatest value, a call returns `CounterOverflow` and adds nothing.
#[derive(Drop)]
pub(crate) struct BytesWritten<N: Counter> {
    count: N,
    ghost within: { N.value count ≤ N.greatest },
}

/// Converts a `usize` to N.
///
/// # Errors
///
/// `Overflowed` if the number is above the greatest number of N.
fn value_of<N: Counter>(number: usize) -> Result<N, Overflowed>
    ensures { Counts N.value N.greatest number result }
{
    N::try_from(number).ok().ok_or(Overflowed)
}

impl<N: Counter> BytesWritten<N> {
    ghost use Rattle.bitstream_stream.specs.WholeBytes.ByteSink.{ByteWrites};

    /// Returns a counter to which nothing was written.
    pub(crate) fn new() -> BytesWritten<N>
        ensures { ⟦<BytesWritten<N> as ByteWrite>⟧.sink.len result ≡ 0 }
    {
        BytesWritten {
            count: N::default(),
        }
    }

    /// Returns the number of bytes that were written.
    pub(crate) fn into_written(self) -> N
        ensures { N.value result ≡ ⟦<BytesWritten<N> as ByteWrite>⟧.sink.len self }
    {
        self.count
    }

    /// Counts `bytes` bytes.
    ///
    /// # Errors
    ///
    /// `CounterOverflow` if the sum is above the greatest number of N. If so, nothing is added.
    fn add(&mut self, bytes: usize) -> Result<(), Error>
        ensures { (buffer : List ℕ) → length buffer ≡ bytes
            → ByteWrites ⟦<BytesWritten<N> as ByteWrite>⟧.sink buffer self.old result self.new }
    {
        let bytes = value_of::<N>(bytes)?;
        self.count.checked_add_assign(bytes)?;
        Ok(())
    }
}

impl<N: Counter> ByteWrite for BytesWritten<N> {
    ghost use Rattle.bitstream_value.specs.ByteTypes.{byte_counter_sink};

    ghost sink = { byte_counter_sink (λ counter. N.value counter.count) N.greatest
        (λ counter. counter.within) };

    fn write<V: Primitive>(&mut self, value: V) -> Result<(), Error> {
        self.write_as::<BigEndian, V>(value)
    }

    fn write_as<F: Endianness, V: Primitive>(&mut self, value: V) -> Result<(), Error> {
        let bytes = F::value_to_bytes(value);
        self.write_bytes(V::as_bytes(&bytes))
    }

    fn write_bytes(&mut self, bytes: &[u8]) -> Result<(), Error> {
        self.add(bytes.len())
    }

    fn pad(&mut self, bytes: u32) -> Result<(), Error> {
        self.add(bytes as usize)
    }
}
