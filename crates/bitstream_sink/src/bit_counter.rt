//! A counter of written bits.
ghost use Rattle.std.specs.Prelude.{◌≡◌, ℕ, ◌≤◌};

use crate::counter::Counter;
use crate::counter::values::{next_byte, value_of};
use bitstream_count::count::{Count, SignedCount};
use bitstream_count::error::Error;
use bitstream_number::number::{Primitive, SignedInteger, UnsignedInteger, Width};
use bitstream_order::order::Endianness;
use bitstream_stream::vbr::vbr_bits;
use bitstream_stream::width::{check, check_signed};
use bitstream_stream::write::BitWrite;
use std::marker::PhantomData;

/// Counts the bits written to it in the order E and keeps none of them, so that the length of a
/// value is known before the value is written. It does not allocate.
/// [`BitsWritten`](crate::written::BitsWritten) is a counter without a parameter for the order.
///
/// A call adds the length of its encoding in bits, in one addition. If the sum is above N's
/// greatest value, the call returns `CounterOverflow` and adds nothing. Errors of a width or a
/// value are returned first, as in a writer. An encoding has the same length in both orders of
/// bits.
///
/// # Examples
///
/// ```
/// use bitstream_io::{BE, BitCounter, BitWrite};
///
/// let mut counter = BitCounter::<u8, BE>::new();
/// counter.write_signed_var::<i8>(4, -3)?;
/// counter.write_bit(true)?;
/// assert_eq!(rt; counter.into_written(), 5);
/// ```
#[derive(Drop)]
pub struct BitCounter<N: Counter, E> {
    count: N,
    order: PhantomData<E>,
    ghost within: { N.value count ≤ N.greatest },
}

impl<N: Counter, E: Endianness> BitCounter<N, E> {
    ghost use Rattle.bitstream_sink.specs.Counting.{CountsWord};

    /// Returns a counter at 0 bits.
    pub fn new() -> BitCounter<N, E>
        ensures { ⟦<BitCounter<N, E> as BitWrite>⟧.sink.len result ≡ 0 }
    {
        BitCounter {
            count: N::default(),
            order: PhantomData,
        }
    }

    /// Returns the number of bits written.
    pub fn written(&self) -> N
        ensures { N.value result ≡ ⟦<BitCounter<N, E> as BitWrite>⟧.sink.len self.now }
    {
        self.count
    }

    /// Returns the number of bits written.
    pub fn into_written(self) -> N
        ensures { N.value result ≡ ⟦<BitCounter<N, E> as BitWrite>⟧.sink.len self }
    {
        self.count
    }

    /// Counts an encoding of `bits` bits.
    ///
    /// # Errors
    ///
    /// `CounterOverflow` if the sum is above the greatest number of N. If so, nothing is added.
    #[inline(always)]
    fn add(&mut self, bits: u128) -> Result<(), Error>
        ensures { CountsWord ⟦<BitCounter<N, E> as BitWrite>⟧.sink bits self.old result self.new }
    {
        let bits = value_of::<N>(bits)?;
        self.count.checked_add_assign(bits)?;
        Ok(())
    }
}

impl<N: Counter, E: Endianness> Default for BitCounter<N, E> {
    ghost is_default = { λ counter. ⟦<BitCounter<N, E> as BitWrite>⟧.sink.len counter ≡ 0 };

    fn default() -> BitCounter<N, E> {
        BitCounter::new()
    }
}

impl<N: Counter, E: Endianness> BitWrite for BitCounter<N, E> {
    ghost use Rattle.bitstream_sink.specs.Counting.{counter_sink};

    ghost sink = { counter_sink E.order (λ counter. N.value counter.count) N.greatest N.full
        (λ counter. counter.within) };

    #[inline(always)]
    fn write_unsigned_counted<C: Count, U: UnsignedInteger>(
        &mut self,
        count: C,
        value: U,
    ) -> Result<(), Error> {
        let bits = count.bits();
        check(bits, value)?;
        self.add(u128::from(bits))
    }

    #[inline(always)]
    fn write_signed_counted<C: SignedCount, S: SignedInteger>(
        &mut self,
        count: C,
        value: S,
    ) -> Result<(), Error> {
        let bits = count.bits();
        check_signed(bits, value)?;
        self.add(u128::from(bits))
    }

    #[inline(always)]
    fn write_from<V: Primitive>(&mut self, value: V) -> Result<(), Error> {
        self.write_as_from::<E, V>(value)
    }

    #[inline(always)]
    fn write_as_from<F: Endianness, V: Primitive>(&mut self, value: V) -> Result<(), Error> {
        let bytes = F::value_to_bytes(value);
        self.write_bytes(V::as_bytes(&bytes))
    }

    fn byte_aligned(&self) -> bool {
        self.count.byte_aligned()
    }

    fn has_room(&self, bits: u128) -> bool {
        let mut count = self.count;
        match value_of::<N>(bits) {
            Ok(bits) => count.checked_add_assign(bits).is_ok(),
            Err(_past) => false,
        }
    }

    #[inline(always)]
    fn write_unary<S: Width>(&mut self, value: u32) -> Result<(), Error> {
        self.add(u128::from(value) + 1)
    }

    #[inline(always)]
    fn write_bit(&mut self, _bit: bool) -> Result<(), Error> {
        self.add(1)
    }

    fn byte_align(&mut self) -> Result<(), Error> {
        self.count = next_byte(self.count)?;
        Ok(())
    }

    #[inline(always)]
    fn write_bytes(&mut self, bytes: &[u8]) -> Result<(), Error> {
        self.add(bytes.len() as u128 * 8)
    }

    #[inline(always)]
    fn pad(&mut self, bits: u32) -> Result<(), Error> {
        self.add(u128::from(bits))
    }

    fn write_unsigned_vbr<F: Width, U: UnsignedInteger>(&mut self, value: U) -> Result<(), Error> {
        self.add(u128::from(vbr_bits::<F, U>(value)))
    }
}
