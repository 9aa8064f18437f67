//! `NonZero` types, and `Option`s of them.
ghost use Rattle.std.specs.Prelude.{◌≡◌, ℕ, ◌+◌, ◌-◌, ◌^◌, ◌<◌, ◌≤◌, [], ◌∷◌, MatchOption, IfOk};
ghost use Rattle.std.specs.Int.NonZero.{non_zero_u8_get, non_zero_u16_get, non_zero_u32_get, non_zero_u64_get, non_zero_u128_get};
ghost use Rattle.std.proofs.Common.{sym, arith};
ghost use Rattle.bitstream_stream.specs.Reading.Reads.{Reads};
ghost use Rattle.bitstream_stream.specs.Writing.Sink.{WritesAll};
ghost use Rattle.bitstream_stream.specs.Writing.WriteTable.{unsigned, vbr};
ghost use Rattle.bitstream_value.specs.NonZero.{non_zero_decoder, non_zero, non_zero_vbr_decoder, option_decoder, option_vbr_decoder, number_or_zero, made-same};

use crate::integer::unsigned::{write_number, write_number_fixed, write_number_vbr};
use crate::integer::{Integer, VBRInteger};
use crate::refuse::{refuse_read, refuse_write};
use bitstream_count::count::Count;
use bitstream_count::error::Error;
use bitstream_number::number::{Numeric, UnsignedInteger, Width};
use bitstream_stream::read::BitRead;
use bitstream_stream::write::BitWrite;
use std::num::NonZero;

/// A `NonZero` of an unsigned type.
pub trait NonZeroInteger: Copy {
    /// The unsigned type.
    type Base: UnsignedInteger;

    // The number of a value, and the value of a number `n + 1`.
    ghost number: { Self → ℕ };

    ghost after: { ℕ → Self };

    /// Returns the `NonZero` with this number, or `None` for 0.
    #[inline(always)]
    fn of(base: Self::Base) -> Option<Self>
        ensures { MatchOption result (Self.Base.value base ≡ 0)
            (λ x. number x ≡ Self.Base.value base) };

    /// Returns the `NonZero` whose number is `base + 1`.
    #[inline(always)]
    fn next(base: Self::Base) -> Self
        requires { Self.Base.value base + 1 < 2 ^ Self.Base.BITS_SIZE }
        ensures { number result ≡ Self.Base.value base + 1 };

    /// Returns the number.
    #[inline(always)]
    fn base(self) -> Self::Base
        ensures value { Self.Base.value result ≡ number self }
        ensures some { 0 < Self.Base.value result };

    ghost some_law: { (x : Self) → 0 < number x };

    ghost after_law: { (x : Self) (n : ℕ) → number x ≡ n + 1 → after n ≡ x };
}

/// Reads a `NonZero`, as its number minus 1.
#[inline(always)]
fn read_non_zero<N: NonZeroInteger, C: Count, R: BitRead>(
    reader: &mut R,
    bits: C,
) -> Result<N, Error>
    // Takes only `bits` bits and returns their number plus 1, or returns an error.
    ensures reads { Reads R.source
        (non_zero_decoder N.after R.source.order N.Base.BITS_SIZE (C.number bits))
        reader.old result reader.new }
    // A value that is returned is at most 2^`bits`.
    ensures fits { IfOk result (λ x. N.number x ≤ 2 ^ C.number bits) }
{
    if bits.bits() < N::Base::BITS_SIZE {
        let base: N::Base = reader.read_unsigned_counted(bits)?;
        Ok(N::next(base))
    } else {
        refuse_read(reader, Error::NonZeroWidth)
    }
}

/// Writes a `NonZero`, as its number minus 1.
#[inline(always)]
fn write_non_zero<N: NonZeroInteger, C: Count, W: BitWrite>(
    value: N,
    writer: &mut W,
    bits: C,
) -> Result<(), Error>
    ensures writes { WritesAll W.sink
        (non_zero W.sink.order N.Base.BITS_SIZE (C.number bits) (N.number value) ∷ [])
        writer.old result writer.new }
{
    if bits.bits() < N::Base::BITS_SIZE {
        write_number(value.base() - N::Base::ONE, writer, bits)
    } else {
        refuse_write(writer, Error::NonZeroWidth)
    }
}

/// Reads a `NonZero` of `B::BITS` bits, as its number minus 1.
fn read_non_zero_fixed<B: Width, N: NonZeroInteger, R: BitRead>(reader: &mut R) -> Result<N, Error>
    requires { B.BITS < N.Base.BITS_SIZE }
    // Takes only `B::BITS` bits and returns their number plus 1, or returns an error.
    ensures reads { Reads R.source
        (non_zero_decoder N.after R.source.order N.Base.BITS_SIZE B.BITS)
        reader.old result reader.new }
    // A value that is returned is at most 2^`B::BITS`.
    ensures fits { IfOk result (λ x. N.number x ≤ 2 ^ B.BITS) }
{
    let base = reader.read_unsigned::<B, N::Base>()?;
    Ok(N::next(base))
}

/// Writes a `NonZero` in `B::BITS` bits, as its number minus 1.
#[inline(always)]
fn write_non_zero_fixed<B: Width, N: NonZeroInteger, W: BitWrite>(
    value: N,
    writer: &mut W,
) -> Result<(), Error>
    requires { B.BITS < N.Base.BITS_SIZE }
    ensures writes { WritesAll W.sink
        (non_zero W.sink.order N.Base.BITS_SIZE B.BITS (N.number value) ∷ [])
        writer.old result writer.new }
{
    write_number_fixed::<B, N::Base, W>(value.base() - N::Base::ONE, writer)
}

/// Reads a `NonZero` in groups, as its number minus 1.
fn read_non_zero_vbr<F: Width, N: NonZeroInteger, R: BitRead>(reader: &mut R) -> Result<N, Error>
    requires some { 2 ≤ F.BITS }
    requires within { F.BITS < N.Base.BITS_SIZE }
    ensures reads { Reads R.source
        (non_zero_vbr_decoder N.after R.source.order F.BITS N.Base.BITS_SIZE)
        reader.old result reader.new }
{
    let base = reader.read_unsigned_vbr::<F, N::Base>()?;
    if base == N::Base::ALL {
        return Err(Error::VariableWidthOverflow);
    }
    base.known();
    Ok(N::next(base))
}

/// Writes a `NonZero` in groups, as its number minus 1.
fn write_non_zero_vbr<F: Width, N: NonZeroInteger, W: BitWrite>(
    value: N,
    writer: &mut W,
) -> Result<(), Error>
    requires some { 2 ≤ F.BITS }
    requires within { F.BITS < N.Base.BITS_SIZE }
    ensures writes { WritesAll W.sink (vbr W.sink.order F.BITS (N.number value - 1) ∷ [])
        writer.old result writer.new }
{
    write_number_vbr::<F, N::Base, W>(value.base() - N::Base::ONE, writer)
}

/// Returns the number of a value, or 0 for `None`.
#[inline(always)]
fn base_or_zero<N: NonZeroInteger>(value: Option<N>) -> N::Base
    ensures { N.Base.value result ≡ number_or_zero N.number value }
{
    match value {
        Some(value) => value.base(),
        None => N::Base::ZERO,
    }
}

impl<N: NonZeroInteger> Integer for Option<N> {
    ghost reads = { λ o n. option_decoder N.after o N.Base.BITS_SIZE n };

    ghost writes = { λ o n x. unsigned o N.Base.BITS_SIZE n (number_or_zero N.number x) ∷ [] };

    ghost IsWidth = { λ n. n ≤ N.Base.BITS_SIZE };

    ghost Fits = { λ n x. number_or_zero N.number x < 2 ^ n };

    fn read<B: Width, R: BitRead>(reader: &mut R) -> Result<Option<N>, Error> {
        let base = reader.read_unsigned::<B, N::Base>()?;
        Ok(N::of(base))
    }

    #[inline(always)]
    fn read_var<C: Count, R: BitRead>(reader: &mut R, bits: C) -> Result<Option<N>, Error> {
        let base = reader.read_unsigned_counted(bits)?;
        Ok(N::of(base))
    }

    #[inline(always)]
    fn write<B: Width, W: BitWrite>(self, writer: &mut W) -> Result<(), Error> {
        write_number_fixed::<B, N::Base, W>(base_or_zero(self), writer)
    }

    #[inline(always)]
    fn write_var<C: Count, W: BitWrite>(self, writer: &mut W, bits: C) -> Result<(), Error> {
        write_number(base_or_zero(self), writer, bits)
    }
}

impl<N: NonZeroInteger> VBRInteger for Option<N> {
    ghost reads_vbr = { λ o field. option_vbr_decoder N.after o field N.Base.BITS_SIZE };

    ghost writes_vbr = { λ o field x. vbr o field (number_or_zero N.number x) ∷ [] };

    ghost IsFieldSize = { λ field. (2 ≤ field) × (field < N.Base.BITS_SIZE) };

    fn read_vbr<F: Width, R: BitRead>(reader: &mut R) -> Result<Option<N>, Error> {
        let base = reader.read_unsigned_vbr::<F, N::Base>()?;
        Ok(N::of(base))
    }

    fn write_vbr<F: Width, W: BitWrite>(self, writer: &mut W) -> Result<(), Error> {
        write_number_vbr::<F, N::Base, W>(base_or_zero(self), writer)
    }
}

// From here on printed by `.ci/numbers`, from `tools/numbers/non_zero_integer` for each type.

impl NonZeroInteger for NonZero<u8> {
    type Base = u8;

    ghost number = { non_zero_u8_get };

    ghost after = { λ n. record { value = n + 1; ok = omega arith } };

    #[inline(always)]
    fn of(base: u8) -> Option<NonZero<u8>> {
        NonZero::<u8>::new(base)
    }

    #[inline(always)]
    fn next(base: u8) -> NonZero<u8> {
        NonZero::<u8>::MIN.saturating_add(base)
    }

    #[inline(always)]
    fn base(self) -> u8 {
        self.get()
    }

    ghost some_law = { λ x. x.ok };

    ghost after_law = { λ x n e.
        made-same (λ k p. record { value = k; ok = p }) (n + 1) x.value _ x.ok (sym e) };
}

impl Integer for NonZero<u8> {
    ghost reads = { λ o n. non_zero_decoder ⟦<NonZero<u8> as NonZeroInteger>⟧.after o 8 n };

    ghost writes = { λ o n x. non_zero o 8 n (non_zero_u8_get x) ∷ [] };

    ghost IsWidth = { λ n. n < 8 };

    ghost Fits = { λ n x. non_zero_u8_get x ≤ 2 ^ n };

    fn read<B: Width, R: BitRead>(reader: &mut R) -> Result<NonZero<u8>, Error> {
        read_non_zero_fixed::<B, NonZero<u8>, R>(reader)
    }

    #[inline(always)]
    fn read_var<C: Count, R: BitRead>(reader: &mut R, bits: C) -> Result<NonZero<u8>, Error> {
        read_non_zero(reader, bits)
    }

    #[inline(always)]
    fn write<B: Width, W: BitWrite>(self, writer: &mut W) -> Result<(), Error> {
        write_non_zero_fixed::<B, NonZero<u8>, W>(self, writer)
    }

    #[inline(always)]
    fn write_var<C: Count, W: BitWrite>(self, writer: &mut W, bits: C) -> Result<(), Error> {
        write_non_zero(self, writer, bits)
    }
}

impl VBRInteger for NonZero<u8> {
    ghost reads_vbr = { λ o field.
        non_zero_vbr_decoder ⟦<NonZero<u8> as NonZeroInteger>⟧.after o field 8 };

    ghost writes_vbr = { λ o field x. vbr o field (non_zero_u8_get x - 1) ∷ [] };

    ghost IsFieldSize = { λ field. (2 ≤ field) × (field < 8) };

    fn read_vbr<F: Width, R: BitRead>(reader: &mut R) -> Result<NonZero<u8>, Error> {
        read_non_zero_vbr::<F, NonZero<u8>, R>(reader)
    }

    fn write_vbr<F: Width, W: BitWrite>(self, writer: &mut W) -> Result<(), Error> {
        write_non_zero_vbr::<F, NonZero<u8>, W>(self, writer)
    }
}

impl NonZeroInteger for NonZero<u16> {
    type Base = u16;

    ghost number = { non_zero_u16_get };

    ghost after = { λ n. record { value = n + 1; ok = omega arith } };

    #[inline(always)]
    fn of(base: u16) -> Option<NonZero<u16>> {
        NonZero::<u16>::new(base)
    }

    #[inline(always)]
    fn next(base: u16) -> NonZero<u16> {
        NonZero::<u16>::MIN.saturating_add(base)
    }

    #[inline(always)]
    fn base(self) -> u16 {
        self.get()
    }

    ghost some_law = { λ x. x.ok };

    ghost after_law = { λ x n e.
        made-same (λ k p. record { value = k; ok = p }) (n + 1) x.value _ x.ok (sym e) };
}

impl Integer for NonZero<u16> {
    ghost reads = { λ o n. non_zero_decoder ⟦<NonZero<u16> as NonZeroInteger>⟧.after o 16 n };

    ghost writes = { λ o n x. non_zero o 16 n (non_zero_u16_get x) ∷ [] };

    ghost IsWidth = { λ n. n < 16 };

    ghost Fits = { λ n x. non_zero_u16_get x ≤ 2 ^ n };

    fn read<B: Width, R: BitRead>(reader: &mut R) -> Result<NonZero<u16>, Error> {
        read_non_zero_fixed::<B, NonZero<u16>, R>(reader)
    }

    #[inline(always)]
    fn read_var<C: Count, R: BitRead>(reader: &mut R, bits: C) -> Result<NonZero<u16>, Error> {
        read_non_zero(reader, bits)
    }

    #[inline(always)]
    fn write<B: Width, W: BitWrite>(self, writer: &mut W) -> Result<(), Error> {
        write_non_zero_fixed::<B, NonZero<u16>, W>(self, writer)
    }

    #[inline(always)]
    fn write_var<C: Count, W: BitWrite>(self, writer: &mut W, bits: C) -> Result<(), Error> {
        write_non_zero(self, writer, bits)
    }
}

impl VBRInteger for NonZero<u16> {
    ghost reads_vbr = { λ o field.
        non_zero_vbr_decoder ⟦<NonZero<u16> as NonZeroInteger>⟧.after o field 16 };

    ghost writes_vbr = { λ o field x. vbr o field (non_zero_u16_get x - 1) ∷ [] };

    ghost IsFieldSize = { λ field. (2 ≤ field) × (field < 16) };

    fn read_vbr<F: Width, R: BitRead>(reader: &mut R) -> Result<NonZero<u16>, Error> {
        read_non_zero_vbr::<F, NonZero<u16>, R>(reader)
    }

    fn write_vbr<F: Width, W: BitWrite>(self, writer: &mut W) -> Result<(), Error> {
        write_non_zero_vbr::<F, NonZero<u16>, W>(self, writer)
    }
}

impl NonZeroInteger for NonZero<u32> {
    type Base = u32;

    ghost number = { non_zero_u32_get };

    ghost after = { λ n. record { value = n + 1; ok = omega arith } };

    #[inline(always)]
    fn of(base: u32) -> Option<NonZero<u32>> {
        NonZero::<u32>::new(base)
    }

    #[inline(always)]
    fn next(base: u32) -> NonZero<u32> {
        NonZero::<u32>::MIN.saturating_add(base)
    }

    #[inline(always)]
    fn base(self) -> u32 {
        self.get()
    }

    ghost some_law = { λ x. x.ok };

    ghost after_law = { λ x n e.
        made-same (λ k p. record { value = k; ok = p }) (n + 1) x.value _ x.ok (sym e) };
}

impl Integer for NonZero<u32> {
    ghost reads = { λ o n. non_zero_decoder ⟦<NonZero<u32> as NonZeroInteger>⟧.after o 32 n };

    ghost writes = { λ o n x. non_zero o 32 n (non_zero_u32_get x) ∷ [] };

    ghost IsWidth = { λ n. n < 32 };

    ghost Fits = { λ n x. non_zero_u32_get x ≤ 2 ^ n };

    fn read<B: Width, R: BitRead>(reader: &mut R) -> Result<NonZero<u32>, Error> {
        read_non_zero_fixed::<B, NonZero<u32>, R>(reader)
    }

    #[inline(always)]
    fn read_var<C: Count, R: BitRead>(reader: &mut R, bits: C) -> Result<NonZero<u32>, Error> {
        read_non_zero(reader, bits)
    }

    #[inline(always)]
    fn write<B: Width, W: BitWrite>(self, writer: &mut W) -> Result<(), Error> {
        write_non_zero_fixed::<B, NonZero<u32>, W>(self, writer)
    }

    #[inline(always)]
    fn write_var<C: Count, W: BitWrite>(self, writer: &mut W, bits: C) -> Result<(), Error> {
        write_non_zero(self, writer, bits)
    }
}

impl VBRInteger for NonZero<u32> {
    ghost reads_vbr = { λ o field.
        non_zero_vbr_decoder ⟦<NonZero<u32> as NonZeroInteger>⟧.after o field 32 };

    ghost writes_vbr = { λ o field x. vbr o field (non_zero_u32_get x - 1) ∷ [] };

    ghost IsFieldSize = { λ field. (2 ≤ field) × (field < 32) };

    fn read_vbr<F: Width, R: BitRead>(reader: &mut R) -> Result<NonZero<u32>, Error> {
        read_non_zero_vbr::<F, NonZero<u32>, R>(reader)
    }

    fn write_vbr<F: Width, W: BitWrite>(self, writer: &mut W) -> Result<(), Error> {
        write_non_zero_vbr::<F, NonZero<u32>, W>(self, writer)
    }
}

impl NonZeroInteger for NonZero<u64> {
    type Base = u64;

    ghost number = { non_zero_u64_get };

    ghost after = { λ n. record { value = n + 1; ok = omega arith } };

    #[inline(always)]
    fn of(base: u64) -> Option<NonZero<u64>> {
        NonZero::<u64>::new(base)
    }

    #[inline(always)]
    fn next(base: u64) -> NonZero<u64> {
        NonZero::<u64>::MIN.saturating_add(base)
    }

    #[inline(always)]
    fn base(self) -> u64 {
        self.get()
    }

    ghost some_law = { λ x. x.ok };

    ghost after_law = { λ x n e.
        made-same (λ k p. record { value = k; ok = p }) (n + 1) x.value _ x.ok (sym e) };
}

impl Integer for NonZero<u64> {
    ghost reads = { λ o n. non_zero_decoder ⟦<NonZero<u64> as NonZeroInteger>⟧.after o 64 n };

    ghost writes = { λ o n x. non_zero o 64 n (non_zero_u64_get x) ∷ [] };

    ghost IsWidth = { λ n. n < 64 };

    ghost Fits = { λ n x. non_zero_u64_get x ≤ 2 ^ n };

    fn read<B: Width, R: BitRead>(reader: &mut R) -> Result<NonZero<u64>, Error> {
        read_non_zero_fixed::<B, NonZero<u64>, R>(reader)
    }

    #[inline(always)]
    fn read_var<C: Count, R: BitRead>(reader: &mut R, bits: C) -> Result<NonZero<u64>, Error> {
        read_non_zero(reader, bits)
    }

    #[inline(always)]
    fn write<B: Width, W: BitWrite>(self, writer: &mut W) -> Result<(), Error> {
        write_non_zero_fixed::<B, NonZero<u64>, W>(self, writer)
    }

    #[inline(always)]
    fn write_var<C: Count, W: BitWrite>(self, writer: &mut W, bits: C) -> Result<(), Error> {
        write_non_zero(self, writer, bits)
    }
}

impl VBRInteger for NonZero<u64> {
    ghost reads_vbr = { λ o field.
        non_zero_vbr_decoder ⟦<NonZero<u64> as NonZeroInteger>⟧.after o field 64 };

    ghost writes_vbr = { λ o field x. vbr o field (non_zero_u64_get x - 1) ∷ [] };

    ghost IsFieldSize = { λ field. (2 ≤ field) × (field < 64) };

    fn read_vbr<F: Width, R: BitRead>(reader: &mut R) -> Result<NonZero<u64>, Error> {
        read_non_zero_vbr::<F, NonZero<u64>, R>(reader)
    }

    fn write_vbr<F: Width, W: BitWrite>(self, writer: &mut W) -> Result<(), Error> {
        write_non_zero_vbr::<F, NonZero<u64>, W>(self, writer)
    }
}

impl NonZeroInteger for NonZero<u128> {
    type Base = u128;

    ghost number = { non_zero_u128_get };

    ghost after = { λ n. record { value = n + 1; ok = omega arith } };

    #[inline(always)]
    fn of(base: u128) -> Option<NonZero<u128>> {
        NonZero::<u128>::new(base)
    }

    #[inline(always)]
    fn next(base: u128) -> NonZero<u128> {
        NonZero::<u128>::MIN.saturating_add(base)
    }

    #[inline(always)]
    fn base(self) -> u128 {
        self.get()
    }

    ghost some_law = { λ x. x.ok };

    ghost after_law = { λ x n e.
        made-same (λ k p. record { value = k; ok = p }) (n + 1) x.value _ x.ok (sym e) };
}

impl Integer for NonZero<u128> {
    ghost reads = { λ o n. non_zero_decoder ⟦<NonZero<u128> as NonZeroInteger>⟧.after o 128 n };

    ghost writes = { λ o n x. non_zero o 128 n (non_zero_u128_get x) ∷ [] };

    ghost IsWidth = { λ n. n < 128 };

    ghost Fits = { λ n x. non_zero_u128_get x ≤ 2 ^ n };

    fn read<B: Width, R: BitRead>(reader: &mut R) -> Result<NonZero<u128>, Error> {
        read_non_zero_fixed::<B, NonZero<u128>, R>(reader)
    }

    #[inline(always)]
    fn read_var<C: Count, R: BitRead>(reader: &mut R, bits: C) -> Result<NonZero<u128>, Error> {
        read_non_zero(reader, bits)
    }

    #[inline(always)]
    fn write<B: Width, W: BitWrite>(self, writer: &mut W) -> Result<(), Error> {
        write_non_zero_fixed::<B, NonZero<u128>, W>(self, writer)
    }

    #[inline(always)]
    fn write_var<C: Count, W: BitWrite>(self, writer: &mut W, bits: C) -> Result<(), Error> {
        write_non_zero(self, writer, bits)
    }
}

impl VBRInteger for NonZero<u128> {
    ghost reads_vbr = { λ o field.
        non_zero_vbr_decoder ⟦<NonZero<u128> as NonZeroInteger>⟧.after o field 128 };

    ghost writes_vbr = { λ o field x. vbr o field (non_zero_u128_get x - 1) ∷ [] };

    ghost IsFieldSize = { λ field. (2 ≤ field) × (field < 128) };

    fn read_vbr<F: Width, R: BitRead>(reader: &mut R) -> Result<NonZero<u128>, Error> {
        read_non_zero_vbr::<F, NonZero<u128>, R>(reader)
    }

    fn write_vbr<F: Width, W: BitWrite>(self, writer: &mut W) -> Result<(), Error> {
        write_non_zero_vbr::<F, NonZero<u128>, W>(self, writer)
    }
}
