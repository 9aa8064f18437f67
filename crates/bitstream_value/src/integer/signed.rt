//! Signed integers.
ghost use Rattle.std.specs.Prelude.{[], ◌∷◌, ◌<◌, ◌≤◌, IfOk};
ghost use Rattle.bitstream_order.specs.Moving.Gather.{result_map};
ghost use Rattle.bitstream_stream.specs.Reading.ReadTable.{signed_decoder, signed_vbr_decoder};
ghost use Rattle.bitstream_stream.specs.Reading.Reads.{Reads};
ghost use Rattle.bitstream_stream.specs.Writing.Sink.{WritesAll};
ghost use Rattle.bitstream_stream.specs.Writing.WriteTable.{signed, signed_vbr};
ghost use Rattle.bitstream_value.specs.Signed.{InSignedRange};

use crate::integer::{Integer, VBRInteger};
use bitstream_count::count::Count;
use bitstream_count::error::Error;
use bitstream_number::number::{SignedInteger, Width};
use bitstream_stream::read::BitRead;
use bitstream_stream::write::BitWrite;

/// Reads a signed number of `bits` bits, by one call.
#[inline(always)]
fn read_signed<S: SignedInteger, C: Count, R: BitRead>(reader: &mut R, bits: C) -> Result<S, Error>
    // Takes only `bits` bits and returns their number in two's complement, or returns an error.
    ensures reads { Reads R.source (signed_decoder R.source.order S.BITS_SIZE (C.number bits))
        reader.old (result_map S.integer result) reader.new }
    // A number that is returned lies from -2^(n-1) to 2^(n-1) - 1, for n bits.
    ensures fits { IfOk result (λ number. InSignedRange (C.number bits) (S.integer number)) }
{
    reader.read_signed_var(bits.bits())
}

/// Reads a signed number of `B::BITS` bits, by one call.
fn read_signed_fixed<B: Width, S: SignedInteger, R: BitRead>(reader: &mut R) -> Result<S, Error>
    requires some { 1 ≤ B.BITS }
    requires within { B.BITS ≤ S.BITS_SIZE }
    // Takes only `B::BITS` bits and returns their number in two's complement, or returns an error.
    ensures reads { Reads R.source (signed_decoder R.source.order S.BITS_SIZE B.BITS)
        reader.old (result_map S.integer result) reader.new }
    // A number that is returned lies from -2^(n-1) to 2^(n-1) - 1, for n bits.
    ensures fits { IfOk result (λ number. InSignedRange B.BITS (S.integer number)) }
{
    reader.read_signed::<B, S>()
}

/// Writes a signed number in `bits` bits, by one call.
#[inline(always)]
fn write_signed<S: SignedInteger, C: Count, W: BitWrite>(
    number: S,
    writer: &mut W,
    bits: C,
) -> Result<(), Error>
    ensures writes { WritesAll W.sink
        (signed W.sink.order S.BITS_SIZE (C.number bits) (S.integer number) ∷ [])
        writer.old result writer.new }
{
    writer.write_signed_var(bits.bits(), number)
}

/// Writes a signed number in `B::BITS` bits, by one call.
#[inline(always)]
fn write_signed_fixed<B: Width, S: SignedInteger, W: BitWrite>(
    number: S,
    writer: &mut W,
) -> Result<(), Error>
    requires some { 1 ≤ B.BITS }
    requires within { B.BITS ≤ S.BITS_SIZE }
    ensures writes { WritesAll W.sink
        (signed W.sink.order S.BITS_SIZE B.BITS (S.integer number) ∷ [])
        writer.old result writer.new }
{
    writer.write_signed::<B, S>(number)
}

/// Writes a signed number in groups of `F::BITS` bits, by one call.
fn write_signed_vbr<F: Width, S: SignedInteger, W: BitWrite>(
    number: S,
    writer: &mut W,
) -> Result<(), Error>
    requires some { 2 ≤ F.BITS }
    requires within { F.BITS < S.BITS_SIZE }
    ensures writes { WritesAll W.sink (signed_vbr W.sink.order F.BITS (S.integer number) ∷ [])
        writer.old result writer.new }
{
    writer.write_signed_vbr::<F, S>(number)
}

// From here on printed by `.ci/numbers`, from `tools/numbers/signed_integer` for each type.

impl Integer for i8 {
    ghost reads = { λ o n. signed_decoder o 8 n };

    ghost writes = { λ o n x. signed o 8 n x ∷ [] };

    ghost IsWidth = { λ n. (1 ≤ n) × (n ≤ 8) };

    ghost Fits = { λ n x. InSignedRange n x };

    fn read<B: Width, R: BitRead>(reader: &mut R) -> Result<i8, Error> {
        read_signed_fixed::<B, i8, R>(reader)
    }

    #[inline(always)]
    fn read_var<C: Count, R: BitRead>(reader: &mut R, bits: C) -> Result<i8, Error> {
        read_signed(reader, bits)
    }

    #[inline(always)]
    fn write<B: Width, W: BitWrite>(self, writer: &mut W) -> Result<(), Error> {
        write_signed_fixed::<B, i8, W>(self, writer)
    }

    #[inline(always)]
    fn write_var<C: Count, W: BitWrite>(self, writer: &mut W, bits: C) -> Result<(), Error> {
        write_signed(self, writer, bits)
    }
}

impl VBRInteger for i8 {
    ghost reads_vbr = { λ o field. signed_vbr_decoder o field 8 };

    ghost writes_vbr = { λ o field x. signed_vbr o field x ∷ [] };

    ghost IsFieldSize = { λ field. (2 ≤ field) × (field < 8) };

    fn read_vbr<F: Width, R: BitRead>(reader: &mut R) -> Result<i8, Error> {
        reader.read_signed_vbr::<F, i8>()
    }

    fn write_vbr<F: Width, W: BitWrite>(self, writer: &mut W) -> Result<(), Error> {
        write_signed_vbr::<F, i8, W>(self, writer)
    }
}

impl Integer for i16 {
    ghost reads = { λ o n. signed_decoder o 16 n };

    ghost writes = { λ o n x. signed o 16 n x ∷ [] };

    ghost IsWidth = { λ n. (1 ≤ n) × (n ≤ 16) };

    ghost Fits = { λ n x. InSignedRange n x };

    fn read<B: Width, R: BitRead>(reader: &mut R) -> Result<i16, Error> {
        read_signed_fixed::<B, i16, R>(reader)
    }

    #[inline(always)]
    fn read_var<C: Count, R: BitRead>(reader: &mut R, bits: C) -> Result<i16, Error> {
        read_signed(reader, bits)
    }

    #[inline(always)]
    fn write<B: Width, W: BitWrite>(self, writer: &mut W) -> Result<(), Error> {
        write_signed_fixed::<B, i16, W>(self, writer)
    }

    #[inline(always)]
    fn write_var<C: Count, W: BitWrite>(self, writer: &mut W, bits: C) -> Result<(), Error> {
        write_signed(self, writer, bits)
    }
}

impl VBRInteger for i16 {
    ghost reads_vbr = { λ o field. signed_vbr_decoder o field 16 };

    ghost writes_vbr = { λ o field x. signed_vbr o field x ∷ [] };

    ghost IsFieldSize = { λ field. (2 ≤ field) × (field < 16) };

    fn read_vbr<F: Width, R: BitRead>(reader: &mut R) -> Result<i16, Error> {
        reader.read_signed_vbr::<F, i16>()
    }

    fn write_vbr<F: Width, W: BitWrite>(self, writer: &mut W) -> Result<(), Error> {
        write_signed_vbr::<F, i16, W>(self, writer)
    }
}

impl Integer for i32 {
    ghost reads = { λ o n. signed_decoder o 32 n };

    ghost writes = { λ o n x. signed o 32 n x ∷ [] };

    ghost IsWidth = { λ n. (1 ≤ n) × (n ≤ 32) };

    ghost Fits = { λ n x. InSignedRange n x };

    fn read<B: Width, R: BitRead>(reader: &mut R) -> Result<i32, Error> {
        read_signed_fixed::<B, i32, R>(reader)
    }

    #[inline(always)]
    fn read_var<C: Count, R: BitRead>(reader: &mut R, bits: C) -> Result<i32, Error> {
        read_signed(reader, bits)
    }

    #[inline(always)]
    fn write<B: Width, W: BitWrite>(self, writer: &mut W) -> Result<(), Error> {
        write_signed_fixed::<B, i32, W>(self, writer)
    }

    #[inline(always)]
    fn write_var<C: Count, W: BitWrite>(self, writer: &mut W, bits: C) -> Result<(), Error> {
        write_signed(self, writer, bits)
    }
}

impl VBRInteger for i32 {
    ghost reads_vbr = { λ o field. signed_vbr_decoder o field 32 };

    ghost writes_vbr = { λ o field x. signed_vbr o field x ∷ [] };

    ghost IsFieldSize = { λ field. (2 ≤ field) × (field < 32) };

    fn read_vbr<F: Width, R: BitRead>(reader: &mut R) -> Result<i32, Error> {
        reader.read_signed_vbr::<F, i32>()
    }

    fn write_vbr<F: Width, W: BitWrite>(self, writer: &mut W) -> Result<(), Error> {
        write_signed_vbr::<F, i32, W>(self, writer)
    }
}

impl Integer for i64 {
    ghost reads = { λ o n. signed_decoder o 64 n };

    ghost writes = { λ o n x. signed o 64 n x ∷ [] };

    ghost IsWidth = { λ n. (1 ≤ n) × (n ≤ 64) };

    ghost Fits = { λ n x. InSignedRange n x };

    fn read<B: Width, R: BitRead>(reader: &mut R) -> Result<i64, Error> {
        read_signed_fixed::<B, i64, R>(reader)
    }

    #[inline(always)]
    fn read_var<C: Count, R: BitRead>(reader: &mut R, bits: C) -> Result<i64, Error> {
        read_signed(reader, bits)
    }

    #[inline(always)]
    fn write<B: Width, W: BitWrite>(self, writer: &mut W) -> Result<(), Error> {
        write_signed_fixed::<B, i64, W>(self, writer)
    }

    #[inline(always)]
    fn write_var<C: Count, W: BitWrite>(self, writer: &mut W, bits: C) -> Result<(), Error> {
        write_signed(self, writer, bits)
    }
}

impl VBRInteger for i64 {
    ghost reads_vbr = { λ o field. signed_vbr_decoder o field 64 };

    ghost writes_vbr = { λ o field x. signed_vbr o field x ∷ [] };

    ghost IsFieldSize = { λ field. (2 ≤ field) × (field < 64) };

    fn read_vbr<F: Width, R: BitRead>(reader: &mut R) -> Result<i64, Error> {
        reader.read_signed_vbr::<F, i64>()
    }

    fn write_vbr<F: Width, W: BitWrite>(self, writer: &mut W) -> Result<(), Error> {
        write_signed_vbr::<F, i64, W>(self, writer)
    }
}

impl Integer for i128 {
    ghost reads = { λ o n. signed_decoder o 128 n };

    ghost writes = { λ o n x. signed o 128 n x ∷ [] };

    ghost IsWidth = { λ n. (1 ≤ n) × (n ≤ 128) };

    ghost Fits = { λ n x. InSignedRange n x };

    fn read<B: Width, R: BitRead>(reader: &mut R) -> Result<i128, Error> {
        read_signed_fixed::<B, i128, R>(reader)
    }

    #[inline(always)]
    fn read_var<C: Count, R: BitRead>(reader: &mut R, bits: C) -> Result<i128, Error> {
        read_signed(reader, bits)
    }

    #[inline(always)]
    fn write<B: Width, W: BitWrite>(self, writer: &mut W) -> Result<(), Error> {
        write_signed_fixed::<B, i128, W>(self, writer)
    }

    #[inline(always)]
    fn write_var<C: Count, W: BitWrite>(self, writer: &mut W, bits: C) -> Result<(), Error> {
        write_signed(self, writer, bits)
    }
}

impl VBRInteger for i128 {
    ghost reads_vbr = { λ o field. signed_vbr_decoder o field 128 };

    ghost writes_vbr = { λ o field x. signed_vbr o field x ∷ [] };

    ghost IsFieldSize = { λ field. (2 ≤ field) × (field < 128) };

    fn read_vbr<F: Width, R: BitRead>(reader: &mut R) -> Result<i128, Error> {
        reader.read_signed_vbr::<F, i128>()
    }

    fn write_vbr<F: Width, W: BitWrite>(self, writer: &mut W) -> Result<(), Error> {
        write_signed_vbr::<F, i128, W>(self, writer)
    }
}
