//! Unsigned integers.
ghost use Rattle.std.specs.Prelude.{[], ◌∷◌, ◌^◌, ◌<◌, ◌≤◌, IfOk};
ghost use Rattle.bitstream_order.specs.Moving.Gather.{result_map};
ghost use Rattle.bitstream_stream.specs.Reading.ReadTable.{unsigned_decoder, vbr_decoder};
ghost use Rattle.bitstream_stream.specs.Reading.Reads.{Reads};
ghost use Rattle.bitstream_stream.specs.Writing.Sink.{WritesAll};
ghost use Rattle.bitstream_stream.specs.Writing.WriteTable.{unsigned, vbr};

use crate::integer::{Integer, VBRInteger};
use bitstream_count::count::Count;
use bitstream_count::error::Error;
use bitstream_number::number::{UnsignedInteger, Width};
use bitstream_stream::read::BitRead;
use bitstream_stream::write::BitWrite;

/// Reads a number of `bits` bits, by one call.
#[inline(always)]
fn read_number<U: UnsignedInteger, C: Count, R: BitRead>(
    reader: &mut R,
    bits: C,
) -> Result<U, Error>
    // Takes only `bits` bits and returns their number, or returns an error.
    ensures reads { Reads R.source (unsigned_decoder R.source.order U.BITS_SIZE (C.number bits))
        reader.old (result_map U.value result) reader.new }
    ensures fits { IfOk result (λ number. U.value number < 2 ^ C.number bits) }
{
    reader.read_unsigned_counted(bits)
}

/// Reads a number of `B::BITS` bits, by one call.
fn read_number_fixed<B: Width, U: UnsignedInteger, R: BitRead>(reader: &mut R) -> Result<U, Error>
    requires { B.BITS ≤ U.BITS_SIZE }
    // Takes only `B::BITS` bits and returns their number, or returns an error.
    ensures reads { Reads R.source (unsigned_decoder R.source.order U.BITS_SIZE B.BITS)
        reader.old (result_map U.value result) reader.new }
    ensures fits { IfOk result (λ number. U.value number < 2 ^ B.BITS) }
{
    reader.read_unsigned::<B, U>()
}

/// Writes a number in `bits` bits, by one call.
#[inline(always)]
pub(crate) fn write_number<U: UnsignedInteger, C: Count, W: BitWrite>(
    number: U,
    writer: &mut W,
    bits: C,
) -> Result<(), Error>
    ensures writes { WritesAll W.sink
        (unsigned W.sink.order U.BITS_SIZE (C.number bits) (U.value number) ∷ [])
        writer.old result writer.new }
{
    writer.write_unsigned_counted(bits, number)
}

/// Writes a number in `B::BITS` bits, by one call.
#[inline(always)]
pub(crate) fn write_number_fixed<B: Width, U: UnsignedInteger, W: BitWrite>(
    number: U,
    writer: &mut W,
) -> Result<(), Error>
    requires { B.BITS ≤ U.BITS_SIZE }
    ensures writes { WritesAll W.sink
        (unsigned W.sink.order U.BITS_SIZE B.BITS (U.value number) ∷ [])
        writer.old result writer.new }
{
    writer.write_unsigned::<B, U>(number)
}

/// Writes a number in groups of `F::BITS` bits, by one call.
pub(crate) fn write_number_vbr<F: Width, U: UnsignedInteger, W: BitWrite>(
    number: U,
    writer: &mut W,
) -> Result<(), Error>
    requires some { 2 ≤ F.BITS }
    requires within { F.BITS < U.BITS_SIZE }
    ensures writes { WritesAll W.sink (vbr W.sink.order F.BITS (U.value number) ∷ [])
        writer.old result writer.new }
{
    writer.write_unsigned_vbr::<F, U>(number)
}

// From here on printed by `.ci/numbers`, from `tools/numbers/unsigned_integer` for each type.

impl Integer for u8 {
    ghost reads = { λ o n. unsigned_decoder o 8 n };

    ghost writes = { λ o n v. unsigned o 8 n v ∷ [] };

    ghost IsWidth = { λ n. n ≤ 8 };

    ghost Fits = { λ n v. v < 2 ^ n };

    fn read<B: Width, R: BitRead>(reader: &mut R) -> Result<u8, Error> {
        read_number_fixed::<B, u8, R>(reader)
    }

    #[inline(always)]
    fn read_var<C: Count, R: BitRead>(reader: &mut R, bits: C) -> Result<u8, Error> {
        read_number(reader, bits)
    }

    #[inline(always)]
    fn write<B: Width, W: BitWrite>(self, writer: &mut W) -> Result<(), Error> {
        write_number_fixed::<B, u8, W>(self, writer)
    }

    #[inline(always)]
    fn write_var<C: Count, W: BitWrite>(self, writer: &mut W, bits: C) -> Result<(), Error> {
        write_number(self, writer, bits)
    }
}

impl VBRInteger for u8 {
    ghost reads_vbr = { λ o field. vbr_decoder o field 8 (2 ^ 8) };

    ghost writes_vbr = { λ o field v. vbr o field v ∷ [] };

    ghost IsFieldSize = { λ field. (2 ≤ field) × (field < 8) };

    fn read_vbr<F: Width, R: BitRead>(reader: &mut R) -> Result<u8, Error> {
        reader.read_unsigned_vbr::<F, u8>()
    }

    fn write_vbr<F: Width, W: BitWrite>(self, writer: &mut W) -> Result<(), Error> {
        write_number_vbr::<F, u8, W>(self, writer)
    }
}

impl Integer for u16 {
    ghost reads = { λ o n. unsigned_decoder o 16 n };

    ghost writes = { λ o n v. unsigned o 16 n v ∷ [] };

    ghost IsWidth = { λ n. n ≤ 16 };

    ghost Fits = { λ n v. v < 2 ^ n };

    fn read<B: Width, R: BitRead>(reader: &mut R) -> Result<u16, Error> {
        read_number_fixed::<B, u16, R>(reader)
    }

    #[inline(always)]
    fn read_var<C: Count, R: BitRead>(reader: &mut R, bits: C) -> Result<u16, Error> {
        read_number(reader, bits)
    }

    #[inline(always)]
    fn write<B: Width, W: BitWrite>(self, writer: &mut W) -> Result<(), Error> {
        write_number_fixed::<B, u16, W>(self, writer)
    }

    #[inline(always)]
    fn write_var<C: Count, W: BitWrite>(self, writer: &mut W, bits: C) -> Result<(), Error> {
        write_number(self, writer, bits)
    }
}

impl VBRInteger for u16 {
    ghost reads_vbr = { λ o field. vbr_decoder o field 16 (2 ^ 16) };

    ghost writes_vbr = { λ o field v. vbr o field v ∷ [] };

    ghost IsFieldSize = { λ field. (2 ≤ field) × (field < 16) };

    fn read_vbr<F: Width, R: BitRead>(reader: &mut R) -> Result<u16, Error> {
        reader.read_unsigned_vbr::<F, u16>()
    }

    fn write_vbr<F: Width, W: BitWrite>(self, writer: &mut W) -> Result<(), Error> {
        write_number_vbr::<F, u16, W>(self, writer)
    }
}

impl Integer for u32 {
    ghost reads = { λ o n. unsigned_decoder o 32 n };

    ghost writes = { λ o n v. unsigned o 32 n v ∷ [] };

    ghost IsWidth = { λ n. n ≤ 32 };

    ghost Fits = { λ n v. v < 2 ^ n };

    fn read<B: Width, R: BitRead>(reader: &mut R) -> Result<u32, Error> {
        read_number_fixed::<B, u32, R>(reader)
    }

    #[inline(always)]
    fn read_var<C: Count, R: BitRead>(reader: &mut R, bits: C) -> Result<u32, Error> {
        read_number(reader, bits)
    }

    #[inline(always)]
    fn write<B: Width, W: BitWrite>(self, writer: &mut W) -> Result<(), Error> {
        write_number_fixed::<B, u32, W>(self, writer)
    }

    #[inline(always)]
    fn write_var<C: Count, W: BitWrite>(self, writer: &mut W, bits: C) -> Result<(), Error> {
        write_number(self, writer, bits)
    }
}

impl VBRInteger for u32 {
    ghost reads_vbr = { λ o field. vbr_decoder o field 32 (2 ^ 32) };

    ghost writes_vbr = { λ o field v. vbr o field v ∷ [] };

    ghost IsFieldSize = { λ field. (2 ≤ field) × (field < 32) };

    fn read_vbr<F: Width, R: BitRead>(reader: &mut R) -> Result<u32, Error> {
        reader.read_unsigned_vbr::<F, u32>()
    }

    fn write_vbr<F: Width, W: BitWrite>(self, writer: &mut W) -> Result<(), Error> {
        write_number_vbr::<F, u32, W>(self, writer)
    }
}

impl Integer for u64 {
    ghost reads = { λ o n. unsigned_decoder o 64 n };

    ghost writes = { λ o n v. unsigned o 64 n v ∷ [] };

    ghost IsWidth = { λ n. n ≤ 64 };

    ghost Fits = { λ n v. v < 2 ^ n };

    fn read<B: Width, R: BitRead>(reader: &mut R) -> Result<u64, Error> {
        read_number_fixed::<B, u64, R>(reader)
    }

    #[inline(always)]
    fn read_var<C: Count, R: BitRead>(reader: &mut R, bits: C) -> Result<u64, Error> {
        read_number(reader, bits)
    }

    #[inline(always)]
    fn write<B: Width, W: BitWrite>(self, writer: &mut W) -> Result<(), Error> {
        write_number_fixed::<B, u64, W>(self, writer)
    }

    #[inline(always)]
    fn write_var<C: Count, W: BitWrite>(self, writer: &mut W, bits: C) -> Result<(), Error> {
        write_number(self, writer, bits)
    }
}

impl VBRInteger for u64 {
    ghost reads_vbr = { λ o field. vbr_decoder o field 64 (2 ^ 64) };

    ghost writes_vbr = { λ o field v. vbr o field v ∷ [] };

    ghost IsFieldSize = { λ field. (2 ≤ field) × (field < 64) };

    fn read_vbr<F: Width, R: BitRead>(reader: &mut R) -> Result<u64, Error> {
        reader.read_unsigned_vbr::<F, u64>()
    }

    fn write_vbr<F: Width, W: BitWrite>(self, writer: &mut W) -> Result<(), Error> {
        write_number_vbr::<F, u64, W>(self, writer)
    }
}

impl Integer for u128 {
    ghost reads = { λ o n. unsigned_decoder o 128 n };

    ghost writes = { λ o n v. unsigned o 128 n v ∷ [] };

    ghost IsWidth = { λ n. n ≤ 128 };

    ghost Fits = { λ n v. v < 2 ^ n };

    fn read<B: Width, R: BitRead>(reader: &mut R) -> Result<u128, Error> {
        read_number_fixed::<B, u128, R>(reader)
    }

    #[inline(always)]
    fn read_var<C: Count, R: BitRead>(reader: &mut R, bits: C) -> Result<u128, Error> {
        read_number(reader, bits)
    }

    #[inline(always)]
    fn write<B: Width, W: BitWrite>(self, writer: &mut W) -> Result<(), Error> {
        write_number_fixed::<B, u128, W>(self, writer)
    }

    #[inline(always)]
    fn write_var<C: Count, W: BitWrite>(self, writer: &mut W, bits: C) -> Result<(), Error> {
        write_number(self, writer, bits)
    }
}

impl VBRInteger for u128 {
    ghost reads_vbr = { λ o field. vbr_decoder o field 128 (2 ^ 128) };

    ghost writes_vbr = { λ o field v. vbr o field v ∷ [] };

    ghost IsFieldSize = { λ field. (2 ≤ field) × (field < 128) };

    fn read_vbr<F: Width, R: BitRead>(reader: &mut R) -> Result<u128, Error> {
        reader.read_unsigned_vbr::<F, u128>()
    }

    fn write_vbr<F: Width, W: BitWrite>(self, writer: &mut W) -> Result<(), Error> {
        write_number_vbr::<F, u128, W>(self, writer)
    }
}
