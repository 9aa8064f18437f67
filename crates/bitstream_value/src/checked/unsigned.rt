//! Checked values of unsigned types.
ghost use Rattle.std.specs.Prelude.{pos};
ghost use Rattle.bitstream_number.specs.Word.{word as word_of};
ghost use Rattle.bitstream_value.specs.Checked.{checked_decoder};

use crate::checked::{Checkable, CheckablePrimitive, keep};
use bitstream_count::count::{
    BitCount, CheckedUnsigned, CheckedUnsignedFixed, Count, FixedBitCount,
};
use bitstream_count::error::Error;
use bitstream_number::number::UnsignedInteger;
use bitstream_stream::read::BitRead;
use bitstream_stream::write::BitWrite;

impl<const MAX: u32, U: UnsignedInteger> Checkable for CheckedUnsigned<MAX, U> {
    ghost word = { λ o c. word_of o c.0 (U.value c.1) };

    #[inline(always)]
    fn write<W: BitWrite>(&self, writer: &mut W) -> Result<(), Error> {
        let (count, value) = self.into_count_value();
        writer.write_unsigned_counted(count, value)
    }

    #[inline(always)]
    fn written_bits(&self) -> u32 {
        let (count, _) = self.into_count_value();
        count.bits()
    }
}

impl<const MAX: u32, U: UnsignedInteger> CheckablePrimitive for CheckedUnsigned<MAX, U> {
    type CountType = BitCount<MAX>;

    ghost counted = { λ c. (c.0, pos (U.value c.1)) };

    ghost reads = { λ o n. checked_decoder n o U.BITS_SIZE n };

    #[inline(always)]
    fn read<R: BitRead>(
        reader: &mut R,
        count: BitCount<MAX>,
    ) -> Result<CheckedUnsigned<MAX, U>, Error> {
        keep(count, reader.read_unsigned_counted(count))
    }
}

impl<const BITS: u32, U: UnsignedInteger> Checkable for CheckedUnsignedFixed<BITS, U> {
    ghost word = { λ o c. word_of o BITS (U.value c.1) };

    #[inline(always)]
    fn write<W: BitWrite>(&self, writer: &mut W) -> Result<(), Error> {
        writer.write_unsigned_var(BITS, self.into_value())
    }

    #[inline(always)]
    fn written_bits(&self) -> u32 {
        BITS
    }
}

impl<const BITS: u32, U: UnsignedInteger> CheckablePrimitive for CheckedUnsignedFixed<BITS, U> {
    type CountType = FixedBitCount<BITS>;

    ghost counted = { λ c. (c.0, pos (U.value c.1)) };

    ghost reads = { λ o count. checked_decoder count o U.BITS_SIZE BITS };

    #[inline(always)]
    fn read<R: BitRead>(
        reader: &mut R,
        count: FixedBitCount<BITS>,
    ) -> Result<CheckedUnsignedFixed<BITS, U>, Error> {
        keep(count, reader.read_unsigned_var(BITS))
    }
}
