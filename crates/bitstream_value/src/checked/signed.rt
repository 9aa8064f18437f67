//! Checked values of signed types.
ghost use Rattle.bitstream_number.specs.Word.{signed_word};
ghost use Rattle.bitstream_value.specs.Checked.{signed_checked_decoder};

use crate::checked::{Checkable, CheckablePrimitive, keep};
use bitstream_count::count::{
    CheckedSigned, CheckedSignedFixed, FixedSignedBitCount, SignedBitCount, SignedCount,
};
use bitstream_count::error::Error;
use bitstream_number::number::SignedInteger;
use bitstream_stream::read::BitRead;
use bitstream_stream::write::BitWrite;

impl<const MAX: u32, S: SignedInteger> Checkable for CheckedSigned<MAX, S> {
    ghost word = { λ o c. signed_word o c.0 (S.integer c.1) };

    #[inline(always)]
    fn write<W: BitWrite>(&self, writer: &mut W) -> Result<(), Error> {
        let (count, value) = self.into_count_value();
        writer.write_signed_var(count.bits(), value)
    }

    #[inline(always)]
    fn written_bits(&self) -> u32 {
        let (count, _) = self.into_count_value();
        count.bits()
    }
}

impl<const MAX: u32, S: SignedInteger> CheckablePrimitive for CheckedSigned<MAX, S> {
    type CountType = SignedBitCount<MAX>;

    ghost counted = { λ c. (c.0, S.integer c.1) };

    ghost reads = { λ o n. signed_checked_decoder n o S.BITS_SIZE n };

    #[inline(always)]
    fn read<R: BitRead>(
        reader: &mut R,
        count: SignedBitCount<MAX>,
    ) -> Result<CheckedSigned<MAX, S>, Error> {
        keep(count, reader.read_signed_counted(count))
    }
}

impl<const BITS: u32, S: SignedInteger> Checkable for CheckedSignedFixed<BITS, S> {
    ghost word = { λ o c. signed_word o BITS (S.integer c.1) };

    #[inline(always)]
    fn write<W: BitWrite>(&self, writer: &mut W) -> Result<(), Error> {
        let (count, value) = self.into_count_value();
        writer.write_signed_var(SignedBitCount::from(count).bits(), value)
    }

    #[inline(always)]
    fn written_bits(&self) -> u32 {
        BITS
    }
}

impl<const BITS: u32, S: SignedInteger> CheckablePrimitive for CheckedSignedFixed<BITS, S> {
    type CountType = FixedSignedBitCount<BITS>;

    ghost counted = { λ c. (c.0, S.integer c.1) };

    ghost reads = { λ o count. signed_checked_decoder count o S.BITS_SIZE BITS };

    #[inline(always)]
    fn read<R: BitRead>(
        reader: &mut R,
        count: FixedSignedBitCount<BITS>,
    ) -> Result<CheckedSignedFixed<BITS, S>, Error> {
        keep(count, reader.read_signed_var(BITS))
    }
}
