//! `bool`, as one bit.
ghost use Rattle.std.specs.Prelude.{◌≡◌, [], ◌∷◌, ⊤};
ghost use Rattle.bitstream_value.specs.Boolean.{truth_decoder, truth};

use crate::integer::Integer;
use crate::refuse::{refuse_read, refuse_write};
use bitstream_count::count::Count;
use bitstream_count::error::Error;
use bitstream_number::number::Width;
use bitstream_stream::read::BitRead;
use bitstream_stream::write::BitWrite;

impl Integer for bool {
    ghost reads = { λ _ n. truth_decoder n };

    ghost writes = { λ _ n b. truth n b ∷ [] };

    ghost IsWidth = { λ n. n ≡ 1 };

    ghost Fits = { λ _ _. ⊤ };

    #[inline(always)]
    fn read<B: Width, R: BitRead>(reader: &mut R) -> Result<bool, Error> {
        reader.read_bit()
    }

    #[inline(always)]
    fn read_var<C: Count, R: BitRead>(reader: &mut R, bits: C) -> Result<bool, Error> {
        if bits.bits() == 1 {
            reader.read_bit()
        } else {
            refuse_read(reader, Error::BoolWidth)
        }
    }

    #[inline(always)]
    fn write<B: Width, W: BitWrite>(self, writer: &mut W) -> Result<(), Error> {
        writer.write_bit(self)
    }

    #[inline(always)]
    fn write_var<C: Count, W: BitWrite>(self, writer: &mut W, bits: C) -> Result<(), Error> {
        if bits.bits() == 1 {
            writer.write_bit(self)
        } else {
            refuse_write(writer, Error::BoolWidth)
        }
    }
}
