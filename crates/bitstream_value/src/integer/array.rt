//! Arrays, as their items in order.
ghost use Rattle.std.specs.List.{All, flat_map};
ghost use Rattle.std.specs.Prelude.{IfOk};
ghost use Rattle.bitstream_stream.specs.Reading.Reads.{Reads};
ghost use Rattle.bitstream_value.specs.Array.{items_decoder};

use crate::integer::{Integer, VBRInteger};
use bitstream_count::count::Count;
use bitstream_count::error::Error;
use bitstream_number::number::Width;
use bitstream_stream::read::BitRead;
use bitstream_stream::write::BitWrite;

/// Reads an item of the array.
fn read_item<B: Width, I: Integer, R: BitRead>(reader: &mut R) -> Result<I, Error>
    requires { I.IsWidth B.BITS }
    ensures reads { Reads R.source (I.reads R.source.order B.BITS) reader.old result reader.new }
    ensures fits { IfOk result (λ item. I.Fits B.BITS item) }
{
    I::read::<B, R>(reader)
}

impl<I: Integer + Copy + Default, const SIZE: usize> Integer for [I; SIZE] {
    ghost reads = { λ o n. items_decoder (I.reads o n) SIZE };

    ghost writes = { λ o n items. flat_map (I.writes o n) items };

    ghost IsWidth = { I.IsWidth };

    ghost Fits = { λ n items. All (I.Fits n) items };

    fn read<B: Width, R: BitRead>(reader: &mut R) -> Result<[I; SIZE], Error> {
        let mut items = [I::default(); SIZE];
        for i in 0..SIZE {
            items[i] = read_item::<B, I, R>(reader)?;
        }
        Ok(items)
    }

    fn read_var<C: Count, R: BitRead>(reader: &mut R, bits: C) -> Result<[I; SIZE], Error> {
        let mut items = [I::default(); SIZE];
        for i in 0..SIZE {
            items[i] = I::read_var(reader, bits)?;
        }
        Ok(items)
    }

    fn write_var<C: Count, W: BitWrite>(self, writer: &mut W, bits: C) -> Result<(), Error> {
        for item in self.iter() {
            (*item).write_var(writer, bits)?;
        }
        Ok(())
    }
}

impl<I: VBRInteger + Copy + Default, const SIZE: usize> VBRInteger for [I; SIZE] {
    ghost reads_vbr = { λ o field. items_decoder (I.reads_vbr o field) SIZE };

    ghost writes_vbr = { λ o field items. flat_map (I.writes_vbr o field) items };

    ghost IsFieldSize = { I.IsFieldSize };

    fn read_vbr<F: Width, R: BitRead>(reader: &mut R) -> Result<[I; SIZE], Error> {
        let mut items = [I::default(); SIZE];
        for i in 0..SIZE {
            items[i] = I::read_vbr::<F, R>(reader)?;
        }
        Ok(items)
    }

    fn write_vbr<F: Width, W: BitWrite>(self, writer: &mut W) -> Result<(), Error> {
        for item in self.iter() {
            (*item).write_vbr::<F, W>(writer)?;
        }
        Ok(())
    }
}
