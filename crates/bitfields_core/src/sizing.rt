//! Sizes: the number of bits of the values of an input.

ghost use Rattle.bitfields_core.specs.Size.{Sizes};
ghost use Rattle.bitfields_core.specs.Value.{lines as lines_of, values as values_of};

use crate::fault::Fault;
use crate::layout::Layout;
use crate::packing::append_fields;
use crate::values::values;
use bitstream_io::BitsWritten;
use std::alloc::Global;

/// Returns the number of bits of the values that an input spells for a layout: the sum of the
/// lengths of the fields' encodings, without the last alignment. The number is the same in both orders
/// of bits. Writes nothing.
///
/// # Errors
///
/// The errors that [`pack`](crate::pack) returns before it writes.
pub fn size(alloc: Global, layout: &Layout, input: &[u8]) -> Result<u64, Fault>
    ensures { Sizes layout.now (values_of 1 layout.now (lines_of input.now)) result }
{
    let values = values(alloc, layout, input)?;
    let mut counter = BitsWritten::<u64>::new();
    match append_fields(layout.fields(), &values, &mut counter) {
        Ok(()) => Ok(counter.into_written()),
        Err(_past) => unreachable!(),
    }
}
