//! Repacking: reads packed bytes and packs their values again.

ghost use Rattle.std.specs.Prelude.{◌≡◌, ℕ, List, Some, IfOk};
ghost use Rattle.bitstream_io.specs.Gather.{result_map};
ghost use Rattle.bitstream_io.specs.Refusal.{MayRefuseRead, TrueEnds};
ghost use Rattle.bitfields_core.specs.Layout.{IsLayout};
ghost use Rattle.bitfields_core.specs.Repacking.{Ends, IsRepacked, ReadsPackedBytes, Repacks};
ghost use Rattle.bitfields_core.specs.Value.{Fit};

use crate::fault::{Fault, Reason};
use crate::field_value::FieldValue;
use crate::layout::Layout;
use crate::packing::pack_values;
use crate::strict_reading::read_packed_from;
use bitstream_io::{BitReader, Endianness, Lent, Source, Target};
use std::alloc::Global;
use std::io::ErrorKind;

/// Reads packed bytes to their end and packs their values again. If no field is `l4` or `l8`, the
/// written bytes are the bytes read, and [`pack`](crate::pack) writes the same bytes for some
/// input. Nothing is written before all checks have passed.
///
/// # Errors
///
/// The errors of [`unpack`](crate::unpack), and `PaddingNotZero` at the first field `pN` or `a`
/// whose bits are not all 0 (field 0 for the bits after the last field). Then `BytesLeftOver`
/// (field 0) if there is a byte after the last field, or `StreamFault` or `OutOfMemory` (field 0)
/// if the request for that byte fails. After these errors the output is unchanged. Otherwise,
/// `StreamFault` or `OutOfMemory` (field 0) if a request to the output fails.
pub fn repack<E: Endianness, R: Source, W: Target>(
    alloc: Global,
    layout: &Layout,
    input: &mut R,
    output: &mut W,
) -> Result<(), Fault>
    ensures repacks { Repacks R.stream W.stream E.order layout.now
        input.old output.old result input.new output.new }
    ensures repacked { TrueEnds (MayRefuseRead R.stream) → (xs : List ℕ)
        → R.stream.remaining input.old ≡ Some xs → IsRepacked E.order layout.now xs result }
{
    let values = read_packed::<E, R>(alloc, layout, input)?;
    expect_end(input)?;
    pack_values::<E, W>(layout, &values, output)
}

/// Reads packed fields and the last alignment from a stream, beginning at its first byte. Returns
/// the values.
///
/// # Errors
///
/// The errors of [`repack`] up to the last alignment.
fn read_packed<E: Endianness, R: Source>(
    alloc: Global,
    layout: &Layout,
    input: &mut R,
) -> Result<Vec<FieldValue>, Fault>
    ensures reads { ReadsPackedBytes R.stream E.order layout.now
        input.old (result_map (λ v. v.items) result) input.new }
    ensures fit { IfOk result (λ v. Fit layout.now v.items) }
    ensures is_layout { IsLayout layout.now }
{
    let mut reader = BitReader::<Lent<R>, E>::new(Lent::new(input));
    read_packed_from(alloc, layout.fields(), &mut reader)
}

/// Requests one more byte, and succeeds if the input has none.
///
/// # Errors
///
/// `BytesLeftOver` (field 0) if there is one. `StreamFault` or `OutOfMemory` (field 0) if the request fails for
/// another reason than the end of input.
fn expect_end<R: Source>(input: &mut R) -> Result<(), Fault>
    ensures { Ends R.stream input.old result input.new }
{
    let mut byte = [0];
    match input.read_exact(&mut byte) {
        Ok(()) => Err(Fault::new(0, Reason::BytesLeftOver)),
        Err(error) => match error.kind() {
            ErrorKind::UnexpectedEof => Ok(()),
            _ => Err(Fault::from(error)),
        },
    }
}
