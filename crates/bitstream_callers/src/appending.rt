//! A header that is appended to a sink, with its length.
ghost use Rattle.std.specs.Prelude.{◌≡◌, ◌⊎◌, ◌+◌, ◌%◌, Ok, Err, IfErr, IfOk};
ghost use Rattle.bitstream_io.specs.Callers.{WritesAll};
ghost use Rattle.bitstream_callers.specs.BlockHeader.{block_header_writes};

use crate::block_header::BlockHeader;
use bitstream_io::{BitWrite, BitWriteExt, Error, ToBitStream};

/// Writes a header, and returns its number of bits. If the sink was at a byte boundary, this is the
/// number of bits written.
///
/// # Errors
///
/// `Checked` for a field that does not fit its bits, before anything is written. Otherwise the errors of
/// the sink: the fields before the error stay written.
pub fn append<W: BitWrite>(writer: &mut W, header: &BlockHeader) -> Result<u32, Error>
    // If it succeeds, only the header's encodings were written.
    ensures writes { IfOk result (λ bits. WritesAll W.sink
        (block_header_writes W.sink.order header.now) writer.old (Ok tt) writer.new) }
    // At a byte boundary, the result is the number of bits written.
    ensures counts { W.sink.len writer.old % 8 ≡ 0
        → IfOk result (λ bits. W.sink.len writer.new ≡ W.sink.len writer.old + bits) }
    // After an error the sink is unchanged, or a write of the header had this error.
    ensures refused { IfErr result (λ error. (writer.new ≡ writer.old) ⊎ WritesAll W.sink
        (block_header_writes W.sink.order header.now) writer.old (Err error) writer.new) }
{
    let bits = header.bits::<u32>()?;
    writer.build(header)?;
    Ok(bits)
}
