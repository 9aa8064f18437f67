//! Blocks of bytes, as in GIF (section 15). Each block is written after its size in a byte, and an empty block ends
//! them.
ghost use Rattle.bitstream_format.specs.Blocks.{block_size, block_writes, blocks_decoder, blocks_writes};
ghost use Rattle.std.specs.Prelude.{◌≡◌, ℕ, List};
ghost use Rattle.bitstream_io.specs.Callers.{WritesAll, result_map};
ghost use Rattle.bitstream_io.specs.Grows.{GrowingOutcome};

use bitstream_io::{BitRead, BitWrite, Error};
use std::alloc::Global;
use std::marker::Model;

/// A block of bytes.
#[derive(Debug, Drop)]
pub struct Block {
    /// The bytes. A write accepts from 1 to 255 bytes.
    pub bytes: Vec<u8>,
}

impl Model for Block {
    ghost Value = { List ℕ };

    ghost view = { λ value. value.bytes.items };
}

impl Block {
    /// Writes the size of the block in 8 bits, and its bytes.
    ///
    /// # Errors
    ///
    /// `Checked` for a block that is empty or has more than 255 bytes. If so, nothing is written. Otherwise, the
    /// errors of the sink.
    pub fn write<W: BitWrite>(&self, writer: &mut W) -> Result<(), Error>
        ensures { WritesAll W.sink (block_writes W.sink.order self.now) writer.old result writer.new }
    {
        writer.write_unsigned_var(8, block_size(self.bytes.len() as u64))?;
        writer.write_bytes(&self.bytes)
    }
}

/// Returns the size that is written before a block. For an empty block it is 256, which does not fit 8 bits.
fn block_size(count: u64) -> u64
    ensures { result ≡ block_size count }
{
    if count == 0 {
        return 256;
    }
    count
}

/// Reads blocks up to an empty one. The empty block is read too, and is not in the `Vec`. The `Vec` grows as the
/// blocks are read.
///
/// # Errors
///
/// `RunTooLong` if none of the first 2^32 blocks is empty. After it the reader has failed. `OutOfMemory` if an
/// allocation fails, after the blocks before have been read. Otherwise, the errors of the reader.
pub fn read_blocks<R: BitRead>(reader: &mut R, alloc: Global) -> Result<Vec<Block>, Error>
    ensures { GrowingOutcome R.source (blocks_decoder R.source.order)
        reader.old (result_map (λ found. found.items) result) reader.new }
{
    let mut found = Vec::new(alloc);
    for _ in 0..4294967296_u64 {
        let size: u64 = reader.read_unsigned_var(8)?;
        if size == 0 {
            return Ok(found);
        }
        let bytes = reader.read_to_vec(alloc, size as usize)?;
        found.push(Block { bytes })?;
    }
    reader.fail();
    Err(Error::RunTooLong)
}

/// Writes blocks, and an empty block after them.
///
/// # Errors
///
/// `Checked` for a block that is empty or has more than 255 bytes, after the blocks before it have been written.
/// Otherwise, the errors of the sink.
pub fn write_blocks<W: BitWrite>(writer: &mut W, blocks: &[Block]) -> Result<(), Error>
    ensures { WritesAll W.sink (blocks_writes W.sink.order blocks.now) writer.old result writer.new }
{
    for block in blocks {
        block.write(writer)?;
    }
    writer.write_unsigned_var(8, 0u64)
}
