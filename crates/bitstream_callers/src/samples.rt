//! Samples of 12 bits, in a vector.
ghost use Rattle.std.specs.Prelude.{◌≡◌, ◌⊎◌, ◌++◌, ◌*◌, ◌^◌, ◌<◌, ◌≤◌, ℕ, Bool, List, Ok, Err, length};
ghost use Rattle.std.specs.List.{All};
ghost use Rattle.bitstream_io.specs.Callers.{Done, EndOfInput, OutOfMemory, result_map, Reads, write_sequence, WritesAll, Order, High, bits};
ghost use Rattle.bitstream_callers.specs.Samples.{ReadSome, samples_decoder, samples_in, samples_writes};

use bitstream_io::{BE, BitRead, BitReadExt, BitReader, BitWrite, BitWriteExt, Bits, Error};
use std::alloc::Global;

/// Reads `count` samples.
///
/// # Errors
///
/// The errors of the reader, and `OutOfMemory` if an allocation for the vector fails. If so, some of
/// the samples have been read, and the reader can continue.
pub fn read_samples<R: BitRead>(
    alloc: Global,
    reader: &mut R,
    count: usize,
) -> Result<Vec<u16>, Error>
    ensures { Reads R.source (samples_decoder R.source.order count)
        reader.old (result_map (λ samples. samples.items) result) reader.new
        ⊎ ((result ≡ Err OutOfMemory) × ReadSome R.source count reader.old reader.new) }
{
    let mut samples = Vec::new(alloc);
    for _ in 0..count {
        samples.push(reader.read::<Bits<12>, u16>()?)?;
    }
    Ok(samples)
}

/// Parses the samples at the start of some bytes.
///
/// # Errors
///
/// `EndOfInput` for too few bytes, or `OutOfMemory`.
pub fn parse_samples(alloc: Global, bytes: &[u8], count: usize) -> Result<Vec<u16>, Error>
    ensures there { count * 12 ≤ 8 * length bytes.now
        → (result ≡ Err OutOfMemory)
        ⊎ (result_map (λ samples. samples.items) result ≡ Ok (samples_in count (bits High bytes.now))) }
    ensures short { 8 * length bytes.now < count * 12
        → (result ≡ Err OutOfMemory) ⊎ (result ≡ Err EndOfInput) }
{
    read_samples(alloc, &mut BitReader::<_, BE>::over(bytes), count)
}

/// Writes samples of 12 bits.
///
/// # Errors
///
/// `Checked` for a sample of 2^12 or more, after the samples before it have been written. Otherwise the errors of the sink.
pub fn write_samples<W: BitWrite>(writer: &mut W, samples: &[u16]) -> Result<(), Error>
    ensures { WritesAll W.sink (samples_writes W.sink.order samples.now)
        writer.old result writer.new }
{
    for sample in samples {
        writer.write::<Bits<12>, u16>(*sample)?;
    }
    Ok(())
}

/// Samples that fit their bits are read back as they were written, in either order of bits, at any
/// place.
pub fn samples_round_trip()
    ensures { (o : Order) (samples : List ℕ) (at from : ℕ) (more : List Bool)
        → All (λ sample. sample < 2 ^ 12) samples
        → let word = write_sequence (samples_writes o samples) at in
        (samples_decoder o (length samples)).reads from (word ++ more)
        ≡ Done (length word) (Ok samples) }
{}
