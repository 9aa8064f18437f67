//! Unary numbers with a greatest number of bits.
ghost use Rattle.std.specs.Prelude.{◌<◌, ◌==◌, replicate};
ghost use Rattle.bitstream_stream.specs.Writing.Sink.{WritesAll};
ghost use Rattle.bitstream_value.specs.LimitedUnary.{limited_unary, limited_tree};
ghost use Rattle.bitstream_value.specs.Tree.{path_decoder, bit_by_bit};

use crate::huffman::{FromBits, NextBit, PutBit, ToBits};
use bitstream_count::error::Error;

/// The prefix code of unary numbers below MAXIMUM. STOP_BIT is 0 or 1. The code word of n is n bits that
/// are not STOP_BIT, and then STOP_BIT. The code word of `None` is MAXIMUM bits that are not STOP_BIT,
/// without a stop bit.
///
/// A number of MAXIMUM or more has no code word: writing it writes nothing, and succeeds.
///
/// # Examples
///
/// ```
/// use bitstream_io::{BE, BitReadExt, BitReader};
/// use bitstream_io::huffman::LimitedUnary;
///
/// let mut reader = BitReader::<_, BE>::new([0x20].as_slice());
/// let run = LimitedUnary::<1, 3> {};
/// assert_eq!(rt; reader.read_huffman(&run)?, Some(2));
/// assert_eq!(rt; reader.read_huffman(&run)?, None);
/// ```
#[derive(Copy, Clone, Debug)]
pub struct LimitedUnary<const STOP_BIT: u8, const MAXIMUM: u32> {
    ghost is_bit: { STOP_BIT < 2 },
}

impl<const STOP_BIT: u8, const MAXIMUM: u32> FromBits for LimitedUnary<STOP_BIT, MAXIMUM> {
    type Symbol = Option<u32>;

    ghost decoder = { λ _. path_decoder (limited_tree (STOP_BIT == 1) 0 MAXIMUM) };

    fn from_bits<N: NextBit>(&self, next: &mut N) -> Result<Option<u32>, Error> {
        let stop = STOP_BIT == 1;
        for digits in 0..MAXIMUM {
            if next.next_bit()? == stop {
                return Ok(Some(digits));
            }
        }
        Ok(None)
    }
}

impl<const STOP_BIT: u8, const MAXIMUM: u32> ToBits for LimitedUnary<STOP_BIT, MAXIMUM> {
    type Symbol = Option<u32>;

    ghost word = { λ _ symbol. limited_unary (STOP_BIT == 1) MAXIMUM symbol };

    fn to_bits<P: PutBit>(&self, symbol: Option<u32>, put: &mut P) -> Result<(), Error> {
        let stop = STOP_BIT == 1;
        match symbol {
            Some(number) if number < MAXIMUM => {
                repeat(put, !stop, number)?;
                put.put_bit(stop)
            }
            Some(_) => Ok(()),
            None => repeat(put, !stop, MAXIMUM),
        }
    }
}

/// Writes the same bit `times` times.
///
/// # Errors
///
/// As [`PutBit::put_bit`]. The bits before the error stay written.
fn repeat<P: PutBit>(put: &mut P, one: bool, times: u32) -> Result<(), Error>
    ensures writes { WritesAll P.sink (bit_by_bit (replicate times one)) put.old result put.new }
{
    for _ in 0..times {
        put.put_bit(one)?;
    }
    Ok(())
}
