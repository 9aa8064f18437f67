//! A user's own prefix code, whose contract states its code words: signs of numbers.
ghost use Rattle.bitstream_io.specs.Reads.{Reads};
ghost use Rattle.bitstream_io.specs.Sink.{WritesAll};
ghost use Rattle.bitstream_io.specs.Tree.{bit_by_bit};
ghost use Rattle.bitstream_bench.specs.SignCode.{sign_decoder, sign_word};

use bitstream_io::huffman::{FromBits, NextBit, PutBit, ToBits};
use bitstream_io::{BitRead, BitReadExt, BitWrite, BitWriteExt, Error};

/// The code of a sign: `0` for the number 0, which has no sign, `10` and `11` for the numbers above
/// and below it.
struct SignCode;

impl FromBits for SignCode {
    type Symbol = Option<bool>;

    ghost decoder = { λ _. sign_decoder };

    fn from_bits<N: NextBit>(&self, next: &mut N) -> Result<Option<bool>, Error> {
        if next.next_bit()? {
            let negative = next.next_bit()?;
            Ok(Some(negative))
        } else {
            Ok(None)
        }
    }
}

impl ToBits for SignCode {
    type Symbol = Option<bool>;

    ghost word = { λ _. sign_word };

    fn to_bits<P: PutBit>(&self, symbol: Option<bool>, put: &mut P) -> Result<(), Error> {
        match symbol {
            Some(negative) => {
                put.put_bit(true)?;
                put.put_bit(negative)
            }
            None => put.put_bit(false),
        }
    }
}

/// Reads a sign from any reader of bits.
///
/// # Errors
///
/// The errors of the reader.
pub fn read_sign<R: BitRead>(reader: &mut R) -> Result<Option<bool>, Error>
    ensures reads { Reads R.source sign_decoder reader.old result reader.new }
{
    reader.read_huffman(&SignCode)
}

/// Writes a sign to any sink of bits.
///
/// # Errors
///
/// The errors of the sink. The bits before the error stay written.
pub fn write_sign<W: BitWrite>(writer: &mut W, sign: Option<bool>) -> Result<(), Error>
    ensures writes { WritesAll W.sink (bit_by_bit (sign_word sign)) writer.old result writer.new }
{
    writer.write_huffman(&SignCode, sign)
}
