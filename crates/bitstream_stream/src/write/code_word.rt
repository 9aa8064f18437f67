//! The code words of prefix codes.
ghost use Rattle.std.specs.Prelude.{◌≡◌, ◌<◌, ◌^◌};
ghost use Rattle.bitstream_number.specs.Word.{High, Low, word};

use bitstream_order::order::{BigEndian, Endianness, LittleEndian};

/// A code word of a prefix code: at most 63 bits. It keeps them as two numbers, one for each bit
/// order, so that a writer takes many of them at once.
///
/// # Examples
///
/// ```
/// use bitstream_io::{BE, BitWrite, BitWriter};
/// use bitstream_io::huffman::CodeWord;
///
/// let mut word = CodeWord::new();
/// word.push(true);
/// word.push(false);
/// word.push(true);
/// let mut writer = BitWriter::<_, BE>::new(Vec::new(rt.alloc()));
/// writer.write_code_word(word)?;
/// writer.write_code_word(word)?;
/// writer.byte_align()?;
/// assert_eq!(rt; writer.into_writer().as_slice(), [0xb4].as_slice());
/// ```
#[derive(Clone, Copy, Debug)]
pub struct CodeWord {
    bits: u32,
    // The first bit is the highest one.
    high: u64,
    // The first bit is the lowest one.
    low: u64,
    ghost few: { bits < 64 },
    ghost small_high: { high < 2 ^ bits },
    ghost small_low: { low < 2 ^ bits },
    ghost same: { word Low bits low ≡ word High bits high },
}

impl CodeWord {
    ghost use Rattle.std.specs.Prelude.{◌≤◌, ◌↔◌, [], ◌∷◌, ◌++◌, length, slice_get, Some, IsTrue};
    ghost use Rattle.bitstream_stream.specs.Writing.CodeWord.{code_bits};

    /// The greatest number of bits.
    pub const MOST: u32 = 63;

    /// Returns a code word of no bits.
    pub fn new() -> CodeWord
        ensures { code_bits result ≡ [] }
    {
        CodeWord {
            bits: 0,
            high: 0,
            low: 0,
        }
    }

    /// Returns the number of bits.
    pub fn len(&self) -> u32
        ensures len { result ≡ length (code_bits self.now) }
        ensures most { result ≤ 63 }
    {
        self.bits
    }

    /// Returns true if there is no bit.
    pub fn is_empty(&self) -> bool
        ensures { IsTrue result ↔ (code_bits self.now ≡ []) }
    {
        self.bits == 0
    }

    /// Returns the bit at an index below the number of bits. The first bit has the index 0.
    pub fn bit(&self, at: u32) -> bool
        requires { at < length (code_bits self.now) }
        ensures { slice_get (code_bits self.now) at ≡ Some result }
    {
        (self.high >> (self.bits - 1 - at)) % 2 == 1
    }

    /// Appends a bit. The code word has fewer than 63 bits before.
    pub fn push(&mut self, bit: bool)
        requires { length (code_bits self.old) < 63 }
        ensures { code_bits self.new ≡ code_bits self.old ++ bit ∷ [] }
    {
        let one = u64::from(bit);
        *self = CodeWord {
            bits: self.bits + 1,
            high: BigEndian::put(self.high, self.bits, one, 1),
            low: LittleEndian::put(self.low, self.bits, one, 1),
        };
    }

    /// Returns the number whose encoding in the order E is the code word.
    #[inline(always)]
    pub fn number<E: Endianness>(&self) -> u64
        ensures word { word E.order (length (code_bits self.now)) result ≡ code_bits self.now }
        ensures small { result < 2 ^ length (code_bits self.now) }
    {
        // The first bit of the byte 128 is 1 in big-endian order, and 0 in little-endian order.
        if E::first(128, 1) == 1 {
            self.high
        } else {
            self.low
        }
    }
}
