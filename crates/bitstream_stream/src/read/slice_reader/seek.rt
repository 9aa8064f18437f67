//! The place of a reader of bytes in memory in bits, and seeks to a place.
ghost use Rattle.std.specs.Prelude.{◌≡◌, ◌+◌, ◌*◌, ◌/◌, ◌<◌, ◌≤◌, ◌^◌, true, false, length, Ok, Err};
ghost use Rattle.bitstream_count.specs.declared.error.Error.TheVariants.{Failed, Place};

use super::SliceReader;
use crate::read::place::bit_place;
use bitstream_count::error::Error;
use bitstream_order::order::Endianness;
use std::io::SeekFrom;

impl<'a, E: Endianness> SliceReader<'a, E> {
    ghost use Rattle.bitstream_stream.specs.Reading.MemorySeek.{GoesWithin, SeeksInMemory};
    ghost use Rattle.bitstream_stream.specs.Reading.MemorySource.{memory_source};
    ghost use Rattle.bitstream_stream.specs.Reading.MemoryTakes.{IsAt};

    /// Goes to a place in bits, and returns the place: x for `Start(x)`, n bits before the end of
    /// the bytes for `End(n)` (unlike in std), and d bits after the reader's place for
    /// `Current(d)`. The end is a valid place. A seek by `Start` or `End` makes a reader that had
    /// failed read again. The bits read are still counted from the first byte on.
    ///
    /// # Errors
    ///
    /// - `Place` if the place is below 0, after the end, or above 2^64 - 1. The reader is
    ///   unchanged.
    /// - `Failed` for `Current` if the reader has failed. It is unchanged.
    ///
    /// # Examples
    ///
    /// ```
    /// use bitstream_io::{BE, BitRead, Error, SliceReader};
    /// use std::io::SeekFrom;
    ///
    /// let mut reader = SliceReader::<BE>::over(&[0xb1, 0xed, 0x3b, 0xc1]);
    /// assert_eq!(rt; reader.seek_bits(SeekFrom::End(7))?, 25);
    /// assert_eq!(rt; reader.read_unsigned_var::<u8>(7)?, 0x41);
    /// assert!(rt; matches!(reader.read_bit(), Err(Error::EndOfInput)));
    /// assert_eq!(rt; reader.seek_bits(SeekFrom::Start(8))?, 8);
    /// assert_eq!(rt; reader.read_unsigned_var::<u8>(8)?, 0xed);
    /// assert!(rt; matches!(reader.seek_bits(SeekFrom::Current(17)), Err(Error::Place)));
    /// assert_eq!(rt; reader.position_in_bits()?, 16);
    /// ```
    pub fn seek_bits(&mut self, to: SeekFrom) -> Result<u64, Error>
        ensures { SeeksInMemory E.order to self.old result self.new }
    {
        match to {
            SeekFrom::Start(place) => self.go_within(Some(place)),
            SeekFrom::End(back) => {
                let end = self.all.len() as u64;
                self.go_within(bit_place(end, 0, SeekFrom::End(back)))
            }
            SeekFrom::Current(on) => {
                if self.failed {
                    return Err(Error::Failed);
                }
                let place = bit_place(self.fetched(), (8 - self.bit) % 8, SeekFrom::Current(on));
                self.go_within(place)
            }
        }
    }

    /// Returns the place in bits: the number of bits read.
    ///
    /// # Errors
    ///
    /// - `Place` if the place is above 2^64 - 1.
    /// - `Failed` if the reader has failed. [`bits_read`](SliceReader::bits_read) still reports its
    ///   place.
    pub fn position_in_bits(&self) -> Result<u64, Error>
        ensures failed { ((memory_source E.order).state self.now).failed ≡ true → result ≡ Err Failed }
        // Unless the reader has failed, the number of bits taken is returned, if it is below 2^64.
        ensures place { ((memory_source E.order).state self.now).failed ≡ false
            → ((memory_source E.order).state self.now).taken < 2 ^ 64
            → result ≡ Ok ((memory_source E.order).state self.now).taken }
        // Unless the reader has failed, `Place` is returned if that number is 2^64 or more.
        ensures above { ((memory_source E.order).state self.now).failed ≡ false
            → 2 ^ 64 ≤ ((memory_source E.order).state self.now).taken → result ≡ Err Place }
    {
        if self.failed {
            return Err(Error::Failed);
        }
        let taken = self.taken();
        if taken < 1 << 64 {
            Ok(taken as u64)
        } else {
            Err(Error::Place)
        }
    }

    /// Returns the number of bytes that hold the bits taken.
    fn fetched(&self) -> u64
        ensures { result ≡ ((memory_source E.order).state self.now).fetched }
    {
        let whole = self.all.len() - self.bytes.len();
        if self.bit > 0 {
            whole as u64 + 1
        } else {
            whole as u64
        }
    }

    /// Goes to a place in bits, if there is one and it is not after the end.
    fn go_within(&mut self, place: Option<u64>) -> Result<u64, Error>
        ensures { GoesWithin E.order place self.old result self.new }
    {
        match place {
            Some(place) => {
                if place as u128 > 8 * self.all.len() as u128 {
                    return Err(Error::Place);
                }
                self.stand_at(place);
                Ok(place)
            }
            None => Err(Error::Place),
        }
    }

    /// Goes to a place in bits, counted from the first of all bytes.
    fn stand_at(&mut self, place: u64)
        requires { place ≤ 8 * length self.old.all.now }
        ensures { IsAt place self.old self.new }
    {
        let all = self.all;
        self.bytes = &all[(place / 8) as usize..];
        self.bit = (place % 8) as u32;
        self.failed = false;
    }
}
