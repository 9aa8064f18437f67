//! The place of a reader in bits, and seeks to a place.
ghost use Rattle.std.specs.Prelude.{◌≡◌, ◌+◌, false, pos};
ghost use Rattle.std.specs.declared.io.traits.SeekFrom.TheVariants.{Start, End, Current};
ghost use Rattle.bitstream_order.specs.Refusal.{MayRefuseSeek};

use super::BitReader;
use crate::read::BitRead;
use crate::read::place::bit_place;
use bitstream_count::error::Error;
use bitstream_order::ghosts::GhostCount;
use bitstream_order::order::Endianness;
use bitstream_order::streams::seek::SeekSource;
use std::io::SeekFrom;

impl<R: SeekSource, E: Endianness> BitReader<R, E> {
    ghost use Rattle.bitstream_stream.specs.Reading.Reader.{requests_made, bytes_fetched};
    ghost use Rattle.bitstream_stream.specs.Reading.Seek.{reader_seeker, IsFromHere, IsByteSeek, AsksPlace, GoesTo, SeeksBits, SeeksBytes};

    /// Goes to a place in bits, and returns the place: x for `Start(x)`, n bits before the end of
    /// the stream for `End(n)` (unlike in std), and d bits after the reader's place for
    /// `Current(d)`. [`bit_place`] computes the place. The counts of bits taken and bytes fetched
    /// restart at the byte that holds the place.
    ///
    /// # Errors
    ///
    /// - `Place` if the place is below 0 or above 2^64 - 1. From `Current` the reader is unchanged;
    ///   from `End` it has failed, and the stream is at its end.
    /// - `EndOfInput`, `OutOfMemory` or `Stream` if a request to the stream fails. If so, the
    ///   reader has failed, and the stream is as the failed request left it.
    /// - `Failed` for `Current` if the reader has failed. `Start` and `End` make it read again.
    ///
    /// # Examples
    ///
    /// ```
    /// use bitstream_io::{BE, BitRead, BitReader, Error};
    /// use std::io::{Cursor, SeekFrom};
    ///
    /// let bytes = Cursor::new([0xb1, 0xed, 0x3b, 0xc1].as_slice());
    /// let mut reader = BitReader::<_, BE>::new(bytes);
    /// assert_eq!(rt; reader.seek_bits(SeekFrom::End(7))?, 25);
    /// assert_eq!(rt; reader.read_unsigned_var::<u8>(7)?, 0x41);
    /// assert_eq!(rt; reader.seek_bits(SeekFrom::Current(-24))?, 8);
    /// assert_eq!(rt; reader.read_unsigned_var::<u8>(8)?, 0xed);
    /// assert!(rt; matches!(reader.seek_bits(SeekFrom::Current(-17)), Err(Error::Place)));
    /// assert_eq!(rt; reader.position_in_bits()?, 16);
    /// ```
    pub fn seek_bits(&mut self, to: SeekFrom) -> Result<u64, Error>
        ensures { SeeksBits (reader_seeker ⟦<Self as BitRead>⟧.source R.position R.bytes
            (MayRefuseSeek R.stream R.refuses_seek)) to self.old result self.new }
    {
        match to {
            SeekFrom::Start(place) => self.go_to(place),
            SeekFrom::End(back) => self.go_back(back),
            SeekFrom::Current(on) => {
                // The place is counted from the current place, so the stream is asked for its
                // position.
                let place = self.ask_place(SeekFrom::Current(on))?;
                self.go_to(place)
            }
        }
    }

    /// Returns the place in bits: 8 times the position in bytes that the stream returns, minus the
    /// number of queued bits. It makes one request to the stream: a seek by 0 bytes.
    ///
    /// # Errors
    ///
    /// - `Place` if the place is below 0 or above 2^64 - 1. The reader is unchanged.
    /// - `OutOfMemory` or `Stream` if the request fails. If so, the reader has failed, and the
    ///   stream is as the failed request left it.
    /// - `Failed` if the reader has failed.
    pub fn position_in_bits(&mut self) -> Result<u64, Error>
        // Asks the stream, changes nothing else and returns the place, or returns an error.
        ensures asks { AsksPlace (reader_seeker ⟦<Self as BitRead>⟧.source R.position R.bytes
            (MayRefuseSeek R.stream R.refuses_seek)) (Current (pos 0)) self.old result self.new }
        // Unless the reader had failed, exactly one request is made.
        ensures requests { (⟦<Self as BitRead>⟧.source.state self.old).failed ≡ false →
            requests_made self.new ≡ requests_made self.old + 1 }
    {
        self.ask_place(SeekFrom::Current(0))
    }

    /// Returns the place that `to` means. `to` must be a `Current`.
    fn ask_place(&mut self, to: SeekFrom) -> Result<u64, Error>
        requires { IsFromHere to }
        // Asks the stream, changes nothing else and returns the place, or returns an error.
        ensures asks { AsksPlace (reader_seeker ⟦<Self as BitRead>⟧.source R.position R.bytes
            (MayRefuseSeek R.stream R.refuses_seek)) to self.old result self.new }
        // Unless the reader had failed, exactly one request is made.
        ensures requests { self.old.failed ≡ false →
            requests_made self.new ≡ requests_made self.old + 1 }
    {
        if self.failed {
            return Err(Error::Failed);
        }
        match self.port.position() {
            Ok(at) => match bit_place(at, self.queued, to) {
                Some(place) => Ok(place),
                None => Err(Error::Place),
            },
            Err(error) => {
                // The queued bits are lost, so they count as taken.
                self.drop_queue();
                self.failed = true;
                Err(error)
            }
        }
    }

    /// Goes to the place `back` bits before the end of the stream.
    fn go_back(&mut self, back: i64) -> Result<u64, Error>
        ensures { SeeksBits (reader_seeker ⟦<Self as BitRead>⟧.source R.position R.bytes
            (MayRefuseSeek R.stream R.refuses_seek)) (End back) self.old result self.new }
    {
        // Only a seek to the end returns the position of the end.
        let end = self.seek_bytes(SeekFrom::End(0))?;
        match bit_place(end, 0, SeekFrom::End(back)) {
            Some(place) => self.go_to(place),
            None => {
                // The stream is at its end by now, so the reader cannot continue from its old
                // place.
                self.fail();
                Err(Error::Place)
            }
        }
    }

    /// Goes to a place in bits.
    fn go_to(&mut self, place: u64) -> Result<u64, Error>
        ensures { GoesTo (reader_seeker ⟦<Self as BitRead>⟧.source R.position R.bytes
            (MayRefuseSeek R.stream R.refuses_seek)) place (bytes_fetched self.old)
            self.old result self.new }
    {
        // First seeks to the byte that holds the bit, and then skips the bits before it.
        let _at = self.seek_bytes(SeekFrom::Start(place / 8))?;
        let _skipped: u8 = self.read_unsigned_var((place % 8) as u32)?;
        Ok(place)
    }

    /// Drops the queue, and seeks to a position in bytes. After a seek the counts restart at 0.
    fn seek_bytes(&mut self, to: SeekFrom) -> Result<u64, Error>
        ensures { SeeksBytes (reader_seeker ⟦<Self as BitRead>⟧.source R.position R.bytes
            (MayRefuseSeek R.stream R.refuses_seek)) to self.old result self.new }
    {
        // The queued bits are not the bits at the new place.
        self.drop_queue();
        match self.port.seek(to) {
            Ok(at) => {
                // The count of fetched bytes restarts here, so the count of bits taken restarts,
                // too.
                self.taken = GhostCount::new();
                self.failed = false;
                Ok(at)
            }
            Err(error) => {
                self.failed = true;
                Err(error)
            }
        }
    }
}
