//! A reader of bits over a stream of bytes.
ghost use Rattle.std.specs.Prelude.{◌≡◌, ℕ, ◌+◌, ◌*◌, ◌/◌, ◌^◌, ◌<◌, ◌≤◌, ◌⊎◌, ◌==◌, IsTrue, false, true, length, Ok, OnOk};
ghost use Rattle.bitstream_number.specs.Word.{count_width};
ghost use Rattle.bitstream_order.specs.Parts.{value_bytes};
ghost use Rattle.bitstream_order.specs.Moving.Gather.{result_map};
ghost use Rattle.bitstream_order.specs.Port.{fetched_count};
ghost use Rattle.bitstream_stream.specs.Reading.Reads.{Reads, ReadsConst};
ghost use Rattle.bitstream_stream.specs.Reading.ReadTable.{bit_decoder, unsigned_decoder, signed_decoder, const_decoder, unary_decoder, count_decoder, align_decoder, bytes_decoder, skip_decoder, is_full};

use crate::piece::PIECE;
use crate::read::BitRead;
use crate::width::count_bits;
use bitstream_count::count::{Count, SignedCount};
use bitstream_count::error::Error;
use bitstream_number::number::{Numeric, Primitive, SignedInteger, UnsignedInteger, Width};
use bitstream_order::ghosts::GhostCount;
use bitstream_order::kernels::gather::{take_bits, unused_bits};
use bitstream_order::kernels::shift::shift;
use bitstream_order::kernels::sign::signed_of;
use bitstream_order::kernels::unary::take_unary;
use bitstream_order::order::Endianness;
use bitstream_order::port::Port;
use bitstream_order::streams::source::Source;
use std::marker::PhantomData;

mod convert;
mod seek;

/// Reads bits from a stream of bytes. A byte is fetched only when a call needs a bit of it, so
/// fewer than 8 bits are queued at any time.
///
/// Over a [`Slice`](bitstream_order::streams::slice::Slice) the result of a call depends only on
/// the bytes. If all bits of the call are left, it never returns `EndOfInput`, `Stream` or
/// `OutOfMemory`. If not, it returns `EndOfInput`. (std's contract does not state how a `Read`
/// fails.)
///
/// # Examples
///
/// ```
/// use bitstream_io::{BE, BitRead, BitReader, Bits, Error, Slice};
///
/// let mut reader = BitReader::<_, BE>::new(Slice::new(&[0xb1, 0xed]));
/// let kind: u8 = reader.read_unsigned::<Bits<2>, _>()?;
/// let level: i8 = reader.read_signed_var(3)?;
/// assert_eq!(rt; kind, 2);
/// assert_eq!(rt; level, -2);
/// reader.byte_align();
/// assert_eq!(rt; reader.read_unsigned_var::<u8>(8)?, 0xed);
/// assert!(rt; matches!(reader.read_bit(), Err(Error::EndOfInput)));
/// ```
#[derive(Drop)]
pub struct BitReader<R, E> {
    port: Port<R>,
    queue: u8,
    queued: u32,
    taken: GhostCount,
    turns: GhostCount,
    failed: bool,
    order: PhantomData<E>,
    ghost few: { queued < 8 },
    ghost whole: { fetched_count port ≡ (taken.count + 7) / 8 },
    ghost back: { failed ≡ false → taken.count + queued ≡ 8 * fetched_count port },
    ghost empty: { failed ≡ true → queued ≡ 0 },
}

impl<R: Source, E: Endianness> BitReader<R, E> {
    ghost use Rattle.bitstream_stream.specs.Ways.{aligned_reader};
    ghost use Rattle.bitstream_stream.specs.Reading.Reader.{new_reader_state, queued_bits, requests_made, turns_made, AsksForBytes, AsksForWord};

    /// Returns a reader of a stream's bytes. No request is made yet.
    pub fn new(reader: R) -> BitReader<R, E>
        // Nothing is taken or queued yet. The bytes left are the bytes left in the stream, if
        // known.
        ensures state { ⟦<Self as BitRead>⟧.source.state result
            ≡ new_reader_state (R.stream.remaining reader) (R.stream.references reader) }
        ensures requests { requests_made result ≡ 0 }
        ensures turns { turns_made result ≡ 0 }
    {
        BitReader {
            port: Port::new(reader),
            queue: 0,
            queued: 0,
            taken: GhostCount::new(),
            turns: GhostCount::new(),
            failed: false,
            order: PhantomData,
        }
    }

    /// Does what [`new`](BitReader::new) does, with the order as an argument.
    pub fn endian(reader: R, _endian: E) -> BitReader<R, E>
    where
        E: Drop,
        // Nothing is taken or queued yet. The bytes left are the bytes left in the stream, if
        // known.
        ensures state { ⟦<Self as BitRead>⟧.source.state result
            ≡ new_reader_state (R.stream.remaining reader) (R.stream.references reader) }
        ensures requests { requests_made result ≡ 0 }
        ensures turns { turns_made result ≡ 0 }
    {
        BitReader::new(reader)
    }

    /// Reads a number that needs more bits than are queued. Here and below, `constant` is true if
    /// `bits` is known at compile time.
    #[inline(always)]
    fn fetch_word<U: UnsignedInteger>(&mut self, bits: u32, constant: bool) -> Result<U, Error>
        requires fine { self.old.failed ≡ false }
        requires more { self.old.queued < bits }
        requires room { bits ≤ U.BITS_SIZE }
        // Takes only `bits` bits and returns their number, or returns an error.
        ensures reads { Reads ⟦<Self as BitRead>⟧.source
            (unsigned_decoder E.order U.BITS_SIZE bits) self.old (result_map U.value result) self.new }
        ensures asks { AsksForWord bits self.old self.new }
    {
        let queued = self.queued;
        let queue = U::from_u8(E::first(self.queue, queued));
        // Set the failed state first: if the request below fails, `?` returns, and the reader must
        // have failed already. Success undoes it.
        self.queue = 0;
        self.queued = 0;
        self.failed = true;
        self.taken.add(queued as u64);
        let more = bits - queued;
        // One request fetches only the bytes of the other bits.
        let (value, left) = take_bits::<R, E, U>(&mut self.port, queue, queued, more, constant)?;
        self.failed = false;
        self.taken.add(more as u64);
        // The rest of the last byte is the new queue.
        self.queue = left;
        self.queued = unused_bits(more);
        Ok(value)
    }

    /// Reads a number of at most the width of the type. It makes one request, or none if the queue
    /// has enough bits.
    #[inline(always)]
    fn take_word<U: UnsignedInteger>(&mut self, bits: u32, constant: bool) -> Result<U, Error>
        requires fine { self.old.failed ≡ false }
        requires room { bits ≤ U.BITS_SIZE }
        // Takes only `bits` bits and returns their number, or returns an error.
        ensures reads { Reads ⟦<Self as BitRead>⟧.source
            (unsigned_decoder E.order U.BITS_SIZE bits) self.old (result_map U.value result) self.new }
        ensures asks { AsksForWord bits self.old self.new }
    {
        let queued = self.queued;
        if bits > queued {
            return self.fetch_word(bits, constant);
        }
        // All bits are in the queue, so no byte is needed.
        let first = E::first(self.queue, bits);
        self.taken.add(bits as u64);
        self.queue = E::rest(self.queue, bits);
        self.queued = queued - bits;
        Ok(U::from_u8(first))
    }

    /// Reads a number, if the reader has not failed and the type has at least `bits` bits.
    #[inline(always)]
    fn read_word<U: UnsignedInteger>(&mut self, bits: u32, constant: bool) -> Result<U, Error>
        // Takes only `bits` bits and returns their number, or returns an error.
        ensures reads { Reads ⟦<Self as BitRead>⟧.source
            (unsigned_decoder E.order U.BITS_SIZE bits) self.old (result_map U.value result) self.new }
        ensures asks { AsksForWord bits self.old self.new }
    {
        if self.failed {
            return Err(Error::Failed);
        }
        // Tested before anything is taken, so a rejected read takes no bit.
        if bits > U::BITS_SIZE {
            return Err(Error::ReadBits);
        }
        self.take_word(bits, constant)
    }

    /// Reads the two's complement of a number.
    #[inline(always)]
    fn read_signed_word<S: SignedInteger>(&mut self, bits: u32, constant: bool) -> Result<S, Error>
        // Takes only `bits` bits and returns their two's complement, or returns an error.
        ensures reads { Reads ⟦<Self as BitRead>⟧.source
            (signed_decoder E.order S.BITS_SIZE bits) self.old (result_map S.integer result) self.new }
        ensures asks { AsksForWord bits self.old self.new }
    {
        if self.failed {
            return Err(Error::Failed);
        }
        if bits == 0 {
            return Err(Error::NoSignBit);
        }
        // The same bits as an unsigned number: its type has the same size.
        let word: S::Unsigned = self.read_word(bits, constant)?;
        Ok(signed_of(word, bits))
    }

    /// Reads bytes by one request. The queue must be empty.
    #[inline(always)]
    fn fetch_aligned(&mut self, buf: &mut [u8]) -> Result<(), Error>
        requires fine { self.old.failed ≡ false }
        requires none { self.old.queued ≡ 0 }
        requires some { 1 ≤ length buf.old }
        // Fills the buffer with the next bytes and takes only them, or returns an error.
        ensures reads { Reads ⟦<Self as BitRead>⟧.source (bytes_decoder E.order (length buf.old))
            self.old (result_map (λ _. buf.new) result) self.new }
        ensures requests { requests_made self.new ≡ requests_made self.old + 1 }
    {
        match self.port.fetch(buf) {
            Ok(()) => {
                self.taken.add_bytes(buf.len());
                Ok(())
            }
            Err(error) => {
                // The queue is empty already, so no bit of it is lost.
                self.failed = true;
                Err(error)
            }
        }
    }

    /// Reads bytes by one request, after the queued bits.
    fn fetch_bytes(&mut self, buf: &mut [u8]) -> Result<(), Error>
        requires fine { self.old.failed ≡ false }
        requires queued { 1 ≤ self.old.queued }
        requires some { 1 ≤ length buf.old }
        // Fills the buffer with the next bytes and takes only them, or returns an error.
        ensures reads { Reads ⟦<Self as BitRead>⟧.source (bytes_decoder E.order (length buf.old))
            self.old (result_map (λ _. buf.new) result) self.new }
        ensures fine { OnOk result (self.new.failed ≡ false) }
        ensures queued { OnOk result (queued_bits self.new ≡ queued_bits self.old) }
        ensures requests { requests_made self.new ≡ requests_made self.old + 1 }
    {
        let queue = E::first(self.queue, self.queued);
        match self.port.fetch(buf) {
            Ok(()) => {
                // The queued bits go first, and the same number of last bits is left over.
                let left = shift::<E>(queue, self.queued, buf);
                // The queue of a reader is the first bits of its byte.
                self.queue = E::to_front(left, self.queued);
                self.taken.add_bytes(buf.len());
                Ok(())
            }
            Err(error) => {
                // The queued bits are lost, so they count as taken.
                self.taken.add(self.queued as u64);
                self.queue = 0;
                self.queued = 0;
                self.failed = true;
                Err(error)
            }
        }
    }

    /// Reads bytes after the queued bits, in pieces of at most `most` bytes.
    #[inline(never)]
    fn fetch_pieces(&mut self, buf: &mut [u8], most: usize) -> Result<(), Error>
        requires fine { self.old.failed ≡ false }
        requires queued { 1 ≤ self.old.queued }
        requires some { 1 ≤ most }
        // Fills the buffer with the next bytes and takes only them, or returns an error.
        ensures reads { Reads ⟦<Self as BitRead>⟧.source (bytes_decoder E.order (length buf.old))
            self.old (result_map (λ _. buf.new) result) self.new }
        // If it succeeds, it made one request if no bit was queued, and otherwise one for each
        // piece of at most `most` bytes. For an empty buffer it made none.
        ensures asks { AsksForBytes most (length buf.old) self.old result self.new }
    {
        let mut at = 0;
        while at < buf.len() {
            let end = at + most.min(buf.len() - at);
            // The call ends at the first piece that fails.
            self.fetch_bytes(&mut buf[at..end])?;
            at = end;
        }
        Ok(())
    }

    /// Fills a buffer with bytes: by one request if the reader is aligned, and otherwise in pieces
    /// of at most `most` bytes.
    #[inline(always)]
    fn fill(&mut self, buf: &mut [u8], most: usize) -> Result<(), Error>
        requires { 1 ≤ most }
        // Fills the buffer with the next bytes and takes only them, or returns an error.
        ensures reads { Reads ⟦<Self as BitRead>⟧.source (bytes_decoder E.order (length buf.old))
            self.old (result_map (λ _. buf.new) result) self.new }
        // If it succeeds, it made one request if no bit was queued, and otherwise one for each
        // piece of at most `most` bytes. For an empty buffer it made none.
        ensures asks { AsksForBytes most (length buf.old) self.old result self.new }
    {
        if self.failed {
            return Err(Error::Failed);
        }
        // Off a byte boundary, the queued bits have to be put before the bytes.
        if self.queued > 0 {
            return self.fetch_pieces(buf, most);
        }
        // An empty buffer needs no request.
        if buf.is_empty() {
            return Ok(());
        }
        // At a byte boundary the bytes are the stream's own bytes.
        self.fetch_aligned(buf)
    }

    /// Drops the queue. Its bits count as taken.
    #[inline(always)]
    fn drop_queue(&mut self)
        ensures { self.new ≡ aligned_reader self.old }
    {
        self.taken.add(self.queued as u64);
        self.queue = 0;
        self.queued = 0;
    }

    /// Skips `bytes` bytes, in pieces.
    fn skip_bytes(&mut self, bytes: usize) -> Result<(), Error>
        ensures { Reads ⟦<Self as BitRead>⟧.source (skip_decoder (8 * bytes)) self.old result self.new }
    {
        if self.failed {
            return Err(Error::Failed);
        }
        // The bytes are read and dropped, since a stream need not be able to seek.
        let mut skipped = [0u8; PIECE];
        let mut left = bytes;
        while left > 0 {
            let piece = left.min(PIECE);
            self.fill(&mut skipped[..piece], PIECE)?;
            left -= piece;
        }
        Ok(())
    }
}

impl<R: Source, E: Endianness> BitRead for BitReader<R, E> {
    ghost use Rattle.bitstream_stream.specs.Reading.Reader.{reader_source, requests_made, AsksForBytes, AsksForWord, TurnsByBytes};

    ghost source = { reader_source R.stream E.order };

    #[inline(always)]
    fn read_unsigned_counted<C: Count, U: UnsignedInteger>(&mut self, bits: C) -> Result<U, Error>
        // Takes only `bits` bits and returns their number, or returns an error.
        ensures reads { Reads ⟦<Self as BitRead>⟧.source
            (unsigned_decoder E.order U.BITS_SIZE (C.number bits))
            self.old (result_map U.value result) self.new }
        ensures asks { AsksForWord (C.number bits) self.old self.new }
    {
        self.read_unsigned_var(bits.bits())
    }

    #[inline(always)]
    fn read_signed_counted<C: SignedCount, S: SignedInteger>(&mut self, bits: C) -> Result<S, Error>
        // Takes only `bits` bits and returns their two's complement, or returns an error.
        ensures reads { Reads ⟦<Self as BitRead>⟧.source
            (signed_decoder E.order S.BITS_SIZE (C.number bits))
            self.old (result_map S.integer result) self.new }
        ensures asks { AsksForWord (C.number bits) self.old self.new }
    {
        self.read_signed_var(bits.bits())
    }

    #[inline(always)]
    fn read_bit(&mut self) -> Result<bool, Error>
        // Takes only one bit and returns it, or returns an error.
        ensures reads { Reads ⟦<Self as BitRead>⟧.source bit_decoder self.old result self.new }
        ensures asks { AsksForWord 1 self.old self.new }
    {
        let bit: u8 = self.read_word(1, true)?;
        Ok(bit % 2 == 1)
    }

    #[inline(always)]
    fn read_unsigned_var<U: UnsignedInteger>(&mut self, bits: u32) -> Result<U, Error>
        // Takes only `bits` bits and returns their number, or returns an error.
        ensures reads { Reads ⟦<Self as BitRead>⟧.source
            (unsigned_decoder E.order U.BITS_SIZE bits)
            self.old (result_map U.value result) self.new }
        ensures asks { AsksForWord bits self.old self.new }
    {
        self.read_word(bits, false)
    }

    #[inline(always)]
    fn read_unsigned<B: Width, U: UnsignedInteger>(&mut self) -> Result<U, Error>
        // Takes only `B::BITS` bits and returns their number, or returns an error.
        ensures reads { Reads ⟦<Self as BitRead>⟧.source
            (unsigned_decoder E.order U.BITS_SIZE B.BITS) self.old (result_map U.value result) self.new }
        ensures asks { AsksForWord B.BITS self.old self.new }
    {
        self.read_word(B::BITS, true)
    }

    #[inline(always)]
    fn read_signed_var<S: SignedInteger>(&mut self, bits: u32) -> Result<S, Error>
        // Takes only `bits` bits and returns their two's complement, or returns an error.
        ensures reads { Reads ⟦<Self as BitRead>⟧.source
            (signed_decoder E.order S.BITS_SIZE bits) self.old (result_map S.integer result) self.new }
        ensures asks { AsksForWord bits self.old self.new }
    {
        self.read_signed_word(bits, false)
    }

    #[inline(always)]
    fn read_signed<B: Width, S: SignedInteger>(&mut self) -> Result<S, Error>
        // Takes only `B::BITS` bits and returns their two's complement, or returns an error.
        ensures reads { Reads ⟦<Self as BitRead>⟧.source
            (signed_decoder E.order S.BITS_SIZE B.BITS) self.old (result_map S.integer result) self.new }
        ensures asks { AsksForWord B.BITS self.old self.new }
    {
        self.read_signed_word(B::BITS, true)
    }

    fn read_const<B: Width, V: Width, F: From<Error> + Drop>(&mut self, err: F) -> Result<(), F>
        requires word { B.BITS ≤ 32 }
        requires value { (V.BITS < 2 ^ B.BITS) ⊎ (B.BITS ≡ 0) }
        // Takes only `B::BITS` bits, and returns `err` unless their number is `V::BITS`. Or returns
        // an error of the read, as an F.
        ensures reads { ReadsConst ⟦<Self as BitRead>⟧.source F.from_gives
            (const_decoder E.order B.BITS V.BITS) err self.old result self.new }
        ensures asks { AsksForWord B.BITS self.old self.new }
    {
        let value: u32 = self.read_unsigned::<B, u32>()?;
        if value == V::BITS { Ok(()) } else { Err(err) }
    }

    #[inline(always)]
    fn read_unary<S: Width>(&mut self) -> Result<u32, Error>
        requires { S.BITS < 2 }
        // Takes only the bits up to and including the stop bit, and returns the number of bits
        // before it. Or returns an error.
        ensures reads { Reads ⟦<Self as BitRead>⟧.source (unary_decoder (S.BITS == 1))
            self.old result self.new }
        // If it succeeds, the number of iterations is one more than the number of bytes that it
        // fetched.
        ensures turns { TurnsByBytes self.old result self.new }
    {
        if self.failed {
            return Err(Error::Failed);
        }
        let stop = S::BITS == 1;
        let queue = self.queue;
        let queued = self.queued;
        // The reader is now in the state after a failed request or a run that is too long: it has
        // failed, and its queue is empty.
        self.queue = 0;
        self.queued = 0;
        self.failed = true;
        match take_unary::<R, E>(&mut self.port, &mut self.turns, queue, queued, stop) {
            Ok(Some(run)) => {
                // The stop bit is taken, too.
                self.taken.add(run.count as u64 + 1);
                self.queue = run.left;
                self.queued = run.queued;
                self.failed = false;
                Ok(run.count)
            }
            Ok(None) => {
                // Only the run is taken. The bits after it in the last byte are lost.
                self.taken.add(1 << 32);
                Err(Error::RunTooLong)
            }
            Err(error) => {
                // All bits of the fetched bytes are taken: none of them is the stop bit.
                self.taken = self.port.fetched_bits();
                Err(error)
            }
        }
    }

    fn read_count<C: Count>(&mut self) -> Result<C, Error>
        requires some { 0 < C.MAX }
        requires full { IsTrue (is_full 32 C.MAX) }
        // Takes only the bits that hold `C::MAX` and returns their count, or returns an error.
        ensures reads { Reads ⟦<Self as BitRead>⟧.source
            (count_decoder E.order C.MAX) self.old (result_map C.number result) self.new }
        ensures asks { AsksForWord (count_width C.MAX) self.old self.new }
    {
        let number = self.read_unsigned_var(count_bits(C::MAX))?;
        match C::of(number) {
            Some(count) => Ok(count),
            // `C::MAX` is 1 less than a power of two, so it is the greatest number that these bits
            // hold.
            None => unreachable!(),
        }
    }

    #[inline(always)]
    fn read_to<V: Primitive>(&mut self) -> Result<V, Error>
        // Takes only `V::BYTES` bytes and returns their value in the order E, or returns an error.
        ensures reads { Reads ⟦<Self as BitRead>⟧.source (bytes_decoder E.order V.BYTES) self.old
            (result_map (value_bytes E.order V.be_bytes V.le_bytes) result) self.new }
        // If it succeeds, it made one request if no bit was queued, and otherwise one for each
        // piece of at most 8 bytes. For an empty buffer it made none.
        ensures asks { AsksForBytes 8 V.BYTES self.old result self.new }
    {
        self.read_as_to::<E, V>()
    }

    #[inline(always)]
    fn read_as_to<F: Endianness, V: Primitive>(&mut self) -> Result<V, Error>
        // Takes only `V::BYTES` bytes and returns their value in the order F, or returns an error.
        ensures reads { Reads ⟦<Self as BitRead>⟧.source (bytes_decoder E.order V.BYTES) self.old
            (result_map (value_bytes F.order V.be_bytes V.le_bytes) result) self.new }
        // If it succeeds, it made one request if no bit was queued, and otherwise one for each
        // piece of at most 8 bytes. For an empty buffer it made none.
        ensures asks { AsksForBytes 8 V.BYTES self.old result self.new }
    {
        let mut bytes = V::buffer();
        self.fill(V::as_bytes_mut(&mut bytes), 8)?;
        Ok(F::value_of_bytes(bytes))
    }

    #[inline(always)]
    fn read_bytes(&mut self, buf: &mut [u8]) -> Result<(), Error>
        // Fills the buffer with the next bytes and takes only them, or returns an error.
        ensures reads { Reads ⟦<Self as BitRead>⟧.source (bytes_decoder E.order (length buf.old))
            self.old (result_map (λ _. buf.new) result) self.new }
        // If it succeeds, it made one request if no bit was queued, and otherwise one for each
        // piece of at most 1024 bytes. For an empty buffer it made none.
        ensures asks { AsksForBytes 1024 (length buf.old) self.old result self.new }
    {
        self.fill(buf, PIECE)
    }

    fn skip(&mut self, bits: u32) -> Result<(), Error> {
        // Up to 128 bits are read as one number.
        if bits <= 128 {
            let _: u128 = self.read_unsigned_var(bits)?;
            return Ok(());
        }
        // The queue is skipped first, so that whole bytes follow.
        let first = self.queued;
        let _: u8 = self.read_unsigned_var(first)?;
        let rest = bits - first;
        self.skip_bytes((rest / 8) as usize)?;
        // Fewer than 8 bits are left, the first ones of one more byte.
        let _: u8 = self.read_unsigned_var(rest % 8)?;
        Ok(())
    }

    fn byte_aligned(&self) -> bool {
        !self.failed && self.queued == 0
    }

    fn byte_align(&mut self)
        // Takes the bits up to the next whole byte. A reader that has failed is unchanged.
        ensures reads { Reads ⟦<Self as BitRead>⟧.source align_decoder
            self.old (Ok tt) self.new }
        ensures requests { requests_made self.new ≡ requests_made self.old }
    {
        self.drop_queue();
    }

    fn fail(&mut self) {
        self.queue = 0;
        self.queued = 0;
        self.failed = true;
    }
}
