//! A writer of bits to a stream of bytes.
ghost use Rattle.std.specs.Prelude.{◌≡◌, ℕ, ◌+◌, ◌*◌, ◌<◌, ◌≤◌, ◌^◌, ◌⊎◌, ◌==◌, ◌++◌, Bool, false, true, List, length, replicate, OnOk, Err};

use crate::piece::PIECE;
use crate::vbr::{most_gathered, split_group};
use crate::width::{check, check_signed, count_bits};
use crate::write::BitWrite;
use crate::write::code_word::CodeWord;
use crate::write::run::run_without_stop;
use bitstream_count::count::{Count, SignedCount};
use bitstream_count::error::Error;
use bitstream_number::number::{Numeric, Primitive, SignedInteger, UnsignedInteger, Width};
use bitstream_order::kernels::send::send_prefix;
use bitstream_order::kernels::shift::shift;
use bitstream_order::kernels::sign::complement;
use bitstream_order::order::Endianness;
use bitstream_order::port::Port;
use bitstream_order::streams::target::Target;
use std::marker::PhantomData;

mod convert;
mod memory;
mod queue;

/// Writes bits to a stream of bytes. A byte is sent as soon as it is full, so fewer than 8 bits are
/// queued at any time.
///
/// # Warning
///
/// Bits after the last whole byte are lost when the writer is dropped: call
/// [`byte_align`](BitWrite::byte_align) first.
///
/// # Examples
///
/// ```
/// use bitstream_io::{BE, BitWrite, BitWriter, Bits};
///
/// let mut writer = BitWriter::<_, BE>::new(Vec::new(rt.alloc()));
/// writer.write_unsigned::<Bits<4>, u8>(0xb)?;
/// writer.write_signed_var::<i8>(4, -3)?;
/// writer.write_bit(true)?;
/// writer.byte_align()?;
/// assert_eq!(rt; writer.into_writer().as_slice(), [0xbd, 0x80].as_slice());
/// ```
#[derive(Drop)]
pub struct BitWriter<W, E> {
    port: Port<W>,
    queue: u8,
    queued: u32,
    failed: bool,
    order: PhantomData<E>,
    ghost few: { queued < 8 },
    ghost small: { queue < 2 ^ queued },
    ghost empty: { failed ≡ true → queued ≡ 0 },
}

impl<W: Target, E: Endianness> BitWriter<W, E> {
    ghost use Rattle.bitstream_number.specs.Word.{word, bits};
    ghost use Rattle.bitstream_order.specs.Refusal.{MayRefuseWrite};
    ghost use Rattle.bitstream_stream.specs.Writing.Carries.{failed_writer};
    ghost use Rattle.bitstream_stream.specs.Writing.CodeWord.{code_bits};
    ghost use Rattle.bitstream_stream.specs.Writing.Sink.{WritesAll};
    ghost use Rattle.bitstream_stream.specs.Writing.WriteTable.{bit_by_bit};
    ghost use Rattle.bitstream_stream.specs.Writing.Writer.{writer_state, writer_sink, new_writer_state, queued_bits, queue_number, has_failed, requests_made, AsksForBytes, AsksForWord, Pushes};

    /// Returns a writer to a stream. No request is made yet.
    pub fn new(stream: W) -> BitWriter<W, E>
        ensures { writer_state W.stream result
            ≡ new_writer_state (W.stream.contents stream) (W.stream.references stream) }
    {
        BitWriter {
            port: Port::new(stream),
            queue: 0,
            queued: 0,
            failed: false,
            order: PhantomData,
        }
    }

    /// Does what [`new`](BitWriter::new) does, with the order as an argument.
    pub fn endian(stream: W, _order: E) -> BitWriter<W, E>
    where
        E: Drop,
        ensures { writer_state W.stream result
            ≡ new_writer_state (W.stream.contents stream) (W.stream.references stream) }
    {
        BitWriter::new(stream)
    }

    /// Makes the writer fail, drops its queue, and returns the error of the failed request.
    fn refuse(&mut self, error: Error) -> Result<(), Error>
        ensures answer { result ≡ Err error }
        // The writer has failed with an empty queue; nothing else has changed.
        ensures fails { writer_state W.stream self.new
            ≡ failed_writer (writer_state W.stream self.old) }
        ensures requests { requests_made self.new ≡ requests_made self.old }
    {
        self.queue = 0;
        self.queued = 0;
        self.failed = true;
        Err(error)
    }

    /// Writes the n lowest bits of a value.
    #[inline(always)]
    fn push<U: UnsignedInteger>(&mut self, value: U, n: u32) -> Result<(), Error>
        requires sound { self.old.failed ≡ false }
        requires room { n ≤ U.BITS_SIZE }
        // Writes only the n lowest bits of the value, or a request fails, and so does the writer.
        ensures pushes { Pushes (MayRefuseWrite W.stream) E.order (word E.order n (U.value value))
            (writer_state W.stream self.old) result (writer_state W.stream self.new) }
        ensures asks { AsksForWord n self.old self.new }
    {
        // No byte is full yet, so nothing is sent.
        if self.queued + n < 8 {
            let part = E::cut(value, n, 0, n);
            self.queue = E::put::<u8>(self.queue, self.queued, part, n);
            self.queued += n;
            return Ok(());
        }
        match send_prefix::<W, E, U>(&mut self.port, self.queue, self.queued, value, n) {
            Ok(gone) => {
                // The bits that filled no byte are the new queue.
                self.queue = E::cut(value, n, gone, n - gone);
                self.queued = n - gone;
                Ok(())
            }
            Err(error) => self.refuse(error),
        }
    }

    /// Sends a byte by one request: the queued bits, and then the next bits of a code word.
    #[inline(always)]
    fn send_full(&mut self, byte: u8) -> Result<(), Error>
        requires { self.old.failed ≡ false }
        // The bits of the byte after the queued bits are written one by one.
        ensures writes { (x : List Bool) → word E.order (queued_bits self.old) (queue_number self.old) ++ x
            ≡ word E.order 8 byte → WritesAll (writer_sink W.stream E.order) (bit_by_bit x) self.old result self.new }
        // If it succeeds, no bit is queued.
        ensures sound { OnOk result (has_failed self.new ≡ false) }
        ensures empty { OnOk result (queued_bits self.new ≡ 0) }
    {
        match self.port.send(&[byte]) {
            Ok(()) => {
                (self.queue, self.queued) = (0, 0);
                Ok(())
            }
            Err(error) => self.refuse(error),
        }
    }

    /// Writes the bits of a code word by a call each.
    #[inline(never)]
    fn push_each(&mut self, word: CodeWord) -> Result<(), Error>
        ensures { WritesAll (writer_sink W.stream E.order) (bit_by_bit (code_bits word)) self.old result self.new }
    {
        for at in 0..word.len() {
            self.write_bit(word.bit(at))?;
        }
        Ok(())
    }

    /// Writes bytes by one request. The queue must be empty.
    #[inline(always)]
    fn send_aligned(&mut self, bytes: &[u8]) -> Result<(), Error>
        requires sound { self.old.failed ≡ false }
        requires none { self.old.queued ≡ 0 }
        requires some { 1 ≤ length bytes.now }
        // Writes only these bytes, or a request fails, and so does the writer.
        ensures pushes { Pushes (MayRefuseWrite W.stream) E.order (bits E.order bytes.now)
            (writer_state W.stream self.old) result (writer_state W.stream self.new) }
        ensures requests { requests_made self.new ≡ requests_made self.old + 1 }
    {
        match self.port.send(bytes) {
            Ok(()) => Ok(()),
            Err(error) => self.refuse(error),
        }
    }

    /// Writes bytes by one request, after the queued bits. They are shifted in place.
    fn send_shifted(&mut self, bytes: &mut [u8]) -> Result<(), Error>
        requires sound { self.old.failed ≡ false }
        requires queued { 1 ≤ self.old.queued }
        requires some { 1 ≤ length bytes.old }
        // Writes only the bytes as they were, or a request fails, and so does the writer.
        ensures pushes { Pushes (MayRefuseWrite W.stream) E.order (bits E.order bytes.old)
            (writer_state W.stream self.old) result (writer_state W.stream self.new) }
        ensures queued { OnOk result (queued_bits self.new ≡ queued_bits self.old) }
        ensures requests { requests_made self.new ≡ requests_made self.old + 1 }
    {
        // The queued bits go first, and the same number of last bits is left over.
        let left = shift::<E>(self.queue, self.queued, bytes);
        match self.port.send(bytes) {
            Ok(()) => {
                self.queue = left;
                Ok(())
            }
            Err(error) => self.refuse(error),
        }
    }

    /// Writes bytes after the queued bits, in pieces of at most N bytes.
    #[inline(never)]
    fn send_pieces<const N: usize>(&mut self, bytes: &[u8]) -> Result<(), Error>
        requires sound { self.old.failed ≡ false }
        requires queued { 1 ≤ self.old.queued }
        requires some { 1 ≤ N }
        requires few { N ≤ 1024 }
        // Writes only these bytes, or a request fails, and so does the writer.
        ensures pushes { Pushes (MayRefuseWrite W.stream) E.order (bits E.order bytes.now)
            (writer_state W.stream self.old) result (writer_state W.stream self.new) }
        // If it succeeds, it made one request if no bit was queued, and otherwise one for each
        // piece of at most N bytes. For an empty buffer it made none.
        ensures asks { AsksForBytes N (length bytes.now) self.old result self.new }
    {
        // The caller's bytes must not change, so a copy is shifted.
        let mut scratch = [0u8; N];
        let mut at = 0;
        while at < bytes.len() {
            let end = at + N.min(bytes.len() - at);
            let piece = &mut scratch[..end - at];
            piece.copy_from_slice(&bytes[at..end]);
            self.send_shifted(piece)?;
            at = end;
        }
        Ok(())
    }

    /// Writes bytes: by one request if the writer is aligned, and otherwise in pieces of at most N
    /// bytes.
    #[inline(always)]
    fn push_bytes<const N: usize>(&mut self, bytes: &[u8]) -> Result<(), Error>
        requires sound { self.old.failed ≡ false }
        requires some { 1 ≤ N }
        requires few { N ≤ 1024 }
        // Writes only these bytes, or a request fails, and so does the writer.
        ensures pushes { Pushes (MayRefuseWrite W.stream) E.order (bits E.order bytes.now)
            (writer_state W.stream self.old) result (writer_state W.stream self.new) }
        // If it succeeds, it made one request if no bit was queued, and otherwise one for each
        // piece of at most N bytes. For an empty buffer it made none.
        ensures asks { AsksForBytes N (length bytes.now) self.old result self.new }
    {
        // Off a byte boundary, the queued bits have to be put before the bytes.
        if self.queued > 0 {
            return self.send_pieces::<N>(bytes);
        }
        // An empty buffer needs no request.
        if bytes.is_empty() {
            return Ok(());
        }
        // At a byte boundary the bytes are sent as they are.
        self.send_aligned(bytes)
    }

    /// Writes `bytes` zero bytes, in pieces.
    fn push_zeros(&mut self, bytes: usize) -> Result<(), Error>
        requires { self.old.failed ≡ false }
        ensures { Pushes (MayRefuseWrite W.stream) E.order (replicate (8 * bytes) false)
            (writer_state W.stream self.old) result (writer_state W.stream self.new) }
    {
        let zeros = [0u8; PIECE];
        let mut left = bytes;
        while left > 0 {
            let piece = left.min(PIECE);
            self.push_bytes::<PIECE>(&zeros[..piece])?;
            left -= piece;
        }
        Ok(())
    }
}

impl<W: Target, E: Endianness> BitWrite for BitWriter<W, E> {
    ghost use Rattle.bitstream_number.specs.Word.{word, count_width};
    ghost use Rattle.bitstream_order.specs.Parts.{value_bytes};
    ghost use Rattle.bitstream_stream.specs.Writing.Writer.{writer_sink, AsksForBytes, AsksForWord};
    ghost use Rattle.bitstream_stream.specs.Writing.CodeWord.{code_bits};
    ghost use Rattle.bitstream_stream.specs.Writing.Sink.{Writes, WritesAll};
    ghost use Rattle.bitstream_stream.specs.Writing.WriteTable.{unsigned, signed, plain, unary_word, bit as one_bit, bit_by_bit, count as count_decoder, buffer};

    ghost sink = { writer_sink W.stream E.order };

    #[inline(always)]
    fn write_unsigned_counted<C: Count, U: UnsignedInteger>(
        &mut self,
        count: C,
        value: U,
    ) -> Result<(), Error>
        // Appends only the encoding of the value in `count` bits, or returns an error.
        ensures writes { Writes ⟦<Self as BitWrite>⟧.sink
            (unsigned E.order U.BITS_SIZE (C.number count) (U.value value))
            self.old result self.new }
        ensures asks { AsksForWord (C.number count) self.old self.new }
    {
        self.write_unsigned_var(count.bits(), value)
    }

    #[inline(always)]
    fn write_signed_counted<C: SignedCount, S: SignedInteger>(
        &mut self,
        count: C,
        value: S,
    ) -> Result<(), Error>
        // Appends only the two's complement of the value in `count` bits, or returns an error.
        ensures writes { Writes ⟦<Self as BitWrite>⟧.sink
            (signed E.order S.BITS_SIZE (C.number count) (S.integer value))
            self.old result self.new }
        ensures asks { AsksForWord (C.number count) self.old self.new }
    {
        self.write_signed_var(count.bits(), value)
    }

    #[inline(always)]
    fn write_unsigned_var<U: UnsignedInteger>(&mut self, bits: u32, value: U) -> Result<(), Error>
        // Appends only the encoding of the value in `bits` bits, or returns an error.
        ensures writes { Writes ⟦<Self as BitWrite>⟧.sink
            (unsigned E.order U.BITS_SIZE bits (U.value value))
            self.old result self.new }
        ensures asks { AsksForWord bits self.old self.new }
    {
        if self.failed {
            return Err(Error::Failed);
        }
        // Tested before anything is written, so a rejected write appends no bit.
        check(bits, value)?;
        self.push(value, bits)
    }

    #[inline(always)]
    fn write_unsigned<B: Width, U: UnsignedInteger>(&mut self, value: U) -> Result<(), Error>
        // Appends only the encoding of the value in `B::BITS` bits, or returns an error.
        ensures writes { Writes ⟦<Self as BitWrite>⟧.sink
            (unsigned E.order U.BITS_SIZE B.BITS (U.value value))
            self.old result self.new }
        ensures asks { AsksForWord B.BITS self.old self.new }
    {
        self.write_unsigned_var(B::BITS, value)
    }

    #[inline(always)]
    fn write_signed_var<S: SignedInteger>(&mut self, bits: u32, value: S) -> Result<(), Error>
        // Appends only the two's complement of the value in `bits` bits, or returns an error.
        ensures writes { Writes ⟦<Self as BitWrite>⟧.sink
            (signed E.order S.BITS_SIZE bits (S.integer value))
            self.old result self.new }
        ensures asks { AsksForWord bits self.old self.new }
    {
        if self.failed {
            return Err(Error::Failed);
        }
        // Tested before anything is written, so a rejected write appends no bit.
        check_signed(bits, value)?;
        self.push(complement(value, bits), bits)
    }

    #[inline(always)]
    fn write_signed<B: Width, S: SignedInteger>(&mut self, value: S) -> Result<(), Error>
        // Appends only the two's complement of the value in `B::BITS` bits, or returns an error.
        ensures writes { Writes ⟦<Self as BitWrite>⟧.sink
            (signed E.order S.BITS_SIZE B.BITS (S.integer value))
            self.old result self.new }
        ensures asks { AsksForWord B.BITS self.old self.new }
    {
        self.write_signed_var(B::BITS, value)
    }

    fn write_const<B: Width, V: Width>(&mut self) -> Result<(), Error>
        requires word { B.BITS ≤ 32 }
        requires value { (V.BITS < 2 ^ B.BITS) ⊎ (B.BITS ≡ 0) }
        // Appends only the encoding of `V::BITS` in `B::BITS` bits, or returns an error.
        ensures writes { Writes ⟦<Self as BitWrite>⟧.sink
            (plain (word E.order B.BITS V.BITS)) self.old result self.new }
        ensures asks { AsksForWord B.BITS self.old self.new }
    {
        self.write_unsigned::<B, u32>(V::BITS)
    }

    #[inline(always)]
    fn write_unary<S: Width>(&mut self, value: u32) -> Result<(), Error>
        requires { S.BITS < 2 }
        // Appends only `value` bits that are not the stop bit, and then the stop bit. Or returns an
        // error.
        ensures writes { Writes ⟦<Self as BitWrite>⟧.sink (unary_word (S.BITS == 1) value)
            self.old result self.new }
        // For a value below 64 at most one request is made, and none if no byte is filled.
        ensures asks { value < 64 → AsksForWord (value + 1) self.old self.new }
    {
        if self.failed {
            return Err(Error::Failed);
        }
        let stop = S::BITS == 1;
        // A long run is written as 64-bit numbers whose bits all differ from the stop bit.
        for _done in 0..value / 64 {
            self.push(run_without_stop::<u64>(stop, 64), 64)?;
        }
        // The last bits before the stop bit, fewer than 64, are one number with the stop bit.
        let last = value % 64;
        self.push(
            E::put::<u64>(run_without_stop(stop, last), last, u64::from(stop), 1),
            last + 1,
        )
    }

    fn write_count<C: Count>(&mut self, count: C) -> Result<(), Error>
        // Appends only the count, in the bits that hold `C::MAX`, or returns an error.
        ensures writes { Writes ⟦<Self as BitWrite>⟧.sink
            (count_decoder E.order C.MAX (C.number count)) self.old result self.new }
        ensures asks { AsksForWord (count_width C.MAX) self.old self.new }
    {
        self.write_unsigned_var(count_bits(C::MAX), count.bits())
    }

    #[inline(always)]
    fn write_bit(&mut self, bit: bool) -> Result<(), Error>
        // Appends only this bit, or returns an error.
        ensures writes { Writes ⟦<Self as BitWrite>⟧.sink (one_bit bit)
            self.old result self.new }
        ensures asks { AsksForWord 1 self.old self.new }
    {
        if self.failed {
            return Err(Error::Failed);
        }
        self.push(u8::from(bit), 1)
    }

    #[inline(always)]
    fn write_code_word(&mut self, word: CodeWord) -> Result<(), Error>
        // Appends the bits one by one, up to the first that is refused.
        ensures writes { WritesAll ⟦<Self as BitWrite>⟧.sink (bit_by_bit (code_bits word))
            self.old result self.new }
    {
        let bits = word.len();
        // The queue and more than 56 bits are more than a `u64` holds.
        if self.failed || bits == 0 || bits > 56 {
            return self.push_each(word);
        }
        let total = self.queued + bits;
        let all = E::put(u64::from(self.queue), self.queued, word.number::<E>(), bits);
        // No byte is full yet, so nothing is sent.
        if total < 8 {
            (self.queue, self.queued) = (all as u8, total);
            return Ok(());
        }
        let mut left = total;
        while left >= 8 {
            self.send_full(E::cut(all, total, total - left, 8))?;
            left -= 8;
        }
        (self.queue, self.queued) = (E::cut(all, total, total - left, left), left);
        Ok(())
    }

    #[inline(always)]
    fn write_from<V: Primitive>(&mut self, value: V) -> Result<(), Error>
        // Appends only the bytes of the value in the order E, or returns an error.
        ensures writes { Writes ⟦<Self as BitWrite>⟧.sink
            (buffer E.order (value_bytes E.order V.be_bytes V.le_bytes value))
            self.old result self.new }
        // If it succeeds, it made one request if no bit was queued, and otherwise one for each
        // piece of at most 8 bytes. For an empty buffer it made none.
        ensures asks { AsksForBytes 8 V.BYTES self.old result self.new }
    {
        self.write_as_from::<E, V>(value)
    }

    #[inline(always)]
    fn write_as_from<F: Endianness, V: Primitive>(&mut self, value: V) -> Result<(), Error>
        // Appends only the bytes of the value in the order F, or returns an error.
        ensures writes { Writes ⟦<Self as BitWrite>⟧.sink
            (buffer E.order (value_bytes F.order V.be_bytes V.le_bytes value))
            self.old result self.new }
        // If it succeeds, it made one request if no bit was queued, and otherwise one for each
        // piece of at most 8 bytes. For an empty buffer it made none.
        ensures asks { AsksForBytes 8 V.BYTES self.old result self.new }
    {
        let bytes = F::value_to_bytes(value);
        if self.failed {
            return Err(Error::Failed);
        }
        self.push_bytes::<8>(V::as_bytes(&bytes))
    }

    #[inline(always)]
    fn write_bytes(&mut self, bytes: &[u8]) -> Result<(), Error>
        // Appends only these bytes, or returns an error.
        ensures writes { Writes ⟦<Self as BitWrite>⟧.sink (buffer E.order bytes.now)
            self.old result self.new }
        // If it succeeds, it made one request if no bit was queued, and otherwise one for each
        // piece of at most 1024 bytes. For an empty buffer it made none.
        ensures asks { AsksForBytes 1024 (length bytes.now) self.old result self.new }
    {
        if self.failed {
            return Err(Error::Failed);
        }
        self.push_bytes::<PIECE>(bytes)
    }

    fn pad(&mut self, bits: u32) -> Result<(), Error> {
        if self.failed {
            return Err(Error::Failed);
        }
        // Up to 128 zeros are written as one number.
        if bits <= 128 {
            return self.push(0u128, bits);
        }
        // The queue is filled up first, so that whole bytes follow.
        let first = (8 - self.queued) % 8;
        self.push(0u8, first)?;
        let rest = bits - first;
        self.push_zeros((rest / 8) as usize)?;
        // Fewer than 8 zeros are left, which stay in the queue.
        self.push(0u8, rest % 8)
    }

    fn byte_align(&mut self) -> Result<(), Error> {
        if self.failed {
            return Err(Error::Failed);
        }
        self.push(0u8, (8 - self.queued) % 8)
    }

    fn write_unsigned_vbr<F: Width, U: UnsignedInteger>(&mut self, value: U) -> Result<(), Error> {
        if self.failed {
            return Err(Error::Failed);
        }
        // The groups that fit in U are gathered into one number.
        let most = most_gathered::<F, U>();
        let mut word = U::ZERO;
        let mut bits = 0;
        let mut rest = value;
        while let Some((group, next)) = split_group::<F, U>(rest) {
            word = E::put(word, bits, group, F::BITS);
            bits += F::BITS;
            rest = next;
            // There may be no room for another group.
            if bits > most {
                self.push(word, bits)?;
                word = U::ZERO;
                bits = 0;
            }
        }
        // The last group is added to the gathered groups, if there are any.
        if bits == 0 {
            self.push(rest, F::BITS)
        } else {
            self.push(E::put(word, bits, rest, F::BITS), bits + F::BITS)
        }
    }

    fn byte_aligned(&self) -> bool {
        !self.failed && self.queued == 0
    }

    fn has_room(&self, _bits: u128) -> bool {
        true
    }
}
