//! A sink that records the bits written to it, and plays them to another sink.
ghost use Rattle.std.specs.Prelude.{◌≡◌, ◌≤◌, [], true, false, length, Err, IfOk, OnOk};
ghost use Rattle.bitstream_sink.specs.GrowingWriter.{HoldsAll};

use crate::counter::values::value_of;
use crate::counter::{Counter, Overflowed};
use bitstream_count::count::{Count, SignedCount};
use bitstream_count::error::Error;
use bitstream_number::number::{Primitive, SignedInteger, UnsignedInteger, Width};
use bitstream_order::order::Endianness;
use bitstream_order::streams::growing::Growing;
use bitstream_stream::write::BitWrite;
use bitstream_stream::write::code_word::CodeWord;
use bitstream_stream::write::writer::BitWriter;
use std::alloc::{AllocError, Allocator};
use std::marker::PhantomData;

pub mod best;
pub mod laws;

/// Records the bits written to it, and plays them to another sink of bits, at any position in a
/// byte. A vector holds the whole bytes. The recorder keeps the bits after them, fewer than 8, next
/// to the vector. It returns the number of recorded bits as an N, but N does not limit the
/// recording.
///
/// If an allocation fails, the call returns `OutOfMemory` and the recorder has failed: it keeps its
/// whole bytes, but each later call that writes or plays returns `Failed` until the recorder is
/// cleared.
///
/// # Examples
///
/// ```
/// use bitstream_io::{BE, BitRecorder, BitWrite, BitWriter, Growing};
///
/// let mut recorder = BitRecorder::<u32, BE, _>::new(rt.alloc());
/// recorder.write_unsigned_var(12, 0xb1e_u16)?;
/// let bits = recorder.written_checked()?;
/// let mut writer = BitWriter::<_, BE>::new(Growing::new(Vec::new(rt.alloc())));
/// writer.write_unsigned_var(4, bits)?;
/// recorder.playback(&mut writer)?;
/// assert_eq!(rt; writer.into_writer().as_slice(), [0xcb, 0x1e].as_slice());
/// ```
#[derive(Drop)]
pub struct BitRecorder<N, E, A: Allocator> {
    writer: BitWriter<Growing<A>, E>,
    count: PhantomData<N>,
    ghost all: { HoldsAll writer },
}

impl<N, E: Endianness, A: Allocator> BitRecorder<N, E, A> {
    ghost use Rattle.bitstream_count.specs.declared.error.Error.TheVariants.{Failed};
    ghost use Rattle.bitstream_stream.specs.Writing.Sink.{WritesAll, Appended, Kept};
    ghost use Rattle.bitstream_order.specs.Streaming.Growing.{growing_bytes};
    ghost use Rattle.bitstream_sink.specs.Counter.{Counts};
    ghost use Rattle.bitstream_sink.specs.Recorder.{IsEmptyRecorder, recorded_bits, recorder_failed, playback_encoders};

    /// Returns an empty recorder, which allocates from `alloc`.
    pub fn new(alloc: A) -> BitRecorder<N, E, A>
        ensures { IsEmptyRecorder result }
    {
        BitRecorder::over(Growing::new(Vec::new(alloc)))
    }

    /// Returns an empty recorder with memory for `bytes` bytes.
    ///
    /// # Errors
    ///
    /// `AllocError` if the allocation fails.
    pub fn with_capacity(alloc: A, bytes: usize) -> Result<BitRecorder<N, E, A>, AllocError>
        ensures { IfOk result (λ recorder. IsEmptyRecorder recorder) }
    {
        let vec = Vec::with_capacity(alloc, bytes)?;
        Ok(BitRecorder::over(Growing::new(vec)))
    }

    /// Returns an empty recorder as [`new`](BitRecorder::new) does, but takes its order as an
    /// argument.
    pub fn endian(alloc: A, _order: E) -> BitRecorder<N, E, A>
    where
        E: Drop,
        ensures { IsEmptyRecorder result }
    {
        BitRecorder::new(alloc)
    }

    /// Returns an empty recorder over a vector, which has no bytes yet.
    fn over(bytes: Growing<A>) -> BitRecorder<N, E, A>
        requires { growing_bytes bytes ≡ [] }
        ensures { IsEmptyRecorder result }
    {
        BitRecorder {
            writer: BitWriter::new(bytes),
            count: PhantomData,
        }
    }

    /// Returns the number of bits recorded.
    fn bits(&self) -> u128
        ensures { result ≡ ⟦<Self as BitWrite>⟧.sink.len self.now }
    {
        let bytes = self.writer.stream().as_slice().len();
        bytes as u128 * 8 + u128::from(self.writer.queued())
    }

    /// Returns the number of bits recorded, which must fit N. A recorder that has failed counts
    /// only its whole bytes.
    pub fn written(&self) -> N
    where
        N: Counter,
        requires { length (recorded_bits E.order self.now) ≤ N.greatest }
        ensures bits { N.value result ≡ length (recorded_bits E.order self.now) }
        // It is the length of the recorder as a sink.
        ensures len { N.value result ≡ ⟦<Self as BitWrite>⟧.sink.len self.now }
    {
        match self.written_checked() {
            Ok(written) => written,
            Err(_overflowed) => unreachable!(),
        }
    }

    /// Returns the number of bits recorded. A recorder that has failed counts only its whole bytes.
    ///
    /// # Errors
    ///
    /// `Overflowed` if and only if the number does not fit N.
    pub fn written_checked(&self) -> Result<N, Overflowed>
    where
        N: Counter,
        // Returns the number of bits that were recorded, or an error exactly if N does not hold it.
        ensures bits { Counts N.value N.greatest (length (recorded_bits E.order self.now)) result }
        // The same holds for the recorder's length as a sink.
        ensures len { Counts N.value N.greatest (⟦<Self as BitWrite>⟧.sink.len self.now) result }
    {
        value_of::<N>(self.bits())
    }

    /// Writes the recorded bits to another sink: first the whole bytes, and then the bits after
    /// them as one number. A sink of the same order gets exactly the recorded bits, at any position
    /// in a byte. A sink of the other order writes each byte, and then the number, in its own order
    /// of bits.
    ///
    /// # Errors
    ///
    /// `Failed` if the recorder has failed. If so, nothing is written. Otherwise, the errors of
    /// [`write_bytes`](BitWrite::write_bytes) and
    /// [`write_unsigned_var`](BitWrite::write_unsigned_var) of the sink. If the second call returns
    /// an error, the whole bytes stay written.
    pub fn playback<W: BitWrite>(&self, target: &mut W) -> Result<(), Error>
        // Unless the recorder has failed, the whole bytes are written, and then the bits after them
        // as one number, up to the first error.
        ensures writes { recorder_failed self.now ≡ false →
            WritesAll W.sink (playback_encoders W.sink.order self.now) target.old result target.new }
        // If it succeeds and both have one order, only the recorded bits are appended.
        ensures same_order { W.sink.order ≡ E.order → OnOk result
            (Appended W.sink target.old (recorded_bits E.order self.now) target.new) }
        // If the recorder has failed, `Failed` is returned and nothing is appended.
        ensures failed { recorder_failed self.now ≡ true →
            (result ≡ Err Failed) × Kept W.sink target.old target.new }
    {
        if self.writer.failed() {
            return Err(Error::Failed);
        }
        target.write_bytes(self.writer.stream().as_slice())?;
        target.write_unsigned_var(self.writer.queued(), self.writer.queue())
    }

    /// Clears the recorded bits and any failure. The recorder keeps its memory.
    pub fn clear(&mut self)
        ensures { IsEmptyRecorder self.new }
    {
        self.writer.clear();
    }
}

impl<N, E: Endianness, A: Allocator> BitWrite for BitRecorder<N, E, A> {
    ghost use Rattle.bitstream_sink.specs.Recorder.{recorder_sink};

    ghost sink = { recorder_sink E.order };

    #[inline(always)]
    fn write_unsigned_counted<C: Count, U: UnsignedInteger>(
        &mut self,
        count: C,
        value: U,
    ) -> Result<(), Error> {
        self.writer.write_unsigned_counted(count, value)
    }

    #[inline(always)]
    fn write_signed_counted<C: SignedCount, S: SignedInteger>(
        &mut self,
        count: C,
        value: S,
    ) -> Result<(), Error> {
        self.writer.write_signed_counted(count, value)
    }

    #[inline(always)]
    fn write_from<V: Primitive>(&mut self, value: V) -> Result<(), Error> {
        self.writer.write_from(value)
    }

    #[inline(always)]
    fn write_as_from<F: Endianness, V: Primitive>(&mut self, value: V) -> Result<(), Error> {
        self.writer.write_as_from::<F, V>(value)
    }

    fn byte_aligned(&self) -> bool {
        self.writer.byte_aligned()
    }

    fn has_room(&self, bits: u128) -> bool {
        self.writer.has_room(bits)
    }

    #[inline(always)]
    fn write_bit(&mut self, bit: bool) -> Result<(), Error> {
        self.writer.write_bit(bit)
    }

    #[inline(always)]
    fn write_code_word(&mut self, word: CodeWord) -> Result<(), Error> {
        if word.is_empty() {
            return Ok(());
        }
        self.writer.write_code_word(word)
    }

    #[inline(always)]
    fn write_signed_var<S: SignedInteger>(&mut self, bits: u32, value: S) -> Result<(), Error> {
        self.writer.write_signed_var(bits, value)
    }

    #[inline(always)]
    fn write_unary<S: Width>(&mut self, value: u32) -> Result<(), Error> {
        self.writer.write_unary::<S>(value)
    }

    #[inline(always)]
    fn write_bytes(&mut self, bytes: &[u8]) -> Result<(), Error> {
        self.writer.write_bytes(bytes)
    }

    fn pad(&mut self, bits: u32) -> Result<(), Error> {
        self.writer.pad(bits)
    }

    fn write_unsigned_vbr<F: Width, U: UnsignedInteger>(&mut self, value: U) -> Result<(), Error> {
        self.writer.write_unsigned_vbr::<F, U>(value)
    }
}
