//! Streams that are written block by block.
ghost use Rattle.std.specs.Prelude.{◌≡◌, ◌≤◌, [], length, take, IfErr, IfOk, OnOk};
ghost use Rattle.std.specs.Io.KnownBytes.{Appends, Keeps, WriteAppends};
ghost use Rattle.std.specs.Io.{WritesAtMost};
ghost use Rattle.bitstream_order.specs.Streaming.Growing.{growing_bytes};

use bitstream_order::streams::growing::Growing;
use bitstream_order::streams::target::Target;
use std::alloc::{AllocError, Allocator};
use std::io;
use std::io::{ErrorKind, Write};

/// The number of times that an interrupted request is made again.
const TRIES: u32 = 1_000_000;

/// A stream that is written block by block, as a target of bytes. A `BitWriter` over a `Blockwise` writes faster
/// than over a `BufWriter`.
///
/// Bytes are held until the next ones don't fit into the block. Then the stream gets the whole block. A request for
/// more bytes than a block is passed on. `flush` and `into_inner` send what is held. A `Blockwise` that is dropped
/// sends nothing: call `flush` before.
///
/// If sending the held bytes fails, those not sent are still held. The bytes of a failed write are not held, and
/// some of them may have been sent.
///
/// # Examples
///
/// ```
/// use bitstream_io::{BE, BitWrite, BitWriter, Blockwise};
///
/// let file = Vec::new(rt.alloc());
/// let mut writer = BitWriter::<_, BE>::new(Blockwise::new(rt.alloc(), file)?);
/// writer.write_unsigned_var(12, 0xb1e_u16)?;
/// writer.byte_align()?;
/// writer.flush()?;
/// assert_eq!(rt; writer.into_writer().get_ref().as_slice(), [0xb1, 0xe0].as_slice());
/// ```
#[derive(Drop)]
pub struct Blockwise<W, A: Allocator> {
    writer: W,
    held: Growing<A>,
    // The number of held bytes that were sent before a request failed.
    sent: usize,
    // The greatest number of bytes that are held.
    most: usize,
    ghost few: { sent ≤ length (growing_bytes held) },
    ghost room: { length (growing_bytes held) ≤ most },
}

impl<W: Write, A: Allocator> Blockwise<W, A> {
    ghost use Rattle.bitstream_io.specs.Blockwise.{block_bytes, blockwise_contents, blockwise_writer, held_bytes};

    /// The number of bytes of a block that `new` chooses.
    pub const BLOCK: usize = 8192;

    /// Returns a target that writes to a stream, in blocks of 8,192 bytes. No request is made yet.
    ///
    /// # Errors
    ///
    /// `AllocError` if the allocation fails. The stream is then dropped.
    pub fn new(alloc: A, writer: W) -> Result<Blockwise<W, A>, AllocError>
    where
        W: Drop,
        ensures writer { IfOk result (λ it. blockwise_writer it ≡ writer) }
        ensures held { IfOk result (λ it. held_bytes it ≡ []) }
    {
        Blockwise::with_capacity(alloc, Blockwise::<W, A>::BLOCK, writer)
    }

    /// Returns a target that writes to a stream, in blocks of `bytes` bytes. No request is made yet.
    ///
    /// # Errors
    ///
    /// `AllocError` if the allocation fails. The stream is then dropped.
    pub fn with_capacity(alloc: A, bytes: usize, writer: W) -> Result<Blockwise<W, A>, AllocError>
    where
        W: Drop,
        ensures writer { IfOk result (λ it. blockwise_writer it ≡ writer) }
        ensures held { IfOk result (λ it. held_bytes it ≡ []) }
    {
        Ok(Blockwise {
            writer,
            held: Growing::new(Vec::with_capacity(alloc, bytes)?),
            sent: 0,
            most: bytes,
        })
    }

    /// Returns the stream, by shared reference.
    pub fn get_ref(&self) -> &W
        ensures { result.now ≡ blockwise_writer self.now }
    {
        &self.writer
    }

    /// Returns the bytes that are held.
    pub fn held(&self) -> &[u8]
        ensures { result.now ≡ held_bytes self.now }
    {
        &self.held.as_slice()[self.sent..]
    }

    /// Sends what is held, and returns the stream.
    ///
    /// # Errors
    ///
    /// The error of the stream, with the target. What was not sent is still held.
    pub fn into_inner(self) -> Result<W, (io::Error, Blockwise<W, A>)>
        // The stream has the bytes that it had, and then those that were held, if they are known.
        ensures ok { IfOk result (λ writer. Keeps (blockwise_contents W.contents self) (W.contents writer)) }
        ensures err { IfErr result (λ it. Keeps (blockwise_contents W.contents self) (blockwise_contents W.contents it.1)) }
    {
        let mut this = self;
        match this.send() {
            Ok(()) => Ok(this.writer),
            Err(error) => Err((error, this)),
        }
    }

    /// Sends what is held. The block is then empty, unless a request failed.
    fn send(&mut self) -> io::Result<()>
        ensures bytes { Keeps (blockwise_contents W.contents self.old) (blockwise_contents W.contents self.new) }
        ensures empty { OnOk result (block_bytes self.new ≡ []) }
    {
        let (sent, result) = send_all(&mut self.writer, &self.held.as_slice()[self.sent..]);
        self.sent += sent;
        result?;
        self.held.clear();
        self.sent = 0;
        Ok(())
    }

    /// Sends what is held, and then holds or sends these bytes.
    #[cold]
    #[inline(never)]
    fn write_next(&mut self, bytes: &[u8]) -> io::Result<()>
        ensures { OnOk result (Appends (blockwise_contents W.contents self.old)
            (blockwise_contents W.contents self.new) bytes.now) }
    {
        self.send()?;
        if bytes.len() > self.most {
            return Write::write_all(&mut self.writer, bytes);
        }
        Target::write_all(&mut self.held, bytes)
    }
}

/// Makes one request, again if a signal interrupted it.
fn send_some<W: Write>(writer: &mut W, bytes: &[u8]) -> io::Result<usize>
    ensures bound { WritesAtMost result bytes.now }
    ensures bytes { WriteAppends (W.contents writer.old) (W.contents writer.new) result bytes.now }
{
    for _try in 0..TRIES {
        match writer.write(bytes) {
            Ok(count) => return Ok(count),
            Err(error) => {
                if error.kind() != ErrorKind::Interrupted {
                    return Err(error);
                }
            }
        }
    }
    Err(io::Error::from(ErrorKind::Interrupted))
}

/// Sends bytes until all are sent or a request fails. Returns how many were sent.
fn send_all<W: Write>(writer: &mut W, bytes: &[u8]) -> (usize, io::Result<()>)
    ensures bound { result.0 ≤ length bytes.now }
    ensures all { OnOk result.1 (result.0 ≡ length bytes.now) }
    ensures bytes { Appends (W.contents writer.old) (W.contents writer.new) (take result.0 bytes.now) }
{
    let mut sent = 0;
    while sent < bytes.len() {
        match send_some(writer, &bytes[sent..]) {
            Ok(0) => return (sent, Err(io::Error::from(ErrorKind::WriteZero))),
            Ok(count) => sent += count,
            Err(error) => return (sent, Err(error)),
        }
    }
    (sent, Ok(()))
}

impl<W: Write, A: Allocator> Target for Blockwise<W, A> {
    ghost use Rattle.bitstream_io.specs.Blockwise.{blockwise_stream};

    ghost stream = { blockwise_stream W.contents };

    #[inline(always)]
    fn write_all(&mut self, bytes: &[u8]) -> io::Result<()> {
        if bytes.len() > self.most - self.held.as_slice().len() {
            return self.write_next(bytes);
        }
        Target::write_all(&mut self.held, bytes)
    }

    fn flush(&mut self) -> io::Result<()> {
        self.send()?;
        Write::flush(&mut self.writer)
    }
}
