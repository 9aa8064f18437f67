//! Buffered streams as sources of bytes.
ghost use Rattle.std.specs.Prelude.{◌≡◌, ◌≤◌, Ok, true, false, length, take};
ghost use Rattle.std.specs.Io.KnownBytes.{Consumes, Keeps};
ghost use Rattle.bitstream_io.specs.Buffered.{buffered_reader, buffered_stream};

use bitstream_order::streams::source::Source;
use std::io;
use std::io::{BufRead, ErrorKind, Read};

/// A buffered stream, such as a `BufReader`, as a source of bytes. Each request copies the bytes from the buffer
/// of the stream, if the buffer holds enough bytes. A `BitReader` over a `Buffered` reads faster than over the
/// stream itself.
///
/// The reader requests a byte only when a bit of it is needed, as over any source. If the buffer holds too few
/// bytes, the stream fills it again, by a request for a whole block. So the file below is at the position after
/// the buffered bytes. The errors are the errors of the stream.
///
/// # Examples
///
/// ```
/// use bitstream_io::{BE, BitRead, BitReader, Buffered};
/// use std::io::BufReader;
///
/// let file = BufReader::new(rt.alloc(), [0xb1, 0xed].as_slice())?;
/// let mut reader = BitReader::<_, BE>::new(Buffered::new(file));
/// assert_eq!(rt; reader.read_unsigned_var::<u16>(12)?, 0xb1e);
/// ```
#[derive(Drop)]
pub struct Buffered<B> {
    reader: B,
}

impl<B: BufRead> Buffered<B> {
    /// Returns a source of the bytes of a buffered stream. No request is made yet.
    pub fn new(reader: B) -> Buffered<B>
        ensures { buffered_reader result ≡ reader }
    {
        Buffered { reader }
    }

    /// Returns the stream, by shared reference.
    pub fn get_ref(&self) -> &B
        ensures { result.now ≡ buffered_reader self.now }
    {
        &self.reader
    }

    /// Returns the stream. It still has all bytes that were not requested.
    pub fn into_inner(self) -> B
        ensures { result ≡ buffered_reader self }
    {
        self.reader
    }
}

/// Fills the first `count` bytes of a buffer from the bytes that a stream holds, and returns true. Returns false
/// if the stream holds fewer than `count` bytes. The rest of the buffer is unspecified.
#[inline(always)]
fn take_held<B: BufRead>(
    reader: &mut B,
    buf: &mut [u8],
    count: usize,
    constant: bool,
) -> io::Result<bool>
    requires { count ≤ length buf.old }
    // If it returns true, the first `count` bytes are the next bytes and they are taken, if the bytes left are known.
    ensures taken { result ≡ Ok true
        → Consumes (B.remaining reader.old) (B.remaining reader.new) (take count buf.new) }
    // If it returns false, no byte was taken.
    ensures kept { result ≡ Ok false → Keeps (B.remaining reader.old) (B.remaining reader.new) }
{
    match reader.fill_buf() {
        Ok(held) => {
            if held.len() < count {
                return Ok(false);
            }
            copy_held(buf, held, count, constant);
        }
        // The caller repeats an interrupted request.
        Err(error) => {
            if error.kind() == ErrorKind::Interrupted {
                return Ok(false);
            }
            return Err(error);
        }
    }
    reader.consume(count);
    Ok(true)
}

/// Copies the first `count` bytes. The caller proves that there are enough bytes.
#[inline(always)]
fn copy_held(buf: &mut [u8], held: &[u8], count: usize, constant: bool)
    requires room { count ≤ length buf.old }
    requires there { count ≤ length held.now }
    ensures { take count buf.new ≡ take count held.now }
{
    // A copy of the whole buffer, whose length is usually constant, is faster.
    if constant || held.len() < buf.len() {
        buf[..count].copy_from_slice(&held[..count]);
    } else {
        let len = buf.len();
        buf.copy_from_slice(&held[..len]);
    }
}

impl<B: BufRead> Source for Buffered<B> {
    ghost stream = { buffered_stream B.remaining };

    #[inline(always)]
    fn read_exact(&mut self, buf: &mut [u8]) -> io::Result<()> {
        let count = buf.len();
        self.read_prefix(buf, count, true)
    }

    #[inline(always)]
    fn read_prefix(&mut self, buf: &mut [u8], count: usize, constant: bool) -> io::Result<()> {
        // Zero bytes need no request.
        if count == 0 || take_held(&mut self.reader, buf, count, constant)? {
            return Ok(());
        }
        // The bytes in the buffer, and the bytes of the next blocks.
        Read::read_exact(&mut self.reader, &mut buf[..count])
    }
}
