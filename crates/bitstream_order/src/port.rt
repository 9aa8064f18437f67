//! A stream, with counts of the requests made to it. Only contracts see the counts.
ghost use Rattle.std.specs.Prelude.{◌≡◌, ◌≤◌, ◌*◌, [], ◌∷◌, IfSome, Ok, OnOk, length, pos, take};
ghost use Rattle.std.specs.Io.KnownBytes.{Keeps};
ghost use Rattle.std.specs.Io.Seek.{StaysAt, SeekMoves};
ghost use Rattle.std.specs.IoError.{error_kind};
ghost use Rattle.std.specs.declared.io.traits.SeekFrom.TheVariants.{Current};
ghost use Rattle.bitstream_order.specs.Fault.{read_refusal_of, refusal_of};
ghost use Rattle.bitstream_order.specs.Refusal.{Refusal, MayRefuseRead, MayRefuseSeek, MayRefuseWrite, refused_read, refused_write};
ghost use Rattle.bitstream_order.specs.Port.{source_state, target_state, fetched_count, sent_count, requests_count, port_refusals, port_stream, with_stream, Fetches, Sends, Seeks, Places};

use crate::ghosts::{GhostCount, GhostRefusals};
use crate::streams::seek::SeekSource;
use crate::streams::source::Source;
use crate::streams::target::Target;
use bitstream_count::error::Error;
use std::io;
use std::io::{ErrorKind, SeekFrom};
use std::snapshot::Snapshot;

/// A stream, with counts of the requests made to it. While a port holds a stream, only the port
/// requests bytes from it or sends bytes to it. The counts take no memory at run time.
#[derive(Drop)]
pub struct Port<S> {
    stream: S,
    fetched: GhostCount,
    sent: GhostCount,
    requests: GhostCount,
    refusals: GhostRefusals,
}

/// Converts the error of a failed request that is not a read.
fn refusal(error: io::Error) -> Error
    ensures { result ≡ refusal_of (error_kind error) }
{
    match error.kind() {
        ErrorKind::OutOfMemory => Error::OutOfMemory,
        kind => Error::Stream(kind),
    }
}

/// Converts the error of a failed read.
fn read_refusal(error: io::Error) -> Error
    ensures { result ≡ read_refusal_of (error_kind error) }
{
    match error.kind() {
        ErrorKind::UnexpectedEof => Error::EndOfInput,
        _ => refusal(error),
    }
}

/// Adds a failed request for bytes to the list of failed requests.
fn record_refused_read<S: Source>(
    refusals: &mut GhostRefusals,
    _before: &Snapshot<S>,
    _after: &S,
    _wanted: usize,
    _error: &io::Error,
)
    ghost by: { Refusal }
    requires { by ≡ refused_read S.stream _before.now.value _wanted (error_kind _error.now) _after.now }
    ensures { refusals.new.list ≡ by ∷ refusals.old.list }
{
    refusals.push(0);
}

/// Adds a failed request to send bytes to the list of failed requests.
fn record_refused_write<S: Target>(
    refusals: &mut GhostRefusals,
    _before: &Snapshot<S>,
    _after: &S,
    _wanted: usize,
    _error: &io::Error,
)
    ghost by: { Refusal }
    requires { by ≡ refused_write S.stream _before.now.value _wanted (error_kind _error.now) _after.now }
    ensures { refusals.new.list ≡ by ∷ refusals.old.list }
{
    refusals.push(0);
}

impl<S> Port<S> {
    ghost use Rattle.std.specs.Borrow.{Lends, sem};
    ghost use Rattle.bitstream_order.specs.contracts.port.Port.{the_row};

    /// Returns a port to a stream. No request has been made through it yet.
    pub fn new(stream: S) -> Port<S>
        // The port holds this stream.
        ensures stream { port_stream result ≡ stream }
        // No byte was fetched yet.
        ensures fetched { fetched_count result ≡ 0 }
        // No byte was sent yet.
        ensures sent { sent_count result ≡ 0 }
        ensures requests { requests_count result ≡ 0 }
        // No request has failed yet.
        ensures refusals { port_refusals result ≡ [] }
    {
        Port {
            stream,
            fetched: GhostCount::new(),
            sent: GhostCount::new(),
            requests: GhostCount::new(),
            refusals: GhostRefusals::new(),
        }
    }

    /// Returns the stream, by mutable reference. Requests made through the reference are not
    /// counted.
    pub fn lend(&mut self) -> &mut S
        ensures value { result.now ≡ port_stream self.old }
        // When the borrow ends, the port holds the stream with the borrower's changes. The counts
        // are unchanged.
        ensures* writes_back { sem 𝓛
            (Lends (the_row S.row) S.row self.entry result (with_stream self.old)) }
    {
        &mut self.stream
    }

    /// Returns the stream, by shared reference.
    pub fn stream(&self) -> &S
        ensures { result.now ≡ port_stream self.now }
    {
        &self.stream
    }

    /// Resets all counts to 0 and empties the list of failed requests. The stream is unchanged.
    pub fn restart(&mut self)
        // The stream is unchanged.
        ensures stream { port_stream self.new ≡ port_stream self.old }
        // No byte counts as fetched.
        ensures fetched { fetched_count self.new ≡ 0 }
        // No byte counts as sent.
        ensures sent { sent_count self.new ≡ 0 }
        // No request counts as made.
        ensures requests { requests_count self.new ≡ 0 }
        // The list of failed requests is empty.
        ensures refusals { port_refusals self.new ≡ [] }
    {
        self.fetched = GhostCount::new();
        self.sent = GhostCount::new();
        self.requests = GhostCount::new();
        self.refusals = GhostRefusals::new();
    }

    /// Returns the number of bits fetched so far, as a ghost count: 8 bits for each fetched byte.
    pub fn fetched_bits(&self) -> GhostCount
        ensures { result.count ≡ 8 * fetched_count self.now }
    {
        let mut bits = GhostCount::new();
        bits.add_bits_of(&self.fetched);
        bits
    }

    /// Consumes the port and returns the stream.
    pub fn into_inner(self) -> S
        ensures { result ≡ port_stream self }
    {
        self.stream
    }
}

impl<S: Source> Port<S> {
    /// Fills the whole buffer with the next bytes of the stream, by one request.
    ///
    /// # Errors
    ///
    /// `EndOfInput` if the request fails with the kind `UnexpectedEof`. `OutOfMemory` if it fails
    /// with the kind `OutOfMemory`. Otherwise `Stream` with the kind of the error. After an error,
    /// no byte is counted as fetched.
    #[inline(always)]
    pub fn fetch(&mut self, buf: &mut [u8]) -> Result<(), Error>
        ensures fetches { Fetches (MayRefuseRead S.stream)
            (source_state S.stream self.old) buf.new result (source_state S.stream self.new) }
    {
        let count = buf.len();
        self.fetch_prefix(buf, count, true)
    }

    /// Fills the first `count` bytes of the buffer, by one request for only these bytes. The buffer
    /// must have at least `count` bytes. Its other bytes are unspecified after the call. `constant`
    /// is true if `count` is known at compile time, and changes only how the bytes are copied.
    ///
    /// # Errors
    ///
    /// The errors of [`fetch`](Port::fetch).
    #[inline(always)]
    pub fn fetch_prefix(
        &mut self,
        buf: &mut [u8],
        count: usize,
        constant: bool,
    ) -> Result<(), Error>
        requires { count ≤ length buf.old }
        // One request is made. If it succeeds, the first `count` bytes of the buffer are the next
        // `count` bytes of the stream.
        ensures fetches { Fetches (MayRefuseRead S.stream)
            (source_state S.stream self.old) (take count buf.new) result
            (source_state S.stream self.new) }
        ensures len { length buf.new ≡ length buf.old }
    {
        let before = Snapshot::of(&self.stream);
        // A failed request counts too.
        self.requests.add(1);
        match self.stream.read_prefix(buf, count, constant) {
            Ok(()) => {
                self.fetched.add(count as u64);
                Ok(())
            }
            Err(refused) => {
                record_refused_read(&mut self.refusals, &before, &self.stream, count, &refused);
                Err(read_refusal(refused))
            }
        }
    }
}

impl<S: Target> Port<S> {
    /// Sends the bytes to the stream by one request.
    ///
    /// # Errors
    ///
    /// `OutOfMemory` if the request fails with the kind `OutOfMemory`. Otherwise `Stream` with the
    /// kind of the error. After an error, no byte is counted as sent.
    #[inline(always)]
    pub fn send(&mut self, bytes: &[u8]) -> Result<(), Error>
        ensures { Sends (MayRefuseWrite S.stream) (target_state S.stream self.old) bytes.now result
            (target_state S.stream self.new) }
    {
        let before = Snapshot::of(&self.stream);
        // A failed request counts too.
        self.requests.add(1);
        match self.stream.write_all(bytes) {
            Ok(()) => {
                self.sent.add(bytes.len() as u64);
                Ok(())
            }
            Err(refused) => {
                record_refused_write(
                    &mut self.refusals,
                    &before,
                    &self.stream,
                    bytes.len(),
                    &refused,
                );
                Err(refusal(refused))
            }
        }
    }

    /// Flushes the stream by one request: the stream passes on the bytes that it has buffered. The
    /// port sends no bytes.
    ///
    /// # Errors
    ///
    /// The errors of [`send`](Port::send). The stream holds the same bytes as before, even after an
    /// error.
    pub fn flush(&mut self) -> Result<(), Error>
        // One request is made. No byte is sent, even if the request fails.
        ensures sends { Sends (MayRefuseWrite S.stream) (target_state S.stream self.old) [] result
            (target_state S.stream self.new) }
        // If the stream's contents are known, they are unchanged.
        ensures bytes { Keeps (S.stream.contents (port_stream self.old))
            (S.stream.contents (port_stream self.new)) }
        // If it succeeds, the stream changes as its properties state for a flush.
        ensures flushed { OnOk result (S.stream.flushes (port_stream self.old) (port_stream self.new)) }
    {
        let before = Snapshot::of(&self.stream);
        // A failed request counts too.
        self.requests.add(1);
        match self.stream.flush() {
            Ok(()) => Ok(()),
            Err(refused) => {
                // A flush sends no bytes.
                record_refused_write(&mut self.refusals, &before, &self.stream, 0, &refused);
                Err(refusal(refused))
            }
        }
    }
}

impl<S: SeekSource> Port<S> {
    /// Moves the stream to another position by one request. Returns the new position in bytes from
    /// the start of the stream. Resets the count of fetched bytes to 0.
    ///
    /// # Errors
    ///
    /// `OutOfMemory` if the request fails with the kind `OutOfMemory`. Otherwise `Stream` with the
    /// kind of the error. After an error, the position is unchanged.
    pub fn seek(&mut self, to: SeekFrom) -> Result<u64, Error>
        // One request is made. If it succeeds, the count of fetched bytes is 0. If it fails, the
        // count is unchanged.
        ensures seeks { Seeks (MayRefuseSeek S.stream S.refuses_seek to)
            (source_state S.stream self.old) result (source_state S.stream self.new) }
        // If the stream's position is known, the new position is the result, or is the old position
        // if the seek fails. If its bytes are known too, the result is the position that `to`
        // means.
        ensures moves { SeekMoves (S.position (port_stream self.old))
            (S.position (port_stream self.new)) (S.bytes (port_stream self.old)) to result }
        // If the stream's bytes are known, they are unchanged.
        ensures bytes { Keeps (S.bytes (port_stream self.old)) (S.bytes (port_stream self.new)) }
    {
        let before = Snapshot::of(&self.stream);
        // A failed request counts too.
        self.requests.add(1);
        match self.stream.seek(to) {
            Ok(at) => {
                self.fetched = GhostCount::new();
                Ok(at)
            }
            Err(refused) => {
                // A seek asks for no bytes.
                record_refused_read(&mut self.refusals, &before, &self.stream, 0, &refused);
                Err(refusal(refused))
            }
        }
    }

    /// Returns the position in bytes from the start of the stream. The port makes one request: a
    /// seek to the current position. The position and the count of fetched bytes are unchanged.
    ///
    /// # Errors
    ///
    /// `OutOfMemory` if the request fails with the kind `OutOfMemory`. Otherwise `Stream` with the
    /// kind of the error.
    pub fn position(&mut self) -> Result<u64, Error>
        // One request is made. No byte is fetched or sent, even if the request fails.
        ensures places { Places (MayRefuseSeek S.stream S.refuses_seek (Current (pos 0)))
            (source_state S.stream self.old) result (source_state S.stream self.new) }
        // The stream's position is unchanged, if it is known.
        ensures stays { StaysAt (S.position (port_stream self.old)) (S.position (port_stream self.new)) }
        // If the request succeeds and the stream's position is known, the result is that position.
        ensures answer { OnOk result (IfSome (S.position (port_stream self.old))
            (λ position. result ≡ Ok position)) }
        // If the stream's bytes are known, they are unchanged.
        ensures bytes { Keeps (S.bytes (port_stream self.old)) (S.bytes (port_stream self.new)) }
    {
        let before = Snapshot::of(&self.stream);
        // A failed request counts too.
        self.requests.add(1);
        match self.stream.seek(SeekFrom::Current(0)) {
            Ok(at) => Ok(at),
            Err(refused) => {
                // A seek asks for no bytes.
                record_refused_read(&mut self.refusals, &before, &self.stream, 0, &refused);
                Err(refusal(refused))
            }
        }
    }
}
