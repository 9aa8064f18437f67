//! The start of a file of any reader (sections 6 and 8), in constant memory.
ghost use Rattle.std.specs.Prelude.{◌≡◌, ◌+◌, ◌*◌, ◌≤◌, drop, length, max, true, IfOk, IfSome, None, OnOk, Ok, Some};
ghost use Rattle.std.specs.Io.KnownBytes.{Keeps};
ghost use Rattle.bitstream_io.specs.Callers.{result_map};
ghost use Rattle.flac_codec.specs.File.{bytes_there, info_at, metadata_at, stream_info_in};
ghost use Rattle.flac_codec.specs.Frame.{after};
ghost use Rattle.flac_codec.specs.Input.{bytes_left, fetched};
ghost use Rattle.flac_codec.specs.Outside.{IsUnlessFailure};
ghost use Rattle.flac_codec.specs.Start.{block_left, block_size, frames_left, is_last, marker_at, with_left};

use crate::decoder::Decoder;
use crate::error::FlacError;
use crate::input::Input;
use crate::metadata::{InfoAt, Metadata, has_marker, is_stream_info, metadata_head};
use crate::stream_info::StreamInfo;
use bitstream_io::Error;
use std::alloc::Global;
use std::io::Read;

/// The metadata of a file, of which each block is skipped without being held.
#[derive(Drop)]
pub struct MetadataReader<R> {
    input: Input<R>,
    info: StreamInfo,
    // True after the last block.
    done: bool,
}

impl<R: Read> MetadataReader<R> {
    ghost use Rattle.flac_codec.specs.Decoding.{decoder_info, decoder_left, decoder_samples};
    ghost use Rattle.flac_codec.specs.Start.{metadata_done, metadata_fetched, metadata_info, metadata_left};

    /// Reads the marker and STREAMINFO, with which a file begins.
    ///
    /// # Errors
    ///
    /// `NoFlac` if the bytes do not begin with the marker. `NoStreamInfo` if the first block of metadata is not a STREAMINFO
    /// of 34 bytes. `Reader(EndOfInput)` if the bytes end before that block does, `Reader(Stream)` if the reader fails, and
    /// `Reader(OutOfMemory)` if an allocation fails.
    pub fn new(alloc: Global, reader: R) -> Result<MetadataReader<R>, FlacError>
    where
        R: Drop,
        // If the bytes are known, they decide the result, unless an allocation or the reader fails.
        ensures meant { IfSome (R.remaining reader) (λ bytes. IsUnlessFailure (info_at bytes)
            (result_map (λ metadata. (metadata_info metadata, metadata_done metadata)) result)) }
        // STREAMINFO is taken.
        ensures left { IfSome (R.remaining reader) (λ bytes. IfOk result (λ metadata.
            metadata_left R.remaining metadata ≡ Some (drop 42 bytes))) }
    {
        let mut input = Input::new(alloc, reader);
        let start = take_start(&mut input)?;
        Ok(MetadataReader {
            input,
            info: start.info,
            done: start.last,
        })
    }

    /// Returns the STREAMINFO of the file.
    pub fn stream_info(&self) -> &StreamInfo
        ensures { result.now ≡ metadata_info self.now }
    {
        &self.info
    }

    /// Skips the next block, and returns its header, or returns `None` after the last block.
    ///
    /// # Errors
    ///
    /// `Reader(EndOfInput)` if the bytes end before the block does, `Reader(Stream)` if the reader fails, and
    /// `Reader(OutOfMemory)` if an allocation fails.
    pub fn next_block(&mut self) -> Result<Option<Metadata>, FlacError>
        // If the bytes left are known, they decide the result, unless an allocation or the reader fails.
        ensures meant { IfSome (metadata_left R.remaining self.old) (λ bytes.
            IsUnlessFailure (block_left (metadata_done self.old) bytes) result) }
        // The block is taken.
        ensures left { IfSome (metadata_left R.remaining self.old) (λ bytes. IfOk result (λ block.
            metadata_left R.remaining self.new ≡ Some (drop (block_size block) bytes))) }
        ensures info { metadata_info self.new ≡ metadata_info self.old }
        ensures done { IfOk result (λ block. metadata_done self.new ≡ is_last block) }
    {
        if self.done {
            return Ok(None);
        }
        let block = skip_block(&mut self.input)?;
        self.done = block.last;
        Ok(Some(block))
    }

    /// Fetches the next block, and returns its header, or returns `None` after the last block. The block is not taken: the bytes
    /// of [`bytes`](MetadataReader::bytes) begin with it, and [`next_block`](MetadataReader::next_block) skips it.
    ///
    /// # Errors
    ///
    /// The errors of [`next_block`](MetadataReader::next_block).
    pub fn fetch_block(&mut self) -> Result<Option<Metadata>, FlacError>
        // If the bytes left are known, they decide the result, as in `next_block`, unless an allocation or the reader fails.
        ensures meant { IfSome (metadata_left R.remaining self.old) (λ bytes.
            IsUnlessFailure (block_left (metadata_done self.old) bytes) result) }
        // After the last block nothing fails.
        ensures none { metadata_done self.old ≡ true → result ≡ Ok None }
        // If the bytes left are known, they stay the same, also after an error.
        ensures left { Keeps (metadata_left R.remaining self.old) (metadata_left R.remaining self.new) }
        ensures info { metadata_info self.new ≡ metadata_info self.old }
        ensures done { metadata_done self.new ≡ metadata_done self.old }
        ensures within { IfOk result (λ block. block_size block ≤ length (metadata_fetched self.new)) }
        // The bytes that are there are no more than before, or than twice the block's and a piece.
        ensures most { IfOk result (λ block.
            length (metadata_fetched self.new) ≤ max (length (metadata_fetched self.old)) (2 * block_size block + 16384)) }
    {
        if self.done {
            return Ok(None);
        }
        let block = fetch_block(&mut self.input)?;
        Ok(Some(block))
    }

    /// Returns the bytes that were fetched after the last block that was taken.
    pub fn bytes(&self) -> &[u8]
        ensures { result.now ≡ metadata_fetched self.now }
    {
        self.input.bytes()
    }

    /// Skips the blocks that are left, and returns a decoder of the frames after them.
    ///
    /// # Errors
    ///
    /// The errors of [`next_block`](MetadataReader::next_block).
    pub fn into_decoder(self) -> Result<Decoder<R>, FlacError>
    where
        R: Drop,
        // If the bytes left are known, they decide the result, unless an allocation or the reader fails.
        ensures meant { IfSome (metadata_left R.remaining self) (λ bytes. IsUnlessFailure
            (with_left (after (frames_left (metadata_done self) bytes) (λ frames. Ok (metadata_info self, frames))))
            (result_map (λ decoder. (decoder_info decoder, decoder_left R.remaining decoder)) result)) }
        ensures samples { IfOk result (λ decoder. decoder_samples decoder ≡ 0) }
    {
        let MetadataReader {
            mut input,
            info,
            done,
        } = self;
        skip_blocks(&mut input, done)?;
        Ok(Decoder::over(input, info))
    }
}

/// Takes the marker and STREAMINFO.
fn take_start<R: Read>(input: &mut Input<R>) -> Result<InfoAt, FlacError>
    ensures meant { IfSome (bytes_left R.remaining input.old) (λ bytes. IsUnlessFailure (info_at bytes)
        (result_map (λ start. (start.info, start.last)) result)) }
    ensures left { IfSome (bytes_left R.remaining input.old) (λ bytes. OnOk result (
        bytes_left R.remaining input.new ≡ Some (drop 42 bytes))) }
{
    take_marker(input)?;
    let info = peek_info(input);
    let block = skip_block(input)?;
    if !is_stream_info(block) {
        return Err(FlacError::NoStreamInfo);
    }
    Ok(InfoAt {
        info: info?,
        last: block.last,
    })
}

/// Takes the marker.
fn take_marker<R: Read>(input: &mut Input<R>) -> Result<(), FlacError>
    ensures meant { IfSome (bytes_left R.remaining input.old) (λ bytes. IsUnlessFailure (marker_at bytes) result) }
    ensures left { IfSome (bytes_left R.remaining input.old) (λ bytes. OnOk result (
        bytes_left R.remaining input.new ≡ Some (drop 4 bytes))) }
{
    let _there = input.fill(4)?;
    if !has_marker(input.bytes()) {
        return Err(FlacError::NoFlac);
    }
    input.take(4);
    Ok(())
}

/// Returns STREAMINFO of the block of metadata that follows, if it is one, and takes no byte.
fn peek_info<R: Read>(input: &mut Input<R>) -> Result<StreamInfo, FlacError>
    ensures meant { IfSome (bytes_left R.remaining input.old) (λ bytes. 38 ≤ length bytes →
        IsUnlessFailure (stream_info_in bytes) result) }
    ensures left { Keeps (bytes_left R.remaining input.old) (bytes_left R.remaining input.new) }
{
    if !input.fill(38)? {
        return Err(FlacError::Reader(Error::EndOfInput));
    }
    let info = StreamInfo::parse(&input.bytes()[4..38])?;
    Ok(info)
}

/// Skips the blocks of metadata that are left. `done` is true if the block before was the last one.
fn skip_blocks<R: Read>(input: &mut Input<R>, done: bool) -> Result<(), FlacError>
    ensures meant { IfSome (bytes_left R.remaining input.old) (λ bytes. IsUnlessFailure
        (after (frames_left done bytes) (λ frames. Ok (Some frames)))
        (result_map (λ _. bytes_left R.remaining input.new) result)) }
{
    let mut last = done;
    for _ in 0..u64::MAX {
        if last {
            return Ok(());
        }
        let block = skip_block(input)?;
        last = block.last;
    }
    Err(FlacError::Reader(Error::OutOfMemory))
}

/// Fetches a block of metadata, and returns its header. Takes no byte.
fn fetch_block<R: Read>(input: &mut Input<R>) -> Result<Metadata, FlacError>
    ensures meant { IfSome (bytes_left R.remaining input.old) (λ bytes. IsUnlessFailure (metadata_at bytes) result) }
    ensures left { Keeps (bytes_left R.remaining input.old) (bytes_left R.remaining input.new) }
    ensures within { IfOk result (λ block. block.size ≤ length (fetched input.new)) }
    ensures most { IfOk result (λ block.
        length (fetched input.new) ≤ max (length (fetched input.old)) (2 * block.size + 16384)) }
{
    if !input.fill(4)? {
        return Err(FlacError::Reader(Error::EndOfInput));
    }
    let block = metadata_head(input.bytes());
    if !input.fill(block.size)? {
        return Err(FlacError::Reader(Error::EndOfInput));
    }
    Ok(block)
}

/// Skips a block of metadata, and returns its header.
fn skip_block<R: Read>(input: &mut Input<R>) -> Result<Metadata, FlacError>
    ensures meant { IfSome (bytes_left R.remaining input.old) (λ bytes. IsUnlessFailure (metadata_at bytes) result) }
    ensures left { IfSome (bytes_left R.remaining input.old) (λ bytes. IfOk result (λ block.
        bytes_left R.remaining input.new ≡ Some (drop block.size bytes))) }
{
    if !input.fill(4)? {
        return Err(FlacError::Reader(Error::EndOfInput));
    }
    let block = metadata_head(input.bytes());
    skip(input, block.size)?;
    Ok(block)
}

/// Takes `count` bytes, a piece at a time.
fn skip<R: Read>(input: &mut Input<R>, count: usize) -> Result<(), FlacError>
    ensures meant { IfSome (bytes_left R.remaining input.old) (λ bytes. IsUnlessFailure (bytes_there count bytes) result) }
    ensures left { IfSome (bytes_left R.remaining input.old) (λ bytes. OnOk result (
        bytes_left R.remaining input.new ≡ Some (drop count bytes))) }
{
    let mut rest = count;
    while rest > 0 {
        if !input.fill(1)? {
            return Err(FlacError::Reader(Error::EndOfInput));
        }
        let size = input.bytes().len().min(rest);
        input.take(size);
        rest -= size;
    }
    Ok(())
}
