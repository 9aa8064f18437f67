//! The place of an error in a frame.

use bitstream_io::{BE, BitRead, BitReadExt, Bits, SliceReader};
use flac_codec::stream_info::StreamInfo;
use flac_codec::{Channels, FlacError, FrameHeader, crc8, read_channels, read_header};
use std::alloc::Global;

/// Returns the number of bits at which a reader is when it finds this error in the frame at the start of bytes.
pub(super) fn bits_before(
    alloc: Global,
    info: &StreamInfo,
    error: &FlacError,
    bytes: &[u8],
) -> u64 {
    let mut reader = SliceReader::<BE>::over(bytes);
    let Ok(header) = read_header(&mut reader) else {
        return reader.bits_read();
    };
    let size = bytes.len().saturating_sub(reader.rest().len());
    let checksum = crc8(bytes.get(..size).unwrap_or(bytes));
    let Ok(byte) = reader.read::<Bits<8>, u8>() else {
        return reader.bits_read();
    };
    if byte != checksum || is_of_header(error) {
        return reader.bits_read();
    }
    skip_channels(&mut reader, alloc, info, &header);
    reader.bits_read()
}

/// Returns true if the header of a frame differs from STREAMINFO.
fn is_of_header(error: &FlacError) -> bool {
    matches!(
        error,
        FlacError::OtherChannels(_, _)
            | FlacError::OtherSampleSize(_, _)
            | FlacError::OtherSampleRate(_, _)
    )
}

/// Reads the channels and the checksum of a frame, up to an error.
fn skip_channels(
    reader: &mut SliceReader<'_, BE>,
    alloc: Global,
    info: &StreamInfo,
    header: &FrameHeader,
) {
    let width = if header.sample_size == 0 {
        info.bits_per_sample.get()
    } else {
        header.sample_size
    };
    let channels: Channels = header.channels;
    if read_channels(reader, alloc, channels, width, header.block_size).is_ok() {
        reader.byte_align();
        let _checksum = reader.read::<Bits<16>, u16>();
    }
}
