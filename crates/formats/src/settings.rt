//! The settings of an encoder of FLAC, and the form of samples without a header.

use flac_codec::Stereo;

/// The orders of the bytes of a sample.
#[derive(Clone, Copy, Debug, PartialEq, Eq)]
pub enum ByteOrder {
    /// The lowest byte first.
    Little,
    /// The highest byte first.
    Big,
}

impl ByteOrder {
    /// Returns the order with this name.
    pub fn of(word: &str) -> Option<ByteOrder> {
        match word {
            "little" => Some(ByteOrder::Little),
            "big" => Some(ByteOrder::Big),
            _ => None,
        }
    }

    /// Turns samples of `bits` bits, of which the lowest byte is first, to this order, and back.
    pub fn turn(self, bits: u8, samples: &mut [u8]) {
        if self == ByteOrder::Little {
            return;
        }
        let size = bits.div_ceil(8).max(1) as usize;
        for sample in samples.chunks_exact_mut(size) {
            match sample {
                [a, b] => (*a, *b) = (*b, *a),
                [a, _, c] => (*a, *c) = (*c, *a),
                [a, b, c, d] => (*a, *b, *c, *d) = (*d, *c, *b, *a),
                _ => {}
            }
        }
    }
}

/// The form of samples without a header: each fills whole bytes, with a sign.
#[derive(Clone, Copy, Debug, PartialEq, Eq)]
pub struct Raw {
    /// The number of channels, one to eight.
    pub channels: u8,
    /// The number of bits of a sample, 4 to 32.
    pub bits: u8,
    /// Samples of a channel per second, 1 to 1048575.
    pub rate: u32,
    /// The order of the bytes of a sample.
    pub order: ByteOrder,
}

/// The settings of an encoder.
#[derive(Clone, Copy, Debug, PartialEq, Eq)]
pub struct Encoding {
    /// The number of samples per channel in each block but the last one, 16 to 65535.
    pub block_size: u16,
    /// The choice of the coding of two channels.
    pub stereo: Stereo,
    /// The number of bytes of a block of metadata that is left empty, below 2^24. Without bytes there is no block.
    pub padding: u32,
    /// The greatest number of seek points. Without points there is no block of them.
    pub seek_points: u32,
    /// The form of the samples, or `None` for a WAV file.
    pub raw: Option<Raw>,
}

impl Encoding {
    /// The settings without options: level 5.
    pub const DEFAULT: Encoding = Encoding {
        block_size: 4096,
        stereo: Stereo::Estimated,
        padding: 8192,
        seek_points: 0,
        raw: None,
    };

    /// Sets the block size and the choice of the coding of two channels, as `flac` does at a level from 0 to 8.
    pub fn set_level(&mut self, level: u32) {
        self.block_size = if level < 3 { 1152 } else { 4096 };
        self.stereo = match level {
            0 | 3 => Stereo::Apart,
            1 | 2 | 4 | 5 => Stereo::Estimated,
            _ => Stereo::Tried,
        };
    }
}
