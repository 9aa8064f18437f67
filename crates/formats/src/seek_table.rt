//! The seek points of a FLAC file (RFC 9639, section 8.5).

use std::alloc::{AllocError, Global};

/// The number of bytes of a point.
const SIZE: usize = 18;

/// The place of a frame.
#[derive(Clone, Copy, Debug, PartialEq, Eq)]
struct SeekPoint {
    // The number of the first sample.
    sample: u64,
    // The number of bytes from the first frame on.
    offset: u64,
    // The number of samples per channel.
    count: u16,
}

impl SeekPoint {
    /// The point that is none, as it fills a table with fewer points.
    const NONE: SeekPoint = SeekPoint {
        sample: u64::MAX,
        offset: 0,
        count: 0,
    };

    /// Returns the bytes of the point.
    fn to_bytes(self) -> [u8; SIZE] {
        let mut bytes = [0u8; SIZE];
        bytes[..8].copy_from_slice(&self.sample.to_be_bytes());
        bytes[8..16].copy_from_slice(&self.offset.to_be_bytes());
        bytes[16..].copy_from_slice(&self.count.to_be_bytes());
        bytes
    }
}

/// A table of at most `most` points, for a file whose length is not known before its end.
///
/// Each frame has a point. If there are too many points, every second one is dropped, and the distance of the later ones
/// doubles.
#[derive(Drop)]
pub struct SeekTable {
    most: usize,
    points: Vec<SeekPoint>,
    // One of `every` frames has a point.
    every: u64,
    // The number and the size in bytes of the frames so far.
    frames: u64,
    offset: u64,
}

impl SeekTable {
    /// Returns a table without points.
    pub fn new(alloc: Global, most: u32) -> SeekTable {
        SeekTable {
            most: most as usize,
            points: Vec::new(alloc),
            every: 1,
            frames: 0,
            offset: 0,
        }
    }

    /// Adds a frame of `size` bytes, with the samples from `first` to `end`.
    pub fn add_frame(
        &mut self,
        alloc: Global,
        first: u64,
        end: u64,
        size: usize,
    ) -> Result<(), AllocError> {
        if self.is_due() && self.points.len() >= self.most {
            self.drop_half(alloc)?;
        }
        if self.is_due() && self.points.len() < self.most {
            self.points.push(SeekPoint {
                sample: first,
                offset: self.offset,
                count: end.saturating_sub(first).min(65_535) as u16,
            })?;
        }
        self.frames = self.frames.saturating_add(1);
        self.offset = self.offset.saturating_add(size as u64);
        Ok(())
    }

    /// Returns true if the next frame has a point, if there is room for it.
    fn is_due(&self) -> bool {
        self.frames % self.every.max(1) == 0
    }

    /// Drops every second point.
    fn drop_half(&mut self, alloc: Global) -> Result<(), AllocError> {
        let mut kept = Vec::new(alloc);
        for (number, point) in self.points.as_slice().iter().enumerate() {
            if number % 2 == 0 {
                kept.push(*point)?;
            }
        }
        self.points = kept;
        self.every = self.every.saturating_mul(2);
        Ok(())
    }

    /// Returns the bytes of `most` points. Points that are none follow the points of frames.
    pub fn to_bytes(&self, alloc: Global) -> Result<Vec<u8>, AllocError> {
        let mut bytes = Vec::new(alloc);
        for number in 0..self.most {
            let point = match self.points.as_slice().get(number) {
                Some(point) => *point,
                None => SeekPoint::NONE,
            };
            bytes.extend_from_slice(&point.to_bytes())?;
        }
        Ok(bytes)
    }
}
