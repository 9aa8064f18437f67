//! Units of a byte stream (annex B).

/// The units of a byte stream. Each begins after three bytes 0, 0 and 1.
#[derive(Drop)]
pub struct Units<'a> {
    // The bytes after the last start code that was found. `None` after the last unit.
    rest: Option<&'a [u8]>,
    // The number of bytes of the stream before these bytes.
    before: usize,
    // The number of units returned.
    taken: u64,
}

/// The place of a start code.
#[derive(Clone, Copy)]
struct StartCode {
    // The number of bytes before it, without the zeros that precede it.
    before: usize,
    // The number of bytes up to its end.
    end: usize,
}

/// Finds the first start code, or returns the number of bytes before the zeros at the end.
fn find_start(bytes: &[u8]) -> Result<StartCode, usize> {
    let mut zeros = 0usize;
    for (at, byte) in bytes.iter().enumerate() {
        if *byte == 1 && zeros >= 2 {
            return Ok(StartCode {
                before: at.saturating_sub(zeros),
                end: at + 1,
            });
        }
        zeros = if *byte == 0 {
            zeros.saturating_add(1)
        } else {
            0
        };
    }
    Err(bytes.len().saturating_sub(zeros))
}

impl<'a> Units<'a> {
    /// Returns the units of `bytes`: none if there is no start code.
    pub fn over(bytes: &'a [u8]) -> Units<'a> {
        match find_start(bytes) {
            Ok(start) => Units {
                rest: bytes.get(start.end..),
                before: start.end,
                taken: 0,
            },
            Err(_) => Units {
                rest: None,
                before: bytes.len(),
                taken: 0,
            },
        }
    }

    /// Returns true if no unit is left.
    pub fn is_at_end(&self) -> bool {
        self.rest.is_none()
    }

    /// Returns the bytes from the next unit on.
    pub fn rest(&self) -> &'a [u8] {
        self.rest.unwrap_or(&[])
    }

    /// Returns how many units `next_unit` has returned.
    pub fn taken(&self) -> u64 {
        self.taken
    }

    /// Returns the place of the next unit's first byte in the stream.
    pub fn place(&self) -> usize {
        self.before
    }

    /// Returns the next unit, without its start code and the zeros after it. A unit is empty if a start
    /// code follows another one.
    pub fn next_unit(&mut self) -> Option<&'a [u8]> {
        let bytes = self.rest?;
        self.taken = self.taken.saturating_add(1);
        match find_start(bytes) {
            Ok(start) => {
                self.rest = bytes.get(start.end..);
                self.before = self.before.saturating_add(start.end);
                bytes.get(..start.before)
            }
            Err(length) => {
                self.rest = None;
                self.before = self.before.saturating_add(bytes.len());
                bytes.get(..length)
            }
        }
    }
}
