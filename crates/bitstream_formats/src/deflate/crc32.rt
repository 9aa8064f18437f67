//! The CRC-32 of gzip.

/// The tables of the CRC-32 with the polynomial 0xedb88320, lowest bit first.
#[derive(Clone, Copy, Debug)]
pub(super) struct Crc32 {
    // The CRC-32 of each byte.
    last: [u32; 256],
    // The CRC-32 of each byte followed by one, two and three bytes of zeros.
    before: [[u32; 256]; 3],
}

impl Crc32 {
    /// Makes the tables.
    pub(super) fn new() -> Crc32 {
        let mut last = [0u32; 256];
        for (byte, crc) in last.iter_mut().enumerate() {
            *crc = crc32_byte((byte & 0xff) as u32);
        }
        let one = with_zeros(&last, &last);
        let two = with_zeros(&last, &one);
        let three = with_zeros(&last, &two);
        Crc32 {
            last,
            before: [one, two, three],
        }
    }

    /// Returns the CRC-32 of earlier bytes and then `bytes`, where `crc` is the CRC-32 of the earlier
    /// bytes. The CRC-32 of no bytes is 0.
    pub(super) fn append(&self, crc: u32, bytes: &[u8]) -> u32 {
        let mut crc = !crc;
        let mut rest = bytes;
        for _ in 0..bytes.len() / 4 {
            let Some((four, behind)) = rest.split_first_chunk::<4>() else {
                break;
            };
            crc = self.by_four(crc ^ u32::from_le_bytes(*four));
            rest = behind;
        }
        !self.by_bytes(crc, rest)
    }

    /// Advances a CRC-32 by four bytes. `four` is the xor of these bytes and the CRC-32 before them.
    #[inline(always)]
    fn by_four(&self, four: u32) -> u32 {
        let [one, two, three] = &self.before;
        three[(four & 0xff) as usize]
            ^ two[(four >> 8 & 0xff) as usize]
            ^ one[(four >> 16 & 0xff) as usize]
            ^ self.last[(four >> 24 & 0xff) as usize]
    }

    /// Advances a CRC-32 by some bytes.
    fn by_bytes(&self, crc: u32, bytes: &[u8]) -> u32 {
        let mut crc = crc;
        for byte in bytes {
            let at = (crc & 0xff) ^ *byte as u32;
            crc = (crc >> 8) ^ self.last[(at & 0xff) as usize];
        }
        crc
    }
}

/// Returns the CRC-32 of each byte with one more byte of zeros after it.
fn with_zeros(last: &[u32; 256], crcs: &[u32; 256]) -> [u32; 256] {
    let mut more = *crcs;
    for crc in more.iter_mut() {
        *crc = (*crc >> 8) ^ last[(*crc & 0xff) as usize];
    }
    more
}

/// Returns the CRC-32 of a byte.
fn crc32_byte(byte: u32) -> u32 {
    let mut crc = byte;
    for _ in 0..8 {
        let low = crc & 1 == 1;
        crc >>= 1;
        if low {
            crc ^= 0xedb8_8320;
        }
    }
    crc
}
