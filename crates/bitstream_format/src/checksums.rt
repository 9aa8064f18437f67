//! Checksums that take bytes step by step. Each checksum is a type that holds its state.
ghost use Rattle.std.specs.Prelude.{◌≡◌, ℕ, List, [], ◌++◌};

use crate::checks::{
    crc16_low_more, crc16_more, crc24_more, crc32_more, crc32_mpeg_more, sum16_more,
};

/// A checksum that takes bytes.
pub trait Checksum {
    // The numbers that the checksum holds, and the numbers that it holds after these bytes.
    ghost state: { Self → List ℕ };

    ghost after: { List ℕ → List ℕ };

    // The checksum of bytes.
    ghost sum: { List ℕ → ℕ };

    /// Returns the checksum before the first byte.
    fn start() -> Self
        ensures { state result ≡ after [] };

    /// Takes more bytes.
    fn take(&mut self, bytes: &[u8])
        ensures { (before : List ℕ) → state self.old ≡ after before
            → state self.new ≡ after (before ++ bytes.now) };

    /// Returns the checksum of the bytes so far.
    fn number(&self) -> u64
        ensures { (bytes : List ℕ) → state self.now ≡ after bytes → result ≡ sum bytes };
}

/// The CRC-32 of Ethernet, PNG and gzip.
#[derive(Drop)]
pub struct Crc32 {
    crc: u32,
}

impl Checksum for Crc32 {
    ghost use Rattle.std.specs.Prelude.{◌∷◌};
    ghost use Rattle.bitstream_format.specs.Checks.{crc32, crc32_state};

    ghost state = { λ it. it.crc ∷ [] };

    ghost after = { λ bytes. crc32_state 0xFFFFFFFF bytes ∷ [] };

    ghost sum = { crc32 };

    fn start() -> Crc32 {
        Crc32 { crc: u32::MAX }
    }

    fn take(&mut self, bytes: &[u8]) {
        self.crc = crc32_more(self.crc, bytes);
    }

    fn number(&self) -> u64 {
        u64::from(self.crc ^ u32::MAX)
    }
}

/// The CRC-32 of MPEG-2 sections.
#[derive(Drop)]
pub struct Crc32Mpeg {
    crc: u32,
}

impl Checksum for Crc32Mpeg {
    ghost use Rattle.std.specs.Prelude.{◌∷◌};
    ghost use Rattle.bitstream_format.specs.Checks.{crc32_mpeg, crc32_mpeg_state};

    ghost state = { λ it. it.crc ∷ [] };

    ghost after = { λ bytes. crc32_mpeg_state 0xFFFFFFFF bytes ∷ [] };

    ghost sum = { crc32_mpeg };

    fn start() -> Crc32Mpeg {
        Crc32Mpeg { crc: u32::MAX }
    }

    fn take(&mut self, bytes: &[u8]) {
        self.crc = crc32_mpeg_more(self.crc, bytes);
    }

    fn number(&self) -> u64 {
        u64::from(self.crc)
    }
}

/// The CRC-24 of Mode S replies and ADS-B messages.
#[derive(Drop)]
pub struct Crc24Adsb {
    crc: u32,
}

impl Checksum for Crc24Adsb {
    ghost use Rattle.std.specs.Prelude.{◌∷◌};
    ghost use Rattle.bitstream_format.specs.Checks.{crc24_adsb, crc24_state};

    ghost state = { λ it. it.crc ∷ [] };

    ghost after = { λ bytes. crc24_state 0 bytes ∷ [] };

    ghost sum = { crc24_adsb };

    fn start() -> Crc24Adsb {
        Crc24Adsb { crc: 0 }
    }

    fn take(&mut self, bytes: &[u8]) {
        self.crc = crc24_more(self.crc, bytes);
    }

    fn number(&self) -> u64 {
        u64::from(self.crc / 256)
    }
}

/// The CRC-16 of CCSDS frames.
#[derive(Drop)]
pub struct Crc16Ccitt {
    crc: u16,
}

impl Checksum for Crc16Ccitt {
    ghost use Rattle.std.specs.Prelude.{◌∷◌};
    ghost use Rattle.bitstream_format.specs.Checks.{crc16_ccitt, crc16_state};

    ghost state = { λ it. it.crc ∷ [] };

    ghost after = { λ bytes. crc16_state 0xFFFF bytes ∷ [] };

    ghost sum = { crc16_ccitt };

    fn start() -> Crc16Ccitt {
        Crc16Ccitt { crc: u16::MAX }
    }

    fn take(&mut self, bytes: &[u8]) {
        self.crc = crc16_more(self.crc, bytes);
    }

    fn number(&self) -> u64 {
        u64::from(self.crc)
    }
}

/// The CRC-16 of X.25 and HDLC frames.
#[derive(Drop)]
pub struct Crc16X25 {
    crc: u16,
}

impl Checksum for Crc16X25 {
    ghost use Rattle.std.specs.Prelude.{◌∷◌};
    ghost use Rattle.bitstream_format.specs.Checks.{crc16_x25, crc16_low_state};

    ghost state = { λ it. it.crc ∷ [] };

    ghost after = { λ bytes. crc16_low_state 0xFFFF bytes ∷ [] };

    ghost sum = { crc16_x25 };

    fn start() -> Crc16X25 {
        Crc16X25 { crc: u16::MAX }
    }

    fn take(&mut self, bytes: &[u8]) {
        self.crc = crc16_low_more(self.crc, bytes);
    }

    fn number(&self) -> u64 {
        u64::from(self.crc ^ u16::MAX)
    }
}

/// The CRC-16 of IEEE 802.15.4 frames.
#[derive(Drop)]
pub struct Crc16Kermit {
    crc: u16,
}

impl Checksum for Crc16Kermit {
    ghost use Rattle.std.specs.Prelude.{◌∷◌};
    ghost use Rattle.bitstream_format.specs.Checks.{crc16_kermit, crc16_low_state};

    ghost state = { λ it. it.crc ∷ [] };

    ghost after = { λ bytes. crc16_low_state 0 bytes ∷ [] };

    ghost sum = { crc16_kermit };

    fn start() -> Crc16Kermit {
        Crc16Kermit { crc: 0 }
    }

    fn take(&mut self, bytes: &[u8]) {
        self.crc = crc16_low_more(self.crc, bytes);
    }

    fn number(&self) -> u64 {
        u64::from(self.crc)
    }
}

/// The Internet checksum (RFC 1071).
#[derive(Drop)]
pub struct Sum16 {
    sum: u16,
    // 1 after an odd number of bytes.
    place: usize,
}

impl Checksum for Sum16 {
    ghost use Rattle.std.specs.Prelude.{◌∷◌, ◌%◌, length};
    ghost use Rattle.bitstream_format.specs.Checks.{sum16, sum16_state};

    ghost state = { λ it. it.sum ∷ it.place ∷ [] };

    ghost after = { λ bytes. sum16_state 0 0 bytes ∷ length bytes % 2 ∷ [] };

    ghost sum = { sum16 };

    fn start() -> Sum16 {
        Sum16 { sum: 0, place: 0 }
    }

    fn take(&mut self, bytes: &[u8]) {
        self.sum = sum16_more(self.sum, self.place, bytes);
        self.place = (self.place % 2 + bytes.len() % 2) % 2;
    }

    fn number(&self) -> u64 {
        u64::from(65535 - self.sum)
    }
}

/// The Internet checksum as UDP uses it (RFC 768): a checksum of 0 is written as all ones, since 0 means that there is
/// no checksum.
#[derive(Drop)]
pub struct Sum16Udp {
    sum: Sum16,
}

impl Checksum for Sum16Udp {
    ghost use Rattle.bitstream_format.specs.Checks.{sum16_udp};

    ghost state = { λ it. ⟦<Sum16 as Checksum>⟧.state it.sum };

    ghost after = { ⟦<Sum16 as Checksum>⟧.after };

    ghost sum = { sum16_udp };

    fn start() -> Sum16Udp {
        Sum16Udp {
            sum: Sum16::start(),
        }
    }

    fn take(&mut self, bytes: &[u8]) {
        self.sum.take(bytes);
    }

    fn number(&self) -> u64 {
        let number = self.sum.number();
        if number == 0 {
            return 65535;
        }
        number
    }
}

/// The number of bytes, or 2^64 - 1 if there are more.
#[derive(Drop)]
pub struct ByteCount {
    count: u64,
}

impl Checksum for ByteCount {
    ghost use Rattle.std.specs.Prelude.{◌∷◌};
    ghost use Rattle.bitstream_format.specs.Checks.{byte_count};

    ghost state = { λ it. it.count ∷ [] };

    ghost after = { λ bytes. byte_count bytes ∷ [] };

    ghost sum = { byte_count };

    fn start() -> ByteCount {
        ByteCount { count: 0 }
    }

    fn take(&mut self, bytes: &[u8]) {
        self.count = self.count.saturating_add(bytes.len() as u64);
    }

    fn number(&self) -> u64 {
        self.count
    }
}
