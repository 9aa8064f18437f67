//! Functions for checksums. Code printed by `./format` calls them. Each `_more` function takes the state after some
//! bytes, and returns the state after more bytes.
ghost use Rattle.bitstream_format.specs.Checks.{bytes1, bytes2, bytes4, crc16_low_state, crc16_state, crc24_state, crc32_mpeg_state, crc32_state, end_around, high_step, low_step, place16, steps, sum16_state};
ghost use Rattle.std.specs.Prelude.{◌≡◌};

/// Returns the state of a CRC-32 in the opposite order, as in Ethernet, PNG and gzip, after more bytes. The first
/// state is `u32::MAX`, and the checksum is the inverse of the last one.
///
/// # Examples
///
/// ```
/// use bitstream_format::checks::crc32_more;
///
/// let first = crc32_more(u32::MAX, b"1234");
/// assert_eq!(rt; crc32_more(first, b"56789") ^ u32::MAX, 0xcbf4_3926);
/// ```
pub fn crc32_more(crc: u32, bytes: &[u8]) -> u32
    ensures { result ≡ crc32_state crc bytes.now }
{
    let mut crc = crc;
    for byte in bytes {
        crc = low_byte(0xedb8_8320, crc ^ u32::from(*byte));
    }
    crc
}

/// Returns the state of a CRC-32 of MPEG-2 after more bytes. The first state is `u32::MAX`, and the last one is the
/// checksum.
pub fn crc32_mpeg_more(crc: u32, bytes: &[u8]) -> u32
    ensures { result ≡ crc32_mpeg_state crc bytes.now }
{
    let mut crc = crc;
    for byte in bytes {
        crc = high_byte(0x04c1_1db7, crc ^ u32::from(*byte) * 0x100_0000);
    }
    crc
}

/// Returns the state of the CRC-24 of Mode S after more bytes: the highest 24 bits are the remainder, and the others
/// are 0. The first state is 0.
pub fn crc24_more(crc: u32, bytes: &[u8]) -> u32
    ensures { result ≡ crc24_state crc bytes.now }
{
    let mut crc = crc;
    for byte in bytes {
        crc = high_byte(0xfff4_0900, crc ^ u32::from(*byte) * 0x100_0000);
    }
    crc
}

/// Returns the state of a CRC-16 of CCITT after more bytes. The first state is `u16::MAX`, and the last one is the
/// checksum.
pub fn crc16_more(crc: u16, bytes: &[u8]) -> u16
    ensures { result ≡ crc16_state crc bytes.now }
{
    let mut crc = crc;
    for byte in bytes {
        crc = ccitt_byte(crc ^ u16::from(*byte) * 0x100);
    }
    crc
}

/// Returns the state of a CRC-16 of CCITT in the opposite order after more bytes. For X.25 the first state is
/// `u16::MAX`, and the checksum is the inverse of the last one. For IEEE 802.15.4 the first state is 0, and the last
/// one is the checksum.
pub fn crc16_low_more(crc: u16, bytes: &[u8]) -> u16
    ensures { result ≡ crc16_low_state crc bytes.now }
{
    let mut crc = crc;
    for byte in bytes {
        crc = low_byte16(crc ^ u16::from(*byte));
    }
    crc
}

/// Returns the sum of 16 bits after more bytes, `at` bytes after the first one. The first sum is 0, and the Internet
/// checksum (RFC 1071) is the inverse of the last one.
pub fn sum16_more(sum: u16, at: usize, bytes: &[u8]) -> u16
    ensures { result ≡ sum16_state sum at bytes.now }
{
    let mut sum = sum;
    let mut place = at % 2;
    for byte in bytes {
        sum = end_around(sum, place16(place, *byte));
        place = 1 - place;
    }
    sum
}

/// Returns the number of 16 bits that has `byte` at `place`. At an even place it is the high byte, and otherwise the
/// low byte.
fn place16(place: usize, byte: u8) -> u16
    ensures { result ≡ place16 place byte }
{
    if place % 2 == 0 {
        return 256 * u16::from(byte);
    }
    u16::from(byte)
}

/// Returns a remainder after one step, in the opposite order.
fn low_step(polynomial: u32, crc: u32) -> u32
    ensures { result ≡ low_step polynomial crc }
{
    if crc % 2 == 0 {
        return crc / 2;
    }
    crc / 2 ^ polynomial
}

/// Returns a remainder after the eight steps that follow the addition of a byte, in the opposite order.
fn low_byte(polynomial: u32, crc: u32) -> u32
    ensures { result ≡ steps (low_step polynomial) 8 crc }
{
    let mut crc = crc;
    for _ in 0..8_u32 {
        crc = low_step(polynomial, crc);
    }
    crc
}

/// Returns a remainder of 16 bits after one step, in the opposite order.
fn low_step16(crc: u16) -> u16
    ensures { result ≡ low_step 0x8408 crc }
{
    if crc % 2 == 0 {
        return crc / 2;
    }
    crc / 2 ^ 0x8408
}

/// Returns a remainder of 16 bits after the eight steps that follow the addition of a byte, in the opposite order.
fn low_byte16(crc: u16) -> u16
    ensures { result ≡ steps (low_step 0x8408) 8 crc }
{
    let mut crc = crc;
    for _ in 0..8_u32 {
        crc = low_step16(crc);
    }
    crc
}

/// Returns a remainder after one step.
fn high_step(polynomial: u32, crc: u32) -> u32
    ensures { result ≡ high_step 0x80000000 polynomial crc }
{
    if crc < 0x8000_0000 {
        return 2 * crc;
    }
    2 * (crc - 0x8000_0000) ^ polynomial
}

/// Returns a remainder after the eight steps that follow the addition of a byte.
fn high_byte(polynomial: u32, crc: u32) -> u32
    ensures { result ≡ steps (high_step 0x80000000 polynomial) 8 crc }
{
    let mut crc = crc;
    for _ in 0..8_u32 {
        crc = high_step(polynomial, crc);
    }
    crc
}

/// Returns a remainder after one step by the polynomial of CCITT.
fn ccitt_step(crc: u16) -> u16
    ensures { result ≡ high_step 0x8000 0x1021 crc }
{
    if crc < 0x8000 {
        return 2 * crc;
    }
    2 * (crc - 0x8000) ^ 0x1021
}

/// Returns a remainder after the eight steps that follow the addition of a byte, by the polynomial of CCITT.
fn ccitt_byte(crc: u16) -> u16
    ensures { result ≡ steps (high_step 0x8000 0x1021) 8 crc }
{
    let mut crc = crc;
    for _ in 0..8_u32 {
        crc = ccitt_step(crc);
    }
    crc
}

/// Returns the sum of two numbers of 16 bits. The carry is added to it.
fn end_around(a: u16, b: u16) -> u16
    ensures { result ≡ end_around a b }
{
    let sum = u32::from(a) + u32::from(b);
    if sum < 65536 {
        return sum as u16;
    }
    (sum - 65535) as u16
}

/// Returns the number of 8 bits as a list of one byte.
pub fn octets_of_u8(number: u8) -> [u8; 1]
    ensures { result ≡ bytes1 number }
{
    [number]
}

/// Returns the bytes of a number, the highest first.
pub fn octets_of_u16(number: u16) -> [u8; 2]
    ensures { result ≡ bytes2 number }
{
    [(number / 256) as u8, (number % 256) as u8]
}

/// Returns the bytes of a number, the highest first.
pub fn octets_of_u32(number: u32) -> [u8; 4]
    ensures { result ≡ bytes4 number }
{
    [
        (number / 16777216) as u8,
        (number / 65536 % 256) as u8,
        (number / 256 % 256) as u8,
        (number % 256) as u8,
    ]
}
