//! The CRC-32 of pages of Ogg and of sections of MPEG transport streams.

/// Advances a checksum by a byte, with the polynomial 0x04c11db7, highest bit first.
pub(crate) fn crc_byte(crc: u32, byte: u8) -> u32 {
    let mut crc = crc ^ ((byte as u32) << 24);
    for _ in 0..8 {
        let top = crc & 0x8000_0000 != 0;
        crc = (crc & 0x7fff_ffff) << 1;
        if top {
            crc ^= 0x04c1_1db7;
        }
    }
    crc
}
