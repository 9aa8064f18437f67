//! Records of constant widths: a protocol's header, packed fields, the frames of ADTS.

use crate::memory::{Memory, mixed, or_refused, stepped};
use bitstream_io::{
    BE, BitRead, BitReadExt, BitReader, BitWrite, BitWriteExt, BitWriter, Bits, Endianness, Error,
    LE, Slice, SliceMut, Source,
};

/// Reads headers of 20 fields, most of them whole bytes.
fn read_protocol<R: BitRead + Drop>(mut reader: R, count: u64) -> Result<u64, Error> {
    let mut sum = 0u64;
    for _item in 0..count {
        let f_a = reader.read::<Bits<4>, u8>()?;
        let f_b = reader.read::<Bits<4>, u8>()?;
        let f_c = reader.read::<Bits<6>, u8>()?;
        let f_d = reader.read::<Bits<2>, u8>()?;
        let f_e = reader.read::<Bits<16>, u16>()?;
        let f_f = reader.read::<Bits<16>, u16>()?;
        let f_g = reader.read_bit()?;
        let f_h = reader.read_bit()?;
        let f_i = reader.read_bit()?;
        let f_j = reader.read::<Bits<13>, u16>()?;
        let f_k = reader.read::<Bits<8>, u8>()?;
        let f_l = reader.read::<Bits<8>, u8>()?;
        let f_m = reader.read::<Bits<16>, u16>()?;
        let f_n = reader.read::<Bits<32>, u32>()?;
        let f_o = reader.read::<Bits<32>, u32>()?;
        let f_p = reader.read::<Bits<16>, u16>()?;
        let f_q = reader.read::<Bits<16>, u16>()?;
        let f_t = reader.read::<Bits<32>, u32>()?;
        let f_u = reader.read::<Bits<4>, u8>()?;
        let f_v = reader.read::<Bits<12>, u16>()?;
        sum = mixed(sum, u64::from(f_a));
        sum = mixed(sum, u64::from(f_b));
        sum = mixed(sum, u64::from(f_c));
        sum = mixed(sum, u64::from(f_d));
        sum = mixed(sum, u64::from(f_e));
        sum = mixed(sum, u64::from(f_f));
        sum = mixed(sum, u64::from(f_g));
        sum = mixed(sum, u64::from(f_h));
        sum = mixed(sum, u64::from(f_i));
        sum = mixed(sum, u64::from(f_j));
        sum = mixed(sum, u64::from(f_k));
        sum = mixed(sum, u64::from(f_l));
        sum = mixed(sum, u64::from(f_m));
        sum = mixed(sum, u64::from(f_n));
        sum = mixed(sum, u64::from(f_o));
        sum = mixed(sum, u64::from(f_p));
        sum = mixed(sum, u64::from(f_q));
        sum = mixed(sum, u64::from(f_t));
        sum = mixed(sum, u64::from(f_u));
        sum = mixed(sum, u64::from(f_v));
    }
    Ok(sum)
}

/// Writes headers of 20 fields, most of them whole bytes.
fn write_protocol<T: Memory, E: Endianness>(count: u64, seed: u64, out: T) -> Result<u64, Error> {
    let len = out.free();
    let mut writer = BitWriter::<T, E>::new(out);
    let mut state = seed;
    for _item in 0..count {
        state = stepped(state);
        writer.write::<Bits<4>, u8>((state >> 60) as u8)?;
        writer.write::<Bits<4>, u8>(((state >> 56) % 16) as u8)?;
        writer.write::<Bits<6>, u8>(((state >> 50) % 64) as u8)?;
        writer.write::<Bits<2>, u8>(((state >> 48) % 4) as u8)?;
        writer.write::<Bits<16>, u16>(((state >> 32) % 65536) as u16)?;
        writer.write::<Bits<16>, u16>(((state >> 16) % 65536) as u16)?;
        writer.write_bit(state >> 63 == 1)?;
        writer.write_bit((state >> 62) % 2 == 1)?;
        writer.write_bit((state >> 61) % 2 == 1)?;
        writer.write::<Bits<13>, u16>((state >> 51) as u16)?;
        writer.write::<Bits<8>, u8>(((state >> 40) % 256) as u8)?;
        writer.write::<Bits<8>, u8>(((state >> 32) % 256) as u8)?;
        writer.write::<Bits<16>, u16>(((state >> 24) % 65536) as u16)?;
        writer.write::<Bits<32>, u32>((state >> 32) as u32)?;
        writer.write::<Bits<32>, u32>((state % 4294967296) as u32)?;
        writer.write::<Bits<16>, u16>(((state >> 20) % 65536) as u16)?;
        writer.write::<Bits<16>, u16>(((state >> 28) % 65536) as u16)?;
        writer.write::<Bits<32>, u32>(((state >> 16) % 4294967296) as u32)?;
        writer.write::<Bits<4>, u8>(((state >> 40) % 16) as u8)?;
        writer.write::<Bits<12>, u16>((state >> 52) as u16)?;
    }
    writer.byte_align()?;
    Ok(len.saturating_sub(writer.into_writer().free()) as u64)
}

/// Reads records of 20 fields of 1 to 33 bits.
fn read_packed<R: BitRead + Drop>(mut reader: R, count: u64) -> Result<u64, Error> {
    let mut sum = 0u64;
    for _item in 0..count {
        let f_a = reader.read::<Bits<3>, u8>()?;
        let f_b = reader.read::<Bits<5>, u8>()?;
        let f_c = reader.read_bit()?;
        let f_d = reader.read::<Bits<11>, u16>()?;
        let f_e = reader.read::<Bits<7>, u8>()?;
        let f_f = reader.read_bit()?;
        let f_g = reader.read_bit()?;
        let f_h = reader.read::<Bits<2>, u8>()?;
        let f_i = reader.read::<Bits<9>, u16>()?;
        let f_j = reader.read::<Bits<17>, u32>()?;
        let f_k = reader.read::<Bits<33>, u64>()?;
        let f_l = reader.read::<Bits<6>, u8>()?;
        let f_m = reader.read_bit()?;
        let f_n = reader.read_bit()?;
        let f_o = reader.read::<Bits<4>, u8>()?;
        let f_p = reader.read::<Bits<10>, u16>()?;
        let f_q = reader.read::<Bits<23>, u32>()?;
        let f_t = reader.read::<Bits<5>, u8>()?;
        let f_u = reader.read_bit()?;
        let f_v = reader.read::<Bits<3>, u8>()?;
        sum = mixed(sum, u64::from(f_a));
        sum = mixed(sum, u64::from(f_b));
        sum = mixed(sum, u64::from(f_c));
        sum = mixed(sum, u64::from(f_d));
        sum = mixed(sum, u64::from(f_e));
        sum = mixed(sum, u64::from(f_f));
        sum = mixed(sum, u64::from(f_g));
        sum = mixed(sum, u64::from(f_h));
        sum = mixed(sum, u64::from(f_i));
        sum = mixed(sum, u64::from(f_j));
        sum = mixed(sum, f_k);
        sum = mixed(sum, u64::from(f_l));
        sum = mixed(sum, u64::from(f_m));
        sum = mixed(sum, u64::from(f_n));
        sum = mixed(sum, u64::from(f_o));
        sum = mixed(sum, u64::from(f_p));
        sum = mixed(sum, u64::from(f_q));
        sum = mixed(sum, u64::from(f_t));
        sum = mixed(sum, u64::from(f_u));
        sum = mixed(sum, u64::from(f_v));
    }
    Ok(sum)
}

/// Writes records of 20 fields of 1 to 33 bits.
fn write_packed<T: Memory, E: Endianness>(count: u64, seed: u64, out: T) -> Result<u64, Error> {
    let len = out.free();
    let mut writer = BitWriter::<T, E>::new(out);
    let mut state = seed;
    for _item in 0..count {
        state = stepped(state);
        writer.write::<Bits<3>, u8>((state >> 61) as u8)?;
        writer.write::<Bits<5>, u8>((state >> 59) as u8)?;
        writer.write_bit(state >> 63 == 1)?;
        writer.write::<Bits<11>, u16>((state >> 53) as u16)?;
        writer.write::<Bits<7>, u8>((state >> 57) as u8)?;
        writer.write_bit((state >> 62) % 2 == 1)?;
        writer.write_bit((state >> 61) % 2 == 1)?;
        writer.write::<Bits<2>, u8>((state >> 62) as u8)?;
        writer.write::<Bits<9>, u16>((state >> 55) as u16)?;
        writer.write::<Bits<17>, u32>((state >> 47) as u32)?;
        writer.write::<Bits<33>, u64>(state >> 31)?;
        writer.write::<Bits<6>, u8>((state >> 58) as u8)?;
        writer.write_bit((state >> 60) % 2 == 1)?;
        writer.write_bit((state >> 59) % 2 == 1)?;
        writer.write::<Bits<4>, u8>((state >> 60) as u8)?;
        writer.write::<Bits<10>, u16>((state >> 54) as u16)?;
        writer.write::<Bits<23>, u32>((state >> 41) as u32)?;
        writer.write::<Bits<5>, u8>((state >> 59) as u8)?;
        writer.write_bit((state >> 58) % 2 == 1)?;
        writer.write::<Bits<3>, u8>((state >> 61) as u8)?;
    }
    writer.byte_align()?;
    Ok(len.saturating_sub(writer.into_writer().free()) as u64)
}

/// Reads the headers of ADTS frames and skips what each frame holds.
fn read_adts<R: BitRead + Drop>(mut reader: R, count: u64) -> Result<u64, Error> {
    let mut sum = 0u64;
    for _item in 0..count {
        reader.read_const::<Bits<12>, Bits<0xFFF>, Error>(Error::NoSignBit)?;
        let f_mpeg2 = reader.read_bit()?;
        reader.read_const::<Bits<2>, Bits<0>, Error>(Error::NoSignBit)?;
        let f_absent = reader.read_bit()?;
        let f_profile = reader.read::<Bits<2>, u8>()?;
        let f_frequency = reader.read::<Bits<4>, u8>()?;
        let f_private = reader.read_bit()?;
        let f_channels = reader.read::<Bits<3>, u8>()?;
        let f_original = reader.read_bit()?;
        let f_home = reader.read_bit()?;
        let f_id = reader.read_bit()?;
        let f_start = reader.read_bit()?;
        let f_length = reader.read::<Bits<13>, u16>()?;
        let f_fullness = reader.read::<Bits<11>, u16>()?;
        let f_blocks = reader.read::<Bits<2>, u8>()?;
        sum = mixed(sum, u64::from(f_mpeg2));
        sum = mixed(sum, u64::from(f_absent));
        sum = mixed(sum, u64::from(f_profile));
        sum = mixed(sum, u64::from(f_frequency));
        sum = mixed(sum, u64::from(f_private));
        sum = mixed(sum, u64::from(f_channels));
        sum = mixed(sum, u64::from(f_original));
        sum = mixed(sum, u64::from(f_home));
        sum = mixed(sum, u64::from(f_id));
        sum = mixed(sum, u64::from(f_start));
        sum = mixed(sum, u64::from(f_length));
        sum = mixed(sum, u64::from(f_fullness));
        sum = mixed(sum, u64::from(f_blocks));
        reader.skip(8 * u32::from(f_length.saturating_sub(7)))?;
    }
    Ok(sum)
}

/// Writes ADTS frames.
fn write_adts<T: Memory, E: Endianness>(count: u64, seed: u64, out: T) -> Result<u64, Error> {
    let len = out.free();
    let mut writer = BitWriter::<T, E>::new(out);
    let mut state = seed;
    let payload = [0xA5u8; 128];
    for _item in 0..count {
        state = stepped(state);
        let body = (state >> 57) as usize;
        writer.write_const::<Bits<12>, Bits<0xFFF>>()?;
        writer.write_bit(state >> 63 == 1)?;
        writer.write_const::<Bits<2>, Bits<0>>()?;
        writer.write_bit((state >> 62) % 2 == 1)?;
        writer.write::<Bits<2>, u8>((state >> 62) as u8)?;
        writer.write::<Bits<4>, u8>((state >> 60) as u8)?;
        writer.write_bit((state >> 61) % 2 == 1)?;
        writer.write::<Bits<3>, u8>((state >> 61) as u8)?;
        writer.write_bit((state >> 60) % 2 == 1)?;
        writer.write_bit((state >> 59) % 2 == 1)?;
        writer.write_bit((state >> 58) % 2 == 1)?;
        writer.write_bit((state >> 57) % 2 == 1)?;
        writer.write::<Bits<13>, u16>((state >> 57) as u16 + 7)?;
        writer.write::<Bits<11>, u16>((state >> 53) as u16)?;
        writer.write::<Bits<2>, u8>((state >> 62) as u8)?;
        writer.write_bytes(&payload[..body])?;
    }
    writer.byte_align()?;
    Ok(len.saturating_sub(writer.into_writer().free()) as u64)
}

/// Reads headers of a protocol, in the order named.
fn in_order_protocol<R: Source + Drop>(order: u32, source: R, count: u64) -> u64 {
    or_refused(if order == 0 {
        read_protocol(BitReader::<_, BE>::new(source), count)
    } else {
        read_protocol(BitReader::<_, LE>::new(source), count)
    })
}

/// Reads headers of a protocol from a slice's bytes.
#[unsafe(no_mangle)]
pub extern "C" fn bench_read_protocol(order: u32, data: &[u8], count: u64) -> u64 {
    in_order_protocol(order, data, count)
}

/// Reads headers of a protocol from a `Slice`.
#[unsafe(no_mangle)]
pub extern "C" fn bench_read_protocol_slice(order: u32, data: &[u8], count: u64) -> u64 {
    in_order_protocol(order, Slice::new(data), count)
}

/// Reads packed records, in the order named.
fn in_order_packed<R: Source + Drop>(order: u32, source: R, count: u64) -> u64 {
    or_refused(if order == 0 {
        read_packed(BitReader::<_, BE>::new(source), count)
    } else {
        read_packed(BitReader::<_, LE>::new(source), count)
    })
}

/// Reads packed records from a slice's bytes.
#[unsafe(no_mangle)]
pub extern "C" fn bench_read_packed(order: u32, data: &[u8], count: u64) -> u64 {
    in_order_packed(order, data, count)
}

/// Reads packed records from a `Slice`.
#[unsafe(no_mangle)]
pub extern "C" fn bench_read_packed_slice(order: u32, data: &[u8], count: u64) -> u64 {
    in_order_packed(order, Slice::new(data), count)
}

/// Reads ADTS frames, in the order named.
fn in_order_adts<R: Source + Drop>(order: u32, source: R, count: u64) -> u64 {
    or_refused(if order == 0 {
        read_adts(BitReader::<_, BE>::new(source), count)
    } else {
        read_adts(BitReader::<_, LE>::new(source), count)
    })
}

/// Reads ADTS frames from a slice's bytes.
#[unsafe(no_mangle)]
pub extern "C" fn bench_read_adts(order: u32, data: &[u8], count: u64) -> u64 {
    in_order_adts(order, data, count)
}

/// Reads ADTS frames from a `Slice`.
#[unsafe(no_mangle)]
pub extern "C" fn bench_read_adts_slice(order: u32, data: &[u8], count: u64) -> u64 {
    in_order_adts(order, Slice::new(data), count)
}

/// Writes headers of a protocol, in the order named.
fn in_order_write_protocol<T: Memory>(order: u32, count: u64, seed: u64, out: T) -> u64 {
    or_refused(if order == 0 {
        write_protocol::<_, BE>(count, seed, out)
    } else {
        write_protocol::<_, LE>(count, seed, out)
    })
}

/// Writes headers of a protocol to a slice.
#[unsafe(no_mangle)]
pub extern "C" fn bench_write_protocol(order: u32, count: u64, seed: u64, out: &mut [u8]) -> u64 {
    in_order_write_protocol(order, count, seed, out)
}

/// Writes headers of a protocol to a `SliceMut`.
#[unsafe(no_mangle)]
pub extern "C" fn bench_write_protocol_slice(
    order: u32,
    count: u64,
    seed: u64,
    out: &mut [u8],
) -> u64 {
    in_order_write_protocol(order, count, seed, SliceMut::new(out))
}

/// Writes packed records, in the order named.
fn in_order_write_packed<T: Memory>(order: u32, count: u64, seed: u64, out: T) -> u64 {
    or_refused(if order == 0 {
        write_packed::<_, BE>(count, seed, out)
    } else {
        write_packed::<_, LE>(count, seed, out)
    })
}

/// Writes packed records to a slice.
#[unsafe(no_mangle)]
pub extern "C" fn bench_write_packed(order: u32, count: u64, seed: u64, out: &mut [u8]) -> u64 {
    in_order_write_packed(order, count, seed, out)
}

/// Writes packed records to a `SliceMut`.
#[unsafe(no_mangle)]
pub extern "C" fn bench_write_packed_slice(
    order: u32,
    count: u64,
    seed: u64,
    out: &mut [u8],
) -> u64 {
    in_order_write_packed(order, count, seed, SliceMut::new(out))
}

/// Writes ADTS frames, in the order named.
fn in_order_write_adts<T: Memory>(order: u32, count: u64, seed: u64, out: T) -> u64 {
    or_refused(if order == 0 {
        write_adts::<_, BE>(count, seed, out)
    } else {
        write_adts::<_, LE>(count, seed, out)
    })
}

/// Writes ADTS frames to a slice.
#[unsafe(no_mangle)]
pub extern "C" fn bench_write_adts(order: u32, count: u64, seed: u64, out: &mut [u8]) -> u64 {
    in_order_write_adts(order, count, seed, out)
}

/// Writes ADTS frames to a `SliceMut`.
#[unsafe(no_mangle)]
pub extern "C" fn bench_write_adts_slice(order: u32, count: u64, seed: u64, out: &mut [u8]) -> u64 {
    in_order_write_adts(order, count, seed, SliceMut::new(out))
}

/// Reads headers of a protocol from a slice's bytes, by `over`.
#[unsafe(no_mangle)]
pub extern "C" fn bench_read_protocol_over(order: u32, data: &[u8], count: u64) -> u64 {
    or_refused(if order == 0 {
        read_protocol(BitReader::<_, BE>::over(data), count)
    } else {
        read_protocol(BitReader::<_, LE>::over(data), count)
    })
}

/// Reads packed records from a slice's bytes, by `over`.
#[unsafe(no_mangle)]
pub extern "C" fn bench_read_packed_over(order: u32, data: &[u8], count: u64) -> u64 {
    or_refused(if order == 0 {
        read_packed(BitReader::<_, BE>::over(data), count)
    } else {
        read_packed(BitReader::<_, LE>::over(data), count)
    })
}

/// Reads ADTS frames from a slice's bytes, by `over`.
#[unsafe(no_mangle)]
pub extern "C" fn bench_read_adts_over(order: u32, data: &[u8], count: u64) -> u64 {
    or_refused(if order == 0 {
        read_adts(BitReader::<_, BE>::over(data), count)
    } else {
        read_adts(BitReader::<_, LE>::over(data), count)
    })
}
