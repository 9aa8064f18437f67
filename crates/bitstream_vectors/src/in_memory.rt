//! Reads of numbers, runs of equal bits and parts of bytes in memory, at each place in a byte, in both
//! orders. Also calls that need more bits than there are.
//!
//! The expected values are computed from single bits, and not by the library.
use crate::buffers::byte_at;
use crate::row::Order;
use bitstream_io::{BE, BitRead, Bits, Endianness, Error, LE, SliceReader};
use std::io;
use std::io::SeekFrom;

/// The number of widths at which numbers are read: from 0 to 128 bits.
const WIDTHS: u32 = 129;

/// The number of lengths of runs: from 0 to 200 bits. 200 bits are three 64-bit words and 8 bits.
const RUNS: u32 = 201;

/// The number of bits before the byte in which a number begins.
const BEFORE: u32 = 24;

/// The number of bytes after a number or a run, in the reads where the bytes do not end with it.
const BEHIND: usize = 16;

/// The number of bytes from which parts are taken.
const WHOLE: usize = 5;

/// Returns the number that the `width` bits from the bit `at` on encode.
fn number_of(order: Order, bytes: &[u8], at: u32, width: u32) -> u128 {
    let mut number = 0u128;
    for index in 0..width {
        let bit = u128::from(order.bit(bytes, at.wrapping_add(index) as usize));
        number = match order {
            Order::Big => (number << 1) | bit,
            Order::Little => number | bit.wrapping_shl(index),
        };
    }
    number
}

/// Returns true if a number of `width` bits at a place is read as expected, and only its bits are taken. A
/// number of at most 64 bits is also read into a `u64`.
fn reads_word<E: Endianness>(bytes: &[u8], at: u64, width: u32, want: u128) -> bool {
    let mut reader = SliceReader::<E>::over(bytes);
    let there = reader.seek_bits(SeekFrom::Start(at)).is_ok();
    let same = matches!(reader.read_unsigned_var::<u128>(width), Ok(word) if word == want);
    let taken = reader.bits_read() == at.wrapping_add(u64::from(width));
    let back = reader.seek_bits(SeekFrom::Start(at)).is_ok();
    let short = width > 64
        || matches!(reader.read_unsigned_var::<u64>(width), Ok(word) if u128::from(word) == want);
    there & same & taken & back & short
}

/// Returns true if a read of `width` bits at a place fails because the bytes end first, and takes no bit.
/// Also returns true if the bytes end before the place.
fn word_ends<E: Endianness>(bytes: &[u8], at: u64, width: u32) -> bool {
    let mut reader = SliceReader::<E>::over(bytes);
    if at > reader.bits_left() {
        return matches!(reader.seek_bits(SeekFrom::Start(at)), Err(Error::Place));
    }
    let there = reader.seek_bits(SeekFrom::Start(at)).is_ok();
    let ended = matches!(
        reader.read_unsigned_var::<u128>(width),
        Err(Error::EndOfInput)
    );
    there & ended & (reader.bits_read() == at)
}

/// Returns true if a number after some bytes and bits is read correctly: with the bytes ending at its
/// end, with more bytes after it, and with one byte missing.
fn word_agrees<E: Endianness>(order: Order, bytes: &[u8], bit: u32, width: u32) -> bool {
    let at = BEFORE.wrapping_add(bit);
    let end = at.wrapping_add(width).div_ceil(8) as usize;
    let want = number_of(order, bytes, at, width);
    let place = u64::from(at);
    let last = bytes.get(..end).unwrap_or(&[]);
    let more = bytes.get(..end.wrapping_add(BEHIND)).unwrap_or(&[]);
    let short = bytes.get(..end.wrapping_sub(1)).unwrap_or(&[]);
    reads_word::<E>(last, place, width, want)
        & reads_word::<E>(more, place, width, want)
        & word_ends::<E>(short, place, width)
}

/// Returns the number of widths at which the number at a bit is read wrongly.
fn differing_words<E: Endianness>(order: Order, bit: u32) -> u32 {
    let mut bytes = [0u8; 48];
    for (index, byte) in bytes.iter_mut().enumerate() {
        *byte = byte_at(index);
    }
    let mut differing = 0u32;
    for width in 0..WIDTHS {
        if !word_agrees::<E>(order, bytes.as_slice(), bit, width) {
            differing = differing.saturating_add(1);
        }
    }
    differing
}

/// Skips some bits, and reads the run after them.
fn run_behind<E: Endianness>(
    reader: &mut SliceReader<E>,
    bits: u32,
    stop: bool,
) -> Result<u32, Error> {
    reader.skip(bits)?;
    if stop {
        reader.read_unary::<Bits<1>>()
    } else {
        reader.read_unary::<Bits<0>>()
    }
}

/// Returns true if a run after some bits is read as expected, and is taken with its stop bit.
fn reads_run<E: Endianness>(bytes: &[u8], bits: u32, stop: bool, want: u32) -> bool {
    let mut reader = SliceReader::<E>::over(bytes);
    let same = matches!(run_behind(&mut reader, bits, stop), Ok(run) if run == want);
    same & (reader.bits_read()
        == u64::from(bits)
            .wrapping_add(u64::from(want))
            .wrapping_add(1))
}

/// Returns true if a run after some bits has no stop bit, and none of its bits is taken.
fn run_ends<E: Endianness>(bytes: &[u8], bits: u32, stop: bool) -> bool {
    let mut reader = SliceReader::<E>::over(bytes);
    let ended = matches!(run_behind(&mut reader, bits, stop), Err(Error::EndOfInput));
    ended & (reader.bits_read() == u64::from(bits))
}

/// Flips a bit.
fn turn(order: Order, bytes: &mut [u8], at: u32) {
    let mask = match order {
        Order::Big => 0x80u8.wrapping_shr(at % 8),
        Order::Little => 1u8.wrapping_shl(at % 8),
    };
    if let Some(byte) = bytes.get_mut((at / 8) as usize) {
        *byte ^= mask;
    }
}

/// Returns true if a run is read correctly after some bits that equal its stop bit: with the bytes
/// ending at its end, with more bytes after it, and with its stop bit missing.
fn run_agrees<E: Endianness>(order: Order, bits: u32, run: u32, stop: bool) -> bool {
    let mut bytes = [if stop { 0x00u8 } else { 0xff }; 48];
    for at in 0..bits {
        turn(order, bytes.as_mut_slice(), at);
    }
    let last = bits.wrapping_add(run);
    let end = (last / 8).wrapping_add(1) as usize;
    let endless = run_ends::<E>(bytes.get(..end).unwrap_or(&[]), bits, stop);
    turn(order, bytes.as_mut_slice(), last);
    let ended = reads_run::<E>(bytes.get(..end).unwrap_or(&[]), bits, stop, run);
    let behind = end.wrapping_add(BEHIND);
    let more = reads_run::<E>(bytes.get(..behind).unwrap_or(&[]), bits, stop, run);
    endless & ended & more
}

/// Returns the number of run lengths at which `run_agrees` is false for one of the stop bits.
fn differing_runs<E: Endianness>(order: Order, bits: u32) -> u32 {
    let mut differing = 0u32;
    for run in 0..RUNS {
        let both = run_agrees::<E>(order, bits, run, true)
            & run_agrees::<E>(order, bits, run, false);
        if !both {
            differing = differing.saturating_add(1);
        }
    }
    differing
}

/// Returns true if these bytes are left to a reader, and none of their bits is taken.
fn leaves<E: Endianness>(reader: &SliceReader<E>, bytes: &[u8]) -> bool {
    let bits = (bytes.len() as u64).wrapping_mul(8);
    (reader.rest() == bytes)
        & (reader.bits_left() == bits)
        & (reader.is_at_end() == bytes.is_empty())
}

/// Returns true if a reader returns these bytes, and then ends.
fn gives<E: Endianness>(reader: &mut SliceReader<E>, bytes: &[u8]) -> bool {
    let mut read = [0u8; WHOLE];
    let same = match read.get_mut(..bytes.len()) {
        Some(read) => reader.read_bytes(read).is_ok() && *read == *bytes,
        None => false,
    };
    same & leaves(reader, &[]) & matches!(reader.read_bit(), Err(Error::EndOfInput))
}

/// Returns true if there is a part and it has these bytes.
fn has_part<E: Endianness>(part: Result<SliceReader<'_, E>, Error>, bytes: &[u8]) -> bool {
    match part {
        Ok(mut part) => gives(&mut part, bytes),
        Err(_) => false,
    }
}

/// Returns true if `count` bytes after some bits are taken, lent or as a part. If there are too few
/// bytes, the calls must fail.
fn part_agrees<E: Endianness>(bytes: &[u8], bits: u32, count: usize) -> bool {
    let (mut lends, mut parts) = (SliceReader::<E>::over(bytes), SliceReader::<E>::over(bytes));
    let skipped = lends.skip(bits).is_ok() & parts.skip(bits).is_ok();
    let behind = bytes.get(bits.div_ceil(8) as usize..).unwrap_or(&[]);
    let (taken, left) = match behind.get(..count) {
        Some(taken) => (taken, behind.get(count..).unwrap_or(&[])),
        None => (behind, behind),
    };
    let same = if count <= behind.len() {
        matches!(lends.take_bytes(count), Ok(lent) if lent == taken)
            & has_part(parts.part(count), taken)
    } else {
        matches!(lends.take_bytes(count), Err(Error::EndOfInput))
            & matches!(parts.part(count), Err(Error::EndOfInput))
    };
    skipped & same & leaves(&lends, left) & leaves(&parts, left)
}

/// Returns the number of lengths at which a part after some bits is taken wrongly.
fn differing_parts<E: Endianness>(bits: u32) -> u32 {
    let bytes: [u8; WHOLE] = [0xb1, 0xed, 0x3b, 0xc1, 0x57];
    let mut differing = 0u32;
    for count in 0..=WHOLE {
        if !part_agrees::<E>(bytes.as_slice(), bits, count) {
            differing = differing.saturating_add(1);
        }
    }
    differing
}

/// The kinds of calls that need more bits than three bytes have.
const TOO_LONG: u32 = 9;

/// Returns the error of a call of a kind that needs more bits than three bytes of zeros have.
fn too_long<E: Endianness>(reader: &mut SliceReader<E>, kind: u32) -> Option<Error> {
    match kind {
        0 => reader.skip(25).err(),
        1 => reader.read_unsigned_var::<u32>(25).err(),
        2 => reader.read_signed_var::<i32>(25).err(),
        3 => reader.read_unsigned::<Bits<100>, u128>().err(),
        4 => reader.read_signed::<Bits<32>, i32>().err(),
        5 => reader.read_to::<u32>().err(),
        6 => reader.read_as_to::<LE, u64>().err(),
        7 => reader.read_bytes(&mut [0; 4]).err(),
        _ => reader.read_unary::<Bits<1>>().err(),
    }
}

/// Returns true if a call of a kind fails after some bits, and the reader stays there.
fn stays_in_place<E: Endianness>(bits: u32, kind: u32) -> bool {
    let mut reader = SliceReader::<E>::over(&[0; 3]);
    let skipped = reader.skip(bits).is_ok();
    let ended = matches!(too_long(&mut reader, kind), Some(Error::EndOfInput));
    let failed = matches!(reader.read_bit(), Err(Error::Failed));
    let place = reader.bits_read() == u64::from(bits);
    let left = reader.bits_left() == u64::from(24u32.wrapping_sub(bits));
    skipped & ended & failed & place & left & !reader.is_at_end()
}

/// Returns the number of kinds of overlong calls that move the reader after some bits.
fn moved_by_failing<E: Endianness>(bits: u32) -> u32 {
    let mut differing = 0u32;
    for kind in 0..TOO_LONG {
        if !stays_in_place::<E>(bits, kind) {
            differing = differing.saturating_add(1);
        }
    }
    differing
}

/// Reads all numbers, runs and parts, and makes the overlong calls. Prints the number of differences,
/// and returns it.
pub fn play_memory_parts(rt: &impl Print) -> io::Result<u32> {
    let (mut words, mut runs, mut parts, mut moved) = (0u32, 0u32, 0u32, 0u32);
    for bits in 0..8 {
        words = words
            .saturating_add(differing_words::<BE>(Order::Big, bits))
            .saturating_add(differing_words::<LE>(Order::Little, bits));
        runs = runs
            .saturating_add(differing_runs::<BE>(Order::Big, bits))
            .saturating_add(differing_runs::<LE>(Order::Little, bits));
        parts = parts
            .saturating_add(differing_parts::<BE>(bits))
            .saturating_add(differing_parts::<LE>(bits));
        moved = moved
            .saturating_add(moved_by_failing::<BE>(bits))
            .saturating_add(moved_by_failing::<LE>(bits));
    }
    println!(rt;
        "r16_memory: {WIDTHS} widths, {RUNS} runs, 6 parts, {TOO_LONG} failing calls, 8 places, 2 orders: {words}, {runs}, {parts} and {moved} differ"
    )?;
    Ok(
        words
            .saturating_add(runs)
            .saturating_add(parts)
            .saturating_add(moved),
    )
}
