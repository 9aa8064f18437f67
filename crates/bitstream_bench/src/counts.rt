//! Counts of bits and checked values: tables of their results.
use crate::asserts::{each_holds, holds};
use bitstream_io::{
    BitCount, CheckedError, CheckedSigned, SignedBitCount, SignedInteger, UnsignedInteger,
};
use std::alloc::Global;

/// The sum of 5 bits and a number, their difference, and their difference with a sign bit.
type Sums = (Option<u32>, Option<u32>, Option<u32>);

/// Returns the sum, the difference and the signed difference of 5 bits and `number`, of at most 16, 3 and 8 bits.
fn sums(number: u32) -> Sums {
    let five = BitCount::<8>::new::<5>();
    let signed = SignedBitCount::<8>::new::<5>();
    (
        five.checked_add::<16>(number).map(u32::from),
        five.checked_sub::<3>(number).map(u32::from),
        signed.checked_sub::<8>(number).map(u32::from),
    )
}

const SUMS: [(u32, Sums); 9] = [
    (0, (Some(5), None, Some(5))),
    (1, (Some(6), None, Some(4))),
    (2, (Some(7), Some(3), Some(3))),
    (4, (Some(9), Some(1), Some(1))),
    (5, (Some(10), Some(0), None)),
    (6, (Some(11), None, None)),
    (11, (Some(16), None, None)),
    (12, (None, None, None)),
    (4294967295, (None, None, None)),
];

fn are_sums(rows: &[(u32, Sums)]) -> bool {
    let mut right = true;
    for (number, want) in rows {
        right &= sums(*number) == *want;
    }
    right
}

/// The least and the greatest `i8`, and the least and the greatest `u8`, if there is such a count.
type Ranges = Option<(i8, i8, u8, u8)>;

/// Returns the ranges of an `i8` and of a `u8` in `bits` bits.
fn ranges(bits: u32) -> Ranges {
    let signed = SignedBitCount::<128>::try_from(bits).ok()?.range::<i8>();
    let unsigned = BitCount::<128>::try_from(bits).ok()?.range::<u8>();
    Some((
        *signed.start(),
        *signed.end(),
        *unsigned.start(),
        *unsigned.end(),
    ))
}

const RANGES: [(u32, Ranges); 7] = [
    (0, None),
    (1, Some((-1, 0, 0, 1))),
    (4, Some((-8, 7, 0, 15))),
    (8, Some((-128, 127, 0, 255))),
    (9, Some((-128, 127, 0, 255))),
    (12, Some((-128, 127, 0, 255))),
    (129, None),
];

fn are_ranges(rows: &[(u32, Ranges)]) -> bool {
    let mut right = true;
    for (bits, want) in rows {
        right &= ranges(*bits) == *want;
    }
    right
}

/// The high part of a number, the count of the low part, and the value of the low part, if there is such a count.
type Parts = Option<(u8, u32, u8)>;

/// Returns the parts of 222 at `bits` bits.
fn split(bits: u32) -> Parts {
    let mask = BitCount::<16>::try_from(bits).ok()?.mask_lsb::<u8>();
    let (high, low) = mask.split(222);
    let (count, low) = low.into_count_value();
    Some((high, u32::from(count), low))
}

const PARTS: [(u32, Parts); 5] = [
    (0, Some((222, 0, 0))),
    (3, Some((27, 3, 6))),
    (8, Some((0, 8, 222))),
    (12, Some((0, 8, 222))),
    (17, None),
];

fn are_parts(rows: &[(u32, Parts)]) -> bool {
    let mut right = true;
    for (bits, want) in rows {
        right &= split(*bits) == *want;
    }
    right
}

/// Returns the error for a signed value of `bits` bits.
fn refused(bits: u32, value: i8) -> Option<CheckedError> {
    let count = SignedBitCount::<16>::try_from(bits).ok()?;
    CheckedSigned::new(count, value).err()
}

/// Returns true if a signed value of `bits` bits is rejected as too great or too small.
fn is_excessive(bits: u32, value: i8) -> bool {
    refused(bits, value) == Some(CheckedError::ExcessiveValue)
}

/// Widths, with the least and the greatest number of each.
const ENDS: [(u32, i8, i8); 7] = [
    (1, -1, 0),
    (2, -2, 1),
    (3, -4, 3),
    (4, -8, 7),
    (5, -16, 15),
    (6, -32, 31),
    (7, -64, 63),
];

fn are_ends(rows: &[(u32, i8, i8)]) -> bool {
    let mut right = true;
    for (bits, least, greatest) in rows {
        right &= refused(*bits, *least).is_none()
            & refused(*bits, *greatest).is_none()
            & is_excessive(*bits, least.wrapping_sub(1))
            & is_excessive(*bits, greatest.wrapping_add(1));
    }
    right
}

/// Checks the errors for the width of the type and for one bit more. Also checks that 5 after a sign
/// bit of 1 is -3 in four bits.
fn whole_widths_and_signs() -> bool {
    refused(8, -128).is_none()
        & (refused(9, 0) == Some(CheckedError::ExcessiveBits))
        & (UnsignedInteger::as_negative(5u8, 4) == -3)
        & (SignedInteger::as_negative(-3i8, 4) == 5)
}

#[test]
fn r02_numbers_counts(rt: HostRuntime) {
    let right = [
        whole_widths_and_signs(),
        are_sums(&SUMS),
        are_ranges(&RANGES),
        are_parts(&PARTS),
        are_ends(&ENDS),
    ];
    each_holds(&rt, &right);
}

/// Returns true if counts are printed as their numbers.
fn prints(alloc: Global) -> bool {
    let count = BitCount::<16>::new::<12>();
    let signed = SignedBitCount::<16>::new::<7>();
    match format!(in alloc; "{count} {signed}") {
        Ok(text) => text.as_str() == "12 7",
        Err(_) => false,
    }
}

#[test]
fn counts_print_as_numbers(rt: HostRuntime) {
    holds(&rt, prints(rt.alloc()));
}
