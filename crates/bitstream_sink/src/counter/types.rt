//! The integer types that count bits.
ghost use Rattle.std.specs.Prelude.{refl};
ghost use Rattle.std.proofs.Common.{lit≤};
ghost use Rattle.bitstream_sink.specs.Counter.{converted};

use crate::counter::{Counter, Overflowed};

impl Counter for u8 {
    ghost value = { λ x. x };

    ghost greatest = { 255 };

    ghost full = { (32, refl) };

    fn checked_add_assign(&mut self, other: u8) -> Result<(), Overflowed> {
        *self = u8::checked_add(*self, other).ok_or(Overflowed)?;
        Ok(())
    }

    fn checked_mul(self, other: u8) -> Result<u8, Overflowed> {
        u8::checked_mul(self, other).ok_or(Overflowed)
    }

    fn byte_aligned(&self) -> bool {
        *self % 8 == 0
    }

    ghost default_law = { λ x h. h };

    ghost byte_law = { lit≤ tt };

    ghost from_law = { λ n x h. h };

    ghost u32_law = { λ n result h. converted 255 n result h };

    ghost usize_law = { λ n result h. converted 255 n result h };
}

impl Counter for u16 {
    ghost value = { λ x. x };

    ghost greatest = { 65535 };

    ghost full = { (8192, refl) };

    fn checked_add_assign(&mut self, other: u16) -> Result<(), Overflowed> {
        *self = u16::checked_add(*self, other).ok_or(Overflowed)?;
        Ok(())
    }

    fn checked_mul(self, other: u16) -> Result<u16, Overflowed> {
        u16::checked_mul(self, other).ok_or(Overflowed)
    }

    fn byte_aligned(&self) -> bool {
        *self % 8 == 0
    }

    ghost default_law = { λ x h. h };

    ghost byte_law = { lit≤ tt };

    ghost from_law = { λ n x h. h };

    ghost u32_law = { λ n result h. converted 65535 n result h };

    ghost usize_law = { λ n result h. converted 65535 n result h };
}

impl Counter for u32 {
    ghost value = { λ x. x };

    ghost greatest = { 4294967295 };

    ghost full = { (536870912, refl) };

    fn checked_add_assign(&mut self, other: u32) -> Result<(), Overflowed> {
        *self = u32::checked_add(*self, other).ok_or(Overflowed)?;
        Ok(())
    }

    fn checked_mul(self, other: u32) -> Result<u32, Overflowed> {
        u32::checked_mul(self, other).ok_or(Overflowed)
    }

    fn byte_aligned(&self) -> bool {
        *self % 8 == 0
    }

    ghost default_law = { λ x h. h };

    ghost byte_law = { lit≤ tt };

    ghost from_law = { λ n x h. h };

    ghost u32_law = { λ n result h. converted 4294967295 n result h };

    ghost usize_law = { λ n result h. converted 4294967295 n result h };
}

impl Counter for u64 {
    ghost value = { λ x. x };

    ghost greatest = { 18446744073709551615 };

    ghost full = { (2305843009213693952, refl) };

    fn checked_add_assign(&mut self, other: u64) -> Result<(), Overflowed> {
        *self = u64::checked_add(*self, other).ok_or(Overflowed)?;
        Ok(())
    }

    fn checked_mul(self, other: u64) -> Result<u64, Overflowed> {
        u64::checked_mul(self, other).ok_or(Overflowed)
    }

    fn byte_aligned(&self) -> bool {
        *self % 8 == 0
    }

    ghost default_law = { λ x h. h };

    ghost byte_law = { lit≤ tt };

    ghost from_law = { λ n x h. h };

    ghost u32_law = { λ n result h. converted 18446744073709551615 n result h };

    ghost usize_law = { λ n result h. converted 18446744073709551615 n result h };
}

impl Counter for u128 {
    ghost value = { λ x. x };

    ghost greatest = { 340282366920938463463374607431768211455 };

    ghost full = { (42535295865117307932921825928971026432, refl) };

    fn checked_add_assign(&mut self, other: u128) -> Result<(), Overflowed> {
        *self = u128::checked_add(*self, other).ok_or(Overflowed)?;
        Ok(())
    }

    fn checked_mul(self, other: u128) -> Result<u128, Overflowed> {
        u128::checked_mul(self, other).ok_or(Overflowed)
    }

    fn byte_aligned(&self) -> bool {
        *self % 8 == 0
    }

    ghost default_law = { λ x h. h };

    ghost byte_law = { lit≤ tt };

    ghost from_law = { λ n x h. h };

    ghost u32_law = { λ n result h. converted 340282366920938463463374607431768211455 n result h };

    ghost usize_law = { λ n result h. converted 340282366920938463463374607431768211455 n result h };
}
