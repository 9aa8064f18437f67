//! `u16` as a number.

ghost use Rattle.std.specs.Prelude.{refl, pos};
ghost use Rattle.std.specs.Int.{FitsUnsignedBits};
ghost use Rattle.std.proofs.Common.{ap, lit≤};
ghost use Rattle.bitstream_number.specs.Word.{High, Low, bytes, residue};
ghost use Rattle.bitstream_number.specs.Ints.{unsigned-byte, unsigned-eq, unsigned-eq_value, unsigned-order, unsigned-can_sub, unsigned-sub, unsigned-can_rem};

use crate::number::numeric::Numeric;
use crate::number::primitive::Primitive;
use crate::number::unsigned::UnsignedInteger;

impl Primitive for u16 {
    type Bytes = [u8; 2];

    const BYTES: usize = 2;

    ghost BYTES = { 2 };

    ghost be_bytes = { λ x. bytes High 2 x };

    ghost le_bytes = { λ x. bytes Low 2 x };

    fn buffer() -> [u8; 2] {
        [0; 2]
    }

    fn to_be_bytes(self) -> [u8; 2] {
        u16::to_be_bytes(self)
    }

    fn to_le_bytes(self) -> [u8; 2] {
        u16::to_le_bytes(self)
    }

    fn from_be_bytes(bytes: [u8; 2]) -> u16 {
        u16::from_be_bytes(bytes)
    }

    fn from_le_bytes(bytes: [u8; 2]) -> u16 {
        u16::from_le_bytes(bytes)
    }
}

impl Numeric for u16 {
    const BITS_SIZE: u32 = 16;

    ghost BITS_SIZE = { 16 };

    const ZERO: u16 = 0;

    ghost ZERO = { 0 };

    const ONE: u16 = 1;

    ghost ONE = { 1 };

    ghost integer = { λ x. pos x };

    ghost fits = { FitsUnsignedBits 16 };

    ghost wrap = { λ z. pos (residue 16 z) };

    fn known(self) {}

    fn from_u8(u: u8) -> u16 {
        u as u16
    }

    fn to_u8(self) -> u8 {
        self as u8
    }

    ghost size_law = { refl };

    ghost least_law = { lit≤ tt };

    ghost most_law = { lit≤ tt };

    ghost ZERO_law = { refl };

    ghost ONE_law = { refl };

    ghost eq_law = { λ a b. unsigned-eq a b };

    ghost order_law = { λ a b. unsigned-order a b };

    ghost can_shl_law = { λ a k h. h };

    ghost can_shr_law = { λ a k h. h };

    ghost can_bitand_law = { λ a b. tt };

    ghost can_bitor_law = { λ a b. tt };

    ghost can_bitxor_law = { λ a b. tt };

    ghost can_not_law = { λ a. tt };

    ghost can_sub_law = { λ a b h. unsigned-can_sub 16 a b h };

    ghost sub_law = { λ a b r e h. unsigned-sub 16 a b r e h };

    ghost can_rem_law = { λ a b _ _ h _. unsigned-can_rem b h };

    ghost rem_law = { λ a b r e. ap pos e };

    ghost can_shl_assign_law = { λ a k h. h };

    ghost shl_assign_law = { λ a k r h. h };

    ghost can_shr_assign_law = { λ a k h. h };

    ghost shr_assign_law = { λ a k r h. h };

    ghost can_rem_assign_law = { λ a b h. h };

    ghost rem_assign_law = { λ a b r h. h };

    ghost can_bitor_assign_law = { λ a b. tt };

    ghost bitor_assign_law = { λ a b r h. h };
}

impl UnsignedInteger for u16 {
    const MSB_BIT: u16 = 32768;

    ghost MSB_BIT = { 32768 };

    const LSB_BIT: u16 = 1;

    ghost LSB_BIT = { 1 };

    const ALL: u16 = u16::MAX;

    ghost ALL = { 65535 };

    type Signed = i16;

    ghost value = { λ x. x };

    ghost of = { λ n. n };

    ghost signed = { λ z. z };

    fn from_u64(number: u64) -> u16 {
        number as u16
    }

    fn as_non_negative(self) -> i16 {
        self as i16
    }

    fn as_negative(self, bits: u32) -> i16 {
        let half: u16 = 1 << (bits - 1);
        !((half - 1 - self) as i16)
    }

    fn checked_shl(self, rhs: u32) -> Option<u16> {
        u16::checked_shl(self, rhs)
    }

    fn checked_shr(self, rhs: u32) -> Option<u16> {
        u16::checked_shr(self, rhs)
    }

    ghost integer_law = { λ x. refl };

    ghost fits_law = { λ n. ((λ h. h), (λ h. h)) };

    ghost wrap_law = { λ n. refl };

    ghost eq_value_law = { λ a b. unsigned-eq_value a b };

    ghost order_value_law = { λ a b. refl };

    ghost byte_law = { λ x u e h. unsigned-byte 16 x u e h (lit≤ tt) };

    ghost known_law = { λ x h. h };

    ghost value_of_law = { λ n h. refl };

    ghost of_value_law = { λ x. refl };

    ghost ZERO_value_law = { refl };

    ghost ONE_value_law = { refl };

    ghost LSB_law = { refl };

    ghost MSB_law = { refl };

    ghost ALL_law = { refl };

    ghost be_law = { λ x h. refl };

    ghost le_law = { λ x h. refl };

    ghost shl_law = { λ a k r h. h };

    ghost shr_law = { λ a k r h. h };

    ghost and_law = { λ a b r h. h };

    ghost or_law = { λ a b r h. h };

    ghost xor_law = { λ a b r h. h };

    ghost not_law = { λ a r h. h };

    ghost can_sub_value_law = { λ a b h. h };

    ghost sub_value_law = { λ a b r h. h };

    ghost can_modulo_law = { λ a b h. h };

    ghost modulo_law = { λ a b r h. h };
}
