//! `i8` as a number.

ghost use Rattle.std.specs.Prelude.{refl, pos, ◌%◌, ◌^◌};
ghost use Rattle.std.specs.Int as int;
ghost use Rattle.std.proofs.Common.{ap, lit≤};
ghost use Rattle.bitstream_number.specs.Word.{High, Low, bytes, residue, FitsSignedBits};
ghost use Rattle.bitstream_number.specs.Ints.{signed-eq, signed-can_sub, signed-can_rem, signed-bits, signed-wrap};

use crate::number::numeric::Numeric;
use crate::number::primitive::Primitive;
use crate::number::signed::SignedInteger;

impl Primitive for i8 {
    type Bytes = [u8; 1];

    const BYTES: usize = 1;

    ghost BYTES = { 1 };

    ghost be_bytes = { λ x. bytes High 1 (int.cast_unsigned int.w8 x) };

    ghost le_bytes = { λ x. bytes Low 1 (int.cast_unsigned int.w8 x) };

    fn buffer() -> [u8; 1] {
        [0; 1]
    }

    fn to_be_bytes(self) -> [u8; 1] {
        self.cast_unsigned().to_be_bytes()
    }

    fn to_le_bytes(self) -> [u8; 1] {
        self.cast_unsigned().to_le_bytes()
    }

    fn from_be_bytes(bytes: [u8; 1]) -> i8 {
        u8::from_be_bytes(bytes).cast_signed()
    }

    fn from_le_bytes(bytes: [u8; 1]) -> i8 {
        u8::from_le_bytes(bytes).cast_signed()
    }
}

impl Numeric for i8 {
    const BITS_SIZE: u32 = 8;

    ghost BITS_SIZE = { 8 };

    const ZERO: i8 = 0;

    ghost ZERO = { pos 0 };

    const ONE: i8 = 1;

    ghost ONE = { pos 1 };

    ghost integer = { λ x. x };

    ghost fits = { FitsSignedBits 8 };

    ghost wrap = { λ z. int.cast_signed int.w8 (residue 8 z) };

    fn known(self) {}

    fn from_u8(u: u8) -> i8 {
        u.cast_signed()
    }

    fn to_u8(self) -> u8 {
        self as u8
    }

    ghost size_law = { refl };

    ghost least_law = { lit≤ tt };

    ghost most_law = { lit≤ tt };

    ghost ZERO_law = { refl };

    ghost ONE_law = { refl };

    ghost eq_law = { λ a b. signed-eq a b };

    ghost order_law = { λ a b. refl };

    ghost can_shl_law = { λ a k h. h };

    ghost can_shr_law = { λ a k h. h };

    ghost can_bitand_law = { λ a b. tt };

    ghost can_bitor_law = { λ a b. tt };

    ghost can_bitxor_law = { λ a b. tt };

    ghost can_not_law = { λ a. tt };

    ghost can_sub_law = { λ a b h. signed-can_sub int.w8 _ h };

    ghost sub_law = { λ a b r e h. e };

    ghost can_rem_law = { λ a b f g h i. signed-can_rem int.w8 a b f g h i };

    ghost rem_law = { λ a b r e. e };

    ghost can_shl_assign_law = { λ a k h. h };

    ghost shl_assign_law = { λ a k r h. h };

    ghost can_shr_assign_law = { λ a k h. h };

    ghost shr_assign_law = { λ a k r h. h };

    ghost can_rem_assign_law = { λ a b h. h };

    ghost rem_assign_law = { λ a b r h. h };

    ghost can_bitor_assign_law = { λ a b. tt };

    ghost bitor_assign_law = { λ a b r h. h };
}

impl SignedInteger for i8 {
    type Unsigned = u8;

    fn is_negative(self) -> bool {
        self < 0
    }

    fn as_non_negative(self) -> u8 {
        self as u8
    }

    fn as_negative(self, bits: u32) -> u8 {
        // from -2^(bits - 1) to -1
        let half: u8 = 1 << (bits - 1);
        half - 1 - !self as u8
    }

    ghost signed_law = { λ x. refl };

    ghost same_size_law = { refl };

    ghost same_bytes_law = { refl };

    ghost fits_law = { λ z. ((λ h. h), (λ h. h)) };

    ghost wrap_law = { λ n. signed-wrap int.w8 (n % 2 ^ 8) };

    ghost shr_law = { λ a k r h. h };

    ghost be_law = { λ x h. ap (bytes High 1) (signed-bits int.w8 x h) };

    ghost le_law = { λ x h. ap (bytes Low 1) (signed-bits int.w8 x h) };
}
