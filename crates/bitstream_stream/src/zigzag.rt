//! Conversions of signed numbers to places in the zigzag order 0, -1, 1, -2, 2 and so on, and back.
ghost use Rattle.std.specs.Prelude.{◌≡◌};
ghost use Rattle.bitstream_number.specs.Word.{zig, zag};

use bitstream_number::number::{Numeric, SignedInteger, UnsignedInteger};

/// Returns the place of a signed number in the zigzag order.
pub(crate) fn zigzag<S: SignedInteger>(number: S) -> S::Unsigned
    ensures { S.Unsigned.value result ≡ zig (S.integer number) }
{
    number.known();
    if number.is_negative() {
        !(number.as_negative(S::BITS_SIZE) << 1)
    } else {
        number.as_non_negative() << 1
    }
}

/// Returns the signed number at a place in the zigzag order.
pub(crate) fn unzigzag<S: SignedInteger>(place: S::Unsigned) -> S
    ensures { S.integer result ≡ zag (S.Unsigned.value place) }
{
    place.known();
    if place & S::Unsigned::ONE == S::Unsigned::ZERO {
        (place >> 1).as_non_negative()
    } else {
        (!place >> 1).as_negative(S::BITS_SIZE)
    }
}
