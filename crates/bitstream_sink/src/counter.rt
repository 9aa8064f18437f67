//! Types of numbers that count bits.
ghost use Rattle.std.specs.Prelude.{◌≡◌, ◌↔◌, ℕ, ◌+◌, ◌*◌, ◌%◌, ◌≤◌, IsTrue, IsOk, IfOk, OnOk, OnErr};
ghost use Rattle.bitstream_count.specs.declared.error.Error.TheVariants.{CounterOverflow};
ghost use Rattle.bitstream_sink.specs.Counter.{Counts};

use bitstream_count::error::Error;

mod types;
pub(crate) mod values;

/// The error of a sum or a product above the greatest number of its type.
#[derive(Clone, Copy, Debug, thiserror::Error)]
#[error("overflow occured in counter")]
pub struct Overflowed;

impl From<Overflowed> for Error {
    ghost from_gives = { λ _ e. e ≡ CounterOverflow };

    fn from(_refused: Overflowed) -> Error {
        Error::CounterOverflow
    }
}

/// A type of numbers that count bits: `u8`, `u16`, `u32`, `u64` or `u128`.
pub trait Counter: Default
    + Copy
    + From<u8>
    + TryFrom<u32, Error: Drop>
    + TryFrom<usize, Error: Drop> {
    // The number of a value.
    ghost value: { Self → ℕ };

    // The greatest number that the type has. It is one less than a multiple of 8.
    ghost greatest: { ℕ };

    ghost full: { (n : ℕ) × (greatest + 1 ≡ 8 * n) };

    /// Adds another number.
    ///
    /// # Errors
    ///
    /// `Overflowed` if the sum is above the greatest number. If so, nothing is added.
    fn checked_add_assign(&mut self, other: Self) -> Result<(), Overflowed>
        // It succeeds exactly if the sum is not above the greatest number.
        ensures holds { IsOk result ↔ (value self.old + value other ≤ greatest) }
        // If it succeeds, the number is the sum of both.
        ensures sum { OnOk result (value self.new ≡ value self.old + value other) }
        // If not, the number is unchanged.
        ensures unchanged { OnErr result (self.new ≡ self.old) };

    /// Returns the product with another number.
    ///
    /// # Errors
    ///
    /// `Overflowed` if the product is above the greatest number.
    fn checked_mul(self, other: Self) -> Result<Self, Overflowed>
        ensures { Counts value greatest (value self * value other) result };

    /// Returns true if the number is a multiple of 8.
    fn byte_aligned(&self) -> bool
        ensures { IsTrue result ↔ (value self.now % 8 ≡ 0) };

    // The default is 0. Each byte is a number of the type. A conversion returns the same number or an error.
    ghost default_law: { (x : Self) → Self.is_default x → value x ≡ 0 };

    ghost byte_law: { 255 ≤ greatest };

    ghost from_law: { (n : ℕ) (x : Self) → Self.from_gives n x → value x ≡ n };

    ghost u32_law: { (n : ℕ) (result : _) → Self.TryFrom-1.try_from_gives n result
        → Counts value greatest n result };

    ghost usize_law: { (n : ℕ) (result : _) → Self.TryFrom-2.try_from_gives n result
        → Counts value greatest n result };
}
