//! Numbers of bits as types.

ghost use Rattle.std.specs.Prelude.{ℕ};

mod sealed {
    pub trait Sealed {}

    impl<const N: u32> Sealed for super::Bits<N> {}
}

/// A number of bits, as a type. `Bits<N>` is the only one.
pub trait Width: sealed::Sealed {
    /// The number of bits.
    const BITS: u32;

    ghost BITS: { ℕ };
}

/// N bits, as a type. Trait methods take it instead of a const parameter.
pub struct Bits<const N: u32>;

impl<const N: u32> Width for Bits<N> {
    const BITS: u32 = N;

    ghost BITS = { N };
}
