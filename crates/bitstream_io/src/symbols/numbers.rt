//! Symbols that are numbers.
ghost use Rattle.std.specs.Prelude.{◌≡◌, ℕ, ◌^◌, ◌<◌, ◌≤◌};

/// A symbol that is a number: `u8`, `u16` or `u32`.
pub trait IndexedSymbol: Copy + Eq {
    // The number of a symbol.
    ghost number: { Self → ℕ };

    /// Returns the number, which is below 2^32.
    fn to_index(self) -> usize
        ensures number { result ≡ number self }
        ensures small { result < 2 ^ 32 };

    /// Returns the symbol with a number that is at most the number of this symbol.
    fn with_index(self, index: usize) -> Self
        requires { index ≤ number self }
        ensures { number result ≡ index };

    ghost number_law: { (a b : Self) → number a ≡ number b → a ≡ b };
}

impl IndexedSymbol for u8 {
    ghost number = { λ symbol. symbol };

    #[inline(always)]
    fn to_index(self) -> usize {
        self as usize
    }

    fn with_index(self, index: usize) -> u8 {
        index as u8
    }

    ghost number_law = { λ a b is. is };
}

impl IndexedSymbol for u16 {
    ghost number = { λ symbol. symbol };

    #[inline(always)]
    fn to_index(self) -> usize {
        self as usize
    }

    fn with_index(self, index: usize) -> u16 {
        index as u16
    }

    ghost number_law = { λ a b is. is };
}

impl IndexedSymbol for u32 {
    ghost number = { λ symbol. symbol };

    #[inline(always)]
    fn to_index(self) -> usize {
        self as usize
    }

    fn with_index(self, index: usize) -> u32 {
        index as u32
    }

    ghost number_law = { λ a b is. is };
}
