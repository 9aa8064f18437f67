//! Values of a fixed number of bytes.

ghost use Rattle.std.specs.Prelude.{refl, ◌≡◌, ℕ, List, length};
ghost use Rattle.std.specs.Borrow.{sem, Lends, Array, u8 as byte};

/// A buffer of a fixed number of bytes, such as an array of bytes.
pub trait Buffer: Copy {
    // The bytes in a buffer, and the buffer that holds given bytes.
    ghost items: { Self → List ℕ };

    ghost of: { List ℕ → Self };

    /// Returns the bytes.
    fn bytes(&self) -> &[u8]
        ensures { result.now ≡ items self.now };

    /// Returns the bytes as a mutable slice.
    fn bytes_mut(&mut self) -> &mut [u8]
        // The slice holds the bytes of the buffer.
        ensures value { result.now ≡ items self.old }
        // When the borrow ends, the buffer holds the bytes that were left in the slice.
        ensures* writes_back { sem 𝓛 (Lends Self.row (Array byte 0) self.entry result of) };

    ghost items_law: { (bs : List ℕ) → items (of bs) ≡ bs };
}

impl<const N: usize> Buffer for [u8; N] {
    ghost items = { λ bs. bs };

    ghost of = { λ bs. bs };

    fn bytes(&self) -> &[u8] {
        self.as_slice()
    }

    fn bytes_mut(&mut self) -> &mut [u8] {
        self.as_mut_slice()
    }

    ghost items_law = { λ bs. refl };
}

/// A value of a fixed number of bytes: an integer, or an array of bytes. The bytes of an array are
/// its own bytes, in either byte order.
pub trait Primitive: Sized {
    /// The buffer that holds the bytes of a value.
    type Bytes: Buffer;

    /// The number of bytes of a value.
    const BYTES: usize;

    ghost BYTES: { ℕ };

    // The bytes of a value, big-endian and little-endian.
    ghost be_bytes: { Self → List ℕ };

    ghost le_bytes: { Self → List ℕ };

    /// Returns a buffer of `BYTES` bytes, to be filled.
    fn buffer() -> Self::Bytes
        ensures { length (Self.Bytes.items result) ≡ BYTES };

    /// Returns the bytes of the value, most significant byte first (big-endian).
    fn to_be_bytes(self) -> Self::Bytes
        // The buffer holds the big-endian bytes of the value.
        ensures bytes { Self.Bytes.items result ≡ be_bytes self }
        ensures len { length (Self.Bytes.items result) ≡ BYTES };

    /// Returns the bytes of the value, least significant byte first (little-endian).
    fn to_le_bytes(self) -> Self::Bytes
        // The buffer holds the little-endian bytes of the value.
        ensures bytes { Self.Bytes.items result ≡ le_bytes self }
        ensures len { length (Self.Bytes.items result) ≡ BYTES };

    /// Returns the value with these bytes, most significant byte first (big-endian).
    fn from_be_bytes(bytes: Self::Bytes) -> Self
        ensures { be_bytes result ≡ Self.Bytes.items bytes };

    /// Returns the value with these bytes, least significant byte first (little-endian).
    fn from_le_bytes(bytes: Self::Bytes) -> Self
        ensures { le_bytes result ≡ Self.Bytes.items bytes };

    /// Returns the bytes in a buffer.
    final fn as_bytes(bytes: &Self::Bytes) -> &[u8]
        ensures { result.now ≡ Self.Bytes.items bytes.now }
    {
        bytes.bytes()
    }

    /// Returns the bytes in a buffer as a mutable slice.
    final fn as_bytes_mut(bytes: &mut Self::Bytes) -> &mut [u8]
        // The slice holds the bytes of the buffer.
        ensures value { result.now ≡ Self.Bytes.items bytes.old }
        // When the borrow ends, the buffer holds the bytes that were left in the slice.
        ensures* writes_back { sem 𝓛
            (Lends Self.Bytes.row (Array byte 0) bytes.entry result Self.Bytes.of) }
    {
        bytes.bytes_mut()
    }
}

impl<const N: usize> Primitive for [u8; N] {
    type Bytes = [u8; N];

    const BYTES: usize = N;

    ghost BYTES = { N };

    ghost be_bytes = { λ bs. bs };

    ghost le_bytes = { λ bs. bs };

    fn buffer() -> [u8; N] {
        [0; N]
    }

    fn to_be_bytes(self) -> [u8; N] {
        self
    }

    fn to_le_bytes(self) -> [u8; N] {
        self
    }

    fn from_be_bytes(bytes: [u8; N]) -> [u8; N] {
        bytes
    }

    fn from_le_bytes(bytes: [u8; N]) -> [u8; N] {
        bytes
    }
}
