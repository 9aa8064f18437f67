//! Values that only contracts see: a count, the failed requests of a stream, and the earlier bytes
//! of a slice. They take no memory.
ghost use Rattle.std.specs.Prelude.{◌≡◌, ℕ, ◌+◌, ◌*◌, List, [], ◌∷◌};
ghost use Rattle.std.specs.Borrow.{ftrue};
ghost use Rattle.bitstream_order.specs.Refusal.{Refusal};

use std::marker::Model;

/// A number that only contracts see, without an upper limit.
#[derive(Drop)]
pub struct GhostCount {
    seal: (),
    pub ghost count: { ℕ },
}

impl Model for GhostCount {
    ghost also_owns = { λ _. ftrue };
}

// A struct with `also_owns` is neither `Send` nor `Sync` by itself. This one owns nothing.
unsafe impl Send for GhostCount {}

unsafe impl Sync for GhostCount {}

const _: () = prove!(size_of::<GhostCount>() == 0);

impl GhostCount {
    /// Returns a count of 0.
    pub fn new() -> GhostCount
        ensures { result.count ≡ 0 }
    {
        GhostCount { seal: () }
    }

    /// Does nothing at run time. The caller's proof states by how much the count grows.
    pub(crate) fn grow(&mut self, _n: u64)
        ghost by: { ℕ }
        ensures { self.new.count ≡ self.old.count + by }
    {}

    /// Adds n to the count.
    pub fn add(&mut self, n: u64)
        ensures { self.new.count ≡ self.old.count + n }
    {
        self.grow(n)
    }

    /// Adds the number of bits in n bytes to the count.
    pub fn add_bytes(&mut self, n: usize)
        ensures { self.new.count ≡ self.old.count + 8 * n }
    {
        self.grow(n as u64)
    }

    /// Does nothing at run time. The count grows by the number of bits in the bytes that `_bytes`
    /// counts.
    fn grow_from(&mut self, _bytes: &GhostCount)
        ghost by: { ℕ }
        requires { by ≡ 8 * _bytes.now.count }
        ensures { self.new.count ≡ self.old.count + by }
    {
        self.grow(0)
    }

    /// Adds the number of bits in the bytes that `bytes` counts.
    pub fn add_bits_of(&mut self, bytes: &GhostCount)
        ensures { self.new.count ≡ self.old.count + 8 * bytes.now.count }
    {
        self.grow_from(bytes)
    }
}

/// A list of failed requests that only contracts see, the most recent one first.
#[derive(Drop)]
pub struct GhostRefusals {
    seal: (),
    pub ghost list: { List Refusal },
}

impl Model for GhostRefusals {
    ghost also_owns = { λ _. ftrue };
}

// A struct with `also_owns` is neither `Send` nor `Sync` by itself. This one owns nothing.
unsafe impl Send for GhostRefusals {}

unsafe impl Sync for GhostRefusals {}

const _: () = prove!(size_of::<GhostRefusals>() == 0);

impl GhostRefusals {
    /// Returns an empty list.
    pub fn new() -> GhostRefusals
        ensures { result.list ≡ [] }
    {
        GhostRefusals { seal: () }
    }

    /// Does nothing at run time. The caller's proof states how the list grows.
    pub fn push(&mut self, _n: u64)
        ghost by: { Refusal }
        ensures { self.new.list ≡ by ∷ self.old.list }
    {}
}

/// The bytes that a slice held, which only contracts see.
#[derive(Drop)]
pub struct GhostBytes {
    seal: (),
    pub ghost list: { List ℕ },
}

impl Model for GhostBytes {
    ghost also_owns = { λ _. ftrue };
}

// A struct with `also_owns` is neither `Send` nor `Sync` by itself. This one owns nothing.
unsafe impl Send for GhostBytes {}

unsafe impl Sync for GhostBytes {}

const _: () = prove!(size_of::<GhostBytes>() == 0);

impl GhostBytes {
    /// Returns an empty list.
    fn new() -> GhostBytes
        ensures { result.list ≡ [] }
    {
        GhostBytes { seal: () }
    }

    /// Does nothing at run time. The caller's proof states the new list.
    fn set(&mut self, _n: u64)
        ghost by: { List ℕ }
        ensures { self.new.list ≡ by }
    {}

    /// Does nothing at run time. The list becomes the bytes of the slice.
    fn set_to(&mut self, _bytes: &[u8])
        ghost by: { List ℕ }
        requires { by ≡ _bytes.now }
        ensures { self.new.list ≡ by }
    {
        self.set(0)
    }

    /// Returns the bytes of a slice as they are now.
    pub(crate) fn of(bytes: &[u8]) -> GhostBytes
        ensures { result.list ≡ bytes.now }
    {
        let mut list = GhostBytes::new();
        list.set_to(bytes);
        list
    }
}
