//! The bytes that a checksum took. Only contracts see them, and they take no memory.
ghost use Rattle.std.specs.Prelude.{◌≡◌, ℕ, List, [], ◌++◌};
ghost use Rattle.std.specs.Borrow.{ftrue};

use std::marker::Model;

/// The bytes that a checksum took. Only contracts see them.
#[derive(Drop)]
pub struct TakenBytes {
    seal: (),
    pub ghost list: { List ℕ },
}

impl Model for TakenBytes {
    ghost also_owns = { λ _. ftrue };
}

// A struct with `also_owns` is neither `Send` nor `Sync` by itself. This one owns nothing.
unsafe impl Send for TakenBytes {}

unsafe impl Sync for TakenBytes {}

const _: () = prove!(size_of::<TakenBytes>() == 0);

impl TakenBytes {
    /// Returns an empty list.
    pub fn new() -> TakenBytes
        ensures { result.list ≡ [] }
    {
        TakenBytes { seal: () }
    }

    /// Does nothing at run time. The caller's proof states the new list.
    fn set(&mut self, _n: u64)
        ghost by: { List ℕ }
        ensures { self.new.list ≡ by }
    {}

    /// Appends the bytes of the slice to the list. Does nothing at run time.
    fn extend(&mut self, _bytes: &[u8])
        ghost by: { List ℕ }
        requires { by ≡ self.old.list ++ _bytes.now }
        ensures { self.new.list ≡ by }
    {
        self.set(0)
    }

    /// Appends the bytes of a slice.
    pub fn append(&mut self, bytes: &[u8])
        ensures { self.new.list ≡ self.old.list ++ bytes.now }
    {
        self.extend(bytes)
    }
}
