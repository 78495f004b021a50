//! Bytes that only clauses read.
ghost use Rattle.std.specs.Prelude.{◌≡◌, List, ℕ, [], ◌++◌};
ghost use Rattle.std.specs.Borrow.{ftrue};

use std::marker::{Model, PhantomData};

/// Bytes that were handed over, in their order. It takes no memory, and nothing of it happens at run time: it is there so that
/// a contract can name them.
#[derive(Drop)]
pub struct History {
    marker: PhantomData<u8>,
    /// All of them.
    pub ghost bytes: { List ℕ },
}

impl Model for History {
    ghost also_owns = { λ _. ftrue };
}

impl History {
    /// None.
    pub fn new() -> History
        ensures { result.bytes ≡ [] }
    {
        History {
            marker: PhantomData,
        }
    }

    /// These too.
    pub fn note(&mut self, _bytes: &[u8])
        ensures { self.new.bytes ≡ self.old.bytes ++ _bytes.now }
    {}
}
