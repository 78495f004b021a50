//! A sink that hashes.
ghost use Rattle.std.specs.Prelude.{◌≡◌, ℕ, List, [], ◌∷◌, ◌+◌, ◌≤◌, ◌<◌, length};
ghost use Rattle.sha2.specs.Sha256.{sha256};
ghost use Rattle.oas_checksum.specs.Hashing.{Holds256};

use oas_checksum::Sha256;
use oas_num::{Sink, SinkFault};

/// How many bytes are buffered before they are hashed.
const SIZE: usize = 4096;

/// Hashes the bytes that it is given, with SHA-256. It buffers them in a window, so single bytes don't each cost a call of
/// the hash function.
#[derive(Drop)]
pub(crate) struct Hasher {
    hasher: Sha256,
    window: [u8; SIZE],
    held: usize,
    ghost within: { held ≤ 4096 },
}

impl Hasher {
    ghost use Rattle.oas_canon.specs.Hashing.{HasTaken, Hashes};

    /// A sink that was given nothing.
    pub(crate) fn new() -> Hasher
        ensures { HasTaken result [] }
    {
        Hasher {
            hasher: Sha256::new(),
            window: [0; SIZE],
            held: 0,
        }
    }

    /// Hashes what the window holds.
    fn hash_window(&mut self)
        ensures empty { self.new.held ≡ 0 }
        ensures hashed { (m : List ℕ) → HasTaken self.old m → Holds256 self.new.hasher m }
    {
        let piece = &self.window[..self.held];
        self.hasher.update(piece);
        self.held = 0;
    }

    /// Puts a byte into the window.
    #[inline]
    fn hold(&mut self, byte: u8)
        requires { self.old.held < 4096 }
        ensures { Hashes self.old (byte ∷ []) self.new }
    {
        self.window[self.held] = byte;
        self.held += 1;
    }

    /// Puts bytes into the window.
    #[inline]
    fn hold_all(&mut self, bytes: &[u8])
        requires { self.old.held + length bytes.now ≤ 4096 }
        ensures { Hashes self.old bytes.now self.new }
    {
        let end = self.held + bytes.len();
        self.window[self.held..end].copy_from_slice(bytes);
        self.held = end;
    }

    /// Hashes what the window holds, and then bytes for which it has no room.
    fn hash_all(&mut self, bytes: &[u8])
        ensures { Hashes self.old bytes.now self.new }
    {
        self.hash_window();
        self.hasher.update(bytes);
    }

    /// The digest of all that it was given.
    pub(crate) fn finish(mut self) -> [u8; 32]
        ensures { (m : List ℕ) → HasTaken self m → result ≡ sha256 m }
    {
        self.hash_window();
        self.hasher.finalize()
    }
}

impl Sink for Hasher {
    ghost use Rattle.oas_canon.specs.Hashing.{Hashes};
    ghost use Rattle.oas_canon.specs.Laws.HashingLaws.{Hashes-none};

    ghost given = { Hashes };

    ghost failures = { λ _. 0 };

    ghost none_given = { Hashes-none };

    #[inline]
    fn put(&mut self, byte: u8) -> Result<(), SinkFault> {
        if self.held == SIZE {
            self.hash_window();
        }
        self.hold(byte);
        Ok(())
    }

    /// Bytes for which the window has room are copied at once.
    #[inline]
    fn put_all(&mut self, bytes: &[u8]) -> Result<(), SinkFault> {
        if bytes.len() <= SIZE - self.held {
            self.hold_all(bytes);
        } else {
            self.hash_all(bytes);
        }
        Ok(())
    }
}
