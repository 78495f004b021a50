//! Sources of bytes.
ghost use Rattle.std.specs.Prelude.{◌≡◌, ◌≤◌, List, ℕ, length, take};
ghost use Rattle.oas_bytes.specs.Script.{Script, Next, Consumed};

use thiserror::Error;

/// The input limit that is enough for every file of the profile, in bytes (own rule): 2^36.
pub const INPUT_MAX: u64 = 68_719_476_736;

/// Why a source gives no byte, although its bytes have not ended.
#[derive(Clone, Copy, Debug, PartialEq, Eq, Error)]
pub enum SourceFault {
    /// The device failed.
    #[error("the input could not be read")]
    Device,
    /// There is a byte after the limit.
    #[error("the input is longer than its limit")]
    TooLong,
}

/// Returns bytes, up to a limit: one at a time, or several of those that it has at hand at once.
pub trait Source {
    /// What it gave, and what it will give.
    ghost script: { Self → Script };

    /// The next byte. After the end each call returns None, and after a fault that fault. A byte after the limit is not
    /// given: it is `TooLong`.
    fn next(&mut self) -> Result<Option<u8>, SourceFault>
        ensures { Next (script self.old) result (script self.new) };

    /// How many bytes it gave.
    fn at(&self) -> u64
        ensures { result ≡ (script self.now).given };

    /// The bytes that it has at hand: the next ones that it gives. There may be none although more follow.
    ghost at_hand: { Self → List ℕ };

    /// Shows them, so that a caller who needs many doesn't call for each.
    fn ahead(&self) -> &[u8]
        ensures { result.now ≡ at_hand self.now };

    /// Consumes `count` of them.
    fn skip(&mut self, count: usize)
        requires { count ≤ length (at_hand self.old) }
        ensures { Consumed (script self.old) (take count (at_hand self.old)) (script self.new) };
}
