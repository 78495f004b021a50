//! Where a record is, in a file or in a block.
ghost use Rattle.std.specs.Prelude.{◌≡◌};
ghost use Rattle.oas_narrow.specs.Rejections.{rejected, refused};

use oas_block::{WideRefusal, WideWhy};
use oas_num::Refusal;

/// Where a file isn't prepared.
#[derive(Clone, Copy, Debug, PartialEq, Eq)]
pub enum Place {
    /// At this offset, in bytes from the file's first.
    File(u64),
    /// In the block at offset `block`, at offset `within` of what it inflates to.
    Block { block: u64, within: u64 },
}

/// Where and why a file isn't prepared.
#[derive(Clone, Copy, Debug, PartialEq, Eq)]
pub struct Rejection {
    /// The first byte of the record that decides. Where the writer failed, after how many bytes.
    pub place: Place,
    /// The reason.
    pub why: WideWhy,
}

impl From<WideRefusal> for Rejection {
    ghost from_gives = { λ refusal rejection. rejection ≡ rejected refusal };

    fn from(refusal: WideRefusal) -> Rejection {
        Rejection {
            place: Place::File(refusal.at),
            why: refusal.why,
        }
    }
}

impl From<Refusal> for Rejection {
    ghost from_gives = { λ refusal rejection. rejection ≡ refused refusal };

    fn from(refusal: Refusal) -> Rejection {
        Rejection {
            place: Place::File(refusal.at),
            why: WideWhy::Profile(refusal.why),
        }
    }
}
