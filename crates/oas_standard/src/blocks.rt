//! The CBLOCK record, up to its bytes.
ghost use Rattle.oas_num.specs.Reading.{ReadsPiece};
ghost use Rattle.oas_standard.specs.Blocks.{SpellsBlockHead, BlockHeadTook};

use crate::long::read_long;
use oas_num::{Source, Why};

/// What comes before the bytes of a compressed block (SEMI P39, CBLOCK record), id 34. The caller must check the kind, and
/// whether the lengths are those of the bytes.
#[derive(Clone, Copy, Debug, PartialEq, Eq)]
pub struct BlockHead {
    /// The kind of compression: 0 is DEFLATE.
    pub kind: u64,
    /// How many bytes of data the block has.
    pub inflated: u64,
    /// How many bytes follow.
    pub deflated: u64,
}

impl BlockHead {
    /// What follows the id, in any number of bytes.
    pub fn read<S: Source>(source: &mut S) -> Result<BlockHead, Why>
        ensures { ReadsPiece SpellsBlockHead BlockHeadTook (S.script source.old) result (S.script source.new) }
    {
        let kind = read_long(source)?;
        let inflated = read_long(source)?;
        let deflated = read_long(source)?;
        Ok(BlockHead {
            kind,
            inflated,
            deflated,
        })
    }
}
