//! The listed offsets of a repetition.
ghost use Rattle.std.specs.Prelude.{◌≡◌, IfOk};

use oas_num::GDelta;
use std::alloc::{AllocError, Global};
use std::marker::Model;

/// The listed offsets of a repetition's copies, which contracts see as a list: two or more, the first (0, 0).
#[derive(Debug, Drop)]
pub struct OffsetList {
    pub(crate) items: Vec<GDelta>,
}

impl Model for OffsetList {
    ghost use Rattle.std.specs.Prelude.{List};
    ghost use Rattle.oas_num.specs.declared.deltas.GDelta.{GDelta};
    ghost use Rattle.oas_shape.specs.OffsetLists.{AreOffsets};

    ghost Value = { List GDelta };

    ghost view = { λ list. list.items.items };

    ghost invariant = { λ list. AreOffsets list.items.items };
}

impl OffsetList {
    /// An equal list in memory of its own.
    pub(crate) fn try_clone(&self, alloc: Global) -> Result<OffsetList, AllocError>
        ensures { IfOk result (λ copy. copy ≡ self.now) }
    {
        Ok(OffsetList {
            items: self.items.as_slice().to_vec(alloc)?,
        })
    }
}
