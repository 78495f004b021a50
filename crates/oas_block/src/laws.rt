//! The law of blocks: it is the function's contract, and the body is empty.
ghost use Rattle.std.specs.Prelude.{◌≡◌, ℕ, List};
ghost use Rattle.oas_standard.specs.declared.blocks.BlockHead.{BlockHead};
ghost use Rattle.oas_block.specs.Blocks.{Represents};

/// A head with its bytes has only one data.
pub fn one_data()
    ensures { (head : BlockHead) (bytes plain other : List ℕ) → Represents head bytes plain → Represents head bytes other → plain ≡ other }
{}
