//! A source of a fixed number of another source's next bytes.
ghost use Rattle.oas_block.specs.Fronts.{IsFront, IsFront-prop};

use oas_num::{Source, SourceFault};
use std::marker::{Brand, PhantomData};

/// Which source's bytes are given, where it was before the first of them, and how many they are. Each use chooses it.
pub(crate) trait Start {
    ghost use Rattle.std.specs.Prelude.{ℕ};
    ghost use Rattle.oas_num.specs.Script.{Script};
    ghost use base.Fml.{GName};

    ghost script: { Script };

    ghost name: { GName };

    ghost count: { ℕ };
}

impl Start for Brand {
    ghost use Rattle.std.specs.Prelude.{[]};
    ghost use Rattle.oas_num.specs.Script.{slice_script};

    ghost script = { slice_script [] 0 0 };

    ghost name = { 0 };

    ghost count = { 0 };
}

/// A fixed number of the next bytes of a borrowed source. It ends after them.
#[derive(Drop)]
pub(crate) struct PrefixSource<'a, S: Source, K: Start> {
    pub(crate) source: &'a mut S,
    pub(crate) left: u64,
    pub(crate) start: PhantomData<K>,
    ghost front: { IsFront K.script K.name K.count source.ghost_name (S.script source.now) left } by { IsFront-prop K.script K.name K.count source.ghost_name (S.script source.now) left },
}

impl<'a, S: Source, K: Start> Source for PrefixSource<'a, S, K> {
    ghost use Rattle.std.specs.Prelude.{[]};
    ghost use Rattle.oas_block.specs.Fronts.{prefix_script};

    ghost script = { λ f. prefix_script (S.script f.source.now) f.left };

    // None, although the source may have some: they are taken one by one.
    ghost at_hand = { λ _. [] };

    fn next(&mut self) -> Result<Option<u8>, SourceFault> {
        if self.left == 0 {
            return Ok(None);
        }
        let next = self.source.next()?;
        if let Some(_byte) = next {
            self.left -= 1;
        }
        Ok(next)
    }

    fn at(&self) -> u64 {
        self.source.at()
    }

    fn ahead(&self) -> &[u8] {
        &[]
    }

    fn skip(&mut self, _count: usize) {}
}
