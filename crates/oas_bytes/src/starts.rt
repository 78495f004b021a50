//! Which source is borrowed.
use std::marker::Brand;

/// Which source a source of the same bytes borrows, and where that was before the first byte. Each use chooses it.
pub trait Start {
    ghost use Rattle.oas_bytes.specs.Script.{Script};
    ghost use base.Fml.{GName};

    ghost script: { Script };

    ghost name: { GName };
}

impl Start for Brand {
    ghost use Rattle.std.specs.Prelude.{[]};
    ghost use Rattle.oas_bytes.specs.Script.{slice_script};

    ghost script = { slice_script [] 0 0 };

    ghost name = { 0 };
}
