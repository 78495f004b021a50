//! Whether bytes are those of a layout.
ghost use Rattle.std.specs.Prelude.{◌≡◌, IsTrue, ◌↔◌};
ghost use Rattle.oas_elements.specs.Contents.{meaning_of, IsLayout};
ghost use Rattle.oas_listing.specs.Bytes.{canonical_bytes};

use crate::writing::put_canonical;
use oas_listing::{Comparer, Layout};

/// Whether these are the canonical bytes of a layout. It allocates nothing, and stops at the first byte that differs.
pub fn has_canonical_bytes(layout: &Layout, bytes: &[u8]) -> bool
    ensures bytes { IsTrue result ↔ (canonical_bytes (meaning_of layout.now) ≡ bytes.now) }
    ensures layout { IsLayout layout.now }
{
    let mut comparer = Comparer::new(bytes);
    let _ = put_canonical(layout, &mut comparer);
    comparer.is_done()
}
