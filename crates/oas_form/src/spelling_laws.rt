//! Laws of the canonical bytes. Each is the contract of a function that does nothing.
ghost use Rattle.oas_form.specs.Spelling.{CanonicalBytesSpell, CanonicalLength};

/// The canonical bytes of a layout spell its canonical records.
pub fn canonical_bytes_spell()
    ensures { CanonicalBytesSpell }
{}

/// The canonical bytes of a layout are at most 320, plus 64 for each unit of its weight.
pub fn canonical_length()
    ensures { CanonicalLength }
{}
