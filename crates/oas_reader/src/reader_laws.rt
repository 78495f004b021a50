//! Laws of what a reader represents, from the definitions alone.

ghost use Rattle.std.specs.Prelude.{◌≡◌, List, [], ◌∷◌, ◌++◌, reverse};
ghost use Rattle.oas_record.specs.declared.records.Record.{Record as OneRecord};
ghost use Rattle.oas_reader.specs.Standing.{took};
ghost use Rattle.oas_reader.specs.Stands.{seen};

/// How one more record changes what the definitions say. The records are listed oldest first.
pub fn one_more_record()
    ensures { (rs : List OneRecord) (r : OneRecord) → seen (reverse (rs ++ r ∷ [])) ≡ took (seen (reverse rs)) r }
{}
