//! The laws of the grammar. Each function's contract is a law, and its body is empty.
ghost use Rattle.std.specs.Prelude.{Bool, List, ℕ};
ghost use Rattle.oas_num.specs.Begun.{HasSome};
ghost use Rattle.oas_num.specs.Grammar.{IsPair, PrefixFree};
ghost use Rattle.oas_num.specs.Style.{Any};
ghost use Rattle.oas_record.specs.Records.{id_of, record_in};
ghost use Rattle.oas_record.specs.declared.records.Record.{Record};
ghost use Rattle.oas_standard.specs.Blocks.{SpellsBlockHead};
ghost use Rattle.oas_standard.specs.Ends.{SpellsWideEnd};
ghost use Rattle.oas_standard.specs.Extensions.{SpellsGeometry};
ghost use Rattle.oas_standard.specs.Heads.{SpellsWideStart};
ghost use Rattle.oas_standard.specs.LayerNames.{SpellsLayerName};
ghost use Rattle.oas_standard.specs.Long.{IsLong};
ghost use Rattle.oas_standard.specs.Placements.{SpellsPlacement};
ghost use Rattle.oas_standard.specs.Properties.{SpellsProperty, SpellsValue};
ghost use Rattle.oas_standard.specs.Strings.{SpellsString, SpellsAttributed};
ghost use Rattle.oas_standard.specs.Trapezoids.{SpellsTrapezoid, SpellsNamedTrapezoid};
ghost use Rattle.oas_standard.specs.WideRecords.{AnyLengthAfter, profile, wide_record_in, widened};

/// What follows an id, and START: no spelling is a prefix of another, and none spells two values.
pub fn fronts()
    ensures start { PrefixFree SpellsWideStart }
    ensures end { (in_end : Bool) → PrefixFree (SpellsWideEnd in_end) }
    ensures string { (numbered : Bool) → PrefixFree (SpellsString numbered) }
    ensures value { PrefixFree SpellsValue }
    ensures property { PrefixFree SpellsProperty }
    ensures layer_name { PrefixFree SpellsLayerName }
    ensures placement { PrefixFree SpellsPlacement }
    ensures attributed { (numbered : Bool) → PrefixFree (SpellsAttributed numbered) }
    ensures geometry { PrefixFree SpellsGeometry }
    ensures block { PrefixFree SpellsBlockHead }
    ensures trapezoid { (a b : Bool) → PrefixFree (SpellsTrapezoid a b) }
    ensures named { PrefixFree SpellsNamedTrapezoid }
{}

/// Each has a spelling.
pub fn some()
    ensures start { HasSome SpellsWideStart }
    ensures end { (in_end : Bool) → HasSome (SpellsWideEnd in_end) }
    ensures string { (numbered : Bool) → HasSome (SpellsString numbered) }
    ensures value { HasSome SpellsValue }
    ensures property { HasSome SpellsProperty }
    ensures layer_name { HasSome SpellsLayerName }
    ensures placement { HasSome SpellsPlacement }
    ensures attributed { (numbered : Bool) → HasSome (SpellsAttributed numbered) }
    ensures geometry { HasSome SpellsGeometry }
    ensures block { HasSome SpellsBlockHead }
    ensures trapezoid { (a b : Bool) → HasSome (SpellsTrapezoid a b) }
    ensures named { HasSome SpellsNamedTrapezoid }
{}

/// Records: no spelling is a prefix of another, and none spells two records. A record of the profile is spelled here as it is
/// there: END without a signature, a placement by reals with these among those of all types, and each other one as itself.
/// Nothing else spells that record, except with its integers in more bytes.
pub fn records()
    ensures front { (in_end : Bool) → PrefixFree (wide_record_in in_end) }
    ensures within { (in_end : Bool) (r : Record) (bytes : List ℕ) → record_in Any in_end r bytes → wide_record_in in_end (widened r) bytes }
    ensures back { (in_end : Bool) (r : Record) (bytes : List ℕ) → wide_record_in in_end (profile r) bytes → IsPair IsLong (AnyLengthAfter in_end) (id_of r, r) bytes }
{}
