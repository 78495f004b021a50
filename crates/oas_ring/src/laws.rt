//! Laws of rings, from the definitions alone.

ghost use Rattle.std.specs.Prelude.{◌≡◌, ◌↔◌, ◌<◌, List, length};
ghost use Rattle.oas_ring.specs.Rings.{SameRing};
ghost use Rattle.oas_ring.specs.Readings.{reading_of, IsLeastReadingOf, least_of};
ghost use Rattle.oas_ring.specs.declared.point.Point.{Point};
ghost use Rattle.oas_ring.specs.declared.readings.Reading.{Reading};

/// Being the same ring is an equivalence.
pub fn same_ring_is_equivalence()
    ensures itself { (p : List Point) → SameRing p p }
    ensures back { (p q : List Point) → SameRing p q → SameRing q p }
    ensures twice { (p q r : List Point) → SameRing p q → SameRing q r → SameRing p r }
{}

/// The lists that are the same ring as a list are its readings, so there are at most two for each point.
pub fn readings_are_the_ring()
    ensures { (p q : List Point) → 0 < length p
        → (SameRing p q ↔ ((r : Reading) × (r.start < length p) × (q ≡ reading_of p r))) }
{}

/// Each ring has exactly one least reading.
pub fn one_least_reading()
    ensures there { (p : List Point) → IsLeastReadingOf p (least_of p) }
    ensures only { (p a : List Point) → IsLeastReadingOf p a → a ≡ least_of p }
{}

/// Two rings are the same exactly if their least readings are equal lists.
pub fn same_exactly()
    ensures { (p q a b : List Point) → IsLeastReadingOf p a → IsLeastReadingOf q b → (SameRing p q ↔ (a ≡ b)) }
{}
