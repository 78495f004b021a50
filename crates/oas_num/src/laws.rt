//! The laws of spellings. Each function's contract is a law, and its body is empty.
ghost use Rattle.std.specs.Prelude.{◌≡◌, ◌<◌, ◌≤◌, ◌^◌, ℕ, ℤ, List, length, nat_abs};
ghost use Rattle.oas_num.specs.Grammar.{PrefixFree};
ghost use Rattle.oas_num.specs.Combinators.{OneSpelling, IsWithin};
ghost use Rattle.oas_num.specs.Style.{Style, Any, Shortest, unsigned_in, signed_in};
ghost use Rattle.oas_num.specs.Texts.{name_in, label_in};
ghost use Rattle.oas_num.specs.Reals.{real_in};
ghost use Rattle.oas_num.specs.Deltas.{gdelta_in};
ghost use Rattle.oas_num.specs.declared.deltas.GDelta.{GDelta};
ghost use Rattle.oas_num.specs.Integers.{IsUnsigned};
ghost use Rattle.oas_num.specs.Writing.{shortest, shortest_signed, shortest_gdelta};
ghost use Rattle.oas_num.specs.Ratio.{Ratio, Reduces};

/// Unsigned integers.
pub fn unsigned()
    ensures front { (style : Style) → PrefixFree (unsigned_in style) }
    ensures one { OneSpelling (unsigned_in Shortest) }
    ensures within { IsWithin (unsigned_in Shortest) (unsigned_in Any) }
{}

/// Signed integers.
pub fn signed()
    ensures front { (style : Style) → PrefixFree (signed_in style) }
    ensures one { OneSpelling (signed_in Shortest) }
    ensures within { IsWithin (signed_in Shortest) (signed_in Any) }
{}

/// n-strings.
pub fn names()
    ensures front { (style : Style) → PrefixFree (name_in style) }
    ensures one { OneSpelling (name_in Shortest) }
    ensures within { IsWithin (name_in Shortest) (name_in Any) }
{}

/// a-strings.
pub fn labels()
    ensures front { (style : Style) → PrefixFree (label_in style) }
    ensures one { OneSpelling (label_in Shortest) }
    ensures within { IsWithin (label_in Shortest) (label_in Any) }
{}

/// Reals.
pub fn reals()
    ensures front { (style : Style) → PrefixFree (real_in style) }
    ensures one { OneSpelling (real_in Shortest) }
    ensures within { IsWithin (real_in Shortest) (real_in Any) }
{}

/// g-deltas. In the shortest style one has form 2, and a component of zero goes east or north (own rule). That is what the
/// writer of g-deltas puts.
pub fn gdeltas()
    ensures front { (style : Style) → PrefixFree (gdelta_in style) }
    ensures one { OneSpelling (gdelta_in Shortest) }
    ensures within { IsWithin (gdelta_in Shortest) (gdelta_in Any) }
    ensures written { (d : GDelta) → nat_abs d.dx < 2 ^ 62 → nat_abs d.dy < 2 ^ 63 → gdelta_in Shortest d (shortest_gdelta d.dx d.dy) }
{}

/// What the writers of integers put: a spelling with none shorter, and for unsigned integers the only one of its length.
pub fn shortest()
    ensures unsigned { (n : ℕ) → n < 2 ^ 64 → unsigned_in Shortest n (shortest n) }
    ensures only { (n : ℕ) (bytes : List ℕ) → IsUnsigned n bytes → length bytes ≤ length (shortest n) → bytes ≡ shortest n }
    ensures signed { (z : ℤ) → nat_abs z < 2 ^ 63 → signed_in Shortest z (shortest_signed z) }
{}

/// A fraction has one form in lowest terms.
pub fn fractions()
    ensures { (num den : ℕ) (a b : Ratio) → Reduces num den a → Reduces num den b → a ≡ b }
{}
