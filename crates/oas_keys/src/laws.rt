//! Laws, from the definitions alone.

ghost use Rattle.std.specs.Prelude.{◌≡◌, ◌↔◌, ◌<◌, ◌^◌, ◌++◌, ℕ, ℤ, List};
ghost use Rattle.std.specs.Ordering.{nat_cmp, int_cmp};
ghost use Rattle.std.specs.Cmp.Lexicographic.{slice_cmp};
ghost use Rattle.oas_elements.specs.declared.element.Element.{Element};
ghost use Rattle.oas_elements.specs.Element.{element_cmp};
ghost use Rattle.oas_elements.specs.Sound.{IsSound};
ghost use Rattle.oas_keys.specs.Numbers.{unsigned_key, signed_key, IsStep};
ghost use Rattle.oas_keys.specs.Keys.{key_of};
ghost use Rattle.oas_keys.specs.Laws.NumberLaws.{Decided};

/// Keys are ordered as the elements are, so elements with equal keys are equal. No key is a prefix of another, so bytes that
/// begin with a key have one reading.
pub fn keys_are_ordered()
    ensures order { (a b : Element) → IsSound a → IsSound b → slice_cmp nat_cmp (key_of a) (key_of b) ≡ element_cmp a b }
    ensures equal { (a b : Element) → IsSound a → IsSound b → ((key_of a ≡ key_of b) ↔ (a ≡ b)) }
    ensures one { (a b : Element) → IsSound a → IsSound b → (us vs : List ℕ) → key_of a ++ us ≡ key_of b ++ vs → (a ≡ b) × (us ≡ vs) }
{}

/// Numbers are ordered as their bytes are, whatever follows them.
pub fn numbers_are_ordered()
    ensures unsigned { (a b : ℕ) → a < 2 ^ 64 → b < 2 ^ 64 → Decided (nat_cmp a b) (unsigned_key a) (unsigned_key b) }
    ensures signed { (a b : ℤ) → IsStep a → IsStep b → Decided (int_cmp a b) (signed_key a) (signed_key b) }
{}
