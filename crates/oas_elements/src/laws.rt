//! Laws, from the definitions alone.

ghost use Rattle.std.specs.Prelude.{◌≡◌, ◌↔◌, IsTrue};
ghost use Rattle.std.specs.Cmp.{IsTotalOrder};
ghost use Rattle.std.specs.declared.cmp.Ordering.TheVariants.{Equal};
ghost use Rattle.oas_elements.specs.declared.element.Element.{Element};
ghost use Rattle.oas_elements.specs.declared.element.Turns.{Turns};
ghost use Rattle.oas_elements.specs.Element.{element_cmp};
ghost use Rattle.oas_elements.specs.Laws.ElementLaws.{derived_cmp, derived_eq, derived_turns_cmp, turns_cmp};
ghost use Rattle.oas_elements.specs.declared.profile.Profile.{Profile};
ghost use Rattle.oas_elements.specs.Laws.LayoutLaws.{TestsSame, KeptIsSame, SameIfKeptEqual, KeptIsKept, KeptPolygons, AddingCounts, HeldApart, HeldCounts, EqualCounts, IsReflexive, IsSymmetric, IsTransitive};

/// Elements are compared as `element_cmp` says, which is a total order in which no two tie; `==` says whether they are equal.
/// Quarter turns are compared by their numbers.
pub fn element_order()
    ensures stated { (a b : Element) → derived_cmp a b ≡ element_cmp a b }
    ensures total { IsTotalOrder element_cmp }
    ensures exact { (a b : Element) → element_cmp a b ≡ Equal → a ≡ b }
    ensures equal { (a b : Element) → IsTrue (derived_eq a b) ↔ (a ≡ b) }
    ensures turns { (s t : Turns) → derived_turns_cmp s t ≡ turns_cmp s t }
{}

/// An element is the same as the form in which it is kept, and two elements are the same exactly if their kept forms are
/// equal.
pub fn kept_forms()
    ensures test { (profile : Profile) → TestsSame profile }
    ensures same { (profile : Profile) → KeptIsSame profile }
    ensures equal { (profile : Profile) → SameIfKeptEqual profile }
    ensures kept { (profile : Profile) → KeptIsKept profile }
    ensures polygons { (profile : Profile) → KeptPolygons profile }
{}

/// More of an element adds to the count of what is the same, and to no other count.
pub fn adding_counts()
    ensures { (profile : Profile) → AddingCounts profile }
{}

/// A bag holds no two elements that are the same, and the number beside each is its count.
pub fn held_counts()
    ensures apart { (profile : Profile) → HeldApart profile }
    ensures counts { (profile : Profile) → HeldCounts profile }
{}

/// Two ascending lists of elements in their kept forms, in which every element has the same count, are equal.
pub fn equal_counts()
    ensures { (profile : Profile) → EqualCounts profile }
{}

/// Being the same layout is an equivalence.
pub fn same_layouts()
    ensures reflexive { (profile : Profile) → IsReflexive profile }
    ensures symmetric { (profile : Profile) → IsSymmetric profile }
    ensures transitive { (profile : Profile) → IsTransitive profile }
{}
