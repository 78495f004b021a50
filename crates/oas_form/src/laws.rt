//! Laws of canonical forms. Each is the contract of a function that does nothing.
ghost use Rattle.oas_form.specs.Boxes.{FormsDifferByBoxes, OneIsTwo, SameByOne};
ghost use Rattle.oas_form.specs.Canonical.{CanonicalAgain, FormIsAccepted, FormsEqual, LimitsApart, OneCanonicalForm, SameExactly};
ghost use Rattle.oas_form.specs.Layouts.{CanonicalBytes, CanonicalWeight, EqualInOrder, FormFitsInput, FormIsBytes, FormIsItsBytes, FormLength, FormWithin, HasCanonicalForm, LargerLimits, LayoutInOrder, LeastWeight, LimitsTogether, OneLayoutRead, SameCount, SameWeight};
ghost use Rattle.oas_form.specs.Rekeying.{FormIsItsOwn, OneThenTwo, SameByTwo, TwoIsOne};

/// Two canonical forms that mean the same layout are equal bytes, whatever the limits under which each is one. So a file
/// has at most one canonical form, whatever the limits.
pub fn one_canonical_form()
    ensures one { OneCanonicalForm }
    ensures apart { LimitsApart }
{}

/// Each accepted file has a canonical form, whichever the limits and the profile. It is the file's canonical form under all
/// limits that accept the file, and has no more bytes than these allow an input.
pub fn has_canonical_form()
    ensures exists { HasCanonicalForm }
    ensures together { LimitsTogether }
    ensures fits { FormFitsInput }
{}

/// A file that is accepted under limits is accepted under all that are as large; so by [`has_canonical_form`] its canonical
/// form is the same. Only the source limits how long the input may be.
pub fn larger_limits()
    ensures { LargerLimits }
{}

/// Two accepted files mean the same layout exactly if they have one canonical form, each under its own limits. For two files
/// that have canonical forms, accepted or not, this holds exactly if these are equal bytes.
pub fn same_exactly()
    ensures exactly { SameExactly }
    ensures equal { FormsEqual }
{}

/// The canonical form of a canonical form is that form.
pub fn canonical_again()
    ensures { CanonicalAgain }
{}

/// The canonical bytes of a layout are a canonical form, and mean that layout.
pub fn canonical_bytes()
    ensures { CanonicalBytes }
{}

/// A canonical form is accepted.
pub fn form_is_accepted()
    ensures { FormIsAccepted }
{}

/// A canonical form is the canonical bytes of each layout that is the same as its meaning.
pub fn form_is_bytes()
    ensures { FormIsBytes }
{}

/// A canonical form is the canonical bytes of its meaning.
pub fn form_is_its_bytes()
    ensures { FormIsItsBytes }
{}

/// A canonical form is one under all limits that its meaning keeps.
pub fn form_within()
    ensures { FormWithin }
{}

/// The canonical form of an accepted file has as many elements as the file, and weighs no more. Under profile one it weighs
/// as much.
pub fn canonical_weight()
    ensures { CanonicalWeight }
{}

/// The canonical form of an accepted file has at most 320 bytes, plus 64 for each unit of the file's weight.
pub fn form_length()
    ensures { FormLength }
{}

/// Every layout is in order, and layouts in order that are the same are equal. So reading a file by one profile gives one
/// layout.
pub fn equal_in_order()
    ensures ordered { LayoutInOrder }
    ensures equal { EqualInOrder }
    ensures read { OneLayoutRead }
{}

/// Layouts that are the same, in which no name occurs twice, have as many elements. Under profile one they weigh as much, and
/// one in order weighs no more than any that is the same.
pub fn same_sizes()
    ensures count { SameCount }
    ensures weight { SameWeight }
    ensures least { LeastWeight }
{}

/// A file and its canonical form by profile one have the same canonical form by profile two, whatever the limits, since
/// layouts that are the same by profile one are the same by profile two. A canonical form by profile two is one by profile
/// one, and each is the canonical form of itself; so what was re-keyed is unchanged by re-keying.
pub fn rekeying()
    ensures coarser { SameByTwo }
    ensures keeps { OneThenTwo }
    ensures within { TwoIsOne }
    ensures own { FormIsItsOwn }
{}

/// The two profiles differ only in boxes. Layouts without a box that are the same by profile two are the same by profile one.
/// A canonical form by profile one is one by profile two exactly where its meaning has no box. A file has one and the same
/// canonical form by both exactly where its meaning has none, whatever the limits.
pub fn boxes_alone_differ()
    ensures finer { SameByOne }
    ensures within { OneIsTwo }
    ensures forms { FormsDifferByBoxes }
{}
