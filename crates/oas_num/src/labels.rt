//! The strings of labels.
ghost use Rattle.std.specs.Prelude.{◌≡◌, ◌↔◌, IsTrue, ◌==◌, ◌⊎◌, List, ℕ, IfOk, IfErr, OnOk, OnErr};
ghost use Rattle.std.proofs.Common.{rules};
ghost use Rattle.std.specs.Cmp.{partial_order_from_own_ties};
ghost use Rattle.std.specs.Cmp.Rules.{comparing, hashing};
ghost use Rattle.std.specs.Cmp.Lexicographic.{slice_cmp, pointwise};
ghost use Rattle.std.specs.Ordering.{nat_cmp, as_partial_cmp};
ghost use Rattle.std.specs.Hash as fed;
ghost use Rattle.oas_num.specs.Reading.{ReadsPiece};
ghost use Rattle.oas_num.specs.Texts.{IsLabel};
ghost use Rattle.oas_num.specs.Named.{RefusesLabel};
ghost use Rattle.oas_num.specs.declared.refusals.Why.TheVariants.{Memory};

use crate::integers::read_unsigned;
use crate::refusals::Why;
use crate::spelling::Spelled;
use crate::texts::{TextClass, copy_of, is_of, overwrite, read_text};
use oas_bytes::Source;
use std::alloc::{AllocError, Global};
use std::cmp::Ordering;
use std::hash::{Hash, Hasher};
use std::marker::Model;

/// An a-string (SEMI P39, Strings): printable bytes and spaces, `20` to `7E`, or none. Labels are ordered by their bytes,
/// a proper prefix first.
#[derive(Debug, Drop)]
pub struct Label {
    bytes: Vec<u8>,
}

impl Model for Label {
    ghost Value = { List ℕ };

    ghost view = { λ label. label.bytes.items };

    ghost invariant = { λ label. IsLabel label.bytes.items };
}

impl Label {
    /// Whether the bytes are an a-string.
    pub fn is_label(bytes: &[u8]) -> bool
        ensures { IsTrue result ↔ IsLabel bytes.now }
    {
        is_of(TextClass::Label, bytes)
    }

    /// A label of these bytes, if they are an a-string: a byte outside the class is refused by `StringByte`.
    pub fn new(alloc: Global, bytes: &[u8]) -> Result<Label, Why>
        ensures ok { IfOk result (λ label. IsLabel bytes.now × (label ≡ bytes.now)) }
        ensures why { IfErr result (λ why. ((why ≡ Memory) × IsLabel bytes.now) ⊎ RefusesLabel bytes.now why) }
    {
        if !Label::is_label(bytes) {
            return Err(Why::StringByte);
        }
        Ok(Label::of(alloc, bytes)?)
    }

    /// A label of these bytes, which are an a-string.
    pub fn of(alloc: Global, bytes: &[u8]) -> Result<Label, AllocError>
        requires { IsLabel bytes.now }
        ensures { IfOk result (λ one. one ≡ bytes.now) }
    {
        let bytes = copy_of(alloc, bytes)?;
        Ok(Label { bytes })
    }

    /// Sets it to these bytes, in the memory that it has where that is enough. If out of memory it is unchanged.
    pub fn assign(&mut self, bytes: &[u8]) -> Result<(), AllocError>
        requires { IsLabel bytes.now }
        ensures ok { OnOk result (self.new ≡ bytes.now) }
        ensures err { OnErr result (self.new ≡ self.old) }
    {
        overwrite(&mut self.bytes, bytes)
    }

    /// Its bytes.
    pub fn as_bytes(&self) -> &[u8]
        ensures bytes { result.now ≡ self.now }
        ensures class { IsLabel self.now }
    {
        &self.bytes
    }

    /// A copy.
    pub fn try_clone(&self, alloc: Global) -> Result<Label, AllocError>
        ensures { IfOk result (λ copy. copy ≡ self.now) }
    {
        let bytes = copy_of(alloc, &self.bytes)?;
        Ok(Label { bytes })
    }
}

impl Spelled for Label {
    ghost use Rattle.oas_num.specs.Texts.{SpellsLabel};
    ghost use Rattle.oas_num.specs.Style.{Any};
    ghost use Rattle.oas_num.specs.Laws.TextLaws.{PrefixFree-label, HasSome-label};
    ghost use Rattle.oas_num.specs.Reading.{LabelTook};

    ghost spells = { SpellsLabel };

    ghost took = { LabelTook };

    ghost one_front = { PrefixFree-label Any };

    ghost some = { HasSome-label Any };

    fn read<S: Source>(alloc: Global, source: &mut S) -> Result<Label, Why>
        ensures { ReadsPiece SpellsLabel LabelTook (S.script source.old) result (S.script source.new) }
    {
        let length = read_unsigned(source)?;
        let bytes = read_text(alloc, TextClass::Label, length, source)?;
        Ok(Label { bytes })
    }
}

impl PartialEq for Label {
    ghost eq = { pointwise ◌==◌ };

    ghost laws = { Prim.search (comparing, rules) };

    fn eq(&self, other: &Label) -> bool {
        self.as_bytes() == other.as_bytes()
    }
}

impl Eq for Label {
    ghost laws = { Prim.search (comparing, rules) };
}

impl Ord for Label {
    ghost cmp = { slice_cmp nat_cmp };

    ghost total = { Prim.search (comparing, rules) };

    ghost matches_partial_cmp = { Prim.search (comparing, rules) };

    ghost matches_eq = { Prim.search (comparing, rules) };

    fn cmp(&self, other: &Label) -> Ordering {
        self.as_bytes().cmp(other.as_bytes())
    }
}

impl PartialOrd for Label {
    ghost partial_cmp = { as_partial_cmp (slice_cmp nat_cmp) };

    ghost laws = { partial_order_from_own_ties (Prim.search (comparing, rules)) (Prim.search (comparing, rules)) };

    fn partial_cmp(&self, other: &Label) -> Option<Ordering> {
        Some(self.cmp(other))
    }
}

impl Hash for Label {
    ghost hash_input = { fed.slice fed.u8 };

    ghost respects_eq = { Prim.search (hashing, rules) };

    fn hash<H: Hasher>(&self, state: &mut H) {
        self.as_bytes().hash(state);
    }
}
