//! Names of cells.
ghost use Rattle.std.specs.Prelude.{◌≡◌, ◌↔◌, IsTrue, ◌==◌, ◌⊎◌, List, ℕ, IfOk, IfErr, OnOk, OnErr};
ghost use Rattle.std.proofs.Common.{rules};
ghost use Rattle.std.specs.Cmp.{partial_order_from_own_ties};
ghost use Rattle.std.specs.Cmp.Rules.{comparing, hashing};
ghost use Rattle.std.specs.Cmp.Lexicographic.{slice_cmp, pointwise};
ghost use Rattle.std.specs.Ordering.{nat_cmp, as_partial_cmp};
ghost use Rattle.std.specs.Hash as fed;
ghost use Rattle.oas_num.specs.Reading.{ReadsPiece};
ghost use Rattle.oas_num.specs.Texts.{IsName};
ghost use Rattle.oas_num.specs.Named.{RefusesName};
ghost use Rattle.oas_num.specs.declared.refusals.Why.TheVariants.{Memory};

use crate::integers::read_unsigned;
use crate::refusals::Why;
use crate::spelling::Spelled;
use crate::texts::{TextClass, copy_of, is_of, overwrite, read_text};
use oas_bytes::Source;
use std::alloc::{AllocError, Global};
use std::cmp::Ordering;
use std::hash::{Hash, Hasher};
use std::marker::Model;

/// An n-string (SEMI P39, Strings): one or more printable bytes, `21` to `7E`, without spaces. Names are ordered by their
/// bytes, a proper prefix first.
#[derive(Debug, Drop)]
pub struct Name {
    bytes: Vec<u8>,
}

impl Model for Name {
    ghost Value = { List ℕ };

    ghost view = { λ name. name.bytes.items };

    ghost invariant = { λ name. IsName name.bytes.items };
}

impl Name {
    /// Whether the bytes are an n-string.
    pub fn is_name(bytes: &[u8]) -> bool
        ensures { IsTrue result ↔ IsName bytes.now }
    {
        !bytes.is_empty() && is_of(TextClass::Name, bytes)
    }

    /// A name of these bytes, if they are an n-string: no bytes are refused by `EmptyName`, a byte outside the class by
    /// `StringByte`.
    pub fn new(alloc: Global, bytes: &[u8]) -> Result<Name, Why>
        ensures ok { IfOk result (λ name. IsName bytes.now × (name ≡ bytes.now)) }
        ensures why { IfErr result (λ why. ((why ≡ Memory) × IsName bytes.now) ⊎ RefusesName bytes.now why) }
    {
        if bytes.is_empty() {
            return Err(Why::EmptyName);
        }
        if !Name::is_name(bytes) {
            return Err(Why::StringByte);
        }
        Ok(Name::of(alloc, bytes)?)
    }

    /// A name of these bytes, which are an n-string.
    pub fn of(alloc: Global, bytes: &[u8]) -> Result<Name, AllocError>
        requires { IsName bytes.now }
        ensures { IfOk result (λ one. one ≡ bytes.now) }
    {
        let bytes = copy_of(alloc, bytes)?;
        Ok(Name { bytes })
    }

    /// Sets it to these bytes, in the memory that it has where that is enough. If out of memory it is unchanged.
    pub fn assign(&mut self, bytes: &[u8]) -> Result<(), AllocError>
        requires { IsName bytes.now }
        ensures ok { OnOk result (self.new ≡ bytes.now) }
        ensures err { OnErr result (self.new ≡ self.old) }
    {
        overwrite(&mut self.bytes, bytes)
    }

    /// Its bytes.
    pub fn as_bytes(&self) -> &[u8]
        ensures bytes { result.now ≡ self.now }
        ensures class { IsName self.now }
    {
        &self.bytes
    }

    /// A copy.
    pub fn try_clone(&self, alloc: Global) -> Result<Name, AllocError>
        ensures { IfOk result (λ copy. copy ≡ self.now) }
    {
        let bytes = copy_of(alloc, &self.bytes)?;
        Ok(Name { bytes })
    }
}

impl Spelled for Name {
    ghost use Rattle.oas_num.specs.Texts.{SpellsName};
    ghost use Rattle.oas_num.specs.Style.{Any};
    ghost use Rattle.oas_num.specs.Laws.TextLaws.{PrefixFree-name, HasSome-name};
    ghost use Rattle.oas_num.specs.Reading.{NameTook};

    ghost spells = { SpellsName };

    ghost took = { NameTook };

    ghost one_front = { PrefixFree-name Any };

    ghost some = { HasSome-name Any };

    fn read<S: Source>(alloc: Global, source: &mut S) -> Result<Name, Why>
        ensures { ReadsPiece SpellsName NameTook (S.script source.old) result (S.script source.new) }
    {
        let length = read_unsigned(source)?;
        if length == 0 {
            return Err(Why::EmptyName);
        }
        let bytes = read_text(alloc, TextClass::Name, length, source)?;
        Ok(Name { bytes })
    }
}

impl PartialEq for Name {
    ghost eq = { pointwise ◌==◌ };

    ghost laws = { Prim.search (comparing, rules) };

    fn eq(&self, other: &Name) -> bool {
        self.as_bytes() == other.as_bytes()
    }
}

impl Eq for Name {
    ghost laws = { Prim.search (comparing, rules) };
}

impl Ord for Name {
    ghost cmp = { slice_cmp nat_cmp };

    ghost total = { Prim.search (comparing, rules) };

    ghost matches_partial_cmp = { Prim.search (comparing, rules) };

    ghost matches_eq = { Prim.search (comparing, rules) };

    fn cmp(&self, other: &Name) -> Ordering {
        self.as_bytes().cmp(other.as_bytes())
    }
}

impl PartialOrd for Name {
    ghost partial_cmp = { as_partial_cmp (slice_cmp nat_cmp) };

    ghost laws = { partial_order_from_own_ties (Prim.search (comparing, rules)) (Prim.search (comparing, rules)) };

    fn partial_cmp(&self, other: &Name) -> Option<Ordering> {
        Some(self.cmp(other))
    }
}

impl Hash for Name {
    ghost hash_input = { fed.slice fed.u8 };

    ghost respects_eq = { Prim.search (hashing, rules) };

    fn hash<H: Hasher>(&self, state: &mut H) {
        self.as_bytes().hash(state);
    }
}
