//! The reader: it takes record after record, and hands over what they drew, or decides END of it.

ghost use Rattle.std.specs.Prelude.{◌≡◌, ◌⊎◌, ◌++◌, ◌∷◌, [], List, true, None, Some, OnOk, IfOk, IfErr, IfSome};
ghost use Rattle.oas_num.specs.declared.refusals.Why.TheVariants.{Memory};
ghost use Rattle.oas_num.specs.declared.refusals.Refusal.{Refusal as OneRefusal};
ghost use Rattle.oas_record.specs.declared.records.Record.{Record as OneRecord};
ghost use Rattle.oas_peek.specs.Named.{HasValidName, named_record};
ghost use Rattle.oas_reader.specs.Series.{HasRoom, LandsNear, IsSeries};
ghost use Rattle.oas_reader.specs.Standing.{MayRunOut};
ghost use Rattle.oas_reader.specs.Stands.{Represents, refusal, end_refusal};
ghost use Rattle.oas_reader.specs.Counted.{counted_store};
ghost use Rattle.oas_reader.specs.Taken.{HandsOver};

use crate::accepting::accept_end;
use crate::counted::CountedCell;
use crate::named::accept_named;
use crate::names::NameTable;
use crate::parts::Parts;
use crate::series::{Room, accept_named_series, accept_series, room_in};
use crate::stores::CellStore;
use crate::taken::{Taken, taken_of};
use crate::taking::{accept, accept_rectangle};
use oas_drawing::ModalVariables;
use oas_elements::{Limits, Profile};
use oas_num::{Fraction, Refusal, Why};
use oas_peek::NamedOnce;
use oas_record::{Record, Rectangle};
use std::alloc::Global;
use std::marker::Model;

/// Takes the records of a file, one after another, with a store for each cell. Contracts see its refusal, if there was one,
/// and what it represents.
#[derive(Drop)]
pub struct Reader<S: CellStore> {
    failed: Option<Refusal>,
    parts: Parts<S>,
}

impl<S: CellStore> Model for Reader<S> {
    ghost use Rattle.std.specs.Prelude.{◌≡◌, None};
    ghost use Rattle.oas_reader.specs.Stands.{ReaderState};
    ghost use Rattle.oas_reader.specs.Parts.{standing, cells, Sound};

    ghost Value = { ReaderState S };

    ghost view = { λ a. record {
      failed = a.failed;
      unit = a.parts.unit;
      limits = a.parts.limits;
      profile = a.parts.profile;
      standing = standing a.parts;
      names = a.parts.names;
      strings = a.parts.strings;
      cells = cells a.parts;
    } };

    ghost invariant = { λ a. a.failed ≡ None → Sound S.store a.parts };
}

/// The refusal of a record that starts at byte `at`, which is kept and returned from then on.
fn keep(failed: &mut Option<Refusal>, at: u64, why: Why) -> Refusal
    ensures refusal { (result.at ≡ at) × (result.why ≡ why) }
    ensures kept { failed.new ≡ Some result }
{
    let refusal = Refusal { at, why };
    *failed = Some(refusal);
    refusal
}

impl<S: CellStore> Reader<S> {
    /// A reader of no records.
    pub fn new(alloc: Global, unit: Fraction, limits: Limits, profile: Profile) -> Reader<S>
        ensures stands { Represents S.store result [] }
        ensures unit { result.unit ≡ unit }
        ensures limits { result.limits ≡ limits }
        ensures profile { result.profile ≡ profile }
    {
        Reader {
            failed: None,
            parts: Parts {
                alloc,
                unit,
                limits,
                profile,
                modal: ModalVariables::new(),
                names: NameTable::new(alloc),
                strings: NameTable::new(alloc),
                done: Vec::new(alloc),
                cell: None,
                count: 0,
                weight: 0,
            },
        }
    }

    /// Takes one more record, which starts at byte `at`. It is refused as `refusal` says, with the first reason of several;
    /// END with `OutOfPlace`, as the caller handles it (own rule). It fails with `Memory` only where it isn't refused
    /// otherwise, or for a copy outside the grid. After a refusal each call returns the same refusal.
    #[inline(always)]
    pub fn take(&mut self, at: u64, next: Record) -> Result<(), Refusal>
        ensures again { (e : OneRefusal) → self.old.failed ≡ Some e → (result ≡ Err e) × (self.new ≡ self.old) }
        ensures failed { IfErr result (λ e. self.new.failed ≡ Some e) }
        ensures taken { (rs : List OneRecord) → Represents S.store self.old rs → OnOk result ((refusal self.old.limits rs next ≡ None) × Represents S.store self.new (rs ++ next ∷ [])) }
        ensures refused { (rs : List OneRecord) → Represents S.store self.old rs →
            IfErr result (λ e. (e.at ≡ at) × (((e.why ≡ Memory) × MayRunOut (refusal self.old.limits rs next)) ⊎ (refusal self.old.limits rs next ≡ Some e.why))) }
        ensures unit { OnOk result (self.new.unit ≡ self.old.unit) }
        ensures limits { OnOk result (self.new.limits ≡ self.old.limits) }
        ensures profile { OnOk result (self.new.profile ≡ self.old.profile) }
    {
        if let Some(refusal) = self.failed {
            return Err(refusal);
        }
        let mut next = next;
        match accept(&mut self.parts, &mut next) {
            Ok(()) => Ok(()),
            Err(why) => Err(keep(&mut self.failed, at, why)),
        }
    }

    /// Takes a rectangle without a repetition, as [`Reader::take`] takes its record: what the reader then represents, and
    /// what it refuses, are the same. Such rectangles are often most of a file; this moves no record and has no loop over
    /// copies. One outside a cell is refused with `OutOfPlace`.
    #[inline(always)]
    pub fn take_rectangle(&mut self, at: u64, next: Rectangle) -> Result<(), Refusal>
        requires { next.spot.repetition ≡ None }
        ensures again { (e : OneRefusal) → self.old.failed ≡ Some e → (result ≡ Err e) × (self.new ≡ self.old) }
        ensures failed { IfErr result (λ e. self.new.failed ≡ Some e) }
        ensures taken { (rs : List OneRecord) → Represents S.store self.old rs → OnOk result ((refusal self.old.limits rs (OneRecord.Rectangle next) ≡ None) × Represents S.store self.new (rs ++ OneRecord.Rectangle next ∷ [])) }
        ensures refused { (rs : List OneRecord) → Represents S.store self.old rs →
            IfErr result (λ e. (e.at ≡ at) × (((e.why ≡ Memory) × MayRunOut (refusal self.old.limits rs (OneRecord.Rectangle next))) ⊎ (refusal self.old.limits rs (OneRecord.Rectangle next) ≡ Some e.why))) }
        ensures unit { OnOk result (self.new.unit ≡ self.old.unit) }
        ensures limits { OnOk result (self.new.limits ≡ self.old.limits) }
        ensures profile { OnOk result (self.new.profile ≡ self.old.profile) }
    {
        if let Some(refusal) = self.failed {
            return Err(refusal);
        }
        let mut next = next;
        match accept_rectangle(&mut self.parts, &mut next) {
            Ok(()) => Ok(()),
            Err(why) => Err(keep(&mut self.failed, at, why)),
        }
    }

    /// Takes a placement or a text without a repetition, whose name, if it gives one, is valid, as [`Reader::take`] takes its
    /// record: what the reader then represents, and what it refuses, are the same. No record is built, and a name only where
    /// none was modal.
    #[inline(always)]
    pub fn take_named(&mut self, at: u64, next: &NamedOnce<'_>) -> Result<(), Refusal>
        requires { HasValidName next.now }
        ensures again { (e : OneRefusal) → self.old.failed ≡ Some e → (result ≡ Err e) × (self.new ≡ self.old) }
        ensures failed { IfErr result (λ e. self.new.failed ≡ Some e) }
        ensures taken { (rs : List OneRecord) → Represents S.store self.old rs → OnOk result ((refusal self.old.limits rs (named_record next.now) ≡ None) × Represents S.store self.new (rs ++ named_record next.now ∷ [])) }
        ensures refused { (rs : List OneRecord) → Represents S.store self.old rs →
            IfErr result (λ e. (e.at ≡ at) × (((e.why ≡ Memory) × MayRunOut (refusal self.old.limits rs (named_record next.now))) ⊎ (refusal self.old.limits rs (named_record next.now) ≡ Some e.why))) }
        ensures unit { OnOk result (self.new.unit ≡ self.old.unit) }
        ensures limits { OnOk result (self.new.limits ≡ self.old.limits) }
        ensures profile { OnOk result (self.new.profile ≡ self.old.profile) }
    {
        if let Some(refusal) = self.failed {
            return Err(refusal);
        }
        match accept_named(&mut self.parts, next) {
            Ok(()) => Ok(()),
            Err(why) => Err(keep(&mut self.failed, at, why)),
        }
    }

    /// The room for a series in the open cell; None where a series can't be taken.
    #[inline(always)]
    pub fn room(&self) -> Option<Room>
        ensures counts { IfSome result (λ _. S.COUNTS ≡ true) }
        ensures room { IfSome result (λ room. HasRoom self.now room.elements room.weight) }
    {
        if self.failed.is_some() {
            return None;
        }
        room_in(&self.parts)
    }

    /// Takes a series that ends with this record: `count` elements, with this weight together. None of its records may be refused.
    pub fn take_series(&mut self, last: Record, count: u64, weight: u64)
        requires counts { S.COUNTS ≡ true }
        requires room { HasRoom self.old count weight }
        requires lands { LandsNear self.old.standing.modal last }
        ensures taken { (rs series : List OneRecord) → Represents S.store self.old rs → IsSeries rs series last count weight → Represents S.store self.new (rs ++ series) }
        ensures unit { self.new.unit ≡ self.old.unit }
        ensures limits { self.new.limits ≡ self.old.limits }
        ensures profile { self.new.profile ≡ self.old.profile }
    {
        let mut last = last;
        accept_series(&mut self.parts, &mut last, count, weight);
    }

    /// The same of a series of placements or texts that ends with this one, which starts at byte `at`. It fails only with
    /// `Memory`, for its name.
    pub fn take_named_series(
        &mut self,
        at: u64,
        last: &NamedOnce<'_>,
        count: u64,
        weight: u64,
    ) -> Result<(), Refusal>
        requires counts { S.COUNTS ≡ true }
        requires named { HasValidName last.now }
        requires room { HasRoom self.old count weight }
        requires lands { LandsNear self.old.standing.modal (named_record last.now) }
        ensures failed { IfErr result (λ e. self.new.failed ≡ Some e) }
        ensures refused { IfErr result (λ e. (e.at ≡ at) × (e.why ≡ Memory)) }
        ensures taken { (rs series : List OneRecord) → Represents S.store self.old rs → IsSeries rs series (named_record last.now) count weight → OnOk result (Represents S.store self.new (rs ++ series)) }
        ensures unit { OnOk result (self.new.unit ≡ self.old.unit) }
        ensures limits { OnOk result (self.new.limits ≡ self.old.limits) }
        ensures profile { OnOk result (self.new.profile ≡ self.old.profile) }
    {
        match accept_named_series(&mut self.parts, last, count, weight) {
            Ok(()) => Ok(()),
            Err(_) => Err(keep(&mut self.failed, at, Why::Memory)),
        }
    }

    /// What was taken, with the stores of all cells, for a caller that finishes them; END starts at byte `at`. After a
    /// refusal it returns the same one, and otherwise fails only out of memory.
    pub fn hand_over(self, at: u64) -> Result<Taken<S>, Refusal>
        ensures ok { IfOk result (HandsOver S.store self) }
        ensures again { (e : OneRefusal) → self.failed ≡ Some e → result ≡ Err e }
        ensures refused { IfErr result (λ e. self.failed ≡ None → (e.at ≡ at) × (e.why ≡ Memory)) }
    {
        let Reader { failed, parts } = self;
        if let Some(refusal) = failed {
            return Err(refusal);
        }
        taken_of(parts, at)
    }
}

impl Reader<CountedCell> {
    /// Accepts the records that were taken; END starts at byte `at`. They are refused as `end_refusal` says, with the first
    /// reason of several, or it fails with `Memory`; after a refusal it returns the same one.
    pub fn finish_counting(self, at: u64) -> Result<(), Refusal>
        ensures again { (e : OneRefusal) → self.failed ≡ Some e → result ≡ Err e }
        ensures accepted { (rs : List OneRecord) → Represents counted_store self rs → OnOk result (end_refusal self.limits rs ≡ None) }
        ensures refused { (rs : List OneRecord) → Represents counted_store self rs → IfErr result (λ e. (e.at ≡ at) × ((e.why ≡ Memory) ⊎ (end_refusal self.limits rs ≡ Some e.why))) }
    {
        let Reader { failed, parts } = self;
        if let Some(refusal) = failed {
            return Err(refusal);
        }
        match accept_end(parts) {
            Ok(()) => Ok(()),
            Err(why) => Err(Refusal { why, at }),
        }
    }
}
