//! The state after the records of a file, one after another.
ghost use Rattle.std.specs.Prelude.{◌≡◌, ◌++◌, ◌∷◌, [], true, false, List, None, OnOk, IfErr};
ghost use Rattle.oas_narrow.specs.WideRecord.{WideRecord as OneRecord};
ghost use Rattle.oas_narrow.specs.Tracked.{handed};
ghost use Rattle.oas_narrow.specs.Stands.{Represents};
ghost use Rattle.oas_narrow.specs.Narrowing.{refused_of};
ghost use Rattle.oas_narrow.specs.WideWhy.TheVariants.{Profile as ByProfile};
ghost use Rattle.oas_num.specs.declared.refusals.Why.TheVariants.{OutOfPlace};
ghost use Rattle.oas_peek.specs.Named.{HasValidName, named_record};
ghost use Rattle.oas_record.specs.declared.records.Record.{Record as PlainRecord};
ghost use Rattle.oas_record.specs.Records.{id_of};
ghost use Rattle.oas_prepare.specs.Places.{at_file};
ghost use Rattle.oas_prepare.specs.Taking.{Stands, SameRun, IsStop, IsRefused, obstacle_next};

use crate::inside::stopped;
use oas_elements::{Limits, Profile};
use oas_narrow::{
    CellStore, Dropping, Reader, Rejection, Report, Resolved, Resolver, Role, WideRecord, WideWhy,
    with_turns,
};
use oas_num::{Fraction, Refusal, Why};
use oas_peek::NamedOnce;
use oas_record::{Record, Rectangle};
use std::alloc::Global;

/// The id of a rectangle record (SEMI P39, RECTANGLE record).
const RECTANGLE: u64 = 20;

/// The result of the records so far.
#[derive(Drop)]
pub(crate) struct Preparation<R> {
    /// The reader of the profile's records that they are translated to.
    pub(crate) reader: R,
    /// What says which these are.
    pub(crate) resolver: Resolver,
    /// Whether a cell is open after them.
    pub(crate) in_cell: bool,
    /// What is named to be left out.
    pub(crate) dropping: Dropping,
    /// What was left out.
    pub(crate) report: Report,
}

impl<C: CellStore> Preparation<Reader<C>> {
    /// That of no records.
    pub(crate) fn new(
        alloc: Global,
        unit: Fraction,
        limits: Limits,
        profile: Profile,
        dropping: Dropping,
    ) -> Preparation<Reader<C>>
        ensures stands { Stands C.store result [] }
        ensures unit { result.reader.unit ≡ unit }
        ensures limits { result.reader.limits ≡ limits }
        ensures dropping { result.dropping ≡ dropping }
    {
        Preparation {
            reader: Reader::new(alloc, unit, limits, profile),
            resolver: Resolver::new(),
            in_cell: false,
            dropping,
            report: Report::new(),
        }
    }

    /// Takes one more record, which starts at byte `at`.
    pub(crate) fn take(&mut self, alloc: Global, at: u64, next: WideRecord) -> Result<(), Rejection>
        ensures taken { (ws : List OneRecord) → Stands C.store self.old ws → OnOk result ((obstacle_next self.old.reader.limits self.old.dropping ws next ≡ None) × Stands C.store self.new (ws ++ next ∷ [])) }
        ensures stopped { (ws : List OneRecord) → Stands C.store self.old ws → IfErr result (IsStop at self.old.reader.limits self.old.dropping ws next) }
        ensures same { OnOk result (SameRun self.old self.new) }
    {
        let role = Role::of(&next);
        if let Some(why) = role.obstacle(self.dropping, self.in_cell) {
            return Err(stopped(at, why));
        }
        self.in_cell = role.opens(self.in_cell);
        role.count(&mut self.report);
        match self.resolver.resolve(alloc, with_turns(next)) {
            Ok(resolved) => {
                take_resolved(&mut self.reader, at, resolved)?;
                Ok(())
            }
            Err(why) => Err(stopped(at, why)),
        }
    }

    /// Takes one more record of the profile. As long as the cell has neither trapezoids nor geometry of extensions, the reader
    /// takes it as it is, so it is moved only once.
    pub(crate) fn take_plain(
        &mut self,
        alloc: Global,
        at: u64,
        next: Record,
    ) -> Result<(), Rejection>
        ensures taken { (ws : List OneRecord) → Stands C.store self.old ws → OnOk result ((obstacle_next self.old.reader.limits self.old.dropping ws (OneRecord.Profile next) ≡ None) × Stands C.store self.new (ws ++ OneRecord.Profile next ∷ [])) }
        ensures stopped { (ws : List OneRecord) → Stands C.store self.old ws → IfErr result (IsStop at self.old.reader.limits self.old.dropping ws (OneRecord.Profile next)) }
        ensures same { OnOk result (SameRun self.old self.new) }
    {
        if self.resolver.is_mixed() {
            return self.take(alloc, at, WideRecord::Profile(next));
        }
        let role = Role::of_plain(&next);
        if let Some(why) = role.obstacle(self.dropping, self.in_cell) {
            return Err(stopped(at, why));
        }
        self.in_cell = role.opens(self.in_cell);
        let Ok(()) = self.resolver.track(alloc, &next) else {
            return Err(stopped(at, WideWhy::Profile(Why::Memory)));
        };
        self.reader.take(at, next)?;
        Ok(())
    }

    /// Takes one more rectangle, which gives no repetition.
    pub(crate) fn take_rectangle(
        &mut self,
        alloc: Global,
        at: u64,
        next: Rectangle,
    ) -> Result<(), Rejection>
        requires { next.spot.repetition ≡ None }
        ensures taken { (ws : List OneRecord) → Stands C.store self.old ws → OnOk result ((obstacle_next self.old.reader.limits self.old.dropping ws (OneRecord.Profile (PlainRecord.Rectangle next)) ≡ None) × Stands C.store self.new (ws ++ OneRecord.Profile (PlainRecord.Rectangle next) ∷ [])) }
        ensures stopped { (ws : List OneRecord) → Stands C.store self.old ws → IfErr result (IsStop at self.old.reader.limits self.old.dropping ws (OneRecord.Profile (PlainRecord.Rectangle next))) }
        ensures same { OnOk result (SameRun self.old self.new) }
    {
        if self.resolver.is_mixed() {
            return self.take_plain(alloc, at, Record::Rectangle(next));
        }
        self.find_cell(at, RECTANGLE)?;
        self.resolver.track_rectangle(&next);
        self.reader.take_rectangle(at, next)?;
        Ok(())
    }

    /// Takes one more placement or text, which gives no repetition. So it sets no variable that is tracked, and uses none.
    pub(crate) fn take_named(&mut self, at: u64, next: &NamedOnce<'_>) -> Result<(), Rejection>
        requires { HasValidName next.now }
        ensures taken { (ws : List OneRecord) → Stands C.store self.old ws → OnOk result ((obstacle_next self.old.reader.limits self.old.dropping ws (OneRecord.Profile (named_record next.now)) ≡ None) × Stands C.store self.new (ws ++ OneRecord.Profile (named_record next.now) ∷ [])) }
        ensures stopped { (ws : List OneRecord) → Stands C.store self.old ws → IfErr result (IsStop at self.old.reader.limits self.old.dropping ws (OneRecord.Profile (named_record next.now))) }
        ensures same { OnOk result (SameRun self.old self.new) }
    {
        self.find_cell(at, id_of(next))?;
        self.reader.take_named(at, next)?;
        Ok(())
    }

    /// Finds that a cell is open, as an element with this id requires.
    fn find_cell(&self, at: u64, id: u64) -> Result<(), Rejection>
        ensures found { OnOk result (self.now.in_cell ≡ true) }
        ensures missing { IfErr result (λ e. (self.now.in_cell ≡ false) × (e ≡ at_file at (ByProfile (OutOfPlace id)))) }
    {
        if self.in_cell {
            Ok(())
        } else {
            Err(stopped(at, WideWhy::Profile(Why::OutOfPlace(id))))
        }
    }
}

/// The id of the record of a placement by quarter turns, or of a text (SEMI P39, PLACEMENT and TEXT records).
fn id_of(next: &NamedOnce<'_>) -> u64
    ensures { result ≡ id_of (named_record next.now) }
{
    match next {
        NamedOnce::Placement { .. } => 17,
        NamedOnce::Text { .. } => 19,
    }
}

/// Gives the reader the records of the profile that a record which starts at byte `at` is translated to.
fn take_resolved<C: CellStore>(
    reader: &mut Reader<C>,
    at: u64,
    resolved: Resolved,
) -> Result<(), Refusal>
    ensures taken { (rs : List PlainRecord) → Represents C.store reader.old rs → OnOk result ((refused_of reader.old.limits rs (handed resolved) ≡ None) × Represents C.store reader.new (rs ++ handed resolved)) }
    ensures refused { (rs : List PlainRecord) → Represents C.store reader.old rs → IfErr result (IsRefused at (refused_of reader.old.limits rs (handed resolved))) }
    ensures unit { OnOk result (reader.new.unit ≡ reader.old.unit) }
    ensures limits { OnOk result (reader.new.limits ≡ reader.old.limits) }
{
    match resolved {
        Resolved::Nothing => Ok(()),
        Resolved::One(record) => reader.take(at, record),
        Resolved::Absolute(record) => {
            reader.take(at, Record::XyAbsolute)?;
            reader.take(at, record)?;
            reader.take(at, Record::XyRelative)
        }
    }
}
