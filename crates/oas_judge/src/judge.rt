//! The judge of a file, which sees it part by part.
ghost use Rattle.std.specs.Prelude.{◌≡◌, ◌↔◌, ◌≤◌, IsTrue, true, false, take, ℕ, List, None, is_some, IfSome, IfOk, IfErr};
ghost use Rattle.oas_elements.specs.declared.limits.Limits.{Limits};
ghost use Rattle.oas_writing.specs.Reading.{Refuses};
ghost use Rattle.oas_judge.specs.Candidates.{IsCandidate, IsFitting};
ghost use Rattle.oas_judge.specs.FileJudges.{holds, BeginsJudging, GoesOn, IsFront, GoesOnTaking, Decides};
ghost use Rattle.oas_judge.specs.declared.judge.FileJudge.{FileJudge as TheJudge};
ghost use Rattle.oas_judge.specs.Peeked.{IsSpelledBy};
ghost use Rattle.oas_judge.specs.Series.{SeesElement};
ghost use Rattle.oas_elements.specs.Weight.{weight_of};
ghost use Rattle.oas_peek.specs.Peeked.{IsPeeked};
ghost use Rattle.oas_peek.specs.Named.{IsPeekedNamed, HasValidName, named_record};
ghost use Rattle.oas_peek.specs.Figures.{IsPeekedFigure};
ghost use Rattle.oas_record.specs.declared.records.Record.TheVariants.{Rectangle as OneRectangle};

use crate::candidates::{Candidate, candidate_of, is_drawable};
use crate::figures::spelled_figure;
use crate::kept::KeptSource;
use crate::named::draw_named;
use crate::own::own_rectangle;
use oas_elements::{Element, Profile};
use oas_num::{Fraction, Refusal, Source, Start};
use oas_peek::{PeekedFigure, PeekedNamed, PeekedRectangle};
use oas_record::{Head, Record, read_head};
use oas_writing::{FormJudge, is_end, is_head};
use std::alloc::Global;
use std::marker::Brand;

/// Judges whether a file is canonical by a profile, part by part as these are read.
///
/// It keeps the name of the open cell and the latest element in it.
#[derive(Drop)]
pub(crate) struct FileJudge {
    profile: Profile,
    /// Whether the head of the file is as in a canonical one; None if there was no memory for its bytes.
    begins: Option<bool>,
    form: FormJudge,
}

/// Whether these are the canonical bytes of the head of a file.
fn is_front(unit: Fraction, flag_in_end: bool, bytes: &[u8]) -> bool
    ensures { IsTrue result ↔ IsFront (record { unit = unit; flag_in_end = flag_in_end }) bytes.now }
{
    !flag_in_end && is_head(unit, bytes)
}

/// The same for the bytes that were kept of the head; None if there was no memory for them.
fn begins_so(head: &Head, kept: Option<Vec<u8>>) -> Option<bool>
    ensures { (bytes : List ℕ) → IfSome kept (λ start. start.items ≡ bytes) → IfSome result (λ yes. IsTrue yes ↔ IsFront head.now bytes) }
{
    match kept {
        Some(start) => Some(is_front(head.unit, head.flag_in_end, &start)),
        None => None,
    }
}

/// The element of a rectangle that is at hand, where its bytes are the canonical ones of that.
#[inline(always)]
fn spelled_element(ahead: &PeekedRectangle) -> Option<Element>
    ensures { IfSome result (λ element. IsSpelledBy ahead.now element) }
{
    if !ahead.shortest {
        return None;
    }
    let own = own_rectangle(&ahead.rectangle)?;
    own.fits();
    if is_drawable(&own) { Some(own) } else { None }
}

/// Judges a record by what it may be in a canonical file and by its bytes, where all before it were as in one.
fn judge_form(form: &mut FormJudge, candidate: Candidate, bytes: &[u8])
    requires { IsFitting candidate }
    ensures { (j : TheJudge) → j.form ≡ form.old → IsTrue (holds j) → GoesOn bytes.now j candidate (record j { form = form.new }) }
{
    match candidate {
        Candidate::Cell(name) => form.open(name, bytes),
        Candidate::Element(element) => form.draw(element, bytes),
        Candidate::Other => form.refuse(),
    }
}

impl FileJudge {
    /// Reads the head of a file, and begins to judge it.
    pub(crate) fn begin<S: Source>(
        alloc: Global,
        source: &mut S,
        profile: Profile,
    ) -> Result<(Head, FileJudge), Refusal>
        ensures begun { IfOk result (λ begun. BeginsJudging profile (S.script source.old) begun.0 begun.1 (S.script source.new)) }
        ensures refused { IfErr result (λ refusal. (limits : Limits) → Refuses limits (S.script source.old) refusal (S.script source.new)) }
    {
        let (begun, _source) = FileJudge::begin_named::<S, Brand>(alloc, source, profile);
        begun
    }

    /// The same, for the source that is named. It hands the borrow back, so that its lender knows it as its own.
    fn begin_named<'a, S: Source, K: Start>(
        alloc: Global,
        source: &'a mut S,
        profile: Profile,
    ) -> (Result<(Head, FileJudge), Refusal>, &'a mut S)
        requires named { source.ghost_name ≡ K.name }
        requires starts { S.script source.old ≡ K.script }
        ensures same { result.1.ghost_name ≡ source.entry.ghost_name }
        ensures begun { IfOk result.0 (λ begun. BeginsJudging profile (S.script source.old) begun.0 begun.1 (S.script result.1.now)) }
        ensures refused { IfErr result.0 (λ refusal. (limits : Limits) → Refuses limits (S.script source.old) refusal (S.script result.1.now)) }
    {
        let mut keeping: KeptSource<'a, S, K> = KeptSource::new(Vec::new(alloc), source);
        let outcome = read_head(alloc, &mut keeping);
        let (source, kept) = keeping.finish();
        let head = match outcome {
            Ok(head) => head,
            Err(refusal) => return (Err(refusal), source),
        };
        let judge = FileJudge {
            profile,
            begins: begins_so(&head, kept),
            form: FormJudge::new(),
        };
        (Ok((head, judge)), source)
    }

    /// Whether there was memory for the bytes of the head.
    pub(crate) fn has_begun(&self) -> bool
        ensures { result ≡ is_some self.now.begins }
    {
        self.begins.is_some()
    }

    /// Whether all parts so far were as in a canonical file.
    pub(crate) fn holds(&self) -> bool
        ensures { result ≡ holds self.now }
    {
        self.begins.unwrap_or(false) && self.form.holds()
    }

    /// Whether the file is canonical, where END was taken, with these bytes; None where it isn't known.
    pub(crate) fn end(&self, last: Option<&[u8]>) -> Option<bool>
        ensures { (bytes : List ℕ) → IfSome last.entry (λ known. known.now ≡ bytes) → IfSome result (Decides self.now bytes) }
    {
        if self.begins.is_none() {
            return None;
        }
        if !self.holds() {
            return Some(false);
        }
        Some(is_end(last?))
    }

    /// What a record may be in a canonical file, where it is still judged; None if out of memory.
    pub(crate) fn candidate(&self, alloc: Global, next: &Record) -> Option<Candidate>
        ensures some { IfSome result (λ candidate. IsTrue (holds self.now) → IsCandidate self.now.profile candidate next.now) }
        ensures fit { IfSome result IsFitting }
    {
        if !self.holds() {
            return Some(Candidate::Other);
        }
        candidate_of(alloc, self.profile, next).ok()
    }

    /// Judges a rectangle that is at hand, if it is accepted, where its bytes are the canonical ones. Otherwise it returns false,
    /// and does nothing.
    #[inline(always)]
    pub(crate) fn see_rectangle(&mut self, ahead: &PeekedRectangle) -> bool
        requires { IsTrue (holds self.old) }
        ensures no { result ≡ false → self.new ≡ self.old }
        ensures yes { result ≡ true → (all : List ℕ) → IsPeeked all ahead.now → SeesElement (take ahead.now.length all) self.old (OneRectangle ahead.now.rectangle) self.new }
    {
        let Some(element) = spelled_element(ahead) else {
            return false;
        };
        self.form.draw_spelled(element);
        true
    }

    /// The same of a placement or a text. It returns false also if out of memory.
    #[inline(always)]
    pub(crate) fn see_named(&mut self, alloc: Global, ahead: &PeekedNamed<'_>) -> bool
        requires named { HasValidName ahead.now.element }
        requires told { IsTrue (holds self.old) }
        ensures no { result ≡ false → self.new ≡ self.old }
        ensures yes { result ≡ true → (all : List ℕ) → IsPeekedNamed all ahead.now → SeesElement (take ahead.now.length all) self.old (named_record ahead.now.element) self.new }
    {
        ahead.shortest && draw_named(alloc, &mut self.form, &ahead.element)
    }

    /// The same of a polygon or a path that weighs at most so much. It returns the weight; None, and does nothing, also if out
    /// of memory.
    #[inline(always)]
    pub(crate) fn see_figure(
        &mut self,
        alloc: Global,
        ahead: &PeekedFigure,
        most: u64,
    ) -> Option<u64>
        requires { IsTrue (holds self.old) }
        ensures none { result ≡ None → self.new ≡ self.old }
        ensures light { IfSome result (λ weight. weight ≤ most) }
        ensures some { IfSome result (λ weight. (all : List ℕ) → IsPeekedFigure all ahead.now → (s : SeesElement (take ahead.now.length all) self.old ahead.now.record self.new) × (weight_of s.element ≡ weight)) }
    {
        let element = spelled_figure(alloc, self.profile, ahead)?;
        let weight = element.weight();
        if weight > most {
            return None;
        }
        self.form.draw_spelled(element);
        Some(weight)
    }

    /// Judges a rectangle that is at hand, if it is accepted. It returns false, and does nothing, where it would have to
    /// compare the bytes with the canonical ones.
    #[inline(always)]
    pub(crate) fn judge_rectangle(&mut self, ahead: &PeekedRectangle) -> bool
        ensures no { result ≡ false → self.new ≡ self.old }
        ensures yes { result ≡ true → (all : List ℕ) → IsPeeked all ahead.now → GoesOnTaking (take ahead.now.length all) self.old (OneRectangle ahead.now.rectangle) self.new }
    {
        if !self.holds() {
            return true;
        }
        self.see_rectangle(ahead)
    }

    /// Judges a placement or a text that is at hand, if it is accepted. It returns false, and does nothing, where it would
    /// have to compare the bytes with the canonical ones, or if out of memory.
    #[inline(always)]
    pub(crate) fn judge_named(&mut self, alloc: Global, ahead: &PeekedNamed<'_>) -> bool
        requires { HasValidName ahead.now.element }
        ensures no { result ≡ false → self.new ≡ self.old }
        ensures yes { result ≡ true → (all : List ℕ) → IsPeekedNamed all ahead.now → GoesOnTaking (take ahead.now.length all) self.old (named_record ahead.now.element) self.new }
    {
        if !self.holds() {
            return true;
        }
        self.see_named(alloc, ahead)
    }

    /// Judges a polygon or a path that is at hand, if it is accepted. It returns false, and does nothing, where it would have
    /// to compare the bytes with the canonical ones, or if out of memory.
    #[inline(always)]
    pub(crate) fn judge_figure(&mut self, alloc: Global, ahead: &PeekedFigure) -> bool
        ensures no { result ≡ false → self.new ≡ self.old }
        ensures yes { result ≡ true → (all : List ℕ) → IsPeekedFigure all ahead.now → GoesOnTaking (take ahead.now.length all) self.old ahead.now.record self.new }
    {
        if !self.holds() {
            return true;
        }
        let Some(element) = spelled_figure(alloc, self.profile, ahead) else {
            return false;
        };
        self.form.draw_spelled(element);
        true
    }

    /// Judges a record with these bytes, if it is accepted.
    pub(crate) fn judge(&mut self, candidate: Candidate, bytes: &[u8])
        requires { IsFitting candidate }
        ensures { GoesOn bytes.now self.old candidate self.new }
    {
        if self.holds() {
            judge_form(&mut self.form, candidate, bytes);
        }
    }
}
