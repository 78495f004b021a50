//! Whether a file is canonical, judged record by record as it is read.
//!
//! What this crate promises to the crates above it:
//!
//! - [`is_canonical`] returns whether an accepted file is a canonical form by the profile that it is handed, whatever the
//!   source (`IsJudged`, specs/Judged.antt). It builds no layout, and keeps names, numbers and counts, and no more than one
//!   record at a time.
//! - [`read_judged`] returns that and, in the same pass, the layout, as another profile keeps it (`IsReadAndJudged`).
//! - Both refuse as `read_layout` of oas_layout does, except that memory may run out at any byte (`RefusesKept`,
//!   specs/Kept.antt), at the offset of the current part (`HasNoMemory` of oas_file).
//! - [`read_given`] returns the bytes of a file where these are a canonical form by the profile, and otherwise its layout
//!   (`ReadsGiven`, specs/Given.antt). It refuses just as `read_layout` does.
//! - [`read_canonical`] returns the bytes of a canonical file too, and otherwise those that were taken (`ReadsCanonical`,
//!   specs/Attempts.antt). It refuses nothing: these bytes are for another reader, by a [`JoinedSource`], which gives bytes
//!   that were kept of a source once more, and then what that still gives (`GivesAgain`).
//! - [`KeptSource`] gives what another source gives, and keeps it: the bytes that were taken since it was made, or from an
//!   offset on, unless there was no memory for them.
//!
//! A record in the shortest style gives all its fields, so what it draws is a function of the record alone (`own_drawn`,
//! specs/Own.antt), and so is what it may be in a canonical file (`IsCandidate`, specs/Candidates.antt). Where coordinates
//! are absolute it is what the record draws after any records (`own_draws`, proofs/OwnLemmas.antt). A judge of oas_form
//! compares the bytes that spell a record with the canonical ones (`IsJudging`, specs/FileJudges.antt).
//!
//! # How it is built
//!
//! - src/own.rt, specs/Own.antt: the element that a record gives by its own fields. proofs/OwnLemmas.antt: where
//!   coordinates are absolute it is what the record draws after any records (`own_draws`), and the record of each element
//!   gives all its fields (`element_gives`).
//! - src/candidates.rt: what a record may be in a canonical file: a CELL by its name, an element in its kept form, or
//!   nothing.
//! - src/kept.rt, specs/Sources.antt: a source that keeps the bytes of another as it gives them. Its script is that of the
//!   source below, so what is read from it is read from that source, and refused as it is there. If there is no memory for a
//!   byte, nothing is kept any more and the read goes on. Its invariant is that the bytes that are kept are all that the source
//!   gave since it was lent (`IsKept`). A contract can't name what a borrow pointed to when the wrapper was made, so the wrapper
//!   has a type parameter (`Start`) that says which source it is and where it was.
//! - src/judge.rt: the judge of a file, a `FormJudge` of oas_form and whether the head is as in a canonical file.
//! - src/records.rt: a record at hand. It is read from the slice of what the source has at hand (`ahead` of oas_bytes), judged
//!   by the bytes there, and then as many are taken (`skip`): so none is copied. The id says which way to try. A rectangle that
//!   gives all its fields is read in a function of its own, without calls. An element that is spelled in the shortest
//!   style has the canonical bytes, by a law of oas_form, and none is compared: a rectangle, a placement or a text (src/named.rt:
//!   where it follows an element of its kind, in the memory of that one), or a polygon or a path that the profile keeps
//!   unchanged (src/figures.rt; proofs/FigureSteps.antt: the steps between the vertices of a plain list are that list). Most
//!   polygons of a canonical file are plainly in their least reading: their first point is below all others, and their second
//!   below the last (proofs/LeastSteps.antt). Every other record is found by `find_record` of oas_file, and compared.
//! - src/series.rt, gathering.rt, specs/Series.antt: a series, which is elements of one kind at hand one after another, each spelled in
//!   the shortest style. The judge sees them one by one, while the reader, where it keeps no element, takes them at once at the
//!   end, and the source skips once. A series ends before any record that isn't like that, or for which there is no room, so every
//!   refusal but one is found by the usual way. The one is out of memory for the last name of a series: it is at that record.
//! - src/parts.rt, specs/Parts.antt: the loops over the parts of a file, for any stores: by series as long as the file may be
//!   canonical, and then by parts alone. A part that can't be judged at hand,
//!   mostly since what is at hand ends within it, is read from a source that keeps its bytes; so are END and the head of a
//!   file. A try at hand reads no byte after the record, and no record is tried twice. So however little a source has at hand,
//!   the tries read no more bytes than the file has.
//! - src/checking.rt: the two calls that judge a whole file; the second matches on the profile once, since the reader's stores
//!   have it as a type.
//! - src/given.rt: a file that may be canonical is judged over counted cells, by a source that keeps its bytes, until a record
//!   isn't as in a canonical file, or couldn't be judged for lack of memory. Then the layout is read from these bytes and from
//!   what the source still gives (src/joined.rt).
//!
//! Two things shape the last. A refusal says which of the bytes that were taken decided it, so where memory runs out while
//! kept bytes are read again, the refusal has to be right for all of them. So judging stops only behind a whole record: there
//! memory may run out (`MayWant`, specs/Parts.antt). And no contract says that what is skipped is within the source's limit,
//! so a source that gives kept bytes again has a limit of its own, which is the source's once this gave a byte or its end
//! (`limit_with`, specs/Sources.antt).
//!
//! How the proof goes. `HasSeen` (specs/Judged.antt) is the loop's invariant: the entries so far, that the reader represents
//! their records, and that the judge represents them (`IsJudging`, specs/FileJudges.antt). A step of the judge is one of
//! oas_form's laws (`judge_represents`). In a file that is canonical so far coordinates are absolute, so a record draws what it
//! gives (proofs/JudgeSteps.antt). A record that matches is a CELL by its name or gives an element in its kept form
//! (`right_next`, proofs/RightRecords.antt), so one for which neither holds fails. A series is a list of such elements
//! (`EndsSeries`, specs/Series.antt; proofs/SeriesItems.antt): the canonical records of elements of one kind are what the reader takes
//! at once (`element_series`, proofs/ElementSeries.antt of oas_form), so the entries grow by all of them (proofs/SeriesSteps.antt). A judge that has failed stays failed
//! (`stays_failed`). At the end the entries are the whole file, which by oas_form's `BytesJudge` is a canonical form exactly
//! if the judge holds (proofs/FileLemmas.antt). The layout beside that result is that of the same bytes, since `finish_layout` of
//! oas_layout returns the layout of whatever records the reader represents (`read_judged`, in the same file).
#![tactic(auto)]

mod attempts;
mod candidates;
mod checking;
mod figures;
mod gathering;
mod given;
mod joined;
mod judge;
mod kept;
mod named;
mod own;
mod parts;
mod records;
mod series;

// The crates below, for those above.
pub use attempts::{Attempt, read_canonical};
pub use checking::{is_canonical, read_judged};
pub use given::{Given, read_given};
pub use joined::{Front, JoinedSource};
pub use kept::KeptSource;
pub use oas_writing::{
    ByProfileOne, ByProfileTwo, Cells, CompactCell, Draft, Elements, FormJudge, KeptBy,
    KeyedElement, Layout, Refused, ShownElement, ShownPoints, file_laws, find_end_of_input,
    finish_layout, form_laws, has_canonical_bytes, put_canonical, put_cell_alone, put_listing,
    read_layout, show, write_canonical, write_listing,
};
