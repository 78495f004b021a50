//! The basic types of an OASIS file, read from bytes and put as bytes. Sources and sinks are those of `oas_bytes`,
//! re-exported.
//!
//! What this crate promises to the crates above it:
//!
//! - A read of a [`Spelled`] type takes exactly a spelling of the value that it returns. It fails with a reason of format
//!   only where no spelling is a prefix of the bytes that come next, whatever follows. The type's table `took` says of all
//!   bytes that were taken in which part of the spelling they go wrong, and for which reason: either in the first part, or
//!   the first part is spelled and they go wrong in the second (specs/Pieces.antt). The contract is `ReadsPiece`
//!   (specs/Reading.antt).
//! - A read fails out of memory only at a byte or an item that was read, never because of a length or a count.
//! - No spelling of a type is a prefix of another, and none spells two values: `PrefixFree` (specs/Grammar.antt), a law of
//!   the trait. Each type has a spelling: `HasSome` (specs/Begun.antt), another law.
//! - The grammar of spellings is made of few parts (specs/Grammar.antt, specs/Combinators.antt), with three laws each:
//!   `PrefixFree`, `OneSpelling` (in the shortest style a value has one spelling) and `IsWithin` (the shortest spellings are
//!   spellings). It is written over a `Style` (specs/Style.antt): any spelling that the standard allows, or the shortest.
//! - The writers of numbers put the shortest spellings into a [`Sink`]: `shortest`, `shortest_signed` and
//!   `shortest_gdelta` (specs/Writing.antt).
//! - A [`Fraction`] is positive and in lowest terms: `Reduces` (specs/Ratio.antt).
//!
//! Whether an allocation succeeds is outside every contract: a read that allocates may return [`Why::Memory`].
//!
//! # How it is built
//!
//! - specs/Pieces.antt: where a value of several parts goes wrong, over all bytes that were read: `PairTook`, `ThereTook`,
//!   `CountTook`, `ListTook` (items that are kept), and `SuchTook` for a value that must meet a condition: its read fails, or
//!   it was read whole and is refused, by `Unless` for one reason. A table is the grammar's tree again: the choice of a type
//!   is `IsEither` itself. specs/Begun.antt: `HasSome` (something is spelled). specs/Laws/BegunLaws.antt: what is made of
//!   spellings has a spelling if its parts have (`HasSome-..`, beside each `PrefixFree-..`).
//! - src/spelling.rt: the trait `Spelled`, `next_byte`, pairs, optional fields, counted lists. integers.rt has
//!   `read_unsigned` and `read_signed` over plain numbers; `Unsigned` and `Signed` wrap them. texts.rt, reals.rt.
//! - specs/Grammar.antt and Combinators.antt: the parts of a grammar (pair, keyed, such, image, there, each, count, either,
//!   exactly, never). GrammarLaws and CombinatorLaws: their three laws (`PrefixFree-..`, `OneSpelling-..`, `IsWithin-..`).
//!   specs/Style.antt: any style, or the shortest.
//! - proofs/HalfwayLemmas.antt: a record of fields is read by `Halfway` (what was read so far, what is expected next, and
//!   that the whole goes wrong where the rest does): `at_start` or `at_image`, and `▸` for one more field, whether or not
//!   what follows depends on its value. `fails_at`, `fails_last` and `is_read` are the exits, one line each; `such_took` and
//!   `such_refused` those of a value that must meet a condition, `there_took` and `number_took` those of an optional field.
//!   proofs/PieceLemmas.antt has the same for a refusal alone (`first_fails`, `second_fails`, `keyed_fails`, `item_fails`,
//!   `item_unkept`).
//! - proofs/GrammarLemmas.antt: `key_read` reads what is keyed by what comes before it (a string by its length). `Listed` is
//!   what a loop over items has read.
//! - For whole inputs: proofs/PrefixLemmas.antt has how two prefixes of one file compare (`fronts`), and how a file goes on
//!   after a prefix of it (`goes_on`), for files of any kind, which are a head, items and an end. specs/Refusing.antt says
//!   what a refusal says of an input (`IsRefusedBy`), by which inputs are accepted, and proofs/RefusingLemmas.antt when it
//!   does: where what each accepted input requires can't be read (`read_refused`), where what was read isn't accepted
//!   (`judged_refused`), and where the source stopped (`stopped_refused`).
//!
//! How the proof goes: each exit of a reading function is one line over `Halfway`; the loops of integers and strings have
//! an invariant record (`Partway`, `Listed`, `Passed`).
//!
//! src/deltas.rt; specs/Deltas.antt (`toward`: the eight directions; `gdelta_in : Style → ..`), specs/Laws/DeltaLaws.antt. A
//! 2-delta and a 3-delta are the image of one integer, and a g-delta of one or two; bit 0 of the first says whether the
//! second is there.
//!
//! - src/writing.rt: the writers of numbers, over any `Sink`. specs/Writing.antt: what they put (`shortest`); WritingLaws: no
//!   spelling is shorter. Crates above use what oas_bytes has through this crate: src/lib.rt re-exports the types,
//!   specs/Lib.antt the definitions, and proofs/WritingLemmas.antt the lemmas of sinks. proofs/PuttingLemmas.antt has those
//!   of putting part after part.
//! - src/written.rt: the trait [`Content`] of what has bytes to put, and [`write_content`], which writes all of them or says how
//!   many the writer took (specs/Written.antt).
//! - src/refusals.rt, sentences.rt, table.rt; specs/Refusals.antt: the reasons, by numbers, by names and in sentences, what
//!   is printed of them, and what becomes one of them by `?`. specs/Named.antt: why bytes are no name, or no label.
//! - src/fractions.rt, specs/Ratio.antt, specs/Laws/RatioLaws.antt: contracts see a `Fraction` as a `Ratio`, the record of
//!   its parts; `num()` and `den()` also say that it is in lowest terms.
//! - crates/oas_bench/src/numbers.rt, bench/plain, bench/run: the same work twice. The program prints its results (which are
//!   compared), and times on standard error.
#![tactic(auto)]

mod deltas;
mod fractions;
mod integers;
mod labels;
pub mod laws;
mod names;
mod padding;
mod reals;
mod refusals;
mod sentences;
mod spelling;
mod table;
mod texts;
mod writing;
mod written;

pub use deltas::{Delta1, Delta2, Delta3, GDelta};
pub use fractions::Fraction;
pub use integers::{Signed, Unsigned, read_signed_if, read_unsigned, read_unsigned_if};
pub use labels::Label;
pub use names::Name;
pub use oas_bytes::{
    Counter, Device, Ending, History, INPUT_MAX, NotedWriter, Outlet, ReaderSource, Sink,
    SinkFault, SliceSource, Source, SourceFault, Start,
};
pub use padding::Padding;
pub use reals::Real;
pub use refusals::{Refusal, Why};
pub use sentences::{Reason, profile_reasons};
pub use spelling::{Spelled, next_byte, read_if, read_list};
pub use table::REASONS;
pub use texts::{TextClass, next_within, read_text};
pub use writing::{put_gdelta, put_signed, put_unsigned, unsigned_len};
pub use written::{Content, write_content};
