//! What a file of the standard may have and the profile leaves out: its grammar, and reading it. The parts of records that
//! both have are those of `oas_record`, and sources those of `oas_num`.
//!
//! What this crate promises:
//!
//! - Each read takes exactly a spelling of the value that it returns, or fails. It fails with a reason of format only where
//!   no spelling is a prefix of the bytes that come next, whatever follows. The contract is `ReadsPiece` of `oas_num`.
//! - [`WideRecord::read`] reads any record except START, including those of the profile. It returns `Ok` exactly where there
//!   is a spelling of it (`wide_record_in`, specs/WideRecords.antt). Its refusals have the record's place and a [`WideWhy`],
//!   which has names for what the profile has no reason for. A record of the profile is read as there, with integers of any
//!   number of bytes, except END, which may have a signature, and placements by reals, whose reals have any type
//!   ([`laws::records`]).
//! - Each kind of record is one tree (`Kind` of `oas_record`, in the file with the same name in specs/). From it come the
//!   spellings, the table of what goes wrong where (`took`), and that no spelling is a prefix of another ([`laws::fronts`]).
//!
//! The other reads begin after a record's id; [`WideStart`] reads its id too. They allocate only for a repetition and a
//! cell's name: other strings and lists of values are skipped, and only their length is kept.
//!
//! | Ids | What | Read |
//! |---|---|---|
//! | 1 | START, with a unit of any type | [`WideStart`] |
//! | 2 | END, with any validation | [`WideEnd`] |
//! | 7 to 10 | PROPNAME, PROPSTRING | [`read_string`] |
//! | 11, 12 | LAYERNAME | [`LayerName`] |
//! | 18 | PLACEMENT, with magnification and angle of any type | [`WidePlacement`] |
//! | 23, 24, 25 | TRAPEZOID | [`Trapezoid`] |
//! | 26 | CTRAPEZOID | [`NamedTrapezoid`] |
//! | 28 | PROPERTY | [`Property`], [`PropertyValue`] |
//! | 30, 31, 32 | XNAME, XELEMENT | [`read_attributed`] |
//! | 33 | XGEOMETRY | [`ExtensionGeometry`] |
//! | 34 | CBLOCK, what comes before its bytes | [`BlockHead`] |
//!
//! Where the standard says nothing (own rules):
//!
//! - A float is the fraction of its bits. Infinities and NaNs are refused with `FloatReal`.
//! - The bytes of a skipped string aren't checked.
//! - In a property, V = 1 requires UUUU = 0; or else, as for bits 7 to 5 of an XGEOMETRY, `InfoByte`.
//! - Of the types that the standard doesn't have, that of a value is refused with `RealType`, since the types of reals are
//!   the first of them; those of intervals and of a CTRAPEZOID with `InfoByte`. For a record these are `ValueType`,
//!   `IntervalType` and `CtrapezoidType`. The type of a CBLOCK is left to the caller.
//! - Whether a signature is that of the file, and whether a trapezoid's corners enclose an area, is left to the caller too.
//!
//! # How it is built
//!
//! - One file for each kind in src/ and one with the same name in specs/, as in oas_record: a kind is one tree (`Kind`) over
//!   the parts of that crate. Since no canonical file has any of them, a tree ends in `image_any`, which has no spelling in
//!   the shortest style.
//! - specs/Little.antt: numbers in four and eight bytes, the least significant first, for signatures and floats.
//!   specs/Reals.antt: reals of all eight types. A float's bits are a significand, doubled or halved a number of times
//!   (`float_of`, written once for both precisions), so no value is rounded, and a `WideReal` holds it in plain numbers.
//! - specs/Heads.antt and Ends.antt: START and END, with specs/Versions.antt and specs/Offsets.antt as parts. Layers and
//!   positions are read by functions of oas_record, and their trees are parts of the trees here. specs/Long.antt: numbers in
//!   any number of bytes. These are ids; the numbers before a block's bytes; those of reals, of START and of END, where
//!   writers spell the padding's length in this way to fill its 256 bytes; and the attribute of an extension.
//!   proofs/HeadLemmas.antt: START and END of the profile are among them.
//! - Strings and lists of values are skipped as `Padding` is, so a read allocates nothing for them; for a property only the
//!   number of its values is kept (`pass_values`).
//! - specs/WideRecords.antt: any record except START, by one read. What follows an id is as in the profile (`after` of
//!   oas_record, with integers of any number of bytes: read by oas_long_integers) or by a table of the other ids (`foreign`).
//!   END, with any validation, and a placement by reals, which may be floats, are in the table (specs/Placements.antt).
//!   `laws::records` says how a record of the profile is spelled among them (`widened`; proofs/WidenedLemmas.antt).
//! - specs/Reasons.antt: a reason that the profile doesn't have is found as the nearest one of the profile, and named by the
//!   id after which it was found (`named`). `plain_of` is the one that was found; a failed read is said to fail with it, so
//!   the lemmas of oas_num hold for it.
//! - The answers are those of oas_record: a line for each field, by `▸`, `fails_at`, `fails_last` and `is_read`. What follows
//!   a type is chosen by `either`; its answers rewrite the tests by what the code found (proofs/ReadingLemmas.antt).
#![tactic(auto)]

mod blocks;
mod ends;
mod extensions;
mod heads;
pub mod laws;
mod layer_names;
mod little;
mod long;
mod offsets;
mod placements;
mod properties;
mod reals;
mod reasons;
mod records;
mod strings;
mod trapezoids;
mod versions;

pub use blocks::BlockHead;
pub use ends::{Validation, WideEnd};
pub use extensions::ExtensionGeometry;
pub use heads::WideStart;
pub use layer_names::{Interval, LayerName};
pub use placements::WidePlacement;
pub use properties::{Property, PropertyName, PropertyValue};
pub use reals::WideReal;
pub use reasons::{WideRefusal, WideWhy};
pub use records::WideRecord;
pub use strings::{read_attributed, read_string};
pub use trapezoids::{NamedTrapezoid, Trapezoid};
