//! Records that are read from bytes at hand, which is faster than reading them from a source.
//!
//! What this crate promises to the crates above it:
//!
//! - [`peek_rectangle`] returns a rectangle without a repetition, where the bytes begin with one, how many bytes spell it,
//!   and whether it is spelled in the shortest style (`IsPeeked`, specs/Peeked.antt). It promises nothing where it returns
//!   none: oas_record reads every record, and says why one is refused.
//! - [`peek_named`] returns a placement by quarter turns or a text, without a repetition, in the same way and as one-sidedly
//!   (`IsPeekedNamed`, specs/Named.antt). The bytes that it returns for a cell are a name, and those for a string are one.
//! - [`peek_polygon`] returns a polygon without a repetition in the same way (`IsPeekedPolygon`, specs/Polygons.antt), and
//!   [`peek_path`] such a path (`IsPeekedPath`, specs/Paths.antt). Their point lists have any type.
//! - [`peek_figure`] returns either of these two as a record (`IsPeekedFigure`, specs/Figures.antt).
//! - [`kind_at_hand`] says which of these to try, by the first byte (`kind_at`, specs/Kinds.antt).
//!
//! Most bytes of a layout are rectangles. A source gives one byte for each call, and a `Record` has room for the largest
//! kind; a rectangle read from bytes at hand costs neither.
//!
//! # How it is built
//!
//! - src/fronts.rt: the bytes that are left, and whether all before them was in the shortest style (`Front`). A number has at
//!   most nine bytes here, so it is below 2^63. Reading one is inlined wherever it is used, so that its loop is unrolled.
//! - src/rectangles.rt: a rectangle without a repetition, field by field. One that gives all its fields, as in canonical
//!   files, is compiled apart from the others, so that no bit of its info byte is tested. Its proof is one lemma for each way
//!   in which a kind is made of parts (`pair_takes`, `none_takes`, `image_takes`, proofs/FrontLemmas.antt), over the trees of
//!   oas_record.
//!
//! - src/named.rt: a placement or a text without a repetition. The bytes of its name are borrowed, not copied. They are
//!   checked last, since only those of a name, or of a string, are returned.
//! - src/lists.rt: a point list of any type, for either use (`ListUse`). Each type has a loop of its own, as the compiler makes
//!   one of `take_steps` for each kind of delta. The shortest style has type 4 alone.
//! - src/polygons.rt, src/paths.rt: a polygon or a path without a repetition, with such a point list.
//! - src/figures.rt: either of these two as a record (`peek_figure`; `IsPeekedFigure`, specs/Figures.antt), since both are
//!   used in the same way.
//! - src/kinds.rt: which of these ways to try, by the id (`kind_at_hand`).
//!
//! oas_file, oas_judge and oas_prepare first call one of these for each record, with the bytes that a source shows
//! (`Source::ahead`), and pass what it returns to `Reader::take_rectangle`, `Reader::take_named` or `Reader::take` of
//! oas_reader. So the most frequent records cost neither a call for each byte nor the moves of a `Record`, which has room for
//! the largest kind.
#![tactic(auto)]

mod figures;
mod fronts;
mod kinds;
mod lists;
mod named;
mod paths;
mod polygons;
mod rectangles;

pub use figures::{PeekedFigure, peek_figure};
pub use kinds::{KindAtHand, kind_at_hand};
pub use named::{Given, NamedOnce, PeekedNamed, peek_named};
pub use paths::{PeekedPath, peek_path};
pub use polygons::{PeekedPolygon, peek_polygon};
pub use rectangles::{PeekedRectangle, peek_full_rectangle, peek_rectangle};
