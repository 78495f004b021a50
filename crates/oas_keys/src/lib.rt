//! An element as bytes that are ordered as the elements are. What stores, merges and compares elements need not read them
//! (own rule).
//!
//! What this crate promises to the crates above it:
//!
//! - [`put_key`] puts an element's key: a byte for its kind, and then its fields in the order in which elements are compared,
//!   each as bytes that are no prefix of another's (`key_of`, specs/Keys.antt). If out of memory it changes nothing.
//!   [`put_placement_key`], [`put_text_key`], [`put_rectangle_key`] and [`put_polygon_key`] put the same from the fields, so
//!   that a name, a string or a list of points need not be copied into an element first. A polygon's points may be read from
//!   any of them on, in either direction.
//! - [`read_key`] returns the element that a key spells, as a [`SpelledElement`]: a name or a string is those bytes of the
//!   key, and points are read one by one ([`SpelledPoints`]), or the steps between them ([`SpelledSteps`]), so nothing is allocated.
//!   It returns the one element with this key (`Spells`, specs/Reading.antt).
//! - Numbers are divided into classes, ascending (specs/Numbers.antt). A number's first byte gives its class and the highest
//!   part of its place in the class; the bytes after it give the rest, highest first. An unsigned number takes one byte below
//!   128, two below 16,512, three below 2,113,664. A signed one takes one byte up to 31 from 0, two up to 10,271, three up to
//!   2,107,423. None takes more than nine. No number begins with the byte 0.
//! - A string is its bytes and then 0. A list of points is the step to each from the one before, the first from the origin,
//!   and then 0.
//! - [`laws`] says that keys, compared byte by byte, are ordered as their elements, that elements with equal keys are equal,
//!   and that no key is a prefix of another: bytes that begin with a key have one reading.
//!
//! # How it is built
//!
//! - specs/Numbers.antt, Keys.antt: what a key is. src/classes.rt, digits.rt, numbers.rt, fields.rt, named.rt, geometry.rt,
//!   putting.rt put it. The key of each kind is put in one place, from its fields: those of placements and texts in named.rt,
//!   the others in geometry.rt. `put_key` calls these.
//! - specs/Reading.antt: what a first byte means (`least_with`, `more_with`), and which element is spelled
//!   (`spelled_element`). src/front.rt reads the number in front of bytes, cursor.rt takes it from what is left of a key,
//!   parts.rt takes strings, turns and points, reading.rt the fields of each kind. Each such function requires that its field
//!   comes first. It promises, for whatever field and rest are there, that it returns that field and leaves that rest; so
//!   calls follow one another without a law of their own. proofs/ReadingLemmas.antt (`stands`, `reads`) has the step from the
//!   classes to a number, by the induction in which `number_order` goes through them.
//! - Numbers of one to four bytes, which most are, are put and taken without a search for their class. src/starts.rt has
//!   where their classes begin, and proofs/FirstLemmas.antt proves that a search by their first byte would find the same.
//!   Points are counted without reading them: src/more.rt has a table of how many bytes come after each first byte, which
//!   proofs/MoreLemmas.antt proves to be what the classes say.
#![tactic(auto)]

mod classes;
mod cursor;
mod digits;
mod fields;
mod firsts;
mod front;
mod geometry;
pub mod laws;
mod more;
mod named;
mod numbers;
mod parts;
mod points;
mod putting;
mod reading;
mod spelled;
mod starts;

pub use geometry::{put_polygon_key, put_rectangle_key};
pub use named::{put_placement_key, put_text_key};
pub use points::{SpelledPoints, SpelledSteps};
pub use putting::put_key;
pub use reading::read_key;
pub use spelled::SpelledElement;
