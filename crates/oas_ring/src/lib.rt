//! Rings of points, where neither the start nor the direction matters.
//!
//! SEMI P39 gives a polygon as a closed list of vertices, so one polygon has as many spellings as vertices to begin at, times
//! two directions. This crate treats them as one thing, a ring, and represents it by one of its readings, the least list of
//! points.
//!
//! What the crates above may rely on:
//!
//! - [`Point`] is ordered by x, then y. [`Points`], a list of points that is held, is ordered point by point, a proper prefix
//!   first. Contracts see it as that list.
//! - [`Reading`] says where a ring is read from and in which direction; [`apply`] gives the list that it reads.
//! - [`least_reading`] returns a reading whose list is a least reading of the ring (`IsLeastReadingOf`): a rotation of the
//!   list or of its reverse, with no such rotation below it. [`least_reading_over`] finds it for any [`RingView`] in at most
//!   seven comparisons a point, and sees the points only through comparisons; [`CountedRing`] is such a view of a slice.
//!   Where one point is below all others, as where no two are equal, [`least_reading`] compares only the two readings that
//!   begin there.
//! - [`same_ring`] returns true exactly where one list is a rotation of the other or of its reverse (`SameRing`), and
//!   allocates nothing.
//! - [`as_box`] returns the corners of a ring exactly where it goes round a rectangle with positive sides.
//! - [`laws`], from the definitions alone: being the same ring is an equivalence; each ring has exactly one least reading;
//!   two rings are the same exactly if their least readings are equal.
//!
//! Only [`apply`] and [`Points::try_clone`] allocate. The definitions are in `specs/`: `Points` has the order, `Rings`
//! rotations and sameness, `Readings` readings and the least of them, `Rectangles` the boxes, and the files named `..Laws`
//! their lemmas.
//!
//! # How it is built
//!
//! | src/ | What |
//! |---|---|
//! | point.rt, points.rt | a point, and a list of points that is held |
//! | readings.rt | `Reading`, where its places are in the list (`place`), `apply` |
//! | view.rt | `RingView`, and `CountedRing`, which counts |
//! | race.rt | two candidates for the least rotation, and one step of theirs (`advance`) |
//! | least.rt | the least rotation in one direction, and the least reading of both; the fast case of a point that is below
//! all others (`sole_least`, `least_from`) |
//! | sameness.rt | `same_ring` |
//! | rectangles.rt | `Corners`, `as_box` |
//! | laws.rt | the laws, from the definitions alone |
//!
//! `crates/bytes_tests` has the tests of this crate, in src/rings; plain.rt there has a plain reference that they
//! compare with.
//!
//! How the proof goes. A rotation is stated by a number (drop and take, so there is no remainder and no empty case). Where
//! rotations are composed it becomes a split of the list (`Turned`), so the equivalence needs no arithmetic on places.
//! Reading against the order is a rotation of the reversed list, so each lemma is proved for one direction. The two
//! candidates are kept in order, `best` before `rival`, with one invariant (`IsRace`): they agree in `agreed` points, and
//! each other start before the rival is beaten by some rotation. A comparison's effect is a pure function, `advance`, whose
//! clause is about all lists. It makes `best + rival + agreed` rise, which is also the loop's measure and its cost: at most
//! three a point. At the end the race is won (`race_won`): either the rival is past the list, or both candidates give one
//! list, and then a least rotation further on is also one further back (`descend`). Where one point is below all others
//! (`IsSoleLeast`), a reading that begins elsewhere begins with a greater point, so it is not below the two that begin there
//! (`begun_elsewhere`, proofs/SoleLemmas.antt). A least reading exists and is unique since the order is total and exact.
#![tactic(auto)]

pub mod laws;
mod least;
mod point;
mod points;
mod race;
mod readings;
mod rectangles;
mod sameness;
mod view;

pub use least::{least_reading, least_reading_over};
pub use point::Point;
pub use points::Points;
pub use readings::{Reading, apply};
pub use rectangles::{Corners, as_box};
pub use sameness::same_ring;
pub use view::{CountedRing, RingView};
