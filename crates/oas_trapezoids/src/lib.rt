//! Trapezoids and geometry of extensions (SEMI P39, TRAPEZOID, CTRAPEZOID and XGEOMETRY records): the corners that a
//! trapezoid draws, and the profile's records that the records of a file of the standard are translated to.
//!
//! What this crate promises to the crates above it:
//!
//! - [`trapezoid_corners`] returns the corners of a TRAPEZOID, from its box and its deltas, exactly where they enclose an
//!   area and no side crosses another. [`named_corners`] does so for each of the 26 kinds of a CTRAPEZOID, from its box.
//!   Corners are offsets from x and y in grid steps, in the box from (0, 0) to (width, height), and are listed clockwise.
//! - [`sides_of`] returns the box of a CTRAPEZOID. Some kinds give one side alone and imply the other. It fails exactly
//!   where a side that the kind needs is undefined, or where an implied side is 2^64 or more. [`Sides::agree`] says whether
//!   the sides that a record gives are those of its box.
//! - [`Resolver::resolve`] takes the records one after another, and returns which records of the profile each is translated
//!   to, or why it stops (`translated_by`, specs/Steps.antt). A trapezoid is translated to the polygon of its corners, or to a
//!   rectangle; geometry of an extension to none, but it sets the modal variables that it gives or moves.
//! - A caller that has a record of the profile may do the same in two steps, and move no record. [`Resolver::track`], or
//!   [`Resolver::track_rectangle`] for a rectangle without a repetition, sets what it sets. The record is translated to itself
//!   as long as [`Resolver::is_mixed`] is false: there was neither a trapezoid nor geometry of an extension since the CELL.
//! - The modal variables that these records share with others are tracked (`Tracked`, specs/Tracked.antt). From the first of
//!   them in a cell on, each element is returned with the values of the variables that a reader of the returned records would
//!   otherwise not have, and at an absolute position. Before it, and in a cell without any, each record is returned
//!   unchanged.
//!
//! Where the standard says nothing (own rules):
//!
//! - Two corners at the same place are one.
//! - A side of its box that a CTRAPEZOID's kind implies becomes modal as if it were given. It may also be given, but only
//!   with the implied value: otherwise `InfoByte`.
//! - A trapezoid whose sides cross, or that encloses no area, is refused with `Trapezoid`. One with a corner off the grid is
//!   refused with `CoordinateRange`, and so is one with an implied side of 2^64 or more.
//! - Geometry of an extension is refused as an element would be: with `ModalUndefined` where its layer, its datatype or the
//!   repetition that it reuses is undefined, and with `CoordinateRange` where it is off the grid.
//!
//! The caller must check whether geometry of an extension may be left out, and whether a cell is open.
//!
//! # How it is built
//!
//! - specs/Corners.antt has what two parallel sides enclose, Deltas.antt the TRAPEZOID, Named.antt the table of the 26
//!   kinds, Sides.antt their boxes. In code a kind is a TRAPEZOID whose sides lean by a side of its box (src/named.rt), or
//!   three corners of the box. For each kind a lemma says that this draws what the table says (proofs/KindLemmas.antt).
//! - The readers of the profile keep their own modal variables, which a trapezoid doesn't set as in the standard: it is
//!   returned as a polygon or a rectangle, and XGEOMETRY isn't returned at all. So the variables that these share with other
//!   elements are tracked here (`Tracked`), and from the first of them in a cell on each element gives its values itself
//!   (specs/Kept.antt). Geometry is then returned at absolute positions, between XYABSOLUTE and XYRELATIVE where the mode is
//!   relative, so that the reader's own position never matters.
//! - Up to then nothing is changed, and only lists are copied: the points of the latest polygon and listed repetitions, which
//!   a later record may use.
//! - A polygon of the file that gives no points, where none are modal, is refused here, since the reader would use those of
//!   the last trapezoid.
//! - The contract is a function of the state and the record, in the words of oas_drawing where there are any. That it draws
//!   what the standard's variables say is a law over both (specs/Laws.antt). What a record sets is defined by what it gives
//!   (`tracked_by`), so that of the kinds only rectangles and polygons are named, which share their sizes and their points
//!   with trapezoids. The proofs follow the variables in the same way (`handed_same`, proofs/DrawLemmas.antt, and `read_so`,
//!   ReadLemmas.antt).
#![tactic(auto)]

mod corners;
mod deltas;
mod extensions;
mod kept;
pub mod laws;
mod named;
mod places;
mod resolved;
mod resolver;
mod shapes;
mod sides;
mod tracking;
mod trapezoids;

pub use corners::{Corner, Corners};
pub use deltas::trapezoid_corners;
pub use named::named_corners;
pub use resolved::Resolved;
pub use resolver::Resolver;
pub use sides::{Sides, Unsided, sides_of};
