//! Where bytes come from, and where they go.
//!
//! What this crate promises to the crates above it:
//!
//! - A [`Source`] gives its bytes in order, at most as many as its limit, and says truly why it gives no more. What it gave
//!   and will give is a `Script` (specs/Script.antt), and a call of `next` is a `Next` between two scripts. `ahead` shows the
//!   bytes that it has at hand, and one call of `skip` consumes some of them (`Consumes`).
//! - A [`SliceSource`] reads no device and can't fail. A [`ReaderSource`] gives the bytes of a reader, however the reader
//!   cuts them (specs/Readers.antt).
//! - A [`Sink`] takes bytes. `Writes` (specs/Writing.antt) says which; where it failed, they are a prefix of what was put.
//! - A [`Device`] is what bytes are written to. Its clauses say which of them it took, and how many of its calls failed
//!   (specs/Devices.antt). [`NotedWriter`] makes one of any writer.
//! - An [`Outlet`] is a sink over a borrowed device. What the device took is a prefix of what was put; after `close` it is
//!   all of it, followed by a flush. Where the outlet failed, one call of the device did. See `IsGiven`, `ConsumesPrefix` and
//!   `IsSent` (specs/Outlets.antt), with their laws in specs/Laws/OutletLaws.antt.
//!
//! # How it is built
//!
//! - src/sources.rt, slices.rt, readers.rt: the trait and its two instances. A `Script` is plain data (given, limit,
//!   reliable, failures, rest, settled); `rest` is None where a reader's bytes are not known.
//! - src/readers.rt: the bytes `start .. end` of the window may be given, the bytes `end .. filled` are after the limit, and
//!   `before` bytes were given before the window. Once the end is found no byte waits (`WaitsOnly`), so `next` looks at it
//!   only when the window is used up. proofs/ReaderLemmas.antt: `HasNext` is the state with a byte at hand.
//! - src/starts.rt: what a source that borrows another one knows of it in its invariant (`Start`).
//! - src/sinks.rt: the trait and the counter. specs/Writing.antt: `Puts` (all was put), `PutsPrefix` (a prefix was put and
//!   the sink has failed), `Writes` (by cases on the result). `Puts.after` says: whatever was given from a state to the old
//!   one was given to the new one, followed by these bytes. So writers compose without any law of the sink: `Puts-none`,
//!   `Puts-then`, `PutsPrefix-then`, `front_fails`, `Writes-then` (proofs/WritingLemmas.antt).
//! - src/noted.rt: a call of a reader or a writer, with what it did: the bytes are in a history, which is there for clauses
//!   alone, and a call that failed is a byte of another.
//! - src/flushing.rt: all calls of a device (the loop over `write` in `send`, and `flush`), with the record of whether a
//!   flush came after the last byte. src/windows.rt: the buffered bytes, seen as a list (`impl Model`). src/outlets.rt: the
//!   outlet. After a fault its window counts as full, so `put` needs one test only, and so do `put_two` and its like; a
//!   window without room leads to the cold `put_after_spill` and `put_few`.
//! - specs/Outlets.antt names the private state once (`unsent`, `failures_of`, `Opens`); crates above use it only through
//!   OutletLaws. An outlet keeps its writer's ghost name (`same_writer`): without it the borrower would know nothing of its
//!   writer afterwards.
#![tactic(auto)]

mod devices;
mod flushing;
mod history;
mod noted;
mod outlets;
mod readers;
mod sinks;
mod slices;
mod sources;
mod starts;
mod windows;

pub use devices::Device;
pub use history::History;
pub use noted::NotedWriter;
pub use outlets::Outlet;
pub use readers::{Ending, ReaderSource};
pub use sinks::{Counter, Sink, SinkFault};
pub use slices::SliceSource;
pub use sources::{INPUT_MAX, Source, SourceFault};
pub use starts::Start;
