//! Where bytes come from and go to: readers below a source, writers below an outlet, and sinks.

mod outlets;
mod readers;
mod sinks;
