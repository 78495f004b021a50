//! What no contract says of the texts about layouts: they come from outside or were written by hand; and writers that fail.

mod differences;
mod facts;
mod info;
mod listings;
mod markers;
mod parts;
