//! Elements without a repetition that are found in bytes at hand, compared with what a reader of records returns.

mod figures;
mod named;
mod paths;
mod polygons;
mod rectangles;
mod shown;
