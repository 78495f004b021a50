//! Rings of points: their readings, and the lists that hold them.

mod known;
mod many;
mod plain;
mod points;
mod reading;
