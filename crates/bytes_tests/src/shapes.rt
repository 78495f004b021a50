//! Point lists and repetitions, by their bytes, and where memory runs out.

mod lists;
mod memory;
mod repetitions;
mod rows;
