//! Numbers and texts: what their bytes give, the bytes that are put for them, and refusals as they are printed.

mod deltas;
mod fractions;
mod reading;
mod refusals;
mod writing;
