//! The progress of long work: on a terminal in one line that is overwritten, elsewhere in whole lines.

mod meter;
mod reading;
mod writing;

pub use meter::{Meter, STEP, Style, clear};
pub use reading::Reading;
pub use writing::Writing;
