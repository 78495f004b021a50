//! The worked rows, and what no contract says: readers and writers that cut, fail or never end, and out of memory.

mod answers;
mod by_name;
mod devices;
mod faults;
mod limits_table;
mod marking;
mod memory;
mod modal_table;
mod readings;
mod readings_table;
mod rekeying;
mod rows;
mod runs;
mod table;
