//! What no contract of the crates that judge, write and report says, tested by their public calls alone: they succeed where
//! memory is there; bytes, texts and results that are known from outside; and failing devices and allocations. The tests are
//! in a crate of their own so that those crates are proved without them. Rows of whole files are in program_tests and
//! tests/rows.
//!
//! | file | what it tests |
//! |---|---|
//! | following.rt, judging.rt | oas_form: the judge of records |
//! | files | oas_file, oas_judge: files that are canonical, and files that differ from one in one thing |
//! | writing.rt | oas_writing: layouts whose bytes are known |
//! | reading.rt, calls | oas_canon: small files, and where memory runs out |
//! | reports | oas_listing, oas_difference and those below it, oas_markers, oas_info: texts, and writers that fail |
//! | elements.rt, narrow.rt | what several of them use: elements by plain values, and a writer that fails |
#![tactic(auto)]

#[cfg(test)]
mod calls;
#[cfg(test)]
mod elements;
#[cfg(test)]
mod files;
#[cfg(test)]
mod following;
#[cfg(test)]
mod judging;
#[cfg(test)]
mod narrow;
#[cfg(test)]
mod reading;
#[cfg(test)]
mod reports;
#[cfg(test)]
mod writing;
