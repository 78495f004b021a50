//! What no contract of the crates that read records and draw by them says, tested by their public calls alone: a read
//! succeeds where memory is there; and the results for bytes whose meaning is known from outside. The tests are in a crate
//! of their own so that those crates are proved without them.
//!
//! | file | what it tests |
//! |---|---|
//! | records | oas_record: records that are read, and how many bytes each takes |
//! | peeking | oas_peek: an element without a repetition is found where there is one |
//! | drawing | oas_drawing: copies are made where memory is there, and elements that are known from outside |
#![tactic(auto)]

#[cfg(test)]
mod drawing;
#[cfg(test)]
mod peeking;
#[cfg(test)]
mod records;
