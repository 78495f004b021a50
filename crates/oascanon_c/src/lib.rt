//! The library for C, and so for each other language: canonicalising, checking, comparing, keying, listing and preparing files
//! that stand in memory. `include/oascanon.h` declares it for C, and docs/C.md is its page.
//!
//! Each export hands on what `oas_canon`, `oas_difference`, `oas_info` or `oas_prepare` promises, of the bytes that it was
//! given (specs/Buffers.antt, Reports.antt, Preparing.antt). It returns an [`Outcome`], which is `outcome_of` an [`Answer`]
//! (specs/Outcomes.antt), or `wide_outcome_of` a [`WideAnswer`] of preparing, of which C is also told a [`Preparation`]
//! (specs/WideOutcomes.antt).
//!
//! There is no state but the caller's. Memory comes from the program's `malloc`, and is given back before a call returns.
#![tactic(auto)]

mod answers;
mod bounds;
mod buffers;
mod exports;
mod filling;
mod preparing;
mod reports;
mod wide_answers;

pub use answers::{Answer, Outcome};
pub use bounds::Bounds;
pub use exports::{
    oascanon_c_canonicalize, oascanon_c_check, oascanon_c_diff, oascanon_c_info, oascanon_c_key,
    oascanon_c_keys, oascanon_c_list, oascanon_c_prepare, oascanon_c_same,
};
pub use wide_answers::{Preparation, WideAnswer};

#[cfg(test)]
mod tests;
