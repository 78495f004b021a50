//! What no contract of the crates that the programs are made of says, tested by their public calls alone. The tests are in a
//! crate of their own so that those crates are proved without them.
//!
//! | file | what it tests |
//! |---|---|
//! | commands | oas_command: the worked rows; readers and writers that cut, fail or never end; and out of memory |
//! | explaining | oas_explain: reasons in words, and the lines as they are printed |
//! | files | oas_files: files by name, names that are printed, and what a meter shows |
//! | requests | oas_request, oas_diff_options: what command lines request |
#![tactic(auto)]

#[cfg(test)]
mod commands;
#[cfg(test)]
mod explaining;
#[cfg(test)]
mod files;
#[cfg(test)]
mod requests;
