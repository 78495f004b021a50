//! What no contract says: what command lines request.

mod options;
mod words;
