//! How many places the copies of a record have, where no record gave a repetition.

use super::discard;
use oas_drawing::ModalVariables;
use std::process::Abort;

/// How many places a record without a repetition has, and one with a repetition.
fn numbers() -> [u64; 2] {
    let modal = ModalVariables::new();
    let numbers = [modal.places(false).number, modal.places(true).number];
    discard(modal);
    numbers
}

/// A record without a repetition has one place, and one that refers to a missing repetition has none.
#[test]
fn places_without_repetition(rt: HostRuntime) {
    assert!(rt; numbers() == [1, 0]);
}
