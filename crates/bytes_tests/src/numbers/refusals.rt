//! Refusals as they are printed, and what refuses names and labels.

use oas_num::{Label, Name, Refusal, Why};
use std::alloc::{AllocError, Global};

/// What is printed of a refusal, and of its reason alone.
fn printed(alloc: Global, refusal: Refusal) -> Result<[String; 2], AllocError> {
    let why = refusal.why;
    Ok([format!(in alloc; "{refusal}")?, format!(in alloc; "{why}")?])
}

/// Whether these lines are printed of a refusal and its reason.
fn is_printed(alloc: Global, refusal: Refusal, lines: [&str; 2]) -> bool {
    match printed(alloc, refusal) {
        Ok([whole, why]) => whole.as_str() == lines[0] && why.as_str() == lines[1],
        Err(AllocError) => false,
    }
}

#[test]
fn refusals_in_a_line(rt: HostRuntime) {
    let out_of_place = Refusal {
        at: 42,
        why: Why::OutOfPlace(20),
    };
    let no_memory = Refusal::from(AllocError);
    let found = [
        is_printed(
            rt.alloc(),
            out_of_place,
            ["refused 13 at 42: OutOfPlace", "OutOfPlace"],
        ),
        is_printed(rt.alloc(), no_memory, ["refused 34 at 0: Memory", "Memory"]),
    ];
    assert!(rt; found == [true; 2]);
}

#[test]
fn reasons_in_words(rt: HostRuntime) {
    let why = Why::EmptyName;
    let words = [why.name(), why.meaning(), why.remedy()];
    assert!(rt; words == ["EmptyName", "a cell name has length 0", "Name the cell."]);
}

/// Whether the bytes are made a name and a label of just these bytes, or why not.
fn made(alloc: Global, bytes: &[u8]) -> [Result<bool, Why>; 2] {
    [
        Name::new(alloc, bytes).map(|name| name.as_bytes() == bytes),
        Label::new(alloc, bytes).map(|label| label.as_bytes() == bytes),
    ]
}

#[test]
fn names_and_labels_of_bytes(rt: HostRuntime) {
    let byte = Err(Why::StringByte);
    for (bytes, found) in [
        (b"TOP".as_slice(), [Ok(true), Ok(true)]),
        (b"!~", [Ok(true), Ok(true)]),
        (b"", [Err(Why::EmptyName), Ok(true)]),
        (b"A B", [byte, Ok(true)]),
        (b"A\x7F", [byte, byte]),
        (b"\x1FA", [byte, byte]),
    ] {
        assert!(rt; made(rt.alloc(), bytes) == found, "of {:?}", bytes);
    }
}
