//! What no contract says: the names and numbers of all reasons, and the lines as they are printed.

use oas_explain::{Reason, Voice, all_reasons, print_explained, run_refused, run_unopened};
use oas_num::{NotedWriter, Refusal, Why};
use std::alloc::Global;
use std::io;
use std::io::ErrorKind;
use std::test::Fail;

/// All reasons, by their numbers.
const ALL: [Why; 34] = [
    Why::Magic,
    Why::Truncated,
    Why::IntegerRange,
    Why::StringByte,
    Why::EmptyName,
    Why::FloatReal,
    Why::RealType,
    Why::Unit,
    Why::Version,
    Why::OffsetFlag,
    Why::RecordLeftOut(7),
    Why::UnknownRecord(35),
    Why::OutOfPlace(1),
    Why::InfoByte,
    Why::ListKind,
    Why::PointCount,
    Why::RepetitionKind,
    Why::ModalUndefined,
    Why::Magnification,
    Why::Angle,
    Why::MixedNumbering,
    Why::NumberTwice,
    Why::CoordinateRange,
    Why::TooManyElements,
    Why::TooHeavy,
    Why::UnknownReference,
    Why::DuplicateCell,
    Why::EndLength,
    Why::ValidationScheme,
    Why::TrailingBytes,
    Why::InputTooLong,
    Why::Read,
    Why::Write,
    Why::Memory,
];

/// The number of a reason, and whether its name is that of the variant of this refusal, and its sentences are those of it.
fn name_of(alloc: Global, reason: &Reason<'_>, why: Why) -> Result<(u8, bool), Fail> {
    let variant = format!(in alloc; "{why:?}")?;
    let name = variant.as_str().split('(').next().unwrap_or("");
    let sentences = [why.meaning(), why.remedy()];
    let is_its = reason.name == name && sentences == [reason.meaning, reason.remedy];
    Ok((reason.number, is_its))
}

#[test]
fn names_are_those_of_the_reasons(rt: HostRuntime) -> Result<(), Fail> {
    // After those of `Why` come those of the command that prepares.
    let reasons = all_reasons();
    assert!(rt; reasons.len() == ALL.len() + 13);
    for (reason, why) in reasons.iter().zip(&ALL) {
        let found = name_of(rt.alloc(), reason, *why)?;
        assert!(rt; found == (why.number(), true), "of {}", reason.name);
    }
    Ok(())
}

/// Whether the line of a refusal comes before its explanation, whether there is one, and whether a voice that explains says
/// the same.
fn explained(alloc: Global, why: Why) -> [bool; 3] {
    let refusal = Refusal { at: 450, why };
    let (mut said, mut err): (Vec<u8>, Vec<u8>) = (Vec::new(alloc), Vec::new(alloc));
    let mut whole: Vec<u8> = Vec::new(alloc);
    let _ = run_refused(
        "a: refused 9 at 1",
        refusal,
        &mut NotedWriter::new(&mut said),
    );
    print_explained(
        &all_reasons(),
        "",
        "",
        &said,
        &mut NotedWriter::new(&mut err),
    );
    Voice::new(NotedWriter::new(&mut whole), true, false).refused("a: refused 9 at 1", refusal);
    [
        err.starts_with(&said),
        err.len().saturating_sub(said.len()) > 10,
        err == whole,
    ]
}

#[test]
fn each_refusal_is_explained(rt: HostRuntime) {
    for why in ALL {
        assert!(rt;
            explained(rt.alloc(), why) == [true; 3],
            "of {}",
            why.number()
        );
    }
}

/// Whether what was said is explained by this, with words of the system and advice.
fn is_explained_by(alloc: Global, said: &[u8], words: &str, advice: &str, wanted: &[u8]) -> bool {
    let mut err: Vec<u8> = Vec::new(alloc);
    print_explained(
        &all_reasons(),
        words,
        advice,
        said,
        &mut NotedWriter::new(&mut err),
    );
    err.as_slice() == wanted
}

#[test]
fn line_of_an_explanation(rt: HostRuntime) {
    for (said, words, advice, line) in [
        (
            "in: refused 34 at 7\n",
            " (out: full)",
            "\n  = try: this",
            "in: refused 34 at 7\n  = Memory: a request for memory was refused (out: full)\n  = Run it where there is more memory.\n  = try: this\n",
        ),
        (
            "in: refused 111 at 7+12\n",
            "",
            "",
            "in: refused 111 at 7+12\n  = ValueType: the type of a property's value is above 15\n  = The writer is at fault.\n",
        ),
        (
            "in: refused 50 at 7\n",
            "",
            "\n  = try: this",
            "in: refused 50 at 7\n",
        ),
    ] {
        assert!(rt;
            is_explained_by(rt.alloc(), said.as_bytes(), words, advice, line.as_bytes()),
            "of {said}"
        );
    }
}

/// Whether what was said is printed unchanged where explanations are requested, and where they aren't.
fn told(alloc: Global, said: &[u8]) -> [bool; 2] {
    let mut plain: Vec<u8> = Vec::new(alloc);
    Voice::new(NotedWriter::new(&mut plain), false, false).tell(said, "", "");
    [
        is_explained_by(alloc, said, "", "", said),
        plain.as_slice() == said,
    ]
}

/// The same for the line of an input that can't be opened.
fn told_of_unopened(alloc: Global) -> [bool; 2] {
    let mut unopened: Vec<u8> = Vec::new(alloc);
    let _ = run_unopened("in", &mut NotedWriter::new(&mut unopened));
    told(alloc, &unopened)
}

#[test]
fn other_lines_are_told_as_they_are(rt: HostRuntime) {
    let alloc = rt.alloc();
    let others = [
        told_of_unopened(alloc),
        told(alloc, "in: not profile 1 canonical\n".as_bytes()),
        told(alloc, b""),
    ];
    assert!(rt; others == [[true; 2]; 3]);
}

/// The status of a voice's input that can't be opened, and whether it says this.
fn unopened(alloc: Global, explains: bool, lines: &str) -> (u8, bool) {
    let error = io::Error::from(ErrorKind::NotFound);
    let mut err: Vec<u8> = Vec::new(alloc);
    let status = Voice::new(NotedWriter::new(&mut err), explains, false).unopened("in", &error);
    (status, err.as_slice() == lines.as_bytes())
}

#[test]
fn voices_of_unopened_inputs(rt: HostRuntime) {
    for (explains, lines) in [
        (false, "in: cannot be opened\n"),
        (true, "in: cannot be opened\n  = entity not found\n"),
    ] {
        assert!(rt;
            unopened(rt.alloc(), explains, lines) == (1, true),
            "of {lines}"
        );
    }
}

/// Whether a voice that shows progress removes the line of a meter, and then prints a line.
fn cleared(alloc: Global) -> [bool; 2] {
    let mut err: Vec<u8> = Vec::new(alloc);
    Voice::new(NotedWriter::new(&mut err), false, true).tell(b"in: line\n", "", "");
    [err.starts_with(b"\r   "), err.ends_with(b"   \rin: line\n")]
}

#[test]
fn voice_that_shows_progress(rt: HostRuntime) {
    assert!(rt; cleared(rt.alloc()) == [true; 2]);
}
