//! Files by name: inputs that can't be opened or read, and outputs that are created at their first byte.

mod names;
mod progress;

use oas_request::{Existing, Input, NewFile, Place, Replacement};
use std::alloc::Alloc;
use std::fs;
use std::fs::Files;
use std::io::{Read, Write};
use std::test::Fail;

/// What is done to an output, whether it succeeds, and the text that is then under a name.
#[derive(Clone, Copy)]
struct Step {
    action: Action,
    succeeds: bool,
    left: &'static str,
}

/// What is done to an output.
#[derive(Clone, Copy)]
enum Action {
    Nothing,
    Write(&'static str),
    Flush,
}

/// A write of no bytes.
fn nothing(left: &'static str) -> Step {
    Step {
        action: Action::Nothing,
        succeeds: true,
        left,
    }
}

/// A text that is written.
fn write(text: &'static str, left: &'static str) -> Step {
    Step {
        action: Action::Write(text),
        succeeds: true,
        left,
    }
}

/// A flush.
fn flush(left: &'static str) -> Step {
    Step {
        action: Action::Flush,
        succeeds: true,
        left,
    }
}

/// The same step where it should fail.
fn fails(step: Step) -> Step {
    Step {
        succeeds: false,
        ..step
    }
}

/// Whether this text is under the name; without a text, that there is no file.
fn stands(rt: &(impl Files + Alloc), path: &str, text: &str) -> bool {
    match fs::read_to_string(rt, path) {
        Ok(found) => found.as_str() == text,
        Err(_) => text.is_empty(),
    }
}

/// Whether the action succeeds.
fn is_done(out: &mut impl Write, action: Action) -> bool {
    match action {
        Action::Nothing => out.write(&[]).is_ok_and(|count| count == 0),
        Action::Write(text) => out.write_all(text.as_bytes()).is_ok(),
        Action::Flush => out.flush().is_ok(),
    }
}

/// Does the steps to an output, and returns the place of the first that doesn't do what it should, with whether it succeeded.
fn first_wrong(
    rt: &(impl Files + Alloc),
    out: &mut impl Write,
    path: &str,
    steps: &[Step],
) -> Option<(usize, bool)> {
    for (place, step) in steps.iter().enumerate() {
        let done = is_done(out, step.action);
        if done != step.succeeds || !stands(rt, path, step.left) {
            return Some((place, done));
        }
    }
    None
}

/// Like `first_wrong`, for the steps to a new file.
fn first_wrong_of_new(rt: &HostRuntime, steps: &[Step]) -> Option<(usize, bool)> {
    let mut file = NewFile::new(rt, "new");
    first_wrong(rt, &mut file, "new", steps)
}

#[test]
fn file_that_is_created_at_its_first_byte(rt: HostRuntime) {
    let created = [
        nothing(""),
        flush(""),
        write("abc", ""),
        write("de", ""),
        flush("abcde"),
    ];
    let replaced = [
        flush("abcde"),
        write("f", "abcde"),
        flush("f"),
        write("g", "fg"),
        flush("fg"),
    ];
    let wrong = [
        first_wrong_of_new(&rt, &created),
        first_wrong_of_new(&rt, &replaced),
    ];
    let removed = fs::remove_file(&rt, "new").is_ok();
    let found = (wrong, removed);
    assert!(rt; found == ([None; 2], true));
}

/// A replacement of the file `old`.
fn replacement<'a>(rt: &'a HostRuntime) -> Result<Replacement<'a>, Fail> {
    let place = Place::of(rt, "old")?.ok_or("a regular file has a place")?;
    Ok(Replacement::new(rt, place, Existing::Replaced)?)
}

/// Like `first_wrong`, for the steps to a new file that never takes another's place.
fn first_wrong_beside_old(rt: &HostRuntime, steps: &[Step]) -> Option<(usize, bool)> {
    let mut file = NewFile::keeping_old(rt, "kept");
    first_wrong(rt, &mut file, "kept", steps)
}

#[test]
fn file_that_keeps_the_old_one(rt: HostRuntime) -> Result<(), Fail> {
    let steps = [
        [write("abc", ""), flush("abc")],
        [fails(write("d", "abc")), flush("abc")],
    ];
    let wrong = [
        first_wrong_beside_old(&rt, &steps[0]),
        first_wrong_beside_old(&rt, &steps[1]),
    ];
    fs::remove_file(&rt, "kept")?;
    assert!(rt; wrong == [None; 2]);
    Ok(())
}

/// Like `first_wrong`, for the steps to a replacement that is flushed.
fn first_wrong_of_flushed(rt: &HostRuntime) -> Result<Option<(usize, bool)>, Fail> {
    let mut new = replacement(rt)?;
    let steps = [write("e", "abc"), flush("e")];
    Ok(first_wrong(rt, &mut new, "old", &steps))
}

/// The result of a replacement that is written, one that is flushed meanwhile, and the first one afterwards, whose own file
/// is gone: like `first_wrong` for each, and whether the first one's file is there and is removed.
fn overtaken(rt: &HostRuntime) -> Result<([Option<(usize, bool)>; 3], [bool; 2]), Fail> {
    let mut new = replacement(rt)?;
    let begun = first_wrong(rt, &mut new, "old", &[write("d", "abc")]);
    let stands = stands(rt, ".old.oascanon-0", "d");
    // Where a run left its file, the next name is taken.
    let flushed = first_wrong_of_flushed(rt)?;
    let removed = fs::remove_file(rt, ".old.oascanon-0").is_ok();
    let steps = [fails(flush("e")), fails(write("f", "e")), fails(flush("e"))];
    let later = first_wrong(rt, &mut new, "old", &steps);
    Ok(([begun, flushed, later], [stands, removed]))
}

#[test]
fn replacement_that_is_never_flushed(rt: HostRuntime) -> Result<(), Fail> {
    fs::write(&rt, "old", "abc".as_bytes())?;
    let (wrong, stands) = overtaken(&rt)?;
    fs::remove_file(&rt, "old")?;
    let found = (wrong, stands);
    assert!(rt; found == ([None; 3], [true; 2]));
    Ok(())
}

/// Whether a name has a place for a regular file, nothing where that can't be known, and whether a file is there.
fn place_of(rt: &HostRuntime, name: &str) -> Option<(bool, bool)> {
    let place = Place::of(rt, name).ok()?;
    match place {
        Some(place) => Some((true, place.standing.is_some())),
        None => Some((false, false)),
    }
}

#[test]
fn places_of_names(rt: HostRuntime) -> Result<(), Fail> {
    fs::write(&rt, "there", "abc".as_bytes())?;
    for (name, place) in [
        ("there", Some((true, true))),
        ("none", Some((true, false))),
        ("nowhere/none", Some((true, false))),
        (".", Some((false, false))),
        ("none/", Some((false, false))),
        ("/dev/null", Some((false, false))),
        ("there/none", None),
    ] {
        assert!(rt; place_of(&rt, name) == place, "{name}");
    }
    Ok(fs::remove_file(&rt, "there")?)
}

/// Whether nothing is written, a text fails, and a flush succeeds, where the file cannot be created.
fn uncreated(rt: &HostRuntime) -> [bool; 3] {
    let mut file = NewFile::new(rt, "nowhere/new");
    let nothing = file.write(&[]).is_ok_and(|count| count == 0);
    let refused = file.write("abc".as_bytes()).is_err();
    [nothing, refused, file.flush().is_ok()]
}

#[test]
fn file_that_cannot_be_created(rt: HostRuntime) {
    let found = uncreated(&rt);
    assert!(rt; found == [true; 3]);
}

/// Whether an input can be read, and is this text.
fn is_text(rt: &HostRuntime, input: &mut Input, text: &str) -> bool {
    let mut found = Vec::new(rt.alloc());
    let read = input.read_to_end(&mut found).is_ok();
    read && found.as_slice() == text.as_bytes()
}

/// Whether the input with this name can be read, and is this text; nothing where it can't be opened.
fn reads_as(rt: &HostRuntime, path: &str, text: &str) -> Option<bool> {
    let mut input = Input::open(rt, Some(path)).ok()?;
    Some(is_text(rt, &mut input, text))
}

#[test]
fn inputs(rt: HostRuntime) -> Result<(), Fail> {
    fs::write(&rt, "in", "abc".as_bytes())?;
    let missing = [reads_as(&rt, "missing", ""), reads_as(&rt, "-", "")];
    let directory = reads_as(&rt, "/", "");
    let file = reads_as(&rt, "in", "abc");
    fs::remove_file(&rt, "in")?;
    let found = (missing, directory, file);
    assert!(rt; found == ([None; 2], Some(false), Some(true)));
    Ok(())
}
