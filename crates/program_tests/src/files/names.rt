//! Words that are names, lists of names, and names as they are printed.

use oas_request::{Input, Names, Printed, file_of_word, text_of, unescaped};
use std::alloc::{AllocError, Global};
use std::fs;
use std::test::Fail;

#[test]
fn words_that_are_names(rt: HostRuntime) {
    let meant = [file_of_word("-"), file_of_word("./-"), file_of_word("--")];
    assert!(rt; meant == [None, Some("./-"), Some("--")]);
}

/// Whether a name is printed like this, and whether it was escaped.
fn printed_as(alloc: Global, name: &str, text: &str) -> Result<[bool; 2], AllocError> {
    let printed = Printed::new(alloc, name)?;
    Ok([printed.as_str() == text, printed.is_escaped()])
}

/// Names, how each is printed, and whether it was escaped.
const PRINTED: [(&str, &str, bool); 6] = [
    ("", "", false),
    ("a b.oas", "a b.oas", false),
    ("a\\nb", "a\\nb", false),
    ("a\nb", "a\\nb", true),
    ("\r\n", "\\r\\n", true),
    ("\\\n", "\\\\\\n", true),
];

#[test]
fn names_in_one_line(rt: HostRuntime) {
    for (name, text, is_escaped) in PRINTED {
        let printed = printed_as(rt.alloc(), name, text);
        assert!(rt; printed == Ok([true, is_escaped]), "{text}");
    }
}

/// How many of the first names of a list are these, and whether there are no more.
fn count_same(names: &mut Names, expected: &[&[u8]]) -> Result<(usize, bool), Fail> {
    let mut same = 0usize;
    for name in expected {
        if names.next()? == Some(*name) {
            same = same.saturating_add(1);
        }
    }
    Ok((same, names.next()?.is_none()))
}

/// Like `count_same`, for the names in a file of these bytes.
fn count_same_in(rt: &HostRuntime, list: &[u8], expected: &[&[u8]]) -> Result<(usize, bool), Fail> {
    fs::write(rt, "list", list)?;
    let mut names = Names::new(rt.alloc(), Input::open(rt, Some("list"))?)?;
    let same = count_same(&mut names, expected)?;
    fs::remove_file(rt, "list")?;
    Ok(same)
}

/// Lists, and the names of each.
const LISTS: [(&str, &[u8], &[&[u8]]); 5] = [
    ("nothing", b"", &[]),
    ("two names", b"a\0b\0", &[b"a", b"b"]),
    (
        "a last name without its end",
        b"a\0b c\nd",
        &[b"a", b"b c\nd"],
    ),
    ("empty names", b"\0\0-\0", &[b"", b"", b"-"]),
    ("a name that is no text", b"\xff\0a\0", &[b"\xff", b"a"]),
];

#[test]
fn names_of_a_list(rt: HostRuntime) -> Result<(), Fail> {
    for (name, list, names) in LISTS {
        let same = count_same_in(&rt, list, names)?;
        assert!(rt; same == (names.len(), true), "{name}");
    }
    Ok(())
}

/// How a name of any bytes is printed, and whether a file with it can be opened.
fn opened_as(rt: &HostRuntime, name: &[u8], shown: &str) -> Result<[bool; 2], AllocError> {
    let text = text_of(rt.alloc(), name)?;
    let printed = Printed::new(rt.alloc(), text.as_str())?;
    Ok([
        printed.as_str() == shown,
        Input::open(rt, Some(text.as_str())).is_ok(),
    ])
}

#[test]
fn names_of_any_bytes(rt: HostRuntime) -> Result<(), Fail> {
    fs::write(&rt, "plain", "abc".as_bytes())?;
    let rows: [(&[u8], &str, bool); 3] = [
        (b"plain", "plain", true),
        (b"a\xff", "a\\xff", false),
        (b"\\\n\xc3", "\\\\\\x0a\\xc3", false),
    ];
    for (name, shown, opens) in rows {
        assert!(rt; opened_as(&rt, name, shown) == Ok([true, opens]), "{shown}");
    }
    Ok(fs::remove_file(&rt, "plain")?)
}

#[test]
fn names_that_were_escaped(rt: HostRuntime) -> Result<(), Fail> {
    for (name, text, is_escaped) in PRINTED {
        if is_escaped {
            let meant = unescaped(rt.alloc(), text)?;
            assert!(rt; meant.is_some_and(|meant| meant.as_str() == name), "{text}");
        }
    }
    for text in ["\\", "\\x", "a\\"] {
        assert!(rt; unescaped(rt.alloc(), text)?.is_none(), "{text}");
    }
    Ok(())
}
