//! Integers, reals and texts, by their bytes.

use oas_num::{
    Label, Name, Padding, ReaderSource, Real, Signed, SliceSource, Source, Spelled, TextClass,
    Unsigned, Why, next_within, read_if, read_list, read_signed_if, read_text, read_unsigned_if,
};
use std::alloc::Global;

#[test]
fn integers(rt: HostRuntime) {
    let mut source = SliceSource::new(&[0x8A, 0, 7, 1], 10);
    let ten = Unsigned::read(rt.alloc(), &mut source);
    let at = source.at();
    let signed = [
        Signed::read(rt.alloc(), &mut source),
        Signed::read(rt.alloc(), &mut source),
    ];
    let cut = Unsigned::read(rt.alloc(), &mut source);
    let numbers = (ten, at, signed);
    let found = (numbers, cut, source.next());
    assert!(rt;
        found
            == (
                (Ok(Unsigned(10)), 2, [Ok(Signed(-3)), Ok(Signed(0))]),
                Err(Why::Truncated),
                Ok(None),
            )
    );
}

/// The largest number.
const MAX: [u8; 10] = [255, 255, 255, 255, 255, 255, 255, 255, 255, 1];

/// A number that is too large.
const PAST: [u8; 10] = [255, 255, 255, 255, 255, 255, 255, 255, 255, 2];

#[test]
fn large_integers(rt: HostRuntime) {
    for (bytes, limit, number) in [
        (MAX, 10, Ok(Unsigned(u64::MAX))),
        (PAST, 10, Err(Why::IntegerRange)),
        (PAST, 9, Err(Why::InputTooLong)),
    ] {
        let mut source = SliceSource::new(&bytes, limit);
        let read = Unsigned::read(rt.alloc(), &mut source);
        let found = (read, source.at());
        assert!(rt; found == (number, limit));
    }
}

#[test]
fn reals(rt: HostRuntime) {
    let minus = Real {
        negative: true,
        num: 7,
        den: 2,
    };
    let zero_part = Real {
        negative: false,
        num: 1,
        den: 0,
    };
    let mut source = SliceSource::new(&[5, 7, 2, 2, 0, 6], 10);
    let reals = [
        Real::read(rt.alloc(), &mut source),
        Real::read(rt.alloc(), &mut source),
        Real::read(rt.alloc(), &mut source),
    ];
    assert!(rt; reals == [Ok(minus), Ok(zero_part), Err(Why::FloatReal)]);
}

#[test]
fn reals_of_no_type(rt: HostRuntime) {
    let mut source = SliceSource::new(&[8, 0], 10);
    let real = Real::read(rt.alloc(), &mut source);
    let found = (real, source.at());
    assert!(rt; found == (Err(Why::RealType), 1));
}

/// Whether the next text is this name, and a copy is equal to it.
fn is_name<S: Source>(alloc: Global, source: &mut S, bytes: &[u8]) -> Result<[bool; 2], Why> {
    let name = Name::read(alloc, source)?;
    let copy = name.try_clone(alloc);
    Ok([name.as_bytes() == bytes, copy == Ok(name)])
}

/// Whether the next text is this label, and a copy is equal to it.
fn is_label<S: Source>(alloc: Global, source: &mut S, bytes: &[u8]) -> Result<[bool; 2], Why> {
    let label = Label::read(alloc, source)?;
    let copy = label.try_clone(alloc);
    Ok([label.as_bytes() == bytes, copy == Ok(label)])
}

#[test]
fn texts(rt: HostRuntime) {
    let mut source = SliceSource::new(&[2, 72, 105, 2, 32, 33, 0, 3, 0, 255, 13, 1, 32, 0], 100);
    let given = [
        is_name(rt.alloc(), &mut source, b"Hi"),
        is_label(rt.alloc(), &mut source, b" !"),
        is_label(rt.alloc(), &mut source, b""),
    ];
    let padding = Padding::read(rt.alloc(), &mut source);
    let at = source.at();
    let refused = [
        is_name(rt.alloc(), &mut source, b" "),
        is_name(rt.alloc(), &mut source, b""),
    ];
    let texts = (given, padding, at, refused);
    assert!(rt;
        texts
            == (
                [Ok([true; 2]); 3],
                Ok(Padding { length: 3 }),
                11,
                [Err(Why::StringByte), Err(Why::EmptyName)],
            )
    );
}

#[test]
fn refusals_have_numbers(rt: HostRuntime) {
    let found = Why::EmptyName.number();
    assert!(rt; found == 5);
}

/// Whether the next bytes are this text.
fn is_text<S: Source>(alloc: Global, source: &mut S, bytes: &[u8]) -> Result<bool, Why> {
    let text = read_text(alloc, TextClass::Name, bytes.len() as u64, source)?;
    Ok(text.as_slice() == bytes)
}

#[test]
fn classes(rt: HostRuntime) {
    let mut source = SliceSource::new(&[32, 33, 126, 32, 127], 10);
    let space = next_within(TextClass::Label, &mut source);
    let text = is_text(rt.alloc(), &mut source, &[33, 126]);
    let refused = [
        next_within(TextClass::Name, &mut source),
        next_within(TextClass::Label, &mut source),
    ];
    let read = (space, text, refused, source.at());
    assert!(rt; read == (Ok(32), Ok(true), [Err(Why::StringByte); 2], 5));
}

/// Whether a reader's bytes are this name and a copy equal to it, and how many were read.
fn name_by_reader(alloc: Global, bytes: &[u8], name: &[u8]) -> Option<([bool; 2], u64)> {
    let mut source = ReaderSource::new(alloc, bytes, 100).ok()?;
    let is_name = is_name(alloc, &mut source, name).ok()?;
    Some((is_name, source.at()))
}

#[test]
fn readers(rt: HostRuntime) {
    let name = name_by_reader(rt.alloc(), &[3, 72, 105, 33, 3], b"Hi!");
    assert!(rt; name == Some(([true; 2], 4)));
}

/// Whether the next two pairs are these.
fn are_pairs<S: Source>(
    alloc: Global,
    source: &mut S,
    pairs: &[(Unsigned, Signed)],
) -> Result<bool, Why> {
    let list = read_list::<(Unsigned, Signed), _>(alloc, 1, source)?;
    Ok(list.as_slice() == pairs)
}

#[test]
fn lists(rt: HostRuntime) {
    let mut source = SliceSource::new(&[5, 6, 7, 8, 9], 100);
    let pairs = [(Unsigned(5), Signed(3)), (Unsigned(7), Signed(4))];
    let are_pairs = are_pairs(rt.alloc(), &mut source, &pairs);
    let cut = read_list::<Unsigned, _>(rt.alloc(), u64::MAX, &mut source).err();
    let found = (are_pairs, cut);
    assert!(rt; found == (Ok(true), Some(Why::Truncated)));
}

/// Whether no name is read where there is none.
fn is_none<S: Source>(alloc: Global, source: &mut S) -> Result<bool, Why> {
    Ok(read_if::<Name, _>(alloc, false, source)?.is_none())
}

#[test]
fn what_may_be_there(rt: HostRuntime) {
    let mut source = SliceSource::new(&[5], 100);
    let none = read_unsigned_if(false, &mut source);
    let number = read_signed_if(true, &mut source);
    let no_name = is_none(rt.alloc(), &mut source);
    let found = (none, number, no_name);
    assert!(rt; found == (Ok(None), Ok(Some(-2)), Ok(true)));
}
