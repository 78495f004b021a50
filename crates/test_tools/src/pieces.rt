//! Files that are written as pieces between blanks.

use std::alloc::Global;

/// Pieces that spell no bytes, or out of memory.
#[derive(Clone, Copy, Debug)]
pub struct Unspelled;

/// Some hex, and how often it is repeated; None where the count is no number.
type Part<'a> = (&'a str, Option<usize>);

/// A piece without a word.
fn counted<'a>(piece: &'a str) -> Part<'a> {
    match piece.split_once('*') {
        Some((hex, times)) => (hex, times.parse::<usize>().ok()),
        None => (piece, Some(1)),
    }
}

/// The two parts of a piece. The second may be empty.
fn parts_of<'a>(piece: &'a str) -> [Part<'a>; 2] {
    let first = match piece {
        "MAGIC" => ("2553454D492D4F415349530D0A", Some(1)),
        "START" => ("0103312E30", Some(1)),
        "OFFSETS" => ("00", Some(13)),
        "HEAD" => ("2553454D492D4F415349530D0A0103312E3000E807", Some(1)),
        "CELL" => ("0E0141", Some(1)),
        "RECT" => ("147B01000A140000", Some(1)),
        "BOX" => ("153B010004030128290001290000", Some(1)),
        "TAIL" => ("02FC01", Some(1)),
        "-" => ("", Some(1)),
        _ => counted(piece),
    };
    let second = match piece {
        "HEAD" => ("00", Some(13)),
        "TAIL" => ("00", Some(253)),
        _ => ("", Some(0)),
    };
    [first, second]
}

/// Appends a part.
fn put_part(alloc: Global, bytes: &mut Vec<u8>, (text, times): Part<'_>) -> Result<(), Unspelled> {
    let (Ok(one), Some(times)) = (hex::decode(alloc, text), times) else {
        return Err(Unspelled);
    };
    for _ in 0..times {
        if bytes.extend_from_slice(one.as_slice()).is_err() {
            return Err(Unspelled);
        }
    }
    Ok(())
}

/// Appends both parts of a piece.
fn put_piece(alloc: Global, bytes: &mut Vec<u8>, piece: &str) -> Result<(), Unspelled> {
    let [first, second] = parts_of(piece);
    put_part(alloc, bytes, first)?;
    put_part(alloc, bytes, second)
}

/// Appends the bytes of these pieces.
pub fn put_pieces(alloc: Global, bytes: &mut Vec<u8>, pieces: &str) -> Result<(), Unspelled> {
    for piece in pieces.split_whitespace() {
        put_piece(alloc, bytes, piece)?;
    }
    Ok(())
}

/// The bytes of these pieces.
pub fn bytes_of(alloc: Global, pieces: &str) -> Result<Vec<u8>, Unspelled> {
    let mut bytes = Vec::new(alloc);
    put_pieces(alloc, &mut bytes, pieces)?;
    Ok(bytes)
}
