//! Which reason a line names.

ghost use Rattle.std.specs.Prelude.{◌≡◌, ℕ, ◌<◌, ◌^◌, List, [], Some, None};
ghost use Rattle.oas_num.specs.declared.refusals.Why.{Why};
ghost use Rattle.oas_num.specs.Refusals.{number_of};
ghost use Rattle.oas_command.specs.Lines.{refusal_line, not_profile_1_line};
ghost use Rattle.oas_command.specs.Unopened.{unopened_line};
ghost use Rattle.oas_explain.specs.Hearing.{anew, hears, heard};

/// A place in a line that may end with ` N at OFFSET`.
#[derive(Clone, Copy)]
enum Place {
    Elsewhere,
    /// After a space.
    Blank,
    /// Within a number after a space.
    Number(u8),
    /// After that number and a space.
    Behind(u8),
    /// After ` N a`.
    BehindA(u8),
    /// After ` N at`.
    BehindAt(u8),
    /// Within the digits of an offset, or of one in a block, `P+Q`.
    Offset(u8),
    /// After the line's end.
    Ended(u8),
}

/// The number of the reason that the line of a refusal names. Another line names none.
pub(crate) fn number_recognized(line: &[u8]) -> Option<u8>
    ensures refused { (name : List ℕ) → (why : Why) → (at : ℕ) → at < 2 ^ 64
        → line.now ≡ refusal_line name (number_of why) at → result ≡ Some (number_of why) }
    ensures unopened { (name : List ℕ) → line.now ≡ unopened_line name → result ≡ None }
    ensures not_profile_1 { (name : List ℕ) → line.now ≡ not_profile_1_line name → result ≡ None }
    ensures nothing { line.now ≡ [] → result ≡ None }
{
    let mut place = Place::Elsewhere;
    for byte in line {
        place = hear(place, *byte);
    }
    number_named(place)
}

/// The number of a line that ended at this place.
fn number_named(place: Place) -> Option<u8>
    ensures { result ≡ heard place }
{
    match place {
        Place::Ended(number) => Some(number),
        _ => None,
    }
}

/// The place after one more byte.
fn hear(place: Place, byte: u8) -> Place
    ensures { result ≡ hears place byte }
{
    match place {
        Place::Blank if byte.is_ascii_digit() => Place::Number(byte - b'0'),
        Place::Number(n) if byte.is_ascii_digit() => {
            Place::Number(n.saturating_mul(10).saturating_add(byte - b'0'))
        }
        Place::Number(n) if byte == b' ' => Place::Behind(n),
        Place::Behind(n) if byte == b'a' => Place::BehindA(n),
        Place::Behind(_) if byte.is_ascii_digit() => Place::Number(byte - b'0'),
        Place::BehindA(n) if byte == b't' => Place::BehindAt(n),
        Place::BehindAt(n) if byte == b' ' => Place::Offset(n),
        Place::Offset(n) if byte.is_ascii_digit() || byte == b'+' => Place::Offset(n),
        Place::Offset(n) if byte == b'\n' => Place::Ended(n),
        _ => begin(byte),
    }
}

/// The place after a byte with which a number may begin anew.
fn begin(byte: u8) -> Place
    ensures { result ≡ anew byte }
{
    if byte == b' ' {
        Place::Blank
    } else {
        Place::Elsewhere
    }
}
