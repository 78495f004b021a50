//! The fields of a key that are no number alone, read from its front.

ghost use Rattle.std.specs.Prelude.{◌≡◌, ◌<◌, ◌+◌, ◌*◌, ◌++◌, ◌^◌, ◌≤◌, true, Bool, ℕ, ℤ, List, length, take, IfSome, IsTrue};
ghost use Rattle.oas_ring.specs.declared.point.Point.{Point as OnePoint};
ghost use Rattle.oas_elements.specs.declared.element.Turns.{Turns as SomeTurns};
ghost use Rattle.oas_elements.specs.Element.{turn_count};
ghost use Rattle.oas_elements.specs.Grid.{is_grid_point};
ghost use Rattle.oas_keys.specs.Numbers.{unsigned_key, signed_key, IsStep};
ghost use Rattle.oas_keys.specs.Keys.{text_key, turned_key, points_key, flip_count};
ghost use Rattle.oas_keys.specs.Laws.FieldLaws.{NoZero, AreWithin};
ghost use Rattle.oas_keys.specs.Reading.{text_len, NextStep, NextPoint};

use crate::cursor::Cursor;
use oas_elements::Turns;
use oas_ring::Point;

/// Turns, and the flip before them.
#[derive(Clone, Copy)]
pub(crate) struct Turned {
    pub(crate) turns: Turns,
    pub(crate) flip: bool,
}

/// So many bytes are looked at in one step.
const STEP: usize = 16;

/// Whether none of the bytes is 0. With no early return they are looked at in one step.
#[inline(always)]
fn has_no_zero(bytes: &[u8]) -> bool
    ensures { IsTrue result → NoZero bytes.now }
{
    let mut none = true;
    for byte in bytes {
        none &= *byte != 0;
    }
    none
}

/// How many bytes come before the first step that has a 0, or that isn't whole.
fn steps_len(bytes: &[u8]) -> usize
    ensures fits { result ≤ length bytes.now }
    ensures none { NoZero (take result bytes.now) }
{
    let mut len = 0;
    while bytes.len() - len >= STEP && has_no_zero(&bytes[len..len + STEP]) {
        len += STEP;
    }
    len
}

/// How many bytes come before the first 0, looked at one by one.
fn first_zero(bytes: &[u8]) -> usize
    ensures len { result ≡ text_len bytes.now }
{
    let mut len = 0;
    for byte in bytes {
        if *byte == 0 {
            return len;
        }
        len += 1;
    }
    len
}

/// How many bytes come before the first 0.
fn text_len(bytes: &[u8]) -> usize
    ensures len { result ≡ text_len bytes.now }
{
    let whole = steps_len(bytes);
    whole + first_zero(&bytes[whole..])
}

/// The turns of a byte.
fn turns_of(byte: u8) -> Turns
    ensures { (turns : SomeTurns) (flip : Bool) → byte ≡ 1 + (turn_count turns * 2 + flip_count flip) → result ≡ turns }
{
    if byte < 3 {
        return Turns::T0;
    }
    if byte < 5 {
        return Turns::T1;
    }
    if byte < 7 {
        return Turns::T2;
    }
    Turns::T3
}

/// The flip of a byte.
fn flip_of(byte: u8) -> bool
    ensures { (turns : SomeTurns) (flip : Bool) → byte ≡ 1 + (turn_count turns * 2 + flip_count flip) → result ≡ flip }
{
    byte % 2 == 0
}

impl<'a> Cursor<'a> {
    /// Takes a string and its end.
    pub(crate) fn text(&mut self) -> &'a [u8]
        requires { (bytes : List ℕ) × (rest : List ℕ) × NoZero bytes × (self.old ≡ text_key bytes ++ rest) }
        ensures { (bytes rest : List ℕ) → NoZero bytes → self.old ≡ text_key bytes ++ rest → (result.now ≡ bytes) × (self.new ≡ rest) }
    {
        let len = text_len(self.left());
        let text = self.part(len);
        let _end = self.byte();
        text
    }

    /// Takes turns and flip.
    pub(crate) fn turned(&mut self) -> Turned
        requires { (turns : SomeTurns) × (flip : Bool) × (rest : List ℕ) × (self.old ≡ turned_key turns flip ++ rest) }
        ensures { (turns : SomeTurns) (flip : Bool) (rest : List ℕ) → self.old ≡ turned_key turns flip ++ rest → (result.turns ≡ turns) × (result.flip ≡ flip) × (self.new ≡ rest) }
    {
        let byte = self.byte();
        Turned {
            turns: turns_of(byte),
            flip: flip_of(byte),
        }
    }

    /// Takes two unsigned numbers.
    #[inline(always)]
    pub(crate) fn unsigned_pair(&mut self) -> (u64, u64)
        requires { (a : ℕ) × (b : ℕ) × (rest : List ℕ) × (a < 2 ^ 64) × (b < 2 ^ 64) × (self.old ≡ unsigned_key a ++ (unsigned_key b ++ rest)) }
        ensures { (a b : ℕ) (rest : List ℕ) → a < 2 ^ 64 → b < 2 ^ 64 → self.old ≡ unsigned_key a ++ (unsigned_key b ++ rest) →
            (result.0 ≡ a) × (result.1 ≡ b) × (self.new ≡ rest) }
    {
        let first = self.unsigned();
        let second = self.unsigned();
        (first, second)
    }

    /// Takes two signed numbers.
    #[inline(always)]
    pub(crate) fn signed_pair(&mut self) -> (i64, i64)
        requires { (x : ℤ) × (y : ℤ) × (rest : List ℕ) × IsStep x × IsStep y × (self.old ≡ signed_key x ++ (signed_key y ++ rest)) }
        ensures { (x y : ℤ) (rest : List ℕ) → IsStep x → IsStep y → self.old ≡ signed_key x ++ (signed_key y ++ rest) →
            (result.0 ≡ x) × (result.1 ≡ y) × (self.new ≡ rest) }
    {
        let first = self.signed();
        let second = self.signed();
        (first, second)
    }

    /// Takes the step to the next point. The end of the list is left.
    #[inline(always)]
    pub(crate) fn next_step(&mut self) -> Option<(i64, i64)>
        requires { (before : OnePoint) × (ps : List OnePoint) × (rest : List ℕ) × (is_grid_point before ≡ true) × AreWithin ps × (self.old ≡ points_key before ps ++ rest) }
        ensures next { (before : OnePoint) (ps : List OnePoint) (rest : List ℕ) → is_grid_point before ≡ true → AreWithin ps → self.old ≡ points_key before ps ++ rest →
            NextStep result before ps rest self.new }
        ensures shorter { IfSome result (λ step. length self.new < length self.old) }
    {
        if self.left()[0] == 0 {
            return None;
        }
        Some(self.signed_pair())
    }

    /// Takes the step to the next point, and returns that point. The end of the list is left.
    #[inline(always)]
    pub(crate) fn next_point(&mut self, before: Point) -> Option<Point>
        requires from { is_grid_point before ≡ true }
        requires stands { (ps : List OnePoint) × (rest : List ℕ) × AreWithin ps × (self.old ≡ points_key before ps ++ rest) }
        ensures next { (ps : List OnePoint) (rest : List ℕ) → AreWithin ps → self.old ≡ points_key before ps ++ rest → NextPoint result ps rest self.new }
        ensures shorter { IfSome result (λ p. length self.new < length self.old) }
    {
        let step = self.next_step()?;
        Some(Point {
            x: before.x + step.0,
            y: before.y + step.1,
        })
    }
}
