//! The points that a key spells, read one by one, and the steps between them.

ghost use Rattle.std.specs.Prelude.{◌≡◌, ◌<◌, ◌++◌, ℕ, ℤ, List, length, true, IfSome};
ghost use Rattle.oas_ring.specs.declared.point.Point.{Point as OnePoint};
ghost use Rattle.oas_ring.specs.Points.{origin};
ghost use Rattle.oas_elements.specs.Grid.{is_grid_point};
ghost use Rattle.oas_keys.specs.Numbers.{signed_key, IsStep};
ghost use Rattle.oas_keys.specs.Keys.{points_key};
ghost use Rattle.oas_keys.specs.Laws.FieldLaws.{AreWithin};
ghost use Rattle.oas_keys.specs.Reading.{HasPoints, YieldsPoint};
ghost use Rattle.oas_keys.specs.Steps.{HasSteps, YieldsStep, BeginsSteps};

use crate::cursor::Cursor;
use crate::more::more_behind;
use oas_ring::Point;

/// The bytes behind the signed number in front, which isn't read: its first byte says how many follow.
fn behind_signed(bytes: &[u8]) -> &[u8]
    requires { (x : ℤ) × (rest : List ℕ) × IsStep x × (bytes.now ≡ signed_key x ++ rest) }
    ensures { (x : ℤ) (rest : List ℕ) → IsStep x → bytes.now ≡ signed_key x ++ rest → result.now ≡ rest }
{
    &bytes[1 + more_behind(bytes[0])..]
}

/// How many points are in front, none of which is read.
fn points_in_front(bytes: &[u8]) -> usize
    requires { (before : OnePoint) × (ps : List OnePoint) × (rest : List ℕ) × (is_grid_point before ≡ true) × AreWithin ps × (bytes.now ≡ points_key before ps ++ rest) }
    ensures { (before : OnePoint) (ps : List OnePoint) (rest : List ℕ) → is_grid_point before ≡ true → AreWithin ps → bytes.now ≡ points_key before ps ++ rest → result ≡ length ps }
{
    let mut left = bytes;
    let mut count = 0;
    while left[0] != 0 {
        left = behind_signed(behind_signed(left));
        count += 1;
    }
    count
}

/// The points of a polygon or a path that are still to be read from its key. They need no memory.
#[derive(Debug, Drop)]
pub struct SpelledPoints<'a> {
    left: Cursor<'a>,
    /// The point before the first of them.
    before: Point,
}

/// The steps to the points of a polygon or a path that are still to be read from its key, each from the point before. They
/// need no memory.
#[derive(Debug, Drop)]
pub struct SpelledSteps<'a> {
    left: Cursor<'a>,
}

impl<'a> SpelledPoints<'a> {
    /// All points of a key, where their list and its end are left.
    pub(crate) fn of(left: Cursor<'a>) -> SpelledPoints<'a>
        ensures left { result.left ≡ left.entry }
        ensures before { result.before ≡ origin }
    {
        SpelledPoints {
            left,
            before: Point { x: 0, y: 0 },
        }
    }

    /// Takes the next point, where one is left. It is inlined in the loops that call it, so that what is left need not be
    /// kept in memory between two points.
    #[inline(always)]
    pub fn next(&mut self) -> Option<Point>
        requires { (ps : List OnePoint) × HasPoints self.old ps }
        ensures next { (ps : List OnePoint) → HasPoints self.old ps → YieldsPoint result ps self.new }
        ensures shorter { IfSome result (λ p. length self.new.left < length self.old.left) }
    {
        let point = self.left.next_point(self.before)?;
        self.before = point;
        Some(point)
    }

    /// How many points are left.
    pub fn count(&self) -> usize
        requires { (ps : List OnePoint) × HasPoints self.now ps }
        ensures { (ps : List OnePoint) → HasPoints self.now ps → result ≡ length ps }
    {
        points_in_front(self.left.left())
    }

    /// Takes the next point, where one is left, and returns it with the steps to those after it.
    pub fn first_and_steps(self) -> Option<(Point, SpelledSteps<'a>)>
        requires { (ps : List OnePoint) × HasPoints self ps }
        ensures { (ps : List OnePoint) → HasPoints self.entry ps → BeginsSteps result ps }
    {
        let mut left = self.left;
        let first = left.next_point(self.before)?;
        Some((first, SpelledSteps { left }))
    }
}

impl<'a> SpelledSteps<'a> {
    /// Takes the next step, where one is left: how far its end is from its start across and up, in grid steps. It is inlined
    /// in the loops that call it, as [`SpelledPoints::next`] is.
    #[inline(always)]
    pub fn next(&mut self) -> Option<(i64, i64)>
        requires { (before : OnePoint) × (ps : List OnePoint) × HasSteps self.old before ps }
        ensures next { (before : OnePoint) (ps : List OnePoint) → HasSteps self.old before ps → YieldsStep result before ps self.new }
        ensures shorter { IfSome result (λ step. length self.new.left < length self.old.left) }
    {
        self.left.next_step()
    }

    /// How many steps are left.
    pub fn count(&self) -> usize
        requires { (before : OnePoint) × (ps : List OnePoint) × HasSteps self.now before ps }
        ensures { (before : OnePoint) (ps : List OnePoint) → HasSteps self.now before ps → result ≡ length ps }
    {
        points_in_front(self.left.left())
    }
}
