//! Corners, and the corners of the area between two parallel sides.
ghost use Rattle.std.specs.Prelude.{◌≡◌, length, option_map, Some, None, if◌then◌else◌};
ghost use Rattle.oas_trapezoids.specs.Corners.{corner, listed, merged, are_bases, bases, level_drawn, upright_drawn};

/// A corner, in grid steps from x and y.
#[derive(Clone, Copy, Debug, PartialEq, Eq)]
pub struct Corner {
    pub x: u64,
    pub y: u64,
}

/// The corners of what is drawn, clockwise.
#[derive(Clone, Copy, Debug, PartialEq, Eq)]
pub enum Corners {
    Triangle([Corner; 3]),
    Quadrangle([Corner; 4]),
}

impl Corners {
    /// All of them.
    pub fn as_slice(&self) -> &[Corner]
        ensures { result.now ≡ listed self.now }
    {
        match self {
            Corners::Triangle(corners) => corners,
            Corners::Quadrangle(corners) => corners,
        }
    }
}

/// A corner.
pub(crate) fn at(x: u64, y: u64) -> Corner
    ensures { result ≡ corner x y }
{
    Corner { x, y }
}

/// The corners out of four, of which two successive ones may be one.
fn merged(corners: [Corner; 4]) -> Corners
    requires { length corners ≡ 4 }
    ensures { listed result ≡ merged corners }
{
    let [a, b, c, d] = corners;
    if a == b {
        Corners::Triangle([b, c, d])
    } else if b == c {
        Corners::Triangle([a, c, d])
    } else if c == d {
        Corners::Triangle([a, b, d])
    } else if d == a {
        Corners::Triangle([a, b, c])
    } else {
        Corners::Quadrangle([a, b, c, d])
    }
}

/// How far a slanting side leans, in grid steps: by a delta above 0, or by one below 0.
#[derive(Clone, Copy)]
pub(crate) struct Lean {
    pub plus: u64,
    pub minus: u64,
}

/// The two parallel sides, with the start and end of each.
#[derive(Clone, Copy)]
struct Bases {
    near: (u64, u64),
    far: (u64, u64),
}

/// The parallel sides of a box of this length, where neither ends before it begins, and at least one has a length.
fn bases_of(along: u64, a: Lean, b: Lean) -> Option<Bases>
    ensures { result ≡ (if are_bases along a b then Some (bases along a b) else None) }
{
    let near = (a.minus, along.checked_sub(b.plus)?);
    let far = (a.plus, along.checked_sub(b.minus)?);
    let is_ordered = near.0 <= near.1 && far.0 <= far.1;
    let is_open = near.0 < near.1 || far.0 < far.1;
    (is_ordered && is_open).then_some(Bases { near, far })
}

/// What is drawn between a lower and an upper side.
pub(crate) fn level(width: u64, height: u64, a: Lean, b: Lean) -> Option<Corners>
    ensures { option_map listed result ≡ level_drawn width height a b }
{
    if height == 0 {
        return None;
    }
    let Bases { near, far } = bases_of(width, a, b)?;
    Some(merged([
        at(near.0, 0),
        at(far.0, height),
        at(far.1, height),
        at(near.1, 0),
    ]))
}

/// What is drawn between a left and a right side.
pub(crate) fn upright(width: u64, height: u64, a: Lean, b: Lean) -> Option<Corners>
    ensures { option_map listed result ≡ upright_drawn width height a b }
{
    if width == 0 {
        return None;
    }
    let Bases { near, far } = bases_of(height, a, b)?;
    Some(merged([
        at(0, far.0),
        at(0, far.1),
        at(width, near.1),
        at(width, near.0),
    ]))
}
