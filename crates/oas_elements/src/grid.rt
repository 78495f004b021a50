//! The grid, and which elements are within it.

ghost use Rattle.std.specs.Prelude.{◌≡◌, true};
ghost use Rattle.std.specs.List.{list_all};
ghost use Rattle.oas_elements.specs.Grid.{is_coordinate, reaches, is_grid_point, points_fit, fits_grid};

use crate::element::Element;
use oas_ring::Point;

/// How far coordinates go from the origin (own rule).
const GRID: u64 = 1 << 60;

impl Element {
    /// Whether all of it is within the grid (own rule): positions, points, far corners of rectangles and extensions from
    /// -2^60 to 2^60, half-widths and radii at most 2^60.
    #[inline(always)]
    pub fn fits_grid(&self) -> bool
        ensures { result ≡ fits_grid self.now }
    {
        match self {
            Element::Placement { x, y, .. } | Element::Text { x, y, .. } => is_coordinate(*x)
                && is_coordinate(*y),
            Element::Rectangle {
                width,
                height,
                x,
                y,
                ..
            } => reaches(*x, *width) && reaches(*y, *height),
            Element::Polygon { points, .. } => are_coordinates(points.as_slice()),
            Element::Path {
                half_width,
                start,
                end,
                points,
                ..
            } => {
                *half_width <= GRID
                    && is_coordinate(*start)
                    && is_coordinate(*end)
                    && are_coordinates(points.as_slice())
            }
            Element::Circle { radius, x, y, .. } => {
                *radius <= GRID && is_coordinate(*x) && is_coordinate(*y)
            }
        }
    }

    /// Whether all of it is within the grid, where its points are known to be: they aren't looked at again.
    pub fn fits_beside_points(&self) -> bool
        requires { points_fit self.now ≡ true }
        ensures { result ≡ fits_grid self.now }
    {
        match self {
            Element::Polygon { .. } => true,
            Element::Path {
                half_width,
                start,
                end,
                ..
            } => *half_width <= GRID && is_coordinate(*start) && is_coordinate(*end),
            _ => self.fits_grid(),
        }
    }
}

/// Whether a number is a coordinate.
fn is_coordinate(x: i64) -> bool
    ensures { result ≡ is_coordinate x }
{
    -(1 << 60) <= x && x <= 1 << 60
}

/// Whether a side from `x` on ends at a coordinate.
fn reaches(x: i64, side: u64) -> bool
    ensures { result ≡ reaches x side }
{
    is_coordinate(x) && side <= 2 * GRID && is_coordinate(x + side as i64)
}

/// Whether the points' parts are coordinates.
fn are_coordinates(points: &[Point]) -> bool
    ensures { result ≡ list_all is_grid_point points.now }
{
    points
        .iter()
        .all(|p| is_coordinate(p.x) && is_coordinate(p.y))
}
