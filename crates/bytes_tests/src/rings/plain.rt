//! The least reading by trying all of them: the reference that tests compare with.

ghost use Rattle.std.specs.Prelude.{◌≤◌, length};

use oas_ring::Point;
use std::alloc::{AllocError, Global};

/// The points from `start` on, and then those before it.
fn rotation(alloc: Global, points: &[Point], start: usize) -> Result<Vec<Point>, AllocError>
    requires { start ≤ length points.now }
{
    let mut turned = points[start..].to_vec(alloc)?;
    turned.extend_from_slice(&points[..start])?;
    Ok(turned)
}

/// The least of `best` and the rotations of the list.
fn least_rotation(
    alloc: Global,
    points: &[Point],
    best: Vec<Point>,
) -> Result<Vec<Point>, AllocError> {
    let mut least = best;
    for start in 0..points.len() {
        let turned = rotation(alloc, points, start)?;
        if turned < least {
            least = turned;
        }
    }
    Ok(least)
}

/// The least reading of the ring.
pub(crate) fn plain_least(alloc: Global, points: &[Point]) -> Result<Vec<Point>, AllocError> {
    let forwards = least_rotation(alloc, points, points.to_vec(alloc)?)?;
    let mut reversed = points.to_vec(alloc)?;
    reversed.reverse();
    least_rotation(alloc, &reversed, forwards)
}
