//! The keys of rectangles, polygons, paths and circles, put from their fields.

ghost use Rattle.std.specs.Prelude.{◌≡◌, ◌<◌, ◌++◌, true, length, OnOk, OnErr};
ghost use Rattle.oas_ring.specs.Readings.{reading_of};
ghost use Rattle.oas_elements.specs.declared.element.Element.TheVariants.{Rectangle, Polygon, Path, Circle};
ghost use Rattle.oas_elements.specs.Grid.{fits_grid};
ghost use Rattle.oas_keys.specs.Keys.{key_of};

use crate::fields::{put_points, put_ring};
use crate::numbers::{put_signed_pair, put_unsigned, put_unsigned_pair};
use oas_ring::{Point, Reading};
use std::alloc::AllocError;

/// Puts the key of a rectangle with these fields after what `out` has, as [`put_key`](crate::put_key) puts the element's. x and y
/// is the lower left corner; lengths are in grid steps. If out of memory, `out` has what it had.
pub fn put_rectangle_key(
    layer: u64,
    datatype: u64,
    width: u64,
    height: u64,
    x: i64,
    y: i64,
    out: &mut Vec<u8>,
) -> Result<(), AllocError>
    requires { fits_grid (Rectangle layer datatype width height x y) ≡ true }
    ensures ok { OnOk result (out.new.items ≡ out.old.items ++ key_of (Rectangle layer datatype width height x y)) }
    ensures err { OnErr result (out.new.items ≡ out.old.items) }
{
    out.reserve(55)?;
    out.push_reserved(3);
    put_unsigned_pair(layer, datatype, out);
    put_unsigned_pair(width, height, out);
    put_signed_pair(x, y, out);
    Ok(())
}

/// Puts the key of a polygon with the points that the reading gives after what `out` has, as [`put_key`](crate::put_key) puts the
/// element's. No list of these points is made. If out of memory, `out` has what it had.
pub fn put_polygon_key(
    layer: u64,
    datatype: u64,
    points: &[Point],
    reading: Reading,
    out: &mut Vec<u8>,
) -> Result<(), AllocError>
    requires start { reading.start < length points.now }
    requires inside { fits_grid (Polygon layer datatype points.now) ≡ true }
    ensures ok { OnOk result (out.new.items ≡ out.old.items ++ key_of (Polygon layer datatype (reading_of points.now reading))) }
    ensures err { OnErr result (out.new.items ≡ out.old.items) }
{
    out.reserve(points.len() * 18 + 20)?;
    out.push_reserved(4);
    put_unsigned_pair(layer, datatype, out);
    put_ring(points, reading, out);
    Ok(())
}

/// Puts the key of a path with these fields after what `out` has. If out of memory, `out` has what it had.
pub(crate) fn put_path_key(
    layer: u64,
    datatype: u64,
    half_width: u64,
    start: i64,
    end: i64,
    points: &[Point],
    out: &mut Vec<u8>,
) -> Result<(), AllocError>
    requires { fits_grid (Path layer datatype half_width start end points.now) ≡ true }
    ensures ok { OnOk result (out.new.items ≡ out.old.items ++ key_of (Path layer datatype half_width start end points.now)) }
    ensures err { OnErr result (out.new.items ≡ out.old.items) }
{
    out.reserve(points.len() * 18 + 47)?;
    out.push_reserved(5);
    put_unsigned_pair(layer, datatype, out);
    put_unsigned(half_width, out);
    put_signed_pair(start, end, out);
    put_points(points, out);
    Ok(())
}

/// Puts the key of a circle with these fields after what `out` has. If out of memory, `out` has what it had.
pub(crate) fn put_circle_key(
    layer: u64,
    datatype: u64,
    radius: u64,
    x: i64,
    y: i64,
    out: &mut Vec<u8>,
) -> Result<(), AllocError>
    requires { fits_grid (Circle layer datatype radius x y) ≡ true }
    ensures ok { OnOk result (out.new.items ≡ out.old.items ++ key_of (Circle layer datatype radius x y)) }
    ensures err { OnErr result (out.new.items ≡ out.old.items) }
{
    out.reserve(46)?;
    out.push_reserved(6);
    put_unsigned_pair(layer, datatype, out);
    put_unsigned(radius, out);
    put_signed_pair(x, y, out);
    Ok(())
}
