//! The box of a kind of trapezoid.
ghost use Rattle.std.specs.Prelude.{◌↔◌, IsTrue};
ghost use Rattle.oas_trapezoids.specs.Sides.{IsSides, Agree};

/// The box of a shape, in grid steps.
#[derive(Clone, Copy, Debug, PartialEq, Eq)]
pub struct Sides {
    pub width: u64,
    pub height: u64,
}

/// Why there is no box.
#[derive(Clone, Copy, Debug, PartialEq, Eq)]
pub enum Unsided {
    /// A side that the kind needs is undefined.
    Undefined,
    /// An implied side is 2^64 or more.
    TooLong,
}

/// The box of a CTRAPEZOID of a kind (SEMI P39, CTRAPEZOID record), from its width and height as far as they are defined.
/// Kinds 16 to 19 and 25 imply that the height is the width, 22 and 23 that it is twice the width, and 20 and 21 that the
/// width is twice the height. An implied side needn't be defined, and is ignored.
pub fn sides_of(kind: u64, width: Option<u64>, height: Option<u64>) -> Result<Sides, Unsided>
    ensures { IsSides kind width height result }
{
    match kind {
        16..=19 | 25 => {
            let width = width.ok_or(Unsided::Undefined)?;
            Ok(Sides {
                width,
                height: width,
            })
        }
        20 | 21 => {
            let height = height.ok_or(Unsided::Undefined)?;
            let width = height.checked_mul(2).ok_or(Unsided::TooLong)?;
            Ok(Sides { width, height })
        }
        22 | 23 => {
            let width = width.ok_or(Unsided::Undefined)?;
            let height = width.checked_mul(2).ok_or(Unsided::TooLong)?;
            Ok(Sides { width, height })
        }
        _ => {
            let width = width.ok_or(Unsided::Undefined)?;
            let height = height.ok_or(Unsided::Undefined)?;
            Ok(Sides { width, height })
        }
    }
}

impl Sides {
    /// Whether the sides that a record gives are those of its box. Where they aren't, the record gives a side that is
    /// implied, with another value (own rule: it is refused).
    pub fn agree(self, width: Option<u64>, height: Option<u64>) -> bool
        ensures { IsTrue result ↔ Agree self width height }
    {
        width.is_none_or(|width| width == self.width)
            && height.is_none_or(|height| height == self.height)
    }
}
