//! What is drawn by a number, in few bytes.

ghost use Rattle.std.specs.Prelude.{◌≡◌, IfSome};
ghost use Rattle.oas_cells.specs.Short.{drawn_as, drawn_of};

use crate::ranking::Ranks;
use oas_elements::Turns;
use oas_reader::Drawn;

/// Something drawn once by a number, in 16 bytes: most of what waits fits.
#[derive(Clone, Copy)]
pub(crate) struct Short {
    number: u32,
    x: i32,
    y: i32,
    kind: Kind,
}

/// What is drawn there.
#[derive(Clone, Copy)]
enum Kind {
    Placement { turns: Turns, flip: bool },
    Text { texttype: u8, textlayer: u16 },
}

impl Short {
    /// What is drawn by this number at this place, if it fits.
    fn at(number: u64, x: i64, y: i64, kind: Kind) -> Option<Short>
        ensures { IfSome result (λ s. drawn_of s ≡ drawn_as number x y kind) }
    {
        Some(Short {
            number: u32::try_from(number).ok()?,
            x: i32::try_from(x).ok()?,
            y: i32::try_from(y).ok()?,
            kind,
        })
    }

    /// What is drawn, if it is drawn by a number and fits.
    pub(crate) fn of(drawn: &Drawn) -> Option<Short>
        ensures { IfSome result (λ s. drawn_of s ≡ drawn.now) }
    {
        match drawn {
            Drawn::Named(_) => None,
            Drawn::PlacementBy {
                number,
                x,
                y,
                turns,
                flip,
            } => {
                let kind = Kind::Placement {
                    turns: *turns,
                    flip: *flip,
                };
                Short::at(*number, *x, *y, kind)
            }
            Drawn::TextBy {
                number,
                textlayer,
                texttype,
                x,
                y,
            } => {
                let kind = Kind::Text {
                    texttype: u8::try_from(*texttype).ok()?,
                    textlayer: u16::try_from(*textlayer).ok()?,
                };
                Short::at(*number, *x, *y, kind)
            }
        }
    }

    /// What is drawn.
    pub(crate) fn drawn(self) -> Drawn
        ensures { result ≡ drawn_of self }
    {
        let number = u64::from(self.number);
        let x = i64::from(self.x);
        let y = i64::from(self.y);
        match self.kind {
            Kind::Placement { turns, flip } => Drawn::PlacementBy {
                number,
                x,
                y,
                turns,
                flip,
            },
            Kind::Text {
                texttype,
                textlayer,
            } => Drawn::TextBy {
                number,
                textlayer: u64::from(textlayer),
                texttype: u64::from(texttype),
                x,
                y,
            },
        }
    }
}

/// Where something belongs among all that waits, in the order of keys: its name first, and then its other fields.
#[derive(Clone, Copy, PartialEq, Eq, PartialOrd, Ord)]
pub(crate) struct Place(u128);

impl Place {
    /// The rank of its name and the first of its other fields.
    #[inline(always)]
    pub(crate) fn front(self) -> u64 {
        (self.0 >> 64) as u64
    }
}

/// A coordinate from 0 on.
#[inline(always)]
fn from_zero(z: i32) -> u128 {
    u128::from(z.abs_diff(i32::MIN))
}

/// A placement's turns and flip as a number.
#[inline(always)]
fn turned(turns: Turns, flip: bool) -> u128 {
    let quarters = match turns {
        Turns::T0 => 0,
        Turns::T1 => 1,
        Turns::T2 => 2,
        Turns::T3 => 3,
    };
    quarters * 2 + u128::from(flip)
}

impl Short {
    /// Where it belongs, by the ranks of names.
    #[inline(always)]
    pub(crate) fn place(self, ranks: &Ranks) -> Place {
        let x = from_zero(self.x);
        let y = from_zero(self.y);
        match self.kind {
            Kind::Placement { turns, flip } => {
                let rank = u128::from(ranks.of_cell(self.number));
                Place((rank << 88) | (x << 56) | (y << 24) | turned(turns, flip))
            }
            Kind::Text {
                texttype,
                textlayer,
            } => {
                let rank = u128::from(ranks.of_string(self.number));
                let layer = u128::from(textlayer);
                let texttype = u128::from(texttype);
                Place((rank << 88) | (layer << 72) | (texttype << 64) | (x << 32) | y)
            }
        }
    }
}
