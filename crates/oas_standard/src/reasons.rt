//! Reasons of the profile, and of what it leaves out.
ghost use Rattle.std.specs.Prelude.{◌≡◌};
ghost use Rattle.oas_standard.specs.Reasons.{named, wide_number_of};
ghost use Rattle.oas_standard.specs.declared.reasons.WideWhy.TheVariants.{Profile};

use oas_num::Why;

/// Why bytes of a file of the standard are refused: for a reason of the profile, or for one about what the profile leaves
/// out.
#[derive(Clone, Copy, Debug, PartialEq, Eq)]
pub enum WideWhy {
    /// A reason of the profile, 1 to 34.
    Profile(Why),
    /// A record of properties, and they aren't to be dropped.
    Properties,
    /// A name of layers, and they aren't to be dropped.
    LayerNames,
    /// A record of an extension, and they aren't to be dropped.
    Extensions,
    /// A block's kind of compression isn't 0.
    CblockType,
    /// A block is within a block.
    CblockNested,
    /// A block inflates to another number of bytes than stated, or doesn't use exactly the stated number.
    CblockLength,
    /// A record continues past the end of its block.
    CblockBorder,
    /// A block's bytes are no DEFLATE stream, or an unfinished one.
    Deflate,
    /// The sides of a trapezoid cross, or enclose no area.
    Trapezoid,
    /// The kind of a CTRAPEZOID is above 25.
    CtrapezoidType,
    /// The type of a property's value is above 15.
    ValueType,
    /// The type of an interval of layers is above 4.
    IntervalType,
    /// The signature isn't that of the file.
    Checksum,
}

/// Where bytes of a file of the standard are refused, and why.
#[derive(Clone, Copy, Debug, PartialEq, Eq)]
pub struct WideRefusal {
    /// The offset of the refused record, in bytes from the first.
    pub at: u64,
    /// The reason.
    pub why: WideWhy,
}

impl WideWhy {
    /// The number of the reason: 1 to 34, or 101 to 113.
    pub fn number(&self) -> u8
        ensures { result ≡ wide_number_of self.now }
    {
        match self {
            WideWhy::Profile(why) => why.number(),
            WideWhy::Properties => 101,
            WideWhy::LayerNames => 102,
            WideWhy::Extensions => 103,
            WideWhy::CblockType => 104,
            WideWhy::CblockNested => 105,
            WideWhy::CblockLength => 106,
            WideWhy::CblockBorder => 107,
            WideWhy::Deflate => 108,
            WideWhy::Trapezoid => 109,
            WideWhy::CtrapezoidType => 110,
            WideWhy::ValueType => 111,
            WideWhy::IntervalType => 112,
            WideWhy::Checksum => 113,
        }
    }
}

/// The name of a reason that was found after that id. An `InfoByte` of a CTRAPEZOID or a LAYERNAME is about a number that
/// says which kind it is, since they have no zero bits; a `RealType` of a PROPERTY is about a value.
pub(crate) fn named(id: u64, why: Why) -> WideWhy
    ensures { result ≡ named id why }
{
    if id == 26 && why == Why::InfoByte {
        return WideWhy::CtrapezoidType;
    }
    if (id == 11 || id == 12) && why == Why::InfoByte {
        return WideWhy::IntervalType;
    }
    if id == 28 && why == Why::RealType {
        return WideWhy::ValueType;
    }
    WideWhy::Profile(why)
}

impl From<Why> for WideWhy {
    ghost from_gives = { λ why wide. wide ≡ Profile why };

    fn from(why: Why) -> WideWhy {
        WideWhy::Profile(why)
    }
}
