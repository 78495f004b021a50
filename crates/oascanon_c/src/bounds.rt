//! Limits, as C hands them in.
ghost use Rattle.std.specs.Prelude.{◌↔◌, IsSome, IfSome};
ghost use Rattle.oas_elements.specs.Limits.{IsLimits, AreLimits};

use oas_prepare::Limits;

/// How many elements a layout may hold, what it may weigh, and how many bytes its file may have.
#[repr(C)]
#[derive(Clone, Copy, Debug, PartialEq, Eq)]
pub struct Bounds {
    pub elements: u64,
    pub weight: u64,
    pub input: u64,
}

impl Bounds {
    /// These limits; None where the three numbers are none.
    pub(crate) fn limits(&self) -> Option<Limits>
        ensures some { IsSome result ↔ IsLimits self.now.elements self.now.weight self.now.input }
        ensures limits { IfSome result (λ limits. AreLimits limits self.now.elements self.now.weight self.now.input) }
    {
        Limits::new(self.elements, self.weight, self.input)
    }
}
