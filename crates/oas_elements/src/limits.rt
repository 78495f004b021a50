//! How much a layout may hold.

ghost use Rattle.std.specs.Prelude.{◌≡◌, ◌≤◌, ◌↔◌, ◌+◌, ◌*◌, ◌^◌, IsSome, IfSome};

/// How many elements a layout may hold, what it may weigh as it was given, and how long its file may be (own rule).
///
/// No limits allow more than 2^26 elements, a weight of 2^30 or an input of 2^38 bytes. The input is always long enough for
/// the canonical file of each layout within the other two.
#[derive(Clone, Copy, Debug, PartialEq, Eq)]
pub struct Limits {
    elements: u64,
    weight: u64,
    input: u64,
    ghost few: { elements ≤ 2 ^ 26 },
    ghost light: { weight ≤ 2 ^ 30 },
    ghost room: { 320 + 64 * weight ≤ input },
    ghost short: { input ≤ 2 ^ 38 },
}

impl Limits {
    ghost use Rattle.oas_elements.specs.Limits.{IsLimits, AreLimits};

    /// These limits; None exactly where they exceed those that any layout may have.
    pub fn new(elements: u64, weight: u64, input: u64) -> Option<Limits>
        ensures some { IsSome result ↔ IsLimits elements weight input }
        ensures limits { IfSome result (λ limits. AreLimits limits elements weight input) }
    {
        if elements <= 1 << 26
            && weight <= 1 << 30
            && 320 + 64 * weight <= input
            && input <= 1 << 38
        {
            Some(Limits {
                elements,
                weight,
                input,
            })
        } else {
            None
        }
    }

    /// 2^24 elements, a weight of 2^28, an input of 2^36 bytes.
    pub fn standard() -> Limits
        ensures { AreLimits result (2 ^ 24) (2 ^ 28) (2 ^ 36) }
    {
        Limits {
            elements: 1 << 24,
            weight: 1 << 28,
            input: 1 << 36,
        }
    }

    /// 2^26 elements, a weight of 2^30, an input of 2^38 bytes: the largest limits that there are.
    pub fn large() -> Limits
        ensures { AreLimits result (2 ^ 26) (2 ^ 30) (2 ^ 38) }
    {
        Limits {
            elements: 1 << 26,
            weight: 1 << 30,
            input: 1 << 38,
        }
    }

    /// How many elements a layout may hold.
    pub fn elements(&self) -> u64
        ensures { result ≡ self.now.elements }
    {
        self.elements
    }

    /// What a layout may weigh as it was given.
    pub fn weight(&self) -> u64
        ensures { result ≡ self.now.weight }
    {
        self.weight
    }

    /// How many bytes its file may have.
    pub fn input(&self) -> u64
        ensures { result ≡ self.now.input }
    {
        self.input
    }
}
