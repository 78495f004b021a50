//! A sink that compares.
ghost use Rattle.std.specs.Prelude.{◌≡◌, false, [], IsTrue, ◌↔◌, if◌then◌else◌};

use oas_num::{Sink, SinkFault};

/// Compares the bytes that it is given with those that it was made of. It fails at the first that differs.
#[derive(Drop)]
pub struct Comparer<'a> {
    rest: &'a [u8],
    differs: bool,
}

impl<'a> Comparer<'a> {
    /// A sink that was given nothing.
    pub fn new(bytes: &'a [u8]) -> Comparer<'a>
        ensures rest { result.rest.now ≡ bytes.now }
        ensures same { result.differs ≡ false }
    {
        Comparer {
            rest: bytes,
            differs: false,
        }
    }

    /// Whether it was given exactly the bytes that it was made of.
    pub fn is_done(&self) -> bool
        ensures { IsTrue result ↔ ((self.now.differs ≡ false) × (self.now.rest.now ≡ [])) }
    {
        !self.differs && self.rest.is_empty()
    }
}

impl Sink for Comparer<'_> {
    ghost use Rattle.oas_form.specs.Comparing.{Compares};
    ghost use Rattle.oas_form.specs.Laws.ComparingLaws.{Compares-none};

    ghost given = { Compares };

    ghost failures = { λ c. if c.differs then 1 else 0 };

    ghost none_given = { Compares-none };

    fn put(&mut self, byte: u8) -> Result<(), SinkFault> {
        if self.differs {
            return Err(SinkFault::Device);
        }
        match self.rest.split_first() {
            Some((next, rest)) if *next == byte => {
                self.rest = rest;
                Ok(())
            }
            _ => {
                self.differs = true;
                Err(SinkFault::Device)
            }
        }
    }
}
