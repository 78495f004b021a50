//! A sink that passes on the first lines.

ghost use Rattle.std.specs.Prelude.{◌≡◌, false};

use oas_num::{Sink, SinkFault};

/// Passes on the first lines that it is given to a sink, and drops what follows them.
#[derive(Drop)]
pub(crate) struct Limited<'a, K> {
    sink: &'a mut K,
    left: u64,
    is_cut: bool,
    failed: bool,
}

impl<'a, K: Sink> Limited<'a, K> {
    /// A sink that passes on this many lines.
    pub(crate) fn new(sink: &'a mut K, lines: u64) -> Limited<'a, K>
        ensures { result ≡ record { sink = sink.entry; left = lines; is_cut = false; failed = false } }
    {
        Limited {
            sink,
            left: lines,
            is_cut: false,
            failed: false,
        }
    }

    /// Whether the sink below has failed.
    pub(crate) fn has_failed(&self) -> bool
        ensures { result ≡ self.now.failed }
    {
        self.failed
    }

    /// Whether it dropped something.
    pub(crate) fn is_cut(&self) -> bool
        ensures { result ≡ self.now.is_cut }
    {
        self.is_cut
    }
}

impl<K: Sink> Sink for Limited<'_, K> {
    ghost use Rattle.oas_difference.specs.Limiting.{Passes};
    ghost use Rattle.oas_difference.specs.Laws.LimitingLaws.{Passes-none};
    ghost use Rattle.std.specs.Prelude.{if◌then◌else◌};

    ghost given = { Passes K.given K.failures };

    ghost failures = { λ s. if s.failed then 1 else 0 };

    ghost none_given = { Passes-none K.given K.failures };

    fn put(&mut self, byte: u8) -> Result<(), SinkFault> {
        if self.failed {
            return Err(SinkFault::Device);
        }
        if self.left == 0 {
            self.is_cut = true;
            return Ok(());
        }
        match self.sink.put(byte) {
            Ok(()) => {
                if byte == b'\n' {
                    self.left -= 1;
                }
                Ok(())
            }
            Err(fault) => {
                self.failed = true;
                Err(fault)
            }
        }
    }
}
