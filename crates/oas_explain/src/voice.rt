//! What a program says on its error output.

ghost use Rattle.std.specs.Prelude.{◌≡◌, false, IfOk, IfErr, []};
ghost use Rattle.oas_num.specs.Refusals.{number_of};
ghost use Rattle.oas_command.specs.Lines.{refusal_line};
ghost use Rattle.oas_command.specs.Unopened.{unopened_line};
ghost use Rattle.oas_command.specs.Runs.{Says};

use crate::reasons::all_reasons;
use crate::telling::{explain_reason, print_explained, tell};
use oas_command::{run_refused, run_unopened};
use oas_files::progress::clear;
use oas_num::{Device, Refusal, Why};
use std::alloc::Global;
use std::io;
use std::io::Write;

/// As much as the line of a run has in addition to names: `: refused 34 at 18446744073709551615` and the like.
const BESIDE_NAMES: usize = 64;

/// Says what a run said, and explains it where that is requested.
#[derive(Drop)]
pub struct Voice<E> {
    err: E,
    explains: bool,
    shows_progress: bool,
}

impl<E: Device + Write> Voice<E> {
    /// One on this error output, which explains refusals, and removes the line of a meter before it speaks, if asked to.
    pub fn new(err: E, explains: bool, shows_progress: bool) -> Voice<E>
        ensures { (result.err ≡ err) × (result.explains ≡ explains) × (result.shows_progress ≡ shows_progress) }
    {
        Voice {
            err,
            explains,
            shows_progress,
        }
    }

    /// Room for the line of a run that names files whose names have this many bytes, or the run's status if out of memory,
    /// which is said under this name.
    pub fn room(&mut self, alloc: Global, name: &str, bytes: usize) -> Result<Vec<u8>, u8>
        ensures room { IfOk result (λ room. room.items ≡ []) }
        ensures refused { IfErr result (λ status. status ≡ 1) }
    {
        match Vec::with_capacity(alloc, bytes.saturating_add(BESIDE_NAMES)) {
            Ok(room) => Ok(room),
            Err(_) => {
                let why = Why::Memory;
                Err(self.refused(name, Refusal { at: 0, why }))
            }
        }
    }

    /// Says what a run said. Where refusals are explained these words come after the reason's meaning, and this advice below
    /// its remedy.
    pub fn tell(&mut self, said: &[u8], words: &str, advice: &str)
        ensures plain { self.old.explains ≡ false → self.old.shows_progress ≡ false
            → Says (E.calls self.old.err) said.now (E.calls self.new.err) }
    {
        self.begin();
        if self.explains {
            print_explained(&all_reasons(), words, advice, said, &mut self.err);
        } else {
            tell(said, &mut self.err);
        }
    }

    /// Says that a run could not begin, and returns its status.
    pub fn refused(&mut self, name: &str, refusal: Refusal) -> u8
        ensures status { result ≡ 1 }
        ensures plain { self.old.explains ≡ false → self.old.shows_progress ≡ false
            → Says (E.calls self.old.err) (refusal_line name.now (number_of refusal.why) refusal.at) (E.calls self.new.err) }
    {
        self.begin();
        let status = run_refused(name, refusal, &mut self.err);
        if self.explains {
            explain_reason(&all_reasons(), refusal.why, &mut self.err);
        }
        status
    }

    /// Says that an input can't be opened, and returns the status of its run. Where refusals are explained the system's words
    /// for it are in a line below.
    pub fn unopened(&mut self, name: &str, error: &io::Error) -> u8
        ensures status { result ≡ 1 }
        ensures plain { self.old.explains ≡ false → self.old.shows_progress ≡ false
            → Says (E.calls self.old.err) (unopened_line name.now) (E.calls self.new.err) }
    {
        self.begin();
        let status = run_unopened(name, &mut self.err);
        if self.explains {
            let _ = writeln!(self.err, "  = {error}");
        }
        status
    }

    /// Removes the line of a meter.
    fn begin(&mut self)
        ensures { self.old.shows_progress ≡ false → self.new ≡ self.old }
    {
        if self.shows_progress {
            clear(&mut self.err);
        }
    }
}
