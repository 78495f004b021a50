//! What each run is given in addition to its files: limits, progress, and how messages are printed.

ghost use Rattle.std.specs.Prelude.{IfOk};
ghost use Rattle.oas_command.specs.Opening.{IsOpened};
ghost use Rattle.oas_files.specs.Creating.{IsOutput};

use crate::advice::{Asked, advise};
use crate::recording::Recorded;
use crate::voice::Voice;
use oas_command::{Limits, ReaderSource, Refusal, Why, limits_of, open_source};
use oas_files::progress::{Meter, Reading, Style, Writing};
use oas_files::{Existing, Input, Output, Printed, is_input_marked};
use oas_num::NotedWriter;
use std::io;
use std::io::{ErrorKind, IsTerminal, Stderr};

/// The input of a run.
pub type Incoming<'a> = ReaderSource<Reading<'a, Input, Stderr>>;

/// The output of a run.
pub type Outgoing<'a> = Recorded<Writing<'a, Output<'a>, Stderr>>;

/// What a run says, in memory.
pub type Said = NotedWriter<Vec<u8>>;

/// The name of standard output in messages.
pub const STANDARD_OUTPUT: &str = "standard output";

/// How the line of an input without bytes ends.
const NOTHING_CAME: &[u8] = b": refused 2 at 0\n";

/// What holds for all runs of a command line.
#[derive(Drop)]
pub struct Session<'a> {
    pub rt: &'a HostRuntime,
    pub limits: Limits,
    /// Whether refusals are explained.
    pub explains: bool,
    /// Whether long work shows how far it is.
    pub shows_progress: bool,
}

impl<'a> Session<'a> {
    ghost use Rattle.oas_explain.specs.Session.{HoldsFor};

    /// What holds for the runs of a command line with these flags. Refusals are explained on a terminal too.
    pub fn new(
        rt: &'a HostRuntime,
        is_large: bool,
        explains: bool,
        shows_progress: bool,
    ) -> Session<'a>
        ensures { HoldsFor is_large explains shows_progress result }
    {
        Session {
            rt,
            limits: limits_of(is_large),
            explains: explains || rt.stderr().is_terminal(),
            shows_progress,
        }
    }

    /// Where messages are printed.
    pub fn voice(&self) -> Voice<NotedWriter<Stderr>> {
        let is_over = self.shows_progress && self.style() == Style::Over;
        Voice::new(NotedWriter::new(self.rt.stderr()), self.explains, is_over)
    }

    /// A name as it is printed, or the status if out of memory.
    pub fn printed<'n>(&self, name: &'n str) -> Result<Printed<'n>, u8> {
        Printed::new(self.rt.alloc(), name).map_err(|_| self.unbegun("?"))
    }

    /// Room for what a run says about files whose names have this many bytes, or the status if out of memory, which is said
    /// under this name.
    pub fn room(&self, name: &str, bytes: usize) -> Result<Said, u8> {
        let room = self.voice().room(self.rt.alloc(), name, bytes)?;
        Ok(NotedWriter::new(room))
    }

    /// The status of a run that is out of memory, after its line on standard error under this name.
    pub fn unbegun(&self, name: &str) -> u8 {
        let why = Why::Memory;
        self.voice().refused(name, Refusal { at: 0, why })
    }

    /// The source of an input, or the status where there is none, after its line on standard error under this name.
    pub fn source<'n>(&self, input: Option<&str>, name: &'n str) -> Result<Incoming<'n>, u8>
        ensures { IfOk result (λ source. IsOpened self.now.limits source.script) }
    {
        match Input::open(self.rt, input) {
            Ok(opened) => self.source_of(opened, name),
            Err(error) => Err(self.voice().unopened(name, &error)),
        }
    }

    /// The source of what was opened, or the status if out of memory.
    fn source_of<'n>(&self, opened: Input, name: &'n str) -> Result<Incoming<'n>, u8>
        ensures { IfOk result (λ source. IsOpened self.now.limits source.script) }
    {
        let meter = self.meter_of_read(name, opened.size());
        let reader = Reading::new(opened, meter);
        match open_source(self.rt.alloc(), reader, self.limits) {
            Ok(source) => Ok(source),
            Err(_) => Err(self.unbegun(name)),
        }
    }

    /// How the lines of long work are shown.
    fn style(&self) -> Style {
        if self.rt.stderr().is_terminal() {
            Style::Over
        } else {
            Style::Lines
        }
    }

    /// The meter of an input with this name and size, where long work shows how far it is.
    fn meter_of_read<'n>(&self, name: &'n str, size: Option<u64>) -> Option<Meter<'n, Stderr>> {
        if self.shows_progress {
            Some(Meter::of_read(self.rt.stderr(), self.style(), name, size))
        } else {
            None
        }
    }

    /// The meter of an output with this name, where long work shows how far it is.
    fn meter_of_written<'n>(&self, name: &'n str) -> Option<Meter<'n, Stderr>> {
        if self.shows_progress {
            Some(Meter::of_written(self.rt.stderr(), self.style(), name))
        } else {
            None
        }
    }

    /// The output with this name, which does this to a file that is there; or standard output.
    pub fn output(&self, path: Option<&'a str>, existing: Existing) -> Outgoing<'a>
        ensures { IsOutput path.entry existing result.inner.inner }
    {
        let output = match existing {
            Existing::Replaced => Output::new(self.rt, path),
            Existing::Kept => Output::keeping_old(self.rt, path),
        };
        let meter = self.meter_of_written(path.unwrap_or(STANDARD_OUTPUT));
        Recorded::new(Writing::new(output, meter))
    }

    /// Prints what a run said. Where refusals are explained, why its output failed comes after it, and what to try below.
    /// Nothing is printed for an output whose reader went away, and for an input that is empty because the program before
    /// refused its own and has said why.
    pub fn tell(
        &self,
        said: &[u8],
        output: Option<&str>,
        fault: Option<io::Error>,
        asked: Asked<'_>,
    ) {
        if fault.is_some_and(|error| error.kind() == ErrorKind::BrokenPipe) {
            return;
        }
        if asked.path.is_none() && said.ends_with(NOTHING_CAME) && is_input_marked(self.rt) {
            return;
        }
        let words = match fault {
            Some(error) => self.words_of(output.unwrap_or(STANDARD_OUTPUT), &error),
            None => None,
        };
        let advice = self.advice(said, asked);
        self.voice().tell(said, text_of(&words), text_of(&advice));
    }

    /// What to try, where refusals are explained.
    fn advice(&self, said: &[u8], asked: Asked<'_>) -> Option<String> {
        if self.explains {
            advise(self.rt, said, asked)
        } else {
            None
        }
    }

    /// The output's name and the system's words for its fault, where there is memory for them.
    fn words_of(&self, output: &str, error: &io::Error) -> Option<String> {
        let alloc = self.rt.alloc();
        let shown = Printed::new(alloc, output).ok()?;
        let name = shown.as_str();
        format!(in alloc; " ({name}: {error})").ok()
    }
}

/// A text, or nothing.
fn text_of(text: &Option<String>) -> &str {
    match text {
        Some(text) => text.as_str(),
        None => "",
    }
}
