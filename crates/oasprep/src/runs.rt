//! Runs on one file and on two: each opens its files, runs, and prints what was said.

use crate::requests::Question;
use oas_preparing::{
    Asked, CANONICAL, Dropping, End, Existing, Incoming, Label, Named, OfEach, Onward, Outcome,
    Outgoing, Outlet, Pair, Printed, Said, Session, check_telling, key_telling, label_of, name_of,
    run_prepare, same_telling,
};

/// As much as two lines of what was left out may have in addition to names: each five phrases with numbers of 64 bits.
const LINES: usize = 512;

/// A run that prepares a file. Without a name the input is standard input, and the output standard output.
#[derive(Clone, Copy)]
pub struct Preparing<'a> {
    pub input: Option<&'a str>,
    pub output: Option<&'a str>,
    /// What is to be left out.
    pub dropping: Dropping,
}

/// A question about each of many files, once it is prepared.
#[derive(Clone, Copy)]
pub struct Asking {
    pub question: Question,
    /// What is to be left out.
    pub dropping: Dropping,
}

/// A run that compares two files, once they are prepared. The one without a name is standard input.
#[derive(Clone, Copy)]
pub struct Comparing<'a> {
    pub first: Option<&'a str>,
    pub second: Option<&'a str>,
    /// What is to be left out.
    pub dropping: Dropping,
}

/// Room for what a run says about files whose names have this many bytes, or the status if out of memory, which is said under
/// this name.
fn room(session: &Session<'_>, name: &str, bytes: usize) -> Result<Said, u8> {
    session.room(name, bytes.saturating_add(LINES))
}

impl<'a> Preparing<'a> {
    /// Runs, and returns the status; or that of a run that could not begin.
    pub fn run(self, session: &Session<'a>) -> Result<u8, u8> {
        let printed = session.printed(name_of(self.input))?;
        let mut from = session.source(self.input, printed.as_str())?;
        self.heard(session, printed.as_str(), &mut from)
    }

    /// Runs on what was opened, and prints what was said.
    fn heard(self, session: &Session<'a>, name: &str, from: &mut Incoming<'_>) -> Result<u8, u8> {
        let mut said = room(session, name, name.len())?;
        let mut out = session.output(self.output, Existing::Replaced);
        let (alloc, limits, dropping) = (session.rt.alloc(), session.limits, self.dropping);
        let status = run_prepare(alloc, name, from, &mut out, &mut said, limits, dropping);
        let Some(status) = status else {
            return Err(session.unbegun(name));
        };
        session.tell(said.get_ref(), self.output, out.fault(), self.asked());
        Ok(status)
    }

    /// What was asked of this file.
    fn asked(self) -> Asked<'a> {
        let onward = match self.output {
            Some(output) => Onward::Written(output),
            None => Onward::Piped("oascanon key"),
        };
        let path = self.input;
        Asked { path, onward }
    }
}

impl OfEach for Asking {
    fn of(&self, session: &Session<'_>, path: Option<&str>) -> Result<Outcome, u8> {
        let printed = session.printed(name_of(path))?;
        let mut from = session.source(path, printed.as_str())?;
        self.heard(session, path, &printed, &mut from)
    }
}

impl Asking {
    /// Prints the answer for what was opened, and what was said.
    fn heard(
        &self,
        session: &Session<'_>,
        path: Option<&str>,
        printed: &Printed<'_>,
        from: &mut Incoming<'_>,
    ) -> Result<Outcome, u8> {
        let (name, label) = (printed.as_str(), label_of(path, printed, End::Newline));
        let mut said = room(session, name, name.len())?;
        let mut out = session.output(None, Existing::Replaced);
        let status = self.told(session, name, label, from, &mut out, &mut said);
        let Some(status) = status else {
            return Err(session.unbegun(name));
        };
        let fault = out.fault();
        let onward = self.onward();
        session.tell(said.get_ref(), None, fault, Asked { path, onward });
        Ok(Outcome {
            status,
            is_last: fault.is_some(),
        })
    }

    /// Prints the answer, puts what is said into memory, and returns the status; None if out of memory for the file.
    fn told(
        &self,
        session: &Session<'_>,
        name: &str,
        label: Label<'_>,
        from: &mut Incoming<'_>,
        out: &mut Outgoing<'_>,
        said: &mut Said,
    ) -> Option<u8> {
        let (alloc, limits, dropping) = (session.rt.alloc(), session.limits, self.dropping);
        let mut told = Outlet::new(said);
        let status = match self.question {
            Question::Key => {
                key_telling(alloc, name, label, from, out, &mut told, limits, dropping)
            }
            Question::Check => {
                Some(check_telling(alloc, name, label, from, out, &mut told, limits, dropping))
            }
        };
        let _ = told.close();
        status
    }

    /// Where the canonical file goes that is made in place of the one that was asked about.
    fn onward(&self) -> Onward<'static> {
        match self.question {
            Question::Key => Onward::Piped("oascanon key"),
            Question::Check => Onward::Written(CANONICAL),
        }
    }
}

impl Comparing<'_> {
    /// Runs, with both files opened before one is read, and returns the status; or that of a run that could not begin.
    pub fn run(self, session: &Session<'_>) -> Result<u8, u8> {
        let first = session.printed(name_of(self.first))?;
        let second = session.printed(name_of(self.second))?;
        let first = Named {
            path: self.first,
            name: first.as_str(),
        };
        let second = Named {
            path: self.second,
            name: second.as_str(),
        };
        self.open(session, Pair { first, second })
    }

    /// Opens both files, and runs on them.
    fn open(self, session: &Session<'_>, pair: Pair<'_>) -> Result<u8, u8> {
        let (a, b) = (pair.first, pair.second);
        let mut from_a = session.source(a.path, a.name)?;
        let mut from_b = session.source(b.path, b.name)?;
        self.heard(session, pair, &mut from_a, &mut from_b)
    }

    /// Runs on what was opened, and prints what was said.
    fn heard(
        self,
        session: &Session<'_>,
        pair: Pair<'_>,
        from_a: &mut Incoming<'_>,
        from_b: &mut Incoming<'_>,
    ) -> Result<u8, u8> {
        let (a, b) = (pair.first.name, pair.second.name);
        let mut said = room(session, a, a.len().saturating_add(b.len()))?;
        let mut out = session.output(None, Existing::Replaced);
        let mut told = Outlet::new(&mut said);
        let (alloc, limits, dropping) = (session.rt.alloc(), session.limits, self.dropping);
        let status = same_telling(
            alloc, a, from_a, b, from_b, &mut out, &mut told, limits, dropping,
        );
        let _ = told.close();
        session.tell(
            said.get_ref(),
            None,
            out.fault(),
            pair.asked(said.get_ref()),
        );
        Ok(status)
    }
}
