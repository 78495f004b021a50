//! Runs on one file: each opens it, runs, and prints what was said.

use crate::guards::keep_old;
use crate::plan::OneFile;
use oas_explain::{
    Device, Existing, Incoming, Outcome, Outlet, Session, Sink, Source, name_of, work_telling,
};

impl<'a> OneFile<'a> {
    ghost use Rattle.oas_explain.specs.Work.{DoesWork};

    /// Runs, with an output whose name is free where an old file should be kept. Returns the status; or that of a run that
    /// could not begin.
    pub fn run(self, session: &Session<'a>) -> Result<u8, u8> {
        if self.existing == Existing::Kept {
            keep_old(session, self.output)?;
        }
        let printed = session.printed(name_of(self.input))?;
        Ok(self.open(session, printed.as_str())?.status)
    }

    /// Opens the file, whose name is printed like this, runs on it, and returns how the run ended.
    pub fn open(self, session: &Session<'a>, name: &str) -> Result<Outcome, u8> {
        let mut from = session.source(self.input, name)?;
        self.heard(session, name, &mut from)
    }

    /// Runs on what was opened, and prints what was said.
    fn heard(
        self,
        session: &Session<'a>,
        name: &str,
        from: &mut Incoming<'_>,
    ) -> Result<Outcome, u8> {
        let mut said = session.room(name, name.len())?;
        let mut out = session.output(self.output, self.existing);
        let mut told = Outlet::new(&mut said);
        let status = self.over(session, name, from, &mut out, &mut told);
        let _ = told.close();
        let fault = out.fault();
        session.tell(said.get_ref(), self.output, fault, self.asked());
        Ok(Outcome {
            status,
            is_last: fault.is_some(),
        })
    }

    /// Runs on what was opened, within the session's limits, and returns the status.
    fn over<S: Source, W: Device, K: Sink>(
        self,
        session: &Session<'_>,
        name: &str,
        from: &mut S,
        out: &mut W,
        told: &mut K,
    ) -> u8
        ensures { DoesWork W.calls K.given K.failures session.now.limits name.now (S.script from.old) out.old told.old self.entry.work result (S.script from.new) out.new told.new }
    {
        let (alloc, limits) = (session.rt.alloc(), session.limits);
        work_telling(alloc, self.work, name, from, out, told, limits)
    }
}
