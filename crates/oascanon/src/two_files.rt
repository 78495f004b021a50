//! Runs on two files: each opens both before one is read, runs, and prints what was said.

use crate::guards::keep_inputs;
use crate::plan::{Marking, TwoFiles};
use oas_explain::{
    Device, Existing, Incoming, Named, Outlet, Pair, Session, Sink, Source, marking_telling,
    name_of, pair_work_telling,
};

impl<'a> TwoFiles<'a> {
    ghost use Rattle.oas_explain.specs.Work.{DoesPairWork};

    /// Runs, and returns the status; or that of a run that could not begin.
    pub fn run(self, session: &Session<'a>) -> Result<u8, u8> {
        let first = session.printed(name_of(self.first))?;
        let second = session.printed(name_of(self.second))?;
        let first = Named {
            path: self.first,
            name: first.as_str(),
        };
        let second = Named {
            path: self.second,
            name: second.as_str(),
        };
        self.open(session, Pair { first, second })
    }

    /// Opens both files, and runs on them.
    fn open(self, session: &Session<'a>, pair: Pair<'_>) -> Result<u8, u8> {
        let (a, b) = (pair.first, pair.second);
        let mut from_a = session.source(a.path, a.name)?;
        let mut from_b = session.source(b.path, b.name)?;
        self.heard(session, pair, &mut from_a, &mut from_b)
    }

    /// Runs on what was opened, and prints what was said.
    fn heard(
        self,
        session: &Session<'a>,
        pair: Pair<'_>,
        from_a: &mut Incoming<'_>,
        from_b: &mut Incoming<'_>,
    ) -> Result<u8, u8> {
        let (a, b) = (pair.first.name, pair.second.name);
        let mut said = session.room(a, a.len().max(b.len()))?;
        let mut out = session.output(None, Existing::Replaced);
        let mut told = Outlet::new(&mut said);
        let status = self.over(session, a, from_a, b, from_b, &mut out, &mut told);
        let _ = told.close();
        session.tell(
            said.get_ref(),
            None,
            out.fault(),
            pair.asked(said.get_ref()),
        );
        Ok(status)
    }

    /// Runs on what was opened, within the session's limits, and returns the status.
    fn over<S: Source, T: Source, W: Device, K: Sink>(
        self,
        session: &Session<'_>,
        name_a: &str,
        a: &mut S,
        name_b: &str,
        b: &mut T,
        out: &mut W,
        told: &mut K,
    ) -> u8
        ensures { DoesPairWork W.calls K.given K.failures session.now.limits T.script name_a.now name_b.now (S.script a.old) b.old out.old told.old self.entry.work result (S.script a.new) b.new out.new told.new }
    {
        let (alloc, limits) = (session.rt.alloc(), session.limits);
        pair_work_telling(alloc, self.work, name_a, a, name_b, b, out, told, limits)
    }
}

impl<'a> Marking<'a> {
    /// Runs, unless the file for the markers is one of the inputs, and returns the status; or that of a run that could not
    /// begin.
    pub fn run(self, session: &Session<'a>) -> Result<u8, u8> {
        keep_inputs(session, [self.first, self.second], self.markers.name)?;
        let first = session.printed(name_of(self.first))?;
        let second = session.printed(name_of(self.second))?;
        let own = session.printed(self.markers.name)?;
        let first = Named {
            path: self.first,
            name: first.as_str(),
        };
        let second = Named {
            path: self.second,
            name: second.as_str(),
        };
        self.open(session, Pair { first, second }, own.as_str())
    }

    /// Opens both files, and runs on them, with this name for the file of the markers.
    fn open(self, session: &Session<'a>, pair: Pair<'_>, own: &str) -> Result<u8, u8> {
        let (a, b) = (pair.first, pair.second);
        let mut from_a = session.source(a.path, a.name)?;
        let mut from_b = session.source(b.path, b.name)?;
        self.heard(session, pair, &mut from_a, &mut from_b, own)
    }

    /// Runs on what was opened, and prints what was said.
    fn heard(
        self,
        session: &Session<'a>,
        pair: Pair<'_>,
        from_a: &mut Incoming<'_>,
        from_b: &mut Incoming<'_>,
        own: &str,
    ) -> Result<u8, u8> {
        let (a, b, markers) = (pair.first.name, pair.second.name, self.markers);
        let mut said = session.room(a, a.len().max(b.len()).max(own.len()))?;
        let mut out = session.output(None, Existing::Replaced);
        let mut marked = session.output(Some(markers.name), Existing::Replaced);
        let mut told = Outlet::new(&mut said);
        let status = marking_telling(
            session.rt.alloc(),
            a,
            from_a,
            b,
            from_b,
            self.options,
            &mut out,
            own,
            &mut marked,
            markers.most,
            &mut told,
            session.limits,
        );
        let _ = told.close();
        let asked = pair.asked(said.get_ref());
        match marked.fault() {
            Some(fault) => session.tell(said.get_ref(), Some(markers.name), Some(fault), asked),
            None => session.tell(said.get_ref(), None, out.fault(), asked),
        }
        Ok(status)
    }
}
