//! Saved keys, and whether they are still valid.

use crate::asking::end_of;
use oas_explain::{
    Asked, Existing, Incoming, KeptKey, Label, OfItem, Onward, Outcome, Outlet, Printed, Session,
    kept_telling, label_of, of_items, text_of, unescaped,
};
use oas_request::Ending;

/// A list of saved keys, and how the result is printed.
#[derive(Clone, Copy)]
pub struct Kept<'a> {
    pub list: Option<&'a str>,
    pub ending: Ending,
    /// Whether nothing is printed for a key that is valid.
    pub is_quiet: bool,
}

impl OfItem for Kept<'_> {
    fn of_item(&self, session: &Session<'_>, line: &[u8], number: u64, shown: &str) -> Outcome {
        match KeptKey::of_line(line) {
            Some(kept) => Outcome::of(self.check_key(session, kept, number, shown)),
            None => not_understood(session, number, shown),
        }
    }
}

impl Kept<'_> {
    /// Checks for each file in the list whether its key is the saved one, and returns the status of all.
    pub fn check(self, session: &Session<'_>) -> Result<u8, u8> {
        let end = match self.ending {
            Ending::Newline => b'\n',
            Ending::Zero => 0,
        };
        of_items(session, &self, self.list, end)
    }

    /// Checks the file of a saved key.
    fn check_key(
        self,
        session: &Session<'_>,
        kept: KeptKey<'_>,
        number: u64,
        shown: &str,
    ) -> Result<Outcome, u8> {
        let text = text_of(session.rt.alloc(), kept.name).map_err(|_| session.unbegun("?"))?;
        if !kept.is_escaped || self.ending == Ending::Zero {
            return self.check_file(session, text.as_str(), kept.digits);
        }
        match unescaped(session.rt.alloc(), text.as_str()).map_err(|_| session.unbegun("?"))? {
            Some(name) => self.check_file(session, name.as_str(), kept.digits),
            None => Ok(not_understood(session, number, shown)),
        }
    }

    /// Checks the file with this name.
    fn check_file(self, session: &Session<'_>, path: &str, digits: &[u8]) -> Result<Outcome, u8> {
        let printed = session.printed(path)?;
        let label = label_of(Some(path), &printed, end_of(self.ending));
        let mut from = session.source(Some(path), printed.as_str())?;
        let asked = Asked {
            path: Some(path),
            onward: Onward::Piped("oascanon key"),
        };
        self.heard(session, &printed, label, digits, &mut from, asked)
    }

    /// Checks what was opened, and prints what was said.
    fn heard(
        self,
        session: &Session<'_>,
        printed: &Printed<'_>,
        label: Label<'_>,
        digits: &[u8],
        from: &mut Incoming<'_>,
        asked: Asked<'_>,
    ) -> Result<Outcome, u8> {
        let (alloc, name) = (session.rt.alloc(), printed.as_str());
        let mut said = session.room(name, name.len())?;
        let mut out = session.output(None, Existing::Replaced);
        let mut told = Outlet::new(&mut said);
        let status = kept_telling(
            alloc,
            name,
            label,
            digits,
            self.is_quiet,
            from,
            &mut out,
            &mut told,
            session.limits,
        );
        let _ = told.close();
        let fault = out.fault();
        session.tell(said.get_ref(), None, fault, asked);
        Ok(Outcome {
            status,
            is_last: fault.is_some(),
        })
    }
}

/// Says that a line of the list has no key and name.
fn not_understood(session: &Session<'_>, number: u64, shown: &str) -> Outcome {
    let _ = eprintln!(session.rt; "{shown}: line {number} is no key and name");
    Outcome {
        status: 1,
        is_last: false,
    }
}
