//! A question about many files.

use crate::plan::OneFile;
use oas_explain::{End, OfEach, Outcome, Session, label_of, name_of};
use oas_request::{Ending, Question};

/// A question about each of many files, whose line has the file's name.
#[derive(Clone, Copy)]
pub struct Asking {
    pub question: Question,
}

impl OfEach for Asking {
    fn of(&self, session: &Session<'_>, path: Option<&str>) -> Result<Outcome, u8> {
        let printed = session.printed(name_of(path))?;
        let label = label_of(path, &printed, end_of_answers(self.question));
        OneFile::named(self.question, label, path).open(session, printed.as_str())
    }
}

/// What ends the lines of the answers to a question.
fn end_of_answers(question: Question) -> End {
    match question {
        Question::Check => End::Newline,
        Question::Key(ending) => end_of(ending),
    }
}

/// What ends lines that end like this.
pub fn end_of(ending: Ending) -> End {
    match ending {
        Ending::Newline => End::Newline,
        Ending::Zero => End::Zero,
    }
}
