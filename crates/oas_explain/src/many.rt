//! What is done with each of many files, or with each item of a list.

use crate::outcome::Outcome;
use crate::session::Session;
use oas_command::{Refusal, Why, name_of, worse};
use oas_files::{Input, Names, text_of};

/// The status where there is nothing to do.
const DONE: u8 = 0;

/// What is done with each of many files.
pub trait OfEach {
    /// Does it with the file of this name, or with standard input, and returns how the run ended; or the status of one that
    /// could not begin.
    fn of(&self, session: &Session<'_>, path: Option<&str>) -> Result<Outcome, u8>;
}

/// What is done with each item of a list.
pub trait OfItem {
    /// Does it with this item, which is the list's `number`-th, under the list's name as it is printed.
    fn of_item(&self, session: &Session<'_>, item: &[u8], number: u64, shown: &str) -> Outcome;
}

/// What is done with each file that a list names.
#[derive(Clone, Copy)]
struct OfName<'a, T> {
    each: &'a T,
}

impl<T: OfEach> OfItem for OfName<'_, T> {
    fn of_item(&self, session: &Session<'_>, item: &[u8], _number: u64, _shown: &str) -> Outcome {
        match text_of(session.rt.alloc(), item) {
            Ok(path) => Outcome::of(self.each.of(session, Some(path.as_str()))),
            Err(_) => Outcome::of(Err(session.unbegun("?"))),
        }
    }
}

/// Does it with each of these files, in order, and returns the status of all. One that is refused has its line on standard
/// error, and the others go on; where the output fails the rest is skipped.
pub fn of_all<T: OfEach>(session: &Session<'_>, each: &T, paths: &[Option<&str>]) -> u8 {
    let mut status = DONE;
    for path in paths {
        let ended = Outcome::of(each.of(session, *path));
        status = worse(status, ended.status);
        if ended.is_last {
            break;
        }
    }
    status
}

/// Does it with each file whose name is in a list, where a zero byte ends each, and returns the status of all; or that of a
/// list that can't be opened.
pub fn of_listed<T: OfEach>(session: &Session<'_>, each: &T, list: Option<&str>) -> Result<u8, u8> {
    of_items(session, &OfName { each }, list, 0)
}

/// Does it with each item of a list, where this byte ends each, and returns the status of all; or that of a list that can't be
/// opened.
pub fn of_items<T: OfItem>(
    session: &Session<'_>,
    each: &T,
    list: Option<&str>,
    end: u8,
) -> Result<u8, u8> {
    let printed = session.printed(name_of(list))?;
    let shown = printed.as_str();
    let rt = session.rt;
    match Input::open(rt, list).and_then(|opened| Names::ended_by(rt.alloc(), opened, end)) {
        Ok(mut items) => Ok(of_each_item(session, each, &mut items, shown)),
        Err(error) => Err(session.voice().unopened(shown, &error)),
    }
}

/// Does it with each item. Where the list can't be read further, that is said under its name.
fn of_each_item<T: OfItem>(session: &Session<'_>, each: &T, items: &mut Names, shown: &str) -> u8 {
    let mut status = DONE;
    for number in 1..u64::MAX {
        let at = items.taken();
        let ended = match items.next() {
            Ok(Some(item)) => each.of_item(session, item, number, shown),
            Ok(None) => break,
            Err(_) => unreadable(session, shown, at),
        };
        status = worse(status, ended.status);
        if ended.is_last {
            break;
        }
    }
    status
}

/// Says that a list, of which this many bytes were read, can't be read further.
fn unreadable(session: &Session<'_>, shown: &str, at: u64) -> Outcome {
    let why = Why::Read;
    Outcome {
        status: session.voice().refused(shown, Refusal { at, why }),
        is_last: true,
    }
}
