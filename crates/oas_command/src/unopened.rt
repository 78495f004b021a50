//! How an input is named, and the message for one that can't be opened.
ghost use Rattle.std.specs.Prelude.{◌≡◌};
ghost use Rattle.oas_num.specs.Writing.{Writes};
ghost use Rattle.oas_command.specs.Unopened.{input_name, unopened_line};
ghost use Rattle.oas_command.specs.Runs.{Tells, Says};

use oas_num::{Device, Outlet, Sink, SinkFault};

/// The status of a run that could not open its input.
const UNOPENED: u8 = 1;

/// The name of standard input in messages.
const STANDARD_INPUT: &str = "standard input";

/// How messages name an input.
pub fn name_of<'a>(path: Option<&'a str>) -> &'a str
    ensures { result.now ≡ input_name path.entry }
{
    path.unwrap_or(STANDARD_INPUT)
}

/// Ends a run whose input can't be opened: says so on `err`, and returns its status.
pub fn run_unopened<E: Device>(name: &str, err: &mut E) -> u8
    ensures status { result ≡ 1 }
    ensures tells { Says (E.calls err.old) (unopened_line name.now) (E.calls err.new) }
{
    let mut told = Outlet::new(err);
    let status = unopened(name, &mut told);
    let _ = told.close();
    status
}

/// Like `run_unopened`, with a sink for the line.
fn unopened<K: Sink>(name: &str, told: &mut K) -> u8
    ensures status { result ≡ 1 }
    ensures tells { Tells K.given K.failures told.old (unopened_line name.now) told.new }
{
    let _ = put_unopened(told, name);
    UNOPENED
}

/// Puts the line of an input that can't be opened.
fn put_unopened<K: Sink>(told: &mut K, name: &str) -> Result<(), SinkFault>
    ensures { Writes K.given K.failures told.old (unopened_line name.now) result told.new }
{
    told.put_all(name.as_bytes())?;
    told.put_all(b": cannot be opened\n")
}
