//! What a task comes to: which run, on which files, and to which output.

ghost use Rattle.std.specs.Prelude.{◌≡◌};
ghost use Rattle.oascanon.specs.Plan.{existing_of, form_of, unnamed, named, reading, writing, comparing, writes_file, is_binary, IsAskedOf, IsComparedBy, IsPlanOf};

use crate::keeping::Kept;
use oas_explain::{Existing, Form, Label, Options, PairWork, Work};
use oas_request::{Asked, Inputs, Markers, Question, Task};

/// What a command line comes to.
#[derive(Clone, Copy)]
pub enum Plan<'a> {
    OneFile(OneFile<'a>),
    TwoFiles(TwoFiles<'a>),
    Marking(Marking<'a>),
    /// A question about each of these files, whose line has the file's name.
    Each(Question, &'a [Option<&'a str>]),
    /// Such a question about each file that a list names.
    EachListed(Question, Option<&'a str>),
    CheckKeys(Kept<'a>),
    /// Printing what the reason with this number or name means, or what all mean.
    Explain(Option<&'a str>),
}

/// A run on one file. Without a name the input is standard input, and the output standard output.
#[derive(Clone, Copy)]
pub struct OneFile<'a> {
    pub work: Work<'a>,
    pub input: Option<&'a str>,
    pub output: Option<&'a str>,
    /// What happens to a file under the output's name.
    pub existing: Existing,
}

/// A run on two files, of which the one without a name is standard input.
#[derive(Clone, Copy)]
pub struct TwoFiles<'a> {
    pub work: PairWork<'a>,
    pub first: Option<&'a str>,
    pub second: Option<&'a str>,
}

/// The run of `diff` on two files, with its markers to a third.
#[derive(Clone, Copy)]
pub struct Marking<'a> {
    pub options: Options<'a>,
    pub first: Option<&'a str>,
    pub second: Option<&'a str>,
    pub markers: Markers<'a>,
}

impl<'a> OneFile<'a> {
    /// A question about one of many files, whose line has this label.
    pub fn named(question: Question, label: Label<'a>, input: Option<&'a str>) -> OneFile<'a>
        ensures { result ≡ reading (named question label.entry) input.entry }
    {
        OneFile {
            work: named(question, label),
            input,
            output: None,
            existing: Existing::Replaced,
        }
    }

    /// Whether its output is a file, and not an answer.
    fn writes_file(self) -> bool
        ensures { result ≡ writes_file self.entry.work }
    {
        matches!(self.work, Work::Canon | Work::Rekey)
    }
}

impl<'a> Plan<'a> {
    /// A run on one file with this output, where this happens to a file under its name.
    fn writing(
        work: Work<'a>,
        input: Option<&'a str>,
        output: Option<&'a str>,
        existing: Existing,
    ) -> Plan<'a>
        ensures { result ≡ Plan.OneFile (writing work.entry input.entry output.entry existing) }
    {
        Plan::OneFile(OneFile {
            work,
            input,
            output,
            existing,
        })
    }

    /// A run on one file, whose output is standard output.
    fn reading(work: Work<'a>, input: Option<&'a str>) -> Plan<'a>
        ensures { result ≡ Plan.OneFile (reading work.entry input.entry) }
    {
        Plan::writing(work, input, None, Existing::Replaced)
    }

    /// A run on the first and the second of two files.
    fn comparing(work: PairWork<'a>, first: Option<&'a str>, second: Option<&'a str>) -> Plan<'a>
        ensures { result ≡ Plan.TwoFiles (comparing work.entry first.entry second.entry) }
    {
        Plan::TwoFiles(TwoFiles {
            work,
            first,
            second,
        })
    }

    /// Whether its output is a file on standard output.
    pub fn is_binary(&self) -> bool
        ensures { result ≡ is_binary self.now }
    {
        match self {
            Plan::OneFile(one) => one.output.is_none() && one.writes_file(),
            _ => false,
        }
    }
}

/// What a task comes to.
pub fn plan_of<'a>(task: &'a Task<'_>) -> Plan<'a>
    ensures { IsPlanOf task.now result }
{
    match task {
        Task::Canon {
            input,
            output,
            keeps_old,
        } => Plan::writing(Work::Canon, *input, *output, existing_of(*keeps_old)),
        Task::Ask { question, inputs } => asked_of(*question, inputs),
        Task::CheckKeys {
            list,
            ending,
            is_quiet,
        } => Plan::CheckKeys(Kept {
            list: *list,
            ending: *ending,
            is_quiet: *is_quiet,
        }),
        Task::Same { first, second } => Plan::comparing(PairWork::Same, *first, *second),
        Task::Diff {
            first,
            second,
            asked,
            markers,
        } => compared_by(*first, *second, asked, *markers),
        Task::Show { input } => Plan::reading(Work::Show, *input),
        Task::Keys { input } => Plan::reading(Work::CellKeys, *input),
        Task::Info { input, is_json } => Plan::reading(Work::Info(form_of(*is_json)), *input),
        Task::Rekey { old, new } => Plan::writing(Work::Rekey, *old, *new, Existing::Replaced),
        Task::Explain { number } => Plan::Explain(*number),
    }
}

/// The plan for a question about these inputs.
fn asked_of<'a>(question: Question, inputs: &'a Inputs<'_>) -> Plan<'a>
    ensures { IsAskedOf question inputs.now result }
{
    match inputs {
        Inputs::One(input) => Plan::reading(unnamed(question), *input),
        Inputs::Named(paths) => Plan::Each(question, paths.as_slice()),
        Inputs::Listed(list) => Plan::EachListed(question, *list),
    }
}

/// The plan for `diff`, with markers where they are requested.
fn compared_by<'a>(
    first: Option<&'a str>,
    second: Option<&'a str>,
    asked: &'a Asked<'_>,
    markers: Option<Markers<'a>>,
) -> Plan<'a>
    ensures { IsComparedBy first.entry second.entry asked.now markers.entry result }
{
    let options = asked.options();
    match markers {
        Some(markers) => Plan::Marking(Marking {
            options,
            first,
            second,
            markers,
        }),
        None => Plan::comparing(PairWork::Diff(options), first, second),
    }
}

/// What happens to a file under the output's name, with `--no-clobber` and without it.
fn existing_of(keeps_old: bool) -> Existing
    ensures { result ≡ existing_of keeps_old }
{
    if keeps_old {
        Existing::Kept
    } else {
        Existing::Replaced
    }
}

/// The format of `info`, with `--json` and without it.
fn form_of(is_json: bool) -> Form
    ensures { result ≡ form_of is_json }
{
    if is_json { Form::Json } else { Form::Text }
}

/// The work of a question whose line has no name.
fn unnamed(question: Question) -> Work<'static>
    ensures { result ≡ unnamed question }
{
    match question {
        Question::Check => Work::Check,
        Question::Key(_) => Work::Key,
    }
}

/// The work of a question whose line has the file's name.
fn named(question: Question, label: Label<'_>) -> Work<'_>
    ensures { result ≡ named question label.entry }
{
    match question {
        Question::Check => Work::NamedCheck(label),
        Question::Key(_) => Work::NamedKey(label),
    }
}
