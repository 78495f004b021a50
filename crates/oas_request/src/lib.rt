//! What the words of a command line request.
//!
//! No contract says which words `clap` understands, and what [`parse`] returns for them; program_tests tests it. What a task
//! comes to is oascanon's plan (`IsPlanOf`), for which [`Asked::options`] returns what is asked of `diff` as the options of its
//! run (`AreOptions`, specs/Options.antt). The commands are in src/usage.rt, and their arguments in src/arguments.rt. Calls of
//! `clap` take long to prove, so this crate has neither tests nor wrong bodies, for which the gate would prove it again.
//!
//! # How it is built
//!
//! No contract says what words request, which is tested (`words.rt` and `options.rt` in `src/requests` of program_tests).
//! `usage.rt` has a table of the commands and their help, and makes them for `clap`. `arguments.rt` has their arguments, by
//! kinds, and makes each by itself, since a call of `clap` is expensive to prove with others at hand. `commands.rt` has what
//! words request, `questions.rt` what can be asked about many files, and `differences.rt` what `diff` is asked. A `Request`
//! borrows its names from the words, so nothing is copied. The crate has neither tests nor wrong bodies, so that the gate
//! proves it once; its other parts with contracts are in oas_command (`limits_of`) and oas_files (`file_of_word`).
#![tactic(auto)]

mod arguments;
mod commands;
mod differences;
mod questions;
mod usage;

// The crates below, for those above.
pub use commands::{Request, Task, parse, request_of};
pub use differences::{Asked, Markers};
pub use oas_diff_options::{ChosenLayer, Detail, Format, Measure, PLAIN, Syntax};
pub use oas_files::{
    Existing, Input, Names, NewFile, Place, Printed, Replacement, file_of_word, text_of, unescaped,
};
pub use questions::{Ending, Inputs, Question};
