//! Files by name, as on a command line: which file a word means; files that are opened, created, replaced; names that are
//! listed and printed; and the progress of long work over them.
//!
//! What this crate promises to the program:
//!
//! - [`file_of_word`] treats the word `-` as no file's name, and each other word as the file with that name.
//! - [`Input`] opens a file by its name, or standard input without one (`is_named`, specs/Opening.antt), and reads what that
//!   reads: it is an [`Opened`], over any two readers.
//! - [`NewFile`] creates nothing as long as no byte is written to it (`is_created`, specs/Creating.antt), and an [`Output`] is
//!   one of these, or standard output (`IsOutput`). The contents of each are the bytes that `write` of the system's file, or of
//!   standard output, took of what it was handed (specs/Taking.antt): no byte is dropped on the way there.
//! - [`Replacement`] is in its place once it is flushed, and not before (`Stage`).
//! - [`text_of`] returns the text of a name that is UTF-8, which is that name.
//! - [`progress::Reading`] reads what is below it, and [`progress::Writing`] writes what is below it, whatever happens to the
//!   line that each shows (`remaining` and `contents` are those of what is below). Without a meter they show nothing. What a
//!   [`progress::Meter`] shows is tested.
//!
//! [`mark_output`] marks the pipe to the next program, which asks [`is_input_marked`].
//!
//! What a file holds no contract can say: it is tested. [`arguments`] has the words of the process, [`Names`] reads the names
//! of a list, and [`Printed`] has each name in one line; [`is_same_file`] and [`is_taken`] ask the system. Below it stands
//! oas_bytes alone, for the history of a writer.
#![tactic(auto)]

mod beside;
mod creating;
mod identity;
mod listing;
mod naming;
mod opening;
mod owning;
mod pipes;
mod placing;
mod printing;
mod process;
pub mod progress;
mod replacing;
mod words;

pub use creating::{NewFile, Output};
pub use identity::{is_same_file, is_taken};
pub use listing::Names;
pub use naming::text_of;
pub use opening::{Input, Opened};
pub use pipes::{is_input_marked, mark_output};
pub use placing::Place;
pub use printing::{Printed, unescaped};
pub use process::arguments;
pub use replacing::{Existing, Replacement, Stage};
pub use words::file_of_word;
