//! The run of each command: what it reads, what it writes, and the exit status of the process.

mod canon;
mod check;
mod diff;
mod ends;
mod info;
mod kept;
mod key;
mod keys;
mod mark;
mod rekey;
mod same;
mod show;

pub(crate) use canon::canon_telling;
pub use check::write_named_check;
pub(crate) use check::{check_telling, named_check_telling};
pub(crate) use diff::diff_telling;
pub use ends::{run_refused, status_of_verdict, worse};
pub(crate) use info::info_telling;
pub use kept::kept_telling;
pub use key::write_named_key;
pub(crate) use key::{key_telling, named_key_telling};
pub(crate) use keys::keys_telling;
pub use mark::marking_telling;
pub(crate) use rekey::rekey_telling;
pub(crate) use same::same_telling;
pub use same::write_sameness;
pub(crate) use show::show_telling;
