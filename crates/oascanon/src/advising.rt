//! What was asked of a file, for the advice below its refusal.

use crate::plan::OneFile;
use oas_explain::{Asked, CANONICAL, Onward, Work};

impl<'a> OneFile<'a> {
    /// What was asked of this file.
    pub fn asked(self) -> Asked<'a> {
        let onward = match self.work {
            Work::Canon => match self.output {
                Some(output) => Onward::Written(output),
                None => Onward::Shown,
            },
            Work::Key | Work::NamedKey(_) => Onward::Piped("oascanon key"),
            Work::Show => Onward::Piped("oascanon show"),
            Work::CellKeys => Onward::Piped("oascanon keys"),
            Work::Info(_) => Onward::Piped("oascanon info"),
            _ => Onward::Written(CANONICAL),
        };
        let path = self.input;
        Asked { path, onward }
    }
}
