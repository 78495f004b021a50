//! The formats of a layout's facts.

ghost use Rattle.std.specs.Prelude.{◌≡◌, IfOk};
ghost use Rattle.oas_info.specs.Form.{form_text};

use crate::info::Info;
use crate::json::json_of;
use crate::text::text_of;
use std::alloc::{AllocError, Global};

/// The format of a layout's facts.
#[derive(Clone, Copy, Debug, PartialEq, Eq)]
pub enum Form {
    /// A fact a line.
    Text,
    /// A JSON object.
    Json,
}

/// The facts of a layout, in this format, without the last line's end.
pub fn text_in(alloc: Global, form: Form, info: &Info) -> Result<Vec<u8>, AllocError>
    ensures { IfOk result (λ text. text.items ≡ form_text form info.now) }
{
    match form {
        Form::Text => text_of(alloc, info),
        Form::Json => json_of(alloc, info),
    }
}
