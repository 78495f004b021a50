//! The laws of files and of canonical forms. Each is the contract of a function that does nothing. They follow from the
//! definitions alone, and with the contracts of this crate they make the sentence at [`canonicalize`](crate::canonicalize).

pub use oas_judge::file_laws::{one_meaning, one_place, one_reading};
pub use oas_judge::form_laws::{
    boxes_alone_differ, canonical_again, canonical_bytes, canonical_weight, equal_in_order,
    form_is_accepted, form_is_bytes, form_is_its_bytes, form_length, form_within,
    has_canonical_form, larger_limits, one_canonical_form, rekeying, same_exactly, same_sizes,
};
